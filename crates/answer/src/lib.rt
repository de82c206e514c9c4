// What every call answers: document 01's section "Numbers the clerk sees". A call gives two numbers or is refused; what the clerk sees of either
// is three numbers.
#![tactic(auto)]

ghost use Rattle.std.specs.Prelude.{◌≡◌};
ghost use Rattle.answer.specs.Answers.{number_of, answer_at};

mod refusal;

pub use refusal::Refusal;

// The two numbers that a call answers when it is done.
#[derive(Clone, Copy, Debug, PartialEq, Eq)]
pub struct Numbers {
    pub first: u64,
    pub second: u64,
}

impl Numbers {
    // What a call answers that has nothing to tell.
    pub const NONE: Numbers = Numbers {
        first: 0,
        second: 0,
    };
}

// A refusal at a place: an offset in a text, or the index of a region; 0 where it has none.
#[derive(Clone, Copy, Debug, PartialEq, Eq)]
pub struct Refused {
    pub refusal: Refusal,
    pub place: usize,
}

impl From<Refusal> for Refused {
    ghost from_gives = { λ refusal refused. refused ≡ record { refusal = refusal; place = 0 } };

    fn from(refusal: Refusal) -> Refused {
        Refused { refusal, place: 0 }
    }
}

// What the clerk sees: the refusal's number, or 0 where the call is done, and two numbers more. The definitions of the rules are over these numbers,
// and a caller in C gets them.
#[derive(Clone, Copy, Debug, PartialEq, Eq)]
pub struct Answer {
    pub refusal: u64,
    pub first: u64,
    pub second: u64,
}

impl From<Result<Numbers, Refused>> for Answer {
    ghost from_gives = { λ given answer. answer ≡ answer_at given };

    fn from(given: Result<Numbers, Refused>) -> Answer {
        match given {
            Ok(numbers) => Answer {
                refusal: 0,
                first: numbers.first,
                second: numbers.second,
            },
            Err(refused) => Answer {
                refusal: u64::from(refused.refusal),
                first: refused.place as u64,
                second: 0,
            },
        }
    }
}
