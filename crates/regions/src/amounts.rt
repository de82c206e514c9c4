// Amounts of a region: numbers that are judged where they stand.
ghost use Rattle.std.specs.Prelude.{◌≡◌};
ghost use Rattle.text.specs.Reading.{scanned};
ghost use Rattle.regions.specs.Amounts.{amount};
ghost use Rattle.regions.specs.Steps.Parts.{wrong_for, judged};

use answer::{Refusal, Refused};
use text::Scanned;
use text::numbers::{MOST_BYTES, number};

// What a number is for: what it may not be goes by this. A closure in its place is no plainer: each contract
// here would have to say what the closure computes.
#[derive(Clone, Copy, Debug, PartialEq, Eq)]
pub enum Purpose {
    Size,
    Start,
    Alignment,
}

fn is_wrong(purpose: Purpose, v: u64) -> bool
    ensures { result ≡ wrong_for purpose v }
{
    match purpose {
        Purpose::Size => v == 0,
        Purpose::Start => false,
        Purpose::Alignment => !crate::is_alignment(v),
    }
}

// A number that was read is judged where it stands.
fn judged(purpose: Purpose, v: u64, at: usize, next: usize) -> Scanned<u64>
    ensures { scanned result ≡ judged (wrong_for purpose) at v next }
{
    if MOST_BYTES < v || is_wrong(purpose, v) {
        return Err(Refused {
            refusal: Refusal::BadAmount,
            place: at,
        });
    }
    Ok((v, next))
}

#[tactic(auto, using(crate::proofs::Judging::amount_refused, crate::proofs::Judging::amount_given))]
pub fn amount(text: &[u8], at: usize, purpose: Purpose) -> Scanned<u64>
    ensures { scanned result ≡ amount (wrong_for purpose) text.now at }
{
    let (v, next) = number(text, at)?;
    judged(purpose, v, at, next)
}
