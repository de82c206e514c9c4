// The machine record and the answer as the numbers that a caller lends: the record's own five are read from there and written back, and those of
// its areas stay where they are. Both counters are one number, the granted in its low 32 bits: so every number there is two counters.
// A caller in C lends a plain slice, so that it is long enough is a clause of each function, after the one test in `exchange`.
ghost use Rattle.std.specs.Prelude.{◌≡◌, ◌≤◌, length, set};
ghost use Rattle.answer.specs.Answers.{number_of};
ghost use Rattle.szk.specs.Layout.{record_length, answer_length, record_from, counters_in, counters_from, own_numbers, answer_numbers, over};

use answer::{Answer, Refusal};
use frames::Frame;
use rules::{Counters, Memory, Record};

// How many numbers a record takes.
pub const RECORD: usize = AREAS_START + Record::AREA_NUMBERS;

// How many numbers an answer takes.
pub const ANSWER: usize = 3;

// Where the areas' numbers begin, after the record's own five.
pub const AREAS_START: usize = 5;

// One refused grant, in the counters' number.
const ONE_REFUSED: u64 = 4294967296;

// The memory of the record that the numbers hold.
pub fn load(numbers: &[u64]) -> Memory
    requires { record_length ≤ length numbers.now }
    ensures { result ≡ (record_from numbers.now).memory }
{
    Memory {
        base: Frame(numbers[0]),
        frames: numbers[1],
        block_order: numbers[2],
        declared: numbers[3],
    }
}

// The two counters that a number holds.
fn counters_in(both: u64) -> Counters
    ensures { result ≡ counters_in both }
{
    Counters {
        granted: (both % ONE_REFUSED) as u32,
        refused: (both / ONE_REFUSED) as u32,
    }
}

// The counters of the record.
pub fn load_counters(numbers: &[u64]) -> Counters
    requires { record_length ≤ length numbers.now }
    ensures { result ≡ counters_from numbers.now }
{
    counters_in(numbers[4])
}

// A memory and counters are written over the first numbers.
#[tactic(auto, unfolding(crate::specs::Layout::over))]
pub fn store(numbers: &mut [u64], memory: Memory, counters: Counters)
    requires { record_length ≤ length numbers.old }
    ensures { numbers.new ≡ over (own_numbers memory counters) numbers.old }
{
    let both = u64::from(counters.granted) + ONE_REFUSED * u64::from(counters.refused);
    numbers[..AREAS_START].copy_from_slice(&[
        memory.base.0,
        memory.frames,
        memory.block_order,
        memory.declared,
        both,
    ]);
}

// An answer is written over the first numbers.
#[tactic(auto, unfolding(crate::specs::Layout::over))]
pub fn store_answer(numbers: &mut [u64], a: Answer)
    requires { answer_length ≤ length numbers.old }
    ensures { numbers.new ≡ over (answer_numbers a) numbers.old }
{
    numbers[..ANSWER].copy_from_slice(&[a.refusal, a.first, a.second]);
}

// A refusal's number alone is written, for an answer that has no room for three. A list of no numbers can take nothing.
pub fn store_refusal(numbers: &mut [u64], refusal: Refusal)
    ensures { numbers.new ≡ set numbers.old 0 (number_of refusal) }
{
    if let Some(number) = numbers.first_mut() {
        *number = u64::from(refusal);
    }
}
