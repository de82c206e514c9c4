// The call of a record, made on the tables that a replay holds.
ghost use Rattle.std.specs.Prelude.{◌≡◌, []};
ghost use Rattle.answer.specs.Answers.{answer_at};
ghost use Rattle.frames.specs.Tables.{tables};
ghost use Rattle.rules.specs.Calls.{perform};
ghost use Rattle.rules.specs.Counters.{counted};
ghost use Rattle.rules.specs.Does.{record_with};
ghost use Rattle.rules.specs.Outcomes.{outcome};
ghost use Rattle.machine.specs.Does.{Makes};
ghost use Rattle.playback.specs.Playback.{frames_for, answer_to};

use answer::{Refusal, Refused};
use frames::LentTables;
use machine::{Machine, Returned};
use rules::{Call, Record};

// How many frames the tables are lent for: a boot's own, and for any other call those of the machine.
#[tactic(auto, unfolding(crate::specs::Playback::frames_for), using(crate::proofs::Lending::not_boot))]
fn frames_for(machine: Machine, call: Call) -> u64
    ensures { result ≡ frames_for machine.memory call }
{
    match call {
        Call::Boot { frames, .. } => frames,
        _ => machine.memory.frames,
    }
}

// A call on tables that are lent one by one: the borrow checker does not follow parts of a struct's slices into another struct, nor where each slice is
// first taken into a variable.
fn perform_on(
    areas: &mut [u64; Record::AREA_NUMBERS],
    marks: &mut [u32],
    words: &mut [u64],
    bitmap: &mut [u64],
    owners: &mut [u32],
    machine: Machine,
    call: Call,
) -> Returned
    ensures performed { outcome (record_with result.machine.memory areas.new) (answer_at result.answer) (tables marks.new words.new bitmap.new owners.new) ≡ perform call [] (record_with machine.memory areas.old) (tables marks.old words.old bitmap.old owners.old) }
    ensures counted { result.machine.counters ≡ counted call (answer_at result.answer).refusal machine.counters }
{
    let mut lent = LentTables {
        marks,
        words,
        bitmap,
        owners,
    };
    machine.perform(areas, &mut lent, call, b"", &mut [])
}

// A call, lent an entry of marks, words and owners for each frame. A boot that asks for more frames than the tables hold is refused; a machine
// never has more, since no such boot was accepted.
pub(crate) fn answer(
    areas: &mut [u64; Record::AREA_NUMBERS],
    tables: &mut LentTables,
    machine: Machine,
    call: Call,
) -> Returned
    ensures { Makes call (answer_to call) machine areas.old areas.new result tables.old tables.new }
{
    let frames = frames_for(machine, call);
    if (tables.marks.len() as u64) < frames
        || (tables.words.len() as u64) < frames
        || (tables.owners.len() as u64) < frames
    {
        return Returned {
            machine,
            answer: Err(Refused::from(Refusal::WrongShape)),
        };
    }
    let n = frames as usize;
    perform_on(
        areas,
        &mut tables.marks[0..n],
        &mut tables.words[0..n],
        tables.bitmap,
        &mut tables.owners[0..n],
        machine,
        call,
    )
}
