// Document 01, "Replay records": records answered on lent tables, one or many, with a line of text for each.
#![tactic(auto)]

ghost use Rattle.std.specs.Prelude.{◌≡◌, true, ◌+◌, ◌≤◌, length};
ghost use Rattle.frames.specs.Lent.{tables_in, SameSlices};
ghost use Rattle.frames.specs.Units.{most_number};
ghost use Rattle.playback.specs.Playback.{has_room_for, playing, answer_one, stop_of, played, answer_records};
ghost use Rattle.playback.specs.Steps.Going.{progress_with, next_at};

mod calls;
mod held;

use answer::Answer;
use calls::answer;
use frames::LentTables;
pub use held::Held;
use machine::Machine;
use records::Undecoded;
use rules::{Call, Counters, Record};
use text::writing::Writer;

// The room that a step's line is given: it is enough for the longest, which has 84 bytes, and for the last line of an output after it,
// which has at most 25.
const ROOM: usize = 128;

// The last step that can be counted.
const LAST_STEP: u64 = u64::MAX;

// How far the records are answered: the machine's record with its counters, the place of the next replay record among the bytes, the length of the
// text so far, and the number of replay records.
#[derive(Clone, Copy)]
pub struct Progress {
    pub record: Record,
    pub counters: Counters,
    pub at: usize,
    pub text: usize,
    pub step: u64,
}

// The same but for the numbers of the areas and the text, which stay in one place from call to call: what each call hands on.
#[derive(Clone, Copy)]
struct Going {
    machine: Machine,
    at: usize,
    step: u64,
}

// Why no more records were answered.
#[derive(Clone, Copy, Debug, PartialEq, Eq)]
pub enum Stop {
    // Every byte is read.
    All,
    // The bytes end before a record does.
    Cut,
    // A byte is no kind.
    Unknown,
    // The output may have no room for another line, or the steps have no number for it.
    Full,
}

// How far the records were answered, and why no more were.
#[derive(Clone, Copy)]
pub struct Stopped {
    pub progress: Progress,
    pub why: Stop,
}

impl From<Undecoded> for Stop {
    ghost from_gives = { λ why stop. stop ≡ stop_of why };

    fn from(why: Undecoded) -> Stop {
        match why {
            Undecoded::Unknown => Stop::Unknown,
            Undecoded::Cut => Stop::Cut,
        }
    }
}

// Another line can be written after the text, in an output of `size` bytes, and its step counted.
#[tactic(auto, unfolding(crate::specs::Playback::has_room_for))]
fn has_room(size: usize, text: usize, step: u64) -> bool
    ensures { result ≡ has_room_for size text step }
{
    text::writing::has_room(size, text, ROOM) && step < LAST_STEP
}

// The next record and its length, or why no more are answered.
fn next_record(bytes: &[u8], out: &Writer, p: Going) -> Result<(Call, usize), Stop>
    ensures { result ≡ next_at bytes.now p.at (length out.now.buffer.now) out.now.length p.step }
{
    if p.at >= bytes.len() {
        return Err(Stop::All);
    }
    if !has_room(out.buffer.len(), out.length, p.step) {
        return Err(Stop::Full);
    }
    Ok(records::decode(bytes, p.at)?)
}

// One record of `size` bytes: its call is made, its line written, and its step counted.
fn answer_one(
    out: &mut Writer,
    areas: &mut [u64; Record::AREA_NUMBERS],
    tables: &mut LentTables,
    p: Going,
    call: Call,
    size: usize,
) -> Going
    requires { (has_room_for (length out.old.buffer.now) out.old.length p.step ≡ true) × (p.at + size ≤ most_number) }
    ensures same { SameSlices tables.old tables.new × (out.new.buffer.ghost_name ≡ out.old.buffer.ghost_name) }
    ensures answered { playing (progress_with result areas.new out.new.length) out.new.buffer.now (tables_in tables.new) ≡ answer_one (playing (progress_with p areas.old out.old.length) out.old.buffer.now (tables_in tables.old)) call size }
{
    let returned = answer(areas, tables, p.machine, call);
    let told = Answer::from(returned.answer);
    out.put_four(p.step, told.refusal, told.first, told.second);
    Going {
        machine: returned.machine,
        at: p.at + size,
        step: p.step + 1,
    }
}

// The records from a place on, as long as there are any and the output has room.
pub fn answer_records(
    bytes: &[u8],
    out: &mut [u8],
    tables: &mut LentTables,
    start: Progress,
) -> Stopped
    ensures same { SameSlices tables.old tables.new }
    ensures answered { played result out.new (tables_in tables.new) ≡ answer_records bytes.now (playing start out.old (tables_in tables.old)) }
{
    let mut out = Writer {
        buffer: out,
        length: start.text,
    };
    let mut areas = start.record.areas;
    let mut p = Going {
        machine: Machine {
            memory: start.record.memory,
            counters: start.counters,
        },
        at: start.at,
        step: start.step,
    };
    let why = loop {
        match next_record(bytes, &out, p) {
            Ok((call, size)) => p = answer_one(&mut out, &mut areas, tables, p, call, size),
            Err(why) => break why,
        }
    };
    Stopped {
        progress: Progress {
            record: Record {
                memory: p.machine.memory,
                areas,
            },
            counters: p.machine.counters,
            at: p.at,
            text: out.length,
            step: p.step,
        },
        why,
    }
}
