// Document 01, "Replay records": reads records from standard input and writes what each was answered.
//
// The input comes in blocks, and a record that a block cuts is moved to the front of the next. The tables live in `main`, and each call is
// lent as much of them as its machine has frames.
#![tactic(auto)]

ghost use Rattle.std.specs.Prelude.{◌≤◌, ◌<◌, length, IfSome};
ghost use Rattle.frames.specs.Lent.{SameSlices};

mod state;

use frames::LentTables;
use playback::{Held, Progress, Stop};
use records::lines;
use state::State;
use std::io::Read;
use text::writing::Writer;

// The bytes of a block of input, and of the text that is written for it at once.
const BLOCK: usize = 65536;

// The next block: the record that was cut, if any, and what is read after it. It is shorter than a block, so there is room to read. At the end of
// the input, and where a read fails, there is nothing.
fn refill(rt: &impl Input, input: &mut [u8; BLOCK], s: State) -> State
    ensures { result.left ≤ s.left }
{
    input.copy_within(s.at..s.filled, 0);
    let kept = s.filled - s.at;
    let got = rt.reader().read(&mut input[kept..]).unwrap_or(0);
    State {
        record: s.record,
        counters: s.counters,
        left: s.left,
        filled: kept + got,
        at: 0,
        offset: s.offset + s.at as u64,
        step: s.step,
        ended: got == 0,
    }
}

// Writes the text; None where that fails.
fn write_text(rt: &impl Print, out: &Writer) -> Option<()>
    requires { out.now.length ≤ length out.now.buffer.now }
{
    rt.write_all(&out.buffer[0..out.length]).ok()
}

// Writes the text, and what follows by the reason that the records stopped: more input, the next records where the text had no more room, or
// nothing after a last line, the number of records or the offset of one that cannot be read. Where it cannot be written, nothing follows.
#[tactic(auto, using(text::proofs::Within::writer_within))]
fn after(
    rt: &(impl Input + Print),
    input: &mut [u8; BLOCK],
    out: &mut Writer,
    s: State,
    why: Stop,
) -> Option<State>
    requires { out.old.length ≤ length out.old.buffer.now }
    ensures { IfSome result (λ next. next.left ≤ s.left) }
{
    match why {
        Stop::Full => {
            write_text(rt, out)?;
            Some(s)
        }
        Stop::All | Stop::Cut if !s.ended => {
            write_text(rt, out)?;
            Some(refill(rt, input, s))
        }
        Stop::All => {
            lines::put_end(out, s.step);
            write_text(rt, out)?;
            None
        }
        Stop::Cut | Stop::Unknown => {
            lines::put_bad(out, s.offset + s.at as u64);
            write_text(rt, out)?;
            None
        }
    }
}

// One turn: answers the records of the block, writes their lines, and fetches more input where it is needed. None when the program is done.
fn turn(
    rt: &(impl Input + Print),
    input: &mut [u8; BLOCK],
    out: &mut [u8],
    tables: &mut LentTables,
    s: State,
) -> Option<State>
    ensures same { SameSlices tables.old tables.new }
    ensures turned { IfSome result (λ next. next.left < s.left) }
{
    let left = s.left.checked_sub(1)?;
    let start = Progress {
        record: s.record,
        counters: s.counters,
        at: s.at,
        text: 0,
        step: s.step,
    };
    let stopped = playback::answer_records(&input[0..s.filled], out, tables, start);
    let p = stopped.progress;
    let next = State {
        record: p.record,
        counters: p.counters,
        left,
        filled: s.filled,
        at: p.at,
        offset: s.offset,
        step: p.step,
        ended: s.ended,
    };
    let mut text = Writer {
        buffer: out,
        length: p.text,
    };
    after(rt, input, &mut text, next, stopped.why)
}

// Writes the first line.
fn write_heading(rt: &impl Print) {
    let mut buffer = [0u8; 64];
    let mut out = Writer {
        buffer: &mut buffer,
        length: 0,
    };
    lines::put_heading(&mut out);
    write_text(rt, &out);
}

fn main(rt: HostRuntime) {
    let mut input = [0u8; BLOCK];
    let mut out = [0u8; BLOCK];
    let mut held = Held::zero();
    let mut tables = LentTables {
        marks: &mut held.marks,
        words: &mut held.words,
        bitmap: &mut held.bitmap,
        owners: &mut held.owners,
    };
    write_heading(&rt);
    let mut going = Some(State::start());
    while let Some(s) = going {
        going = turn(&rt, &mut input, &mut out, &mut tables, s);
    }
}
