// Plays the cases of `data/` and compares what each gives with what is expected.
//
// A case NAME has its records in NAME.rec and the whole output, heading and last line included, in NAME.out. The names stand one a line in
// cases.txt. Those in cuts.txt are played at every length, from no byte to all of them, and their outputs stand one after the other. Those
// in texts.txt have regions texts in NAME.txt, one a line.
#![tactic(auto)]

ghost use Rattle.std.specs.Prelude.{◌≡◌, ◌+◌, ◌-◌, ◌≤◌, ◌<◌, length, IfSome};
ghost use Rattle.frames.specs.Lent.{SameSlices};
ghost use Rattle.cases.specs.Steps.Tallies.{most_file, Counted};
ghost use Rattle.cases.specs.Steps.Texts.{Ends, Writes};

mod texts;

use frames::LentTables;
use playback::{Held, Progress, Stop};
use records::lines;
use rules::{Counters, Record};
use std::fs::File;
use std::io::Read;
use std::rt::Files;
use std::str::from_utf8;
use text::writing::Writer;

// A file that fills a buffer of so many bytes is not read to its end.
const MOST_FILE: usize = 65536;

// How a case is played: its records whole, or at every length; or its regions texts, one by one. A closure for each in its place would have to
// promise what it writes in the contract of every function that hands it on.
#[derive(Clone, Copy)]
enum Way {
    Whole,
    EveryLength,
    Texts,
}

// How many cases were played, and how many of them gave something else than expected.
#[derive(Clone, Copy, Default)]
struct Tally {
    cases: u64,
    failed: u64,
}

// Reads until the buffer is full or there is nothing more: a read gives any part of what is asked. Where one fails there is nothing. It reads
// into a buffer, since there is no heap for what would read to the end.
fn read_full(file: &mut impl Read, buffer: &mut [u8]) -> usize
    ensures { result ≤ length buffer.old }
{
    let mut done = 0;
    while done < buffer.len() {
        let got = file.read(&mut buffer[done..]).unwrap_or(0);
        if got == 0 {
            break;
        }
        done += got;
    }
    done
}

// Reads a file to its end, and answers how long it is. None for one that cannot be opened, as one whose path is no text, or that fills the
// buffer: nothing is played in part. It is the size alone, since the caller keeps the buffer.
fn load(rt: &impl Files, path: &[u8], buffer: &mut [u8]) -> Option<usize>
    ensures { IfSome result (λ size. size < length buffer.old) }
{
    let path = from_utf8(path).ok()?;
    let mut file = File::open(rt, path).ok()?;
    let size = read_full(&mut file, buffer);
    (size < buffer.len()).then_some(size)
}

// Reads the file of a case: its name with an ending.
fn load_part(rt: &impl Files, name: &[u8], ending: &[u8], buffer: &mut [u8]) -> Option<usize>
    ensures { IfSome result (λ size. size < length buffer.old) }
{
    let mut path = [0u8; 64];
    let mut out = Writer {
        buffer: &mut path,
        length: 0,
    };
    out.put_bytes(name);
    out.put_bytes(ending);
    let length = out.length;
    load(rt, &out.buffer[0..length], buffer)
}

// Reads what a case is given: texts, or records.
fn load_given(rt: &impl Files, name: &[u8], way: Way, buffer: &mut [u8]) -> Option<usize>
    ensures { IfSome result (λ size. size < length buffer.old) }
{
    match way {
        Way::Texts => load_part(rt, name, b".txt", buffer),
        Way::Whole | Way::EveryLength => load_part(rt, name, b".rec", buffer),
    }
}

// The last line, by the reason that the records stopped. An output that is full has none.
#[tactic(auto, using(text::proofs::Within::writer_within))]
fn put_last(out: &mut Writer, p: Progress, why: Stop)
    requires { Ends out.old }
    ensures { Writes out.old out.new }
{
    match why {
        Stop::All => lines::put_end(out, p.step),
        Stop::Cut | Stop::Unknown => lines::put_bad(out, p.at as u64),
        Stop::Full => {}
    }
}

// Plays records and appends the whole output.
fn play(bytes: &[u8], out: &mut Writer, tables: &mut LentTables)
    requires { Ends out.old }
    ensures { Writes out.old out.new × SameSlices tables.old tables.new }
{
    lines::put_heading(out);
    let start = Progress {
        record: Record::fresh(),
        counters: Counters::zero(),
        at: 0,
        text: out.length,
        step: 0,
    };
    let stopped = playback::answer_records(bytes, out.buffer, tables, start);
    out.length = stopped.progress.text;
    put_last(out, stopped.progress, stopped.why);
}

// Plays the first `from` bytes, then one more, up to all of them. The tables are not cleared in between: a boot zeroes what it is lent, so nothing
// of an earlier turn may show.
fn play_from(bytes: &[u8], out: &mut Writer, from: usize)
    requires { Ends out.old }
    ensures { Writes out.old out.new }
{
    let mut held = Held::zero();
    let mut tables = LentTables {
        marks: &mut held.marks,
        words: &mut held.words,
        bitmap: &mut held.bitmap,
        owners: &mut held.owners,
    };
    for n in from..bytes.len() {
        play(&bytes[0..n], out, &mut tables);
    }
    play(bytes, out, &mut tables);
}

// Writes what a case gives.
fn play_case(bytes: &[u8], way: Way, out: &mut Writer)
    requires { Ends out.old }
    ensures { Writes out.old out.new }
{
    match way {
        Way::Whole => play_from(bytes, out, bytes.len()),
        Way::EveryLength => play_from(bytes, out, 0),
        Way::Texts => texts::answer_texts(bytes, out),
    }
}

// The first place where two texts differ; where one ends first, that is its end.
fn first_difference(a: &[u8], b: &[u8]) -> usize {
    a.iter()
        .zip(b)
        .position(|(x, y)| x != y)
        .unwrap_or(a.len().min(b.len()))
}

// Writes bytes. Where that fails the output is not whole, and there is nothing else to do.
fn tell(rt: &impl Print, bytes: &[u8]) {
    let _ = rt.write_all(bytes);
}

// Writes what a case gave, and answers whether it is what was expected.
fn judge(rt: &impl Print, name: &[u8], got: &[u8], expected: &[u8]) -> bool {
    if got == expected {
        tell(rt, b"ok ");
        tell(rt, name);
        tell(rt, b"\n");
        return true;
    }
    tell(rt, b"FAILED ");
    tell(rt, name);
    let _ = println!(rt; " at byte {}", first_difference(got, expected));
    false
}

// A file that is missing or too long.
fn unreadable(rt: &impl Print, name: &[u8]) -> bool {
    tell(rt, b"FAILED ");
    tell(rt, name);
    tell(rt, b" has a file that cannot be read whole\n");
    false
}

// One case.
fn run_case(rt: &(impl Files + Print), name: &[u8], way: Way) -> bool {
    let mut bytes = [0u8; MOST_FILE];
    let mut expected = [0u8; MOST_FILE];
    let mut buffer = [0u8; MOST_FILE];
    let Some(size) = load_given(rt, name, way, &mut bytes) else {
        return unreadable(rt, name);
    };
    let Some(expected_size) = load_part(rt, name, b".out", &mut expected) else {
        return unreadable(rt, name);
    };
    let mut out = Writer {
        buffer: &mut buffer,
        length: 0,
    };
    play_case(&bytes[0..size], way, &mut out);
    let length = out.length;
    judge(
        rt,
        name,
        &out.buffer[0..length],
        &expected[0..expected_size],
    )
}

// The first line of a list, and the lines after it; None where no byte is left. The library's `split` gives one line more, which the end of the last
// begins.
fn next_line(list: &[u8]) -> Option<(&[u8], &[u8])>
    ensures { IfSome result (λ lines. length lines.1.now < length list.now) }
{
    if list.is_empty() {
        return None;
    }
    match list.iter().position(|b| *b == b'\n') {
        Some(end) => Some((&list[..end], &list[end + 1..])),
        None => Some((list, &[])),
    }
}

// One case more, and whether it passed, which is what is counted.
fn counted(t: Tally, passed: bool) -> Tally
    requires { Counted (most_file - 1) t }
    ensures { (result.cases ≡ t.cases + 1) × (result.failed ≤ t.failed + 1) }
{
    Tally {
        cases: t.cases + 1,
        failed: t.failed + u64::from(!passed),
    }
}

// The cases that a list names.
fn run_names(rt: &(impl Files + Print), list: &[u8], way: Way) -> Tally
    requires { length list.now ≤ most_file }
    ensures { Counted most_file result }
{
    let mut t = Tally::default();
    let mut rest = list;
    while let Some((name, after)) = next_line(rest) {
        t = counted(t, run_case(rt, name, way));
        rest = after;
    }
    t
}

// The cases of the list in a file. A list that cannot be read counts as a case that failed.
fn run_list(rt: &(impl Files + Print), path: &[u8], way: Way) -> Tally
    ensures { Counted most_file result }
{
    let mut list = [0u8; MOST_FILE];
    let Some(size) = load(rt, path, &mut list) else {
        unreadable(rt, path);
        return Tally {
            cases: 1,
            failed: 1,
        };
    };
    run_names(rt, &list[0..size], way)
}

fn main(rt: HostRuntime) {
    let a = run_list(&rt, b"cases.txt", Way::Whole);
    let b = run_list(&rt, b"cuts.txt", Way::EveryLength);
    let c = run_list(&rt, b"texts.txt", Way::Texts);
    let cases = a.cases + b.cases + c.cases;
    let failed = a.failed + b.failed + c.failed;
    let _ = println!(rt; "{cases} cases, {failed} failed");
}
