// Document 02, request (iv): the memory report, in the lines that an operator knows from /proc/meminfo.
//
// Each area is looked at once: its line is written to a place of the function's own while the sums are made, which stand in the lines before it.
// The lines go to the caller's buffer when all are known, and only where all have room.
#![tactic(auto)]

ghost use Rattle.std.specs.Prelude.{◌+◌, ◌*◌, ◌≤◌, ◌≡◌, [], ◌++◌, length};
ghost use Rattle.search.specs.Search.{longest};
ghost use Rattle.bitmap.specs.Bits.{is_clear};
ghost use Rattle.frames.specs.Areas.{per_bit, bit_count};
ghost use Rattle.frames.specs.Lent.{tables_read};
ghost use Rattle.frames.specs.Tables.{tables};
ghost use Rattle.text.specs.Writing.{Appends};
ghost use Rattle.rules.specs.Does.{record_in, AnswersOn};
ghost use Rattle.rules.specs.Limits.{most_areas, most_frames, most_block_order};
ghost use Rattle.rules.specs.Report.{total_label, free_label, amount_line, area_line, report_of, report, reported};
ghost use Rattle.report.specs.Steps.Listing.{Bounded, Lists, PutWhole};

use answer::{Numbers, Refusal};
use bitmap::Bitmap;
use frames::{Area, ReadTables, area_at, count_granted, place_of};
use rules::LentRecord;
use shape::shape_right;
use text::writing::{Writer, has_room};

// The room for an area's line, which has a label of five bytes and four numbers of at most twenty digits, for those of all areas, and for the two
// lines before them.
const LINE: usize = 89;

const LINES: usize = Area::MOST * LINE;

const SUMS: usize = 128;

// What is known of the areas: their frames, and how many of them are not granted.
#[derive(Clone, Copy)]
struct Totals {
    total: u64,
    free: u64,
}

// An area's line.
fn put_area(out: &mut Writer, number: u64, count: u64, used: u64, chunk: u64)
    requires { out.old.length + LINE ≤ length out.old.buffer.now }
    ensures { Appends (area_line number count used chunk) out.old out.new }
{
    out.put_bytes(b"area ");
    out.put_four(number, count, used, chunk);
}

// A line with an amount.
fn put_amount(out: &mut Writer, label: &[u8], kilobytes: u64)
    requires { out.old.length + length label.now + 24 ≤ length out.old.buffer.now }
    ensures { Appends (amount_line label.now kilobytes) out.old out.new }
{
    out.put_bytes(label);
    out.put_number(kilobytes);
    out.put_bytes(b" kB\n");
}

// The frames of the longest stretch of clear bits of an area, by its bitmap.
fn max_chunk(area: Area, bitmap: Bitmap) -> u64
    requires { (area.count ≤ most_frames) × (area.order_per_bit ≤ most_block_order) }
    ensures { result ≡ per_bit area * longest (is_clear bitmap.entry.words.now bitmap.entry.start) 0 (bit_count area) }
{
    let bits = bitmap.longest_clear(area.bits() as usize);
    (bits as u64) << area.order_per_bit
}

// The areas' lines, and the sums over all areas.
fn list_areas(lent: LentRecord, marks: &[u32], bitmap: &[u64], lines: &mut Writer) -> Totals
    requires { Bounded lent.memory lent.areas.now × (lines.old.length ≡ 0) × (length lines.old.buffer.now ≡ LINES) }
    ensures { Lists (record_in lent.entry) (tables marks.now [] bitmap.now []) lent.entry.memory.declared lines.old lines.new result }
{
    let mut total = 0;
    let mut free = 0;
    let mut start = 0;
    for i in 0..lent.memory.declared as usize {
        let area = area_at(lent.areas, i);
        let first = place_of(lent.memory.base, area.base);
        let used = count_granted(marks, first, area.count);
        let words = bitmap;
        let chunk = max_chunk(area, Bitmap { words, start });
        put_area(lines, i as u64, area.count, used, chunk);
        total += area.count;
        free += area.count - used;
        start += area.words() as usize;
    }
    Totals { total, free }
}

// Two texts one after the other at the front of a buffer, and their length: both or neither.
fn put_both(buffer: &mut [u8], first: &[u8], second: &[u8]) -> Option<usize>
    ensures { PutWhole (first.now ++ second.now) buffer.old buffer.new result }
{
    if !has_room(buffer.len(), first.len(), second.len()) {
        return None;
    }
    let mut out = Writer { buffer, length: 0 };
    out.put_bytes(first);
    out.put_bytes(second);
    Some(out.length)
}

// The two lines before them, with the sums in kB.
fn put_sums(out: &mut Writer, sums: Totals)
    requires { (sums.total ≤ most_areas * most_frames) × (sums.free ≤ most_areas * most_frames) × (out.old.length ≡ 0) × (SUMS ≤ length out.old.buffer.now) }
    ensures { Appends (amount_line total_label (4 * sums.total) ++ amount_line free_label (4 * sums.free)) out.old out.new }
{
    put_amount(out, b"CmaTotal: ", 4 * sums.total);
    put_amount(out, b"CmaFree: ", 4 * sums.free);
}

// The report at the front of a buffer, and its length, where it has room for it.
fn put_report(lent: LentRecord, marks: &[u32], bitmap: &[u64], buffer: &mut [u8]) -> Option<usize>
    requires { Bounded lent.memory lent.areas.now }
    ensures { PutWhole (report_of (record_in lent.entry) (tables marks.now [] bitmap.now [])) buffer.old buffer.new result }
{
    let mut lines = [0u8; LINES];
    let mut listed = Writer {
        buffer: &mut lines,
        length: 0,
    };
    let sums = list_areas(lent, marks, bitmap, &mut listed);
    let lines_length = listed.length;
    let mut head = [0u8; SUMS];
    let mut summed = Writer {
        buffer: &mut head,
        length: 0,
    };
    put_sums(&mut summed, sums);
    let head_length = summed.length;
    put_both(buffer, &head[0..head_length], &lines[0..lines_length])
}

// The report is written to the front of a buffer that has room for it, and answers its length.
pub fn report(lent: LentRecord, tables: ReadTables, buffer: &mut [u8]) -> Result<Numbers, Refusal>
    ensures answers { AnswersOn (λ m. report m buffer.old) lent.entry result (tables_read tables.entry) (tables_read tables.entry) }
    ensures buffer_after { buffer.new ≡ reported (record_in lent.entry) buffer.old (tables_read tables.entry) }
{
    if !shape_right(lent, tables) {
        return Err(Refusal::WrongShape);
    }
    let told = put_report(lent, tables.marks, tables.bitmap, buffer);
    let length = told.ok_or(Refusal::BufferTooShort)?;
    Ok(Numbers {
        first: length as u64,
        second: 0,
    })
}
