// The output's lines but for a step's, which is four numbers, appended to a lent buffer. A line is written whole, or where it has no room not at all.
ghost use Rattle.text.specs.Writing.{Appends};
ghost use Rattle.records.specs.Lines.{heading, bad_line, end_line};

use text::writing::Writer;

// The line above all others.
#[tactic(auto, unfolding(crate::specs::Lines::heading))]
pub fn put_heading(out: &mut Writer)
    ensures { Appends heading out.old out.new }
{
    out.put_bytes(b"step refusal first second\n")
}

// The last line, where a record is of unknown kind or cut: the record's first offset.
pub fn put_bad(out: &mut Writer, offset: u64)
    ensures { Appends (bad_line offset) out.old out.new }
{
    out.put_labelled(b"bad ", offset)
}

// The last line, where every record was read: how many there were.
pub fn put_end(out: &mut Writer, count: u64)
    ensures { Appends (end_line count) out.old out.new }
{
    out.put_labelled(b"end ", count)
}
