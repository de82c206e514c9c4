// A range of a lent table that takes one value. What lies past the end of the table is left out.
ghost use Rattle.std.specs.Prelude.{◌+◌, min, ◌≡◌};
ghost use Rattle.frames.specs.Tables.{fill};

// The end of a range of `count` indices of a table from `from` on, or the table's length where the range passes it.
pub(crate) fn range_end(from: usize, count: u64, len: usize) -> usize
    ensures { result ≡ min (from + count) len }
{
    from.saturating_add(count as usize).min(len)
}

// The `count` entries of a table from index `from` on become `value`. The loop is written out: std's `fill` asks that a clone of the value cannot fail
// and is its equal, which `Copy` does not say of a type.
pub fn fill<T: Copy>(table: &mut [T], from: usize, count: u64, value: T)
    ensures { table.new ≡ fill table.old from count value }
{
    let end = range_end(from, count, table.len());
    for i in from..end {
        table[i] = value;
    }
}
