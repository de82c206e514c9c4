// A scan of the marks for those that meet a test. A long scan goes by blocks of 32: whether a block can hold what is sought is asked of all 32 with
// no exit between them, which the compiler turns into vector instructions, and only a block that can is looked through place by place. A count has
// no exit at all, and its one loop becomes vector instructions as it stands.
// A range is two places, and no part of the slice, which would have places of its own; nor is it a struct with an invariant: that it lies within the
// marks joins it to a slice that it would have to hold.
ghost use Rattle.std.specs.Prelude.{ℕ, ◌≤◌, ◌+◌, ◌-◌, ◌≡◌, Bool, false, ◌⊎◌, length};
ghost use Rattle.search.specs.Search.{lowest_from, some, how_many};
ghost use Rattle.frames.specs.Units.{place_below};
ghost use Rattle.frames.specs.Scans.{marked};

use crate::Place;
use crate::fills::range_end;

// How many marks a block has.
pub(crate) const BLOCK: usize = 32;

// A test of a mark, and a hint at it: a mark that is not hinted at does not meet the test. A test that has no quicker hint is its own.
pub(crate) trait MarkTest {
    ghost test: { Self → ℕ → Bool };

    // The mark meets the test.
    fn is_met(&self, mark: u32) -> bool
        ensures { result ≡ test self.now mark };

    // It may.
    fn is_hinted(&self, mark: u32) -> bool
        ensures { result ≡ false → test self.now mark ≡ false }
    {
        self.is_met(mark)
    }
}

// The same as `first_met`, place by place.
pub(crate) fn one_by_one<T: MarkTest>(
    marks: &[u32],
    test: &T,
    from: Place,
    end: Place,
) -> Option<Place>
    requires { (from.0 ≤ end.0) × (end.0 ≤ length marks.now) }
    ensures { result ≡ place_below (lowest_from (marked (T.test test.now) marks.now) from.0 (end.0 - from.0)) end.0 }
{
    for i in from.0..end.0 {
        if test.is_met(marks[i]) {
            return Some(Place(i));
        }
    }
    None
}

// Some mark of the block is hinted at. Where none is, none meets the test.
fn is_block_hinted<T: MarkTest>(marks: &[u32], test: &T, from: Place) -> bool
    requires { from.0 + 32 ≤ length marks.now }
    ensures { result ≡ false → some (marked (T.test test.now) marks.now) from.0 32 ≡ false }
{
    let first = from.0;
    let mut hit = false;
    for j in 0..BLOCK {
        hit |= test.is_hinted(marks[first + j]);
    }
    hit
}

// The same as `first_met`, in one block that may hold it. Its code stays out of the loop that passes the other blocks.
#[inline(never)]
fn first_in_block<T: MarkTest>(marks: &[u32], test: &T, from: Place) -> Option<Place>
    requires { from.0 + 32 ≤ length marks.now }
    ensures { result ≡ place_below (lowest_from (marked (T.test test.now) marks.now) from.0 ((from.0 + 32) - from.0)) (from.0 + 32) }
{
    one_by_one(marks, test, from, Place(from.0 + BLOCK))
}

// The lowest place of a range whose mark meets the test.
pub(crate) fn first_met<T: MarkTest>(
    marks: &[u32],
    test: &T,
    from: Place,
    end: Place,
) -> Option<Place>
    requires { (from.0 ≤ end.0) × (end.0 ≤ length marks.now) }
    ensures { result ≡ place_below (lowest_from (marked (T.test test.now) marks.now) from.0 (end.0 - from.0)) end.0 }
{
    // The places behind the last whole block are searched from `i` on, so it lives on behind the loop.
    let mut i = from.0;
    while BLOCK <= end.0 - i {
        if is_block_hinted(marks, test, Place(i)) {
            let found = first_in_block(marks, test, Place(i));
            if found.is_some() {
                return found;
            }
        }
        i += BLOCK;
    }
    one_by_one(marks, test, Place(i), end)
}

// How many of the `count` places from `from` on have a mark that meets the test. Where they pass the end, a free one does not, as which a mark reads there.
pub(crate) fn count_met<T: MarkTest>(marks: &[u32], test: &T, from: Place, count: u64) -> u64
    requires { (T.test test.now 0 ≡ false) ⊎ (from.0 + count ≤ length marks.now) }
    ensures { result ≡ how_many (marked (T.test test.now) marks.now) from.0 count }
{
    let mut found = 0;
    for i in from.0..range_end(from.0, count, marks.len()) {
        found += u64::from(test.is_met(marks[i]));
    }
    found
}
