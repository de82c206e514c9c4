// What is sought among the marks, and what is counted.
ghost use Rattle.std.specs.Prelude.{◌≤◌, ◌+◌, ◌-◌, min, ◌≡◌, not, length};
ghost use Rattle.search.specs.Search.{lowest, lowest_from, every, how_many};
ghost use Rattle.frames.specs.Units.{place_below};
ghost use Rattle.frames.specs.Marks.{has_kind, kind_number, is_page_of, can_leave, is_granted, free, movable, later};
ghost use Rattle.frames.specs.Scans.{marked, is_free_ordinary};
ghost use Rattle.frames.specs.Areas.{most_areas};

use crate::fills::range_end;
use crate::order::OrderedAreas;
use crate::scans::{BLOCK, MarkTest, count_met, first_met, one_by_one};
use crate::{Frame, Kind, Place};

// The largest field that a mark has room for.
const MOST_FIELD: u64 = 0x1fff_ffff;

// How many places are looked at before the first block is asked.
const FEW: usize = 8;

// After how many marks a count asks whether it has counted enough.
const COUNTED: usize = 64;

// Of a kind's bits, the upper two: those that neither a free nor a movable mark has, and of which a grant's frames have the upper alone. One mask asks
// for several kinds at once, where `Kind::is_of` asks for each. They are two constants, since which bits tell stuck marks from others and which tell
// a grant's are two facts, equal by the kinds' numbers alone.
const STUCK_BITS: u32 = 6;

const GRANT_BITS: u32 = 6;

// A mark is of a kind.
impl MarkTest for Kind {
    ghost test = { λ kind. has_kind (kind_number kind) };

    fn is_met(&self, mark: u32) -> bool {
        self.is_of(mark)
    }
}

// A mark is a page of the name. The name alone hints at it, whatever the mark's kind.
#[derive(Clone, Copy)]
struct PageOf(u32);

impl MarkTest for PageOf {
    ghost test = { λ page. is_page_of page.0 };

    fn is_met(&self, mark: u32) -> bool {
        let is_page = Kind::Movable.is_of(mark)
            || Kind::Pinned.is_of(mark)
            || Kind::Fixed.is_of(mark);
        is_page && Kind::field_of(mark) == self.0
    }

    fn is_hinted(&self, mark: u32) -> bool {
        Kind::field_of(mark) == self.0
    }
}

// A mark is neither free nor movable.
#[derive(Clone, Copy)]
struct Stuck;

impl MarkTest for Stuck {
    ghost test = { λ _ mark. not (can_leave mark) };

    fn is_met(&self, mark: u32) -> bool {
        mark & STUCK_BITS != 0
    }
}

// A mark is a grant's, its first frame's or a later one's.
#[derive(Clone, Copy)]
struct Granted;

impl MarkTest for Granted {
    ghost test = { λ _. is_granted };

    fn is_met(&self, mark: u32) -> bool {
        mark & GRANT_BITS == Kind::Head as u32
    }
}

// The lowest place whose mark is a page of that name.
pub fn find_page(marks: &[u32], name: u64) -> Option<Place>
    ensures { result ≡ place_below (lowest (marked (is_page_of name) marks.now) (length marks.now)) (length marks.now) }
{
    if MOST_FIELD < name {
        return None;
    }
    first_met(marks, &PageOf(name as u32), Place(0), Place(marks.len()))
}

// The lowest free place at all.
pub fn find_free(marks: &[u32]) -> Option<Place>
    ensures { result ≡ place_below (lowest (marked (has_kind free) marks.now) (length marks.now)) (length marks.now) }
{
    first_met(marks, &Kind::Free, Place(0), Place(marks.len()))
}

// The lowest free place that is in none of the first `declared` areas, as far as a record can have them.
pub fn find_free_ordinary(marks: &[u32], base: Frame, areas: &[u64], declared: u64) -> Option<Place>
    ensures { result ≡ place_below (lowest (is_free_ordinary marks.now base areas.now (min declared most_areas)) (length marks.now)) (length marks.now) }
{
    let stretch = OrderedAreas::new(base, areas, declared).free_stretch(marks, Place(0), 0);
    stretch.from.below(marks.len())
}

// The lowest place of a range that is neither free nor movable. Where such places stand close together one is among the first few, so no block
// is asked before those have been looked at.
fn stuck_in(marks: &[u32], from: Place, end: Place) -> Option<Place>
    requires { (from.0 ≤ end.0) × (end.0 ≤ length marks.now) }
    ensures { result ≡ place_below (lowest_from (marked (λ mark. not (can_leave mark)) marks.now) from.0 (end.0 - from.0)) end.0 }
{
    if end.0 - from.0 < BLOCK {
        return one_by_one(marks, &Stuck, from, end);
    }
    let found = one_by_one(marks, &Stuck, from, Place(from.0 + FEW));
    if found.is_some() {
        return found;
    }
    first_met(marks, &Stuck, from, end)
}

// How many of the `count` places from `from` on come before the first that is neither free nor movable.
pub fn first_stuck(marks: &[u32], from: Place, count: u64) -> u64
    ensures { result ≡ lowest (λ k. not (marked can_leave marks.now (from.0 + k))) count }
{
    let first = from.0;
    let end = range_end(first, count, marks.len());
    if end <= first {
        return count;
    }
    match stuck_in(marks, from, Place(end)) {
        Some(at) => (at.0 - first) as u64,
        None => count,
    }
}

// Each of the `count` places from `from` on is a later frame of a grant. Past the end of the marks there is none.
pub fn are_later(marks: &[u32], from: Place, count: u64) -> bool
    ensures { result ≡ every (marked (has_kind later) marks.now) from.0 count }
{
    let end = range_end(from.0, count, marks.len());
    if (end.saturating_sub(from.0) as u64) < count {
        return false;
    }
    (from.0..end).all(|i| Kind::Later.is_of(marks[i]))
}

// How many of the `count` places from `from` on are movable.
pub fn count_movable(marks: &[u32], from: Place, count: u64) -> u64
    ensures { result ≡ how_many (marked (has_kind movable) marks.now) from.0 count }
{
    count_met(marks, &Kind::Movable, from, count)
}

// How many of them are a grant's, its first frame or a later one.
pub fn count_granted(marks: &[u32], from: Place, count: u64) -> u64
    ensures { result ≡ how_many (marked is_granted marks.now) from.0 count }
{
    count_met(marks, &Granted, from, count)
}

// What is left of `least` after the free places of a range are taken off. They are counted by so many at a time, until nothing is left.
pub(crate) fn less_free(marks: &[u32], from: Place, end: Place, least: u64) -> u64
    requires { (from.0 ≤ end.0) × (end.0 ≤ length marks.now) }
    ensures { result ≡ least - how_many (marked (has_kind free) marks.now) from.0 (end.0 - from.0) }
{
    // What is behind the last that are counted at once is counted from `i` on, so it lives on behind the loop.
    let mut left = least;
    let mut i = from.0;
    while COUNTED <= end.0 - i && left != 0 {
        left = left.saturating_sub(count_met(marks, &Kind::Free, Place(i), COUNTED as u64));
        i += COUNTED;
    }
    if left == 0 {
        return 0;
    }
    left.saturating_sub(count_met(marks, &Kind::Free, Place(i), (end.0 - i) as u64))
}
