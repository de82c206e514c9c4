// Where the movable pages of a run of one area go: first to the free ordinary places, ascending, and then to the free places of the other areas,
// ascending. Each search goes on where the last one found its place, so that all of them together pass memory once.
ghost use Rattle.std.specs.Prelude.{◌≡◌, leb, length};
ghost use Rattle.search.specs.Search.{how_many};
ghost use Rattle.frames.specs.Units.{place};
ghost use Rattle.frames.specs.Areas.{area_in};
ghost use Rattle.frames.specs.Targets.{is_free_outside, NextTarget};
ghost use Rattle.frames.specs.Steps.Others.{FreeIn, FreeInOther, NextOther};

use crate::areas::area_at;
use crate::marks::less_free;
use crate::order::OrderedAreas;
use crate::scans::first_met;
use crate::units::place_of;
use crate::walk::Stretch;
use crate::{Area, Frame, Kind, Place};

// The last place found in the other areas, and which area of the order has it: those before it have no free place from there on.
#[derive(Clone, Copy, Default)]
pub(crate) struct Others {
    pub(crate) from: Place,
    pub(crate) next: usize,
}

// A search for one target after the other: the last that was found, and how far memory is passed, the ordinary places and the other areas.
#[derive(Clone, Copy, Default)]
pub struct Seeking {
    pub(crate) to: Place,
    pub(crate) ordinary: Stretch,
    pub(crate) others: Others,
}

impl Seeking {
    // Before the first.
    pub fn none() -> Self
        ensures { result ≡ record { to = place 0; ordinary = record { from = place 0; end = place 0; next = 0 }; others = record { from = place 0; next = 0 } } }
    {
        Self::default()
    }

    // Where the page goes.
    pub fn place(self) -> Place
        ensures { result ≡ self.to }
    {
        self.to
    }
}

// The lowest free place of an area from `from` on; the place after the last where there is none, from where no search finds one.
fn free_in_area(marks: &[u32], base: Frame, area: Area, from: Place) -> Place
    ensures { FreeIn marks.now base area from.0 result.0 }
{
    let len = marks.len();
    let start = Place(from.0.max(place_of(base, area.base).0));
    let end = area.end_place(base, Place(len));
    if end.0 <= start.0 {
        return Place(len);
    }
    first_met(marks, &Kind::Free, start, end).unwrap_or(Place(len))
}

impl OrderedAreas<'_> {
    // The same of area i, where that is not the one that pages leave.
    fn free_in_other(&self, marks: &[u32], i: usize, held: usize, from: Place) -> Place
        ensures { FreeInOther marks.now self.now.base (area_in self.now.areas.now i) i held from.0 result.0 }
    {
        if i == held {
            return Place(marks.len());
        }
        free_in_area(marks, self.base, area_at(self.areas, i), from)
    }

    // The lowest free place of the areas but `held` from the last one's place on: area after area in their order. Where
    // there is none it is the place after the last, and no option: the next search goes on from there.
    fn next_other(&self, marks: &[u32], held: usize, last: Others) -> Others
        ensures { NextOther marks.now self.now.base self.now.areas.now self.now.order held last result }
    {
        let len = marks.len();
        let from = last.from;
        for next in last.next..self.order.count {
            let at = self.free_in_other(marks, self.order.nth(next), held, from);
            if at.0 < len {
                return Others { from: at, next };
            }
        }
        Others {
            from: Place(len),
            next: self.order.count,
        }
    }

    // The target after the last one, for a page of area `held`. Something is said only of an order and a search that `frames` made for these areas,
    // this base, as many marks and this area, where since then pages of the area alone have moved, to the targets found.
    pub fn next_target(&self, marks: &[u32], held: usize, last: Seeking) -> Seeking
        ensures { NextTarget marks.now self.now.base self.now.areas.now self.now.order held last result }
    {
        let ordinary = self.next_free(marks, last.ordinary);
        let to = ordinary.from;
        if to.0 < marks.len() {
            return Seeking {
                to,
                ordinary,
                others: last.others,
            };
        }
        let others = self.next_other(marks, held, last.others);
        Seeking {
            to: others.from,
            ordinary,
            others,
        }
    }
}

// At least `least` free places are not in the area given.
pub fn has_free_outside(marks: &[u32], base: Frame, area: Area, least: u64) -> bool
    ensures { result ≡ leb least (how_many (is_free_outside marks.now base area) 0 (length marks.now)) }
{
    let len = marks.len();
    let start = Place(place_of(base, area.base).0.min(len));
    let end = Place(start.0.max(area.end_place(base, Place(len)).0));
    let left = less_free(marks, Place(0), start, least);
    less_free(marks, end, Place(len), left) == 0
}
