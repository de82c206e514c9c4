// A walk over the ordinary places of memory: from one stretch of them to the next, past the areas in their order.
ghost use Rattle.std.specs.Prelude.{◌<◌, ◌≡◌, get_or};
ghost use Rattle.frames.specs.Areas.{area_in};
ghost use Rattle.frames.specs.Walk.{NextFree};
ghost use Rattle.frames.specs.Steps.Stretches.{Within, WalksOn, FindsFree};

use crate::areas::area_at;
use crate::order::OrderedAreas;
use crate::scans::first_met;
use crate::units::place_of;
use crate::{Area, Kind, Place};

// Some places in a row: the first, and the one after the last. The areas before `next`, in their order, end before them.
#[derive(Clone, Copy, Default)]
pub(crate) struct Stretch {
    pub(crate) from: Place,
    pub(crate) end: Place,
    pub(crate) next: usize,
}

impl OrderedAreas<'_> {
    // The area that is k-th.
    fn area(&self, k: usize) -> Area
        ensures { result ≡ area_in self.now.areas.now (get_or self.now.order.list k 0) }
    {
        area_at(self.areas, self.order.nth(k))
    }

    // The next ordinary places from `at` on, up to `end`, where the areas before k end before `at`; none of them, at `end`, where all that is left
    // is in areas.
    fn next_stretch(&self, at: Place, k: usize, end: Place) -> Stretch
        requires { at.0 < end.0 }
        ensures within { Within at.0 end.0 result.from.0 result.end.0 }
        ensures walks_on { WalksOn self.now.base self.now.areas.now self.now.order at.0 k end.0 result }
    {
        let mut from = at;
        for next in k..self.order.count {
            let area = self.area(next);
            let start = place_of(self.base, area.base);
            if from.0 < start.0 {
                return Stretch {
                    from,
                    end: Place(start.0.min(end.0)),
                    next,
                };
            }
            from = Place(from.0.max(area.end_place(self.base, end).0));
        }
        Stretch {
            from,
            end,
            next: self.order.count,
        }
    }

    // The lowest free place from `from` on that is in none of the areas, and the end of the ordinary places that it is among; where there is none,
    // the place after the last, or `from` where that is past it, for both. The areas before k end before `from`. It is no
    // option: the next search goes on from there.
    pub(crate) fn free_stretch(&self, marks: &[u32], from: Place, k: usize) -> Stretch
        ensures { FindsFree marks.now self.now.base self.now.areas.now self.now.order from.0 k result }
    {
        // Each turn goes on at the end of the stretch before, which no range or iterator foresees.
        let len = marks.len();
        let mut i = from.0;
        let mut next = k;
        while i < len {
            let stretch = self.next_stretch(Place(i), next, Place(len));
            let end = stretch.end;
            next = stretch.next;
            if let Some(from) = first_met(marks, &Kind::Free, stretch.from, end) {
                return Stretch { from, end, next };
            }
            i = end.0;
        }
        Stretch {
            from: Place(i),
            end: Place(i),
            next,
        }
    }

    // The lowest free place from the stretch's first on that is in no area, with the end of the ordinary places that it is among. Where that ends,
    // and how many areas count as passed, is left open: only time rests on it. Of an order or a stretch that `frames` did not make for these
    // areas, this base and as many marks nothing is said.
    pub(crate) fn next_free(&self, marks: &[u32], stretch: Stretch) -> Stretch
        ensures { NextFree marks.now self.now.base self.now.areas.now self.now.order stretch result }
    {
        let from = stretch.from;
        let end = Place(stretch.end.0.min(marks.len()));
        if end.0 <= from.0 {
            return self.free_stretch(marks, from, stretch.next);
        }
        if let Some(at) = first_met(marks, &Kind::Free, from, end) {
            return Stretch {
                from: at,
                end,
                next: stretch.next,
            };
        }
        self.free_stretch(marks, end, stretch.next)
    }
}
