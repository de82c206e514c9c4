// Where an area goes. Nothing is changed: a plan reads the marks, and a mark past the end of the slice reads as free, so that with an empty
// slice every frame is free.
ghost use Rattle.std.specs.Prelude.{◌≡◌, true, false, not, ◌||◌, [], ◌+◌, ◌-◌, ◌≤◌, min, ltb};
ghost use Rattle.answer.specs.Answers.{with_number};
ghost use Rattle.search.specs.Search.{lowest_from};
ghost use Rattle.frames.specs.Units.{place_below, most_number};
ghost use Rattle.frames.specs.Marks.{has_kind, free};
ghost use Rattle.frames.specs.Scans.{marked};
ghost use Rattle.frames.specs.Areas.{end_of};
ghost use Rattle.rules.specs.Does.{record_in};
ghost use Rattle.rules.specs.Declare.{is_fixed};
ghost use Rattle.setup.specs.Steps.Held.{HeldBelow, LastHeld, HeldLater, UsedSince, Scans};
ghost use Rattle.setup.specs.Steps.Plan.{AmountsFit, plan_tables, plan_after};

use crate::amounts::{AllowedRequest, Rounded, lowest_end};
use crate::units::{byte_of_frame, frame_of_byte};
use answer::Refusal;
use frames::{Area, Frame, Kind, Place, area_at, frame_at, place_of};
use rules::{LentRecord, Record};

// Frames in a row that an area holds: the first, and the one after the last.
#[derive(Clone, Copy)]
struct Held {
    from: Frame,
    end: Frame,
}

// The frame after the area's last; `end` where that comes first.
fn end_before(area: Area, end: Frame) -> Frame
    ensures { result.0 ≡ min (end_of area) end.0 }
{
    Frame(area.base.0.saturating_add(area.count).min(end.0))
}

// What the area holds before `end`, or what others do, as `held` has it: whichever ends later.
fn later_held(area: Area, held: Held, end: Frame) -> Held
    ensures { HeldLater area end.0 held result }
{
    let past = end_before(area, end);
    if past.0 <= area.base.0.max(held.end.0) {
        return held;
    }
    Held {
        from: area.base,
        end: past,
    }
}

// The last frames before `end` that an area holds; none, at frame 0, where no area holds one. No option of it: a comparison with its end then needs
// no case.
fn last_held(lent: LentRecord, end: Frame) -> Held
    ensures { LastHeld lent.entry.areas.now lent.entry.memory.declared end.0 result }
{
    let mut held = Held {
        from: Frame(0),
        end: Frame(0),
    };
    for k in 0..lent.memory.declared as usize {
        held = later_held(area_at(lent.areas, k), held, end);
    }
    held
}

// The same, where `held` was the last before a later end: the areas are asked again only where it passes this one.
fn held_before(lent: LentRecord, held: Held, end: Frame) -> Held
    requires { HeldBelow lent.areas.now lent.memory.declared end.0 held }
    ensures { LastHeld lent.entry.areas.now lent.entry.memory.declared end.0 result }
{
    if held.end.0 <= end.0 {
        return held;
    }
    last_held(lent, end)
}

// The lowest place of the range that is not free. The scans of `frames` ask for a range within the marks; the range of this one may end past them.
fn first_used(marks: &[u32], from: Place, end: Place) -> Option<Place>
    requires { from.0 ≤ end.0 }
    ensures { result ≡ place_below (lowest_from (λ q. not (marked (has_kind free) marks.now q)) from.0 (end.0 - from.0)) end.0 }
{
    for i in from.0..end.0.min(marks.len()) {
        if !Kind::Free.is_of(marks[i]) {
            return Some(Place(i));
        }
    }
    None
}

// The first of the places in a row just before `at` that are not free; `at` where the one before it is free. That it is the first is left open,
// since only time rests on it.
fn used_since(marks: &[u32], at: Place) -> Place
    ensures { UsedSince marks.now at.0 result.0 }
{
    if marks.len() < at.0 {
        return at;
    }
    for i in (0..at.0).rev() {
        if Kind::Free.is_of(marks[i]) {
            return Place(i + 1);
        }
    }
    Place(0)
}

// Where what is taken in a range of memory begins, if some of it is: the first of some frames in a row, each not free or in an area, that the
// range has one of. `held` is the last that an area holds before the range's end: after it every frame is ordinary,
// and the marks alone say.
fn first_taken(base: Frame, marks: &[u32], held: Held, first: Frame, count: u64) -> Option<Frame>
    requires { (base.0 ≤ first.0) × (first.0 + count ≤ most_number) }
    ensures { Scans base marks.now held first.0 count result }
{
    if first.0 < held.end.0 {
        return Some(held.from);
    }
    let end = Frame(first.0 + count);
    let used = first_used(marks, place_of(base, first), place_of(base, end))?;
    Some(frame_at(base, used_since(marks, used)))
}

// A range at the base is outside memory, whose bytes are from `start` up to `end`.
fn is_outside(rounded: Rounded, start: u64, end: u64) -> bool
    requires { AmountsFit rounded }
    ensures { result ≡ (ltb rounded.base start || ltb end (rounded.base + rounded.size)) }
{
    rounded.base < start || end < rounded.base + rounded.size
}

impl<'a> AllowedRequest<'a> {
    // An area that must begin at its base: it is in memory and could have all of its frames, or it is refused.
    pub(crate) fn plan_fixed(self, marks: &[u32]) -> Result<Area, Refusal>
        requires { is_fixed (record_in self.lent) self.request ≡ true }
        ensures { with_number result ≡ plan_after 7 (record_in self.entry.lent) self.entry.request (plan_tables marks.now []) }
    {
        let memory = self.lent.memory;
        let rounded = self.rounded;
        let start = byte_of_frame(memory.base);
        let end = byte_of_frame(Frame(memory.base.0 + memory.frames));
        if is_outside(rounded, start, end) {
            return Err(Refusal::NoPlace);
        }
        let base = frame_of_byte(rounded.base);
        let count = rounded.size / Record::PAGE_BYTES;
        let held = last_held(self.lent, Frame(base.0 + count));
        if first_taken(memory.base, marks, held, base, count).is_some() {
            return Err(Refusal::RangeNotFree);
        }
        Ok(Area {
            base,
            count,
            order_per_bit: self.request.order_per_bit,
        })
    }

    // The highest place where the area can go. Where a range has a frame that is taken, so has every range over that frame: the next to try
    // is the highest that ends below it, and below all the frames in a row that are taken with it. So the areas are asked once for each that is
    // passed, and not for each place.
    pub(crate) fn plan_highest(self, marks: &[u32]) -> Result<Area, Refusal>
        requires { is_fixed (record_in self.lent) self.request ≡ false }
        ensures { with_number result ≡ plan_after 7 (record_in self.entry.lent) self.entry.request (plan_tables marks.now []) }
    {
        let memory = self.lent.memory;
        let rounded = self.rounded;
        let lowest = lowest_end(rounded, memory.base);
        let count = rounded.size / Record::PAGE_BYTES;
        let mut high = rounded.limit;
        let mut held = last_held(self.lent, frame_of_byte(high));
        // No range or iterator counts these places: the next one depends on what was found taken at the last.
        while lowest <= high {
            let start = (high - rounded.size) / rounded.alignment * rounded.alignment;
            let base = frame_of_byte(start);
            held = held_before(self.lent, held, Frame(base.0 + count));
            let Some(taken) = first_taken(memory.base, marks, held, base, count) else {
                return Ok(Area {
                    base,
                    count,
                    order_per_bit: self.request.order_per_bit,
                });
            };
            high = byte_of_frame(taken);
        }
        Err(Refusal::NoPlace)
    }
}
