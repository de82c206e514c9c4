// The place of a frame, and the frame at a place. The conversions to and from bits stand in `device_calls`, those to and from bytes in
// `setup`: each needs bounds that are known there.
ghost use Rattle.std.specs.Prelude.{◌+◌, ◌-◌, min, ◌≡◌};
ghost use Rattle.frames.specs.Units.{frame, place, place_below, most_number};

use crate::{Frame, Place};

// The place of a frame in tables that begin at frame `base`; 0 for a frame before them.
pub fn place_of(base: Frame, frame: Frame) -> Place
    ensures { result ≡ place (frame.0 - base.0) }
{
    Place(frame.0.saturating_sub(base.0) as usize)
}

// The frame at a place of tables that begin at frame `base`; the largest number where it would pass that.
pub fn frame_at(base: Frame, page: Place) -> Frame
    ensures { result ≡ frame (min (base.0 + page.0) most_number) }
{
    Frame(base.0.saturating_add(page.0 as u64))
}

impl Place {
    // The place, where it comes before the end of a table.
    pub(crate) fn below(self, end: usize) -> Option<Self>
        ensures { result ≡ place_below self.0 end }
    {
        (self.0 < end).then_some(self)
    }
}
