// Bits of an area and physical frames: the conversions between them, and the word where an area's bits begin. The conversions between
// frames and places stand in `frames`.
ghost use Rattle.std.specs.Prelude.{◌≡◌, ◌^◌, ◌≤◌, ◌<◌};
ghost use Rattle.frames.specs.Units.{most_number};
ghost use Rattle.frames.specs.Areas.{first_word, frame_of_bit, bit_of_frame};

use frames::{Area, Bit, Frame, first_word};

// The number of frames of a block of an order.
pub(crate) fn block_of(order: u64) -> u64
    requires { order < 64 }
    ensures { result ≡ 2 ^ order }
{
    1u64 << order
}

// The first frame of a bit of an area.
pub(crate) fn frame_of_bit(a: Area, bit: Bit) -> Frame
    requires { (a.order_per_bit < 64) × ((frame_of_bit a bit).0 ≤ most_number) }
    ensures { result ≡ frame_of_bit a bit }
{
    Frame(a.base.0 + bit.0 as u64 * block_of(a.order_per_bit))
}

// The bit that a frame of an area is in.
pub(crate) fn bit_of_frame(a: Area, frame: Frame) -> Bit
    requires { (a.order_per_bit < 64) × (a.base.0 ≤ frame.0) }
    ensures { result ≡ bit_of_frame a frame }
{
    Bit(((frame.0 - a.base.0) >> a.order_per_bit) as usize)
}

// The first word of an area's bitmap, where that is a number.
pub(crate) fn bitmap_start(areas: &[u64], area: u64) -> usize
    requires { first_word areas.now area ≤ most_number }
    ensures { result ≡ first_word areas.now area }
{
    first_word(areas, area) as usize
}
