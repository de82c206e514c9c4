// Which bits of an area have a multiple of 2^align as their first frame: a run may begin at those alone. They stand 2^order bits apart, where
// order is align less the area's order of pages per bit.
ghost use Rattle.std.specs.Prelude.{◌≡◌, ◌%◌, ◌^◌, ◌≤◌};
ghost use Rattle.frames.specs.Areas.{per_bit};
ghost use Rattle.rules.specs.Limits.{most_end, most_block_order, most_align_order};
ghost use Rattle.device_calls.specs.Steps.DeviceSteps.{FirstAligned, Spreads, Starts};

use crate::units::{bit_of_frame, block_of};
use frames::{Area, Bit, Frame};

// The lowest bit whose first frame is a multiple of 2^align, in the area or past it. The area's own first frame is a multiple of its
// pages per bit, so where it is none of 2^align, the distance up to the next is whole bits.
pub(crate) fn first_aligned(a: Area, align: u64) -> Bit
    requires { (align ≤ most_align_order) × (a.order_per_bit ≤ most_block_order) × (a.base.0 % per_bit a ≡ 0) × (a.base.0 ≤ most_end) }
    ensures { (result.0 ≤ 2 ^ most_align_order) × FirstAligned a align result.0 }
{
    let block = block_of(align);
    let next = Frame(a.base.0.div_ceil(block) * block);
    bit_of_frame(a, next)
}

// A word in which every 2^order-th bit is set, from the first on.
fn spread(order: u64) -> u64
    ensures { Spreads order result }
{
    match order {
        0 => 0xffff_ffff_ffff_ffff,
        1 => 0x5555_5555_5555_5555,
        2 => 0x1111_1111_1111_1111,
        3 => 0x0101_0101_0101_0101,
        4 => 0x0001_0001_0001_0001,
        5 => 0x0000_0001_0000_0001,
        _ => 1,
    }
}

// A word that has, set, the bits of each bitmap word at which a run may begin: those of the first one that is aligned, and of each 2^order on.
// From an order of 7 on not every word has one, so the bit that is set says no more than where in its word one would be.
pub(crate) fn starts(first: Bit, order: u64) -> u64
    requires { order ≤ most_align_order }
    ensures { Starts first.0 order result }
{
    spread(order) << (first.0 as u64 % 64 % block_of(order))
}
