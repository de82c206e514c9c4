// An area's share of the bitmap, and the areas of a record, which are lent as numbers, `Area::NUMBERS` for each.
// Frame numbers are compared by their differences: no sum of two of them is made.
ghost use Rattle.std.specs.Prelude.{◌<◌, ◌-◌, min, ◌≡◌, get_or, set};
ghost use Rattle.frames.specs.Units.{most_number};
ghost use Rattle.frames.specs.Orders.{in_use};
ghost use Rattle.frames.specs.Areas.{end_of, bit_count, word_count, first_word, bits_for, area_in, set_area};

use crate::units::place_of;
use crate::{Area, Frame, Place};

impl Area {
    // The bits of its bitmap. `checked_shr` takes a u32, which the order may not fit.
    pub fn bits(self) -> u64
        ensures { result ≡ bit_count self }
    {
        if 64 <= self.order_per_bit {
            return 0;
        }
        self.count >> self.order_per_bit
    }

    // The words of its bitmap.
    pub fn words(self) -> u64
        ensures { result ≡ word_count self }
    {
        self.bits().div_ceil(64)
    }

    // The bits that `count` of its frames take.
    pub fn bits_for(self, count: u64) -> u64
        ensures { result ≡ bits_for self count }
    {
        if self.order_per_bit < 64 {
            return count.div_ceil(1u64 << self.order_per_bit);
        }
        count.min(1)
    }

    // The place after the area's last, or `end` where that comes first.
    pub(crate) fn end_place(self, base: Frame, end: Place) -> Place
        ensures { result.0 ≡ min (end_of self - base.0) end.0 }
    {
        let start = place_of(base, self.base);
        let left = self
            .count
            .saturating_sub(base.0.saturating_sub(self.base.0));
        Place(start.0.saturating_add(left as usize).min(end.0))
    }
}

// A number of a record's areas; 0 past their end.
fn number_at(areas: &[u64], at: usize) -> u64
    ensures { result ≡ get_or areas.now at 0 }
{
    areas.get(at).copied().unwrap_or(0)
}

// Area i of a record's areas; all zeros past their end. It is no option: areas are lent at any length, and the rules read zeros past their end
// (`area_in`).
pub fn area_at(areas: &[u64], i: usize) -> Area
    ensures { result ≡ area_in areas.now i }
{
    // One test for its three numbers, where all are there: a walk over areas asks for each of them many times.
    if i < areas.len() / Area::NUMBERS {
        let at = Area::NUMBERS * i;
        return Area {
            base: Frame(areas[at]),
            count: areas[at + 1],
            order_per_bit: areas[at + 2],
        };
    }
    // Far past the end its place among the numbers might wrap.
    let at = Area::NUMBERS * i.min(areas.len());
    Area {
        base: Frame(number_at(areas, at)),
        count: number_at(areas, at + 1),
        order_per_bit: number_at(areas, at + 2),
    }
}

// A number of a record's areas becomes another; past their end nothing is kept. It goes by an index: `get_mut` says nothing of what the slice ends as.
fn set_number(areas: &mut [u64], at: usize, value: u64)
    ensures { areas.new ≡ set areas.old at value }
{
    if at < areas.len() {
        areas[at] = value;
    }
}

// Area i of a record's areas becomes another; past their end nothing is kept.
pub fn set_area(areas: &mut [u64], i: usize, area: Area)
    ensures { areas.new ≡ set_area areas.old i area }
{
    // So far out its place among the numbers might wrap.
    if i < areas.len() {
        let at = Area::NUMBERS * i;
        set_number(areas, at, area.base.0);
        set_number(areas, at + 1, area.count);
        set_number(areas, at + 2, area.order_per_bit);
    }
}

// How many areas to look at: those past the end of the numbers hold no frame.
pub(crate) fn in_use(areas: &[u64], declared: u64) -> usize
    ensures { result ≡ in_use areas.now declared }
{
    let room = areas.len().div_ceil(Area::NUMBERS) as u64;
    declared.min(room) as usize
}

// The first bitmap word of area i; the largest number where it would pass that.
pub fn first_word(areas: &[u64], i: u64) -> u64
    ensures { result ≡ min (first_word areas.now i) most_number }
{
    let mut word = 0u64;
    for before in 0..in_use(areas, i) {
        word = word.saturating_add(area_at(areas, before).words());
    }
    word
}
