// The search of an area for the lowest run that can be granted.
ghost use Rattle.std.specs.Prelude.{◌≡◌, [], ◌+◌, ◌*◌, ◌^◌, ◌≤◌};
ghost use Rattle.frames.specs.Areas.{ceiling};
ghost use Rattle.frames.specs.Tables.{tables};
ghost use Rattle.rules.specs.Limits.{most_frames, most_align_order};
ghost use Rattle.rules.specs.Does.{record_in};
ghost use Rattle.device_calls.specs.Steps.DeviceSteps.{SearchFits, TriesAt, ClearTo, ClearUpTo, SetIn, FramesRuleOut, BitsRuleOut, Tries, run_for};

use crate::GrantRequest;
use crate::aligned::{first_aligned, starts};
use crate::units::{bitmap_start, block_of, frame_of_bit};
use bitmap::Bitmap;
use frames::{Area, Bit, Frame, area_at, first_stuck, place_of};
use rules::LentRecord;

// What is searched for, and where: the marks, the frame at which they begin, the area with its bitmap, the run's bits and frames, the last bit
// that leaves it room, how far apart the bits stand that it may begin at (2^order), and a word that has those set. What its steps tell one another
// are plain numbers of bits, which are added and compared.
#[derive(Clone, Copy)]
pub(crate) struct Search<'a> {
    pub(crate) marks: &'a [u32],
    pub(crate) base: Frame,
    pub(crate) bitmap: Bitmap<'a>,
    pub(crate) area: Area,
    pub(crate) bits: usize,
    pub(crate) count: u64,
    pub(crate) last: usize,
    pub(crate) order: u64,
    pub(crate) starts: u64,
}

// A run that was tried and cannot be granted: how many bits from there on are ruled out, and the bit up to which all behind them are known to be
// clear.
#[derive(Clone, Copy)]
pub(crate) struct Tried {
    pub(crate) passed: usize,
    pub(crate) clear_to: usize,
}

impl Search<'_> {
    // How many bits from a bit on are ruled out by the frames of the run at it, where one of them is neither free nor movable. What `TriesAt` says
    // joins the search and a bit, so neither's type can hold it.
    fn frames_rule_out(&self, bit: Bit) -> Option<usize>
        requires { TriesAt self.now bit }
        ensures { FramesRuleOut self.now bit.0 result }
    {
        let page = place_of(self.base, frame_of_bit(self.area, bit));
        let stuck = first_stuck(self.marks, page, self.count);
        if self.count <= stuck {
            return None;
        }
        Some((stuck >> self.area.order_per_bit) as usize + 1)
    }

    // The bit up to which all from `from` on are clear, where it is looked no further than the words that hold the bits before `end`, nor behind
    // the area's last bit.
    fn clear_up_to(&self, from: usize, end: usize) -> usize
        requires { (end ≤ self.now.last + self.now.bits) × (self.now.last + self.now.bits ≤ most_frames) }
        ensures { ClearUpTo self.now from end result }
    {
        if end <= from {
            return from;
        }
        let far = (end.div_ceil(64) * 64).min(self.last + self.bits);
        from + self.bitmap.clear_bits(from, far - from).bits
    }

    // How many bits from a bit on are ruled out by a set bit of the run at it: those of every run over it; and, where candidates stand close
    // together and there are any behind it, those up to the next that a run could begin at.
    fn bits_rule_out(&self, bit: Bit, set: usize) -> usize
        requires tries_at { TriesAt self.now bit }
        requires set_in { SetIn self.now bit.0 set }
        ensures { BitsRuleOut self.now bit.0 result }
    {
        let next = set + 1;
        if self.last < next {
            return next - bit.0;
        }
        // Where candidates stand further apart than a word has bits, at least half of the words have none, and looking at them passes little.
        if 6 < self.order {
            return next - bit.0;
        }
        let count = self.last + 1 - next;
        let open = self.bitmap.next_open(next, count, self.bits, self.starts);
        next + open.bits - bit.0
    }

    // Tries the run at a bit, from which on the bits up to `clear_to` are clear. A set bit, or a page that cannot leave, rules out every run over
    // it, so the search goes on behind it; nothing does where the run can be granted.
    fn try_run(&self, bit: Bit, clear_to: usize) -> Option<Tried>
        requires tries_at { TriesAt self.now bit }
        requires clear_to { ClearTo self.now bit.0 clear_to }
        ensures { Tries self.now bit.0 result }
    {
        let end = bit.0 + self.bits;
        let clear = self.clear_up_to(bit.0.max(clear_to), end);
        if clear < end {
            return Some(Tried {
                passed: self.bits_rule_out(bit, clear),
                clear_to: 0,
            });
        }
        let passed = self.frames_rule_out(bit)?;
        Some(Tried {
            passed,
            clear_to: clear,
        })
    }
}

// The first bit at or behind `passed` bits from this one that is some steps of 2^order away.
fn steps_on(bit: usize, passed: usize, order: u64) -> usize
    requires { (order ≤ most_align_order) × (bit ≤ most_frames) × (passed ≤ most_frames + 1) }
    ensures { result ≡ bit + ceiling passed (2 ^ order) * 2 ^ order }
{
    let step = block_of(order) as usize;
    bit + passed.div_ceil(step) * step
}

// The lowest bit of an area at which a run can be granted. Only the bits whose first frames are multiples of 2^align are tried, up to the last
// that leaves room.
pub(crate) fn find_run(
    lent: LentRecord,
    marks: &[u32],
    bitmap: &[u64],
    request: GrantRequest,
) -> Option<Bit>
    requires { SearchFits (record_in lent) request.area request.count request.align }
    ensures { result ≡ run_for (record_in lent.entry) (tables marks.now [] bitmap.now []) request.area request.count request.align }
{
    let area = area_at(lent.areas, request.area as usize);
    let bits = area.bits_for(request.count) as usize;
    let last = (area.bits() as usize).checked_sub(bits)?;
    let order = request.align.saturating_sub(area.order_per_bit);
    let first = first_aligned(area, request.align);
    let search = Search {
        marks,
        base: lent.memory.base,
        bitmap: Bitmap {
            words: bitmap,
            start: bitmap_start(lent.areas, request.area),
        },
        area,
        bits,
        count: request.count,
        last,
        order,
        starts: starts(first, order),
    };
    let mut j = first.0;
    let mut clear_to = 0;
    // Each turn passes what the try ruled out, which no range counts.
    while j <= last {
        let Some(tried) = search.try_run(Bit(j), clear_to) else {
            return Some(Bit(j));
        };
        clear_to = tried.clear_to;
        j = steps_on(j, tried.passed, order);
    }
    None
}
