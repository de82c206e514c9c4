// What a declaration comes to, and a record with one more area.
ghost use Rattle.std.specs.Prelude.{◌≡◌, true, ◌+◌, ◌<◌, ltb, length};
ghost use Rattle.answer.specs.Answers.{with_number};
ghost use Rattle.frames.specs.Areas.{word_count, first_word};
ghost use Rattle.rules.specs.Limits.{most_areas};
ghost use Rattle.rules.specs.Shape.{memory_right};
ghost use Rattle.rules.specs.Does.{record_with, record_in};
ghost use Rattle.rules.specs.Declare.{with_area};
ghost use Rattle.setup.specs.Steps.Plan.{plan_tables, plan_after, plan};

use crate::amounts::{AllowedRequest, is_above_limit, is_bad_request, is_fixed, limit_vanishes};
use answer::Refusal;
use frames::{Area, Frame, first_word, set_area};
use rules::{LentRecord, Memory, Record, Request};

// The bitmap's words are too few for one more area.
fn lacks_room(lent: LentRecord, bitmap: &[u64], area: Area) -> bool
    ensures { result ≡ ltb (length bitmap.now) (first_word lent.entry.areas.now lent.entry.memory.declared + word_count area) }
{
    let used = first_word(lent.areas, lent.memory.declared);
    (bitmap.len() as u64) < used.saturating_add(area.words())
}

impl<'a> AllowedRequest<'a> {
    // Whether the limit can be kept, whether the bitmap has room for the area, which its size and k say, and where the area goes. What is asked is
    // worked out first, and judged in the rules' order.
    fn plan(self, marks: &[u32], bitmap: &[u64]) -> Result<Area, Refusal>
        ensures { with_number result ≡ plan_after 4 (record_in self.entry.lent) self.entry.request (plan_tables marks.now bitmap.now) }
    {
        let request = self.request;
        let rounded = self.rounded;
        let sized = Area {
            base: Frame(0),
            count: rounded.size / Record::PAGE_BYTES,
            order_per_bit: request.order_per_bit,
        };
        let fixed = is_fixed(request.fixed, rounded.base);
        let end = rounded.base + rounded.size;
        let short = lacks_room(self.lent, bitmap, sized);
        let vanishes = limit_vanishes(request.limit, rounded.alignment);
        let above = is_above_limit(request.limit, rounded.limit, fixed, end);
        if vanishes || above {
            return Err(Refusal::OrderOrLimit);
        }
        if short {
            return Err(Refusal::BitmapTooShort);
        }
        if fixed {
            return self.plan_fixed(marks);
        }
        self.plan_highest(marks)
    }
}

// The area that a declaration makes, or why it is refused, where the shape is not in question. Of the tables it looks at the marks and the bitmap
// alone, which come apart, since a boot plans with no marks.
pub(crate) fn plan_area(
    lent: LentRecord,
    marks: &[u32],
    bitmap: &[u64],
    request: Request,
) -> Result<Area, Refusal>
    requires { memory_right lent.memory.base.0 lent.memory.frames lent.memory.block_order ≡ true }
    ensures { with_number result ≡ plan (record_in lent.entry) request (plan_tables marks.now bitmap.now) }
{
    if Record::MOST_AREAS <= lent.memory.declared {
        return Err(Refusal::AreasFull);
    }
    if is_bad_request(request) {
        return Err(Refusal::OutOfRange);
    }
    if lent.memory.block_order < request.order_per_bit {
        return Err(Refusal::OrderOrLimit);
    }
    AllowedRequest::new(lent, request).plan(marks, bitmap)
}

// A record has one more area: the numbers of its areas where they are lent, and its memory as it is handed back.
// They come apart, since the areas are written.
pub(crate) fn with_area(memory: Memory, areas: &mut [u64], area: Area) -> Memory
    requires { memory.declared < most_areas }
    ensures { record_with result areas.new ≡ with_area (record_with memory areas.old) area }
{
    set_area(areas, memory.declared as usize, area);
    Memory {
        declared: memory.declared + 1,
        ..memory
    }
}
