// The amounts of a request, in bytes: which are allowed, and how they are rounded.
ghost use Rattle.std.specs.Prelude.{◌≡◌, true, false, not, ◌&&◌, ◌||◌, eqb, ltb, ◌+◌, ◌*◌, ◌≤◌, ◌<◌, ◌^◌, max, if◌then◌else◌};
ghost use Rattle.text.specs.Numbers.{most_bytes};
ghost use Rattle.rules.specs.Limits.{most_end, most_block_order, page_bytes};
ghost use Rattle.rules.specs.Shape.{memory_right};
ghost use Rattle.rules.specs.Declare.{bad_request, round_up, round_down};
ghost use Rattle.rules.specs.Does.{record_in};
ghost use Rattle.setup.specs.Steps.Plan.{rounded_for, AmountsFit};

use crate::units::byte_of_frame;
use frames::Frame;
use regions::is_alignment;
use rules::{LentRecord, Record, Request};

// A request's amounts as the search takes them: the alignment with a block at the least, base, size and limit rounded to it, and
// the limit cut to the end of memory.
#[derive(Clone, Copy)]
pub struct Rounded {
    pub alignment: u64,
    pub base: u64,
    pub size: u64,
    pub limit: u64,
}

// A request whose amounts are allowed, as it is and as rounded, of a record whose memory keeps to its limits.
#[derive(Clone, Copy)]
pub struct AllowedRequest<'a> {
    pub lent: LentRecord<'a>,
    pub request: Request,
    pub rounded: Rounded,
    pub ghost memory_value: { memory_right lent.memory.base.0 lent.memory.frames lent.memory.block_order ≡ true },
    pub ghost request_value: { bad_request request ≡ false },
    pub ghost rounds: { rounded ≡ rounded_for (record_in lent) request },
}

// An amount is above the most bytes, the size is 0, or the alignment is neither 0 nor a power of two.
pub(crate) fn is_bad_request(request: Request) -> bool
    ensures { result ≡ bad_request request }
{
    Record::MOST_BYTES < request.base
        || Record::MOST_BYTES < request.size
        || Record::MOST_BYTES < request.limit
        || Record::MOST_BYTES < request.alignment
        || request.size == 0
        || !is_alignment(request.alignment)
}

// The next multiple of d at or above x.
fn round_up(x: u64, d: u64) -> u64
    requires { (0 < d) × (x ≤ 2 * most_bytes) × (d ≤ most_bytes) }
    ensures { result ≡ round_up x d }
{
    x.next_multiple_of(d)
}

// The alignment asked for, or a block where that is more.
fn alignment_for(alignment: u64, block_order: u64) -> u64
    requires { block_order ≤ most_block_order }
    ensures { result ≡ max alignment (page_bytes * 2 ^ block_order) }
{
    alignment.max(Record::PAGE_BYTES << block_order)
}

// A limit was given, and it is less than the alignment: rounded down it would be 0, which means no limit.
pub(crate) fn limit_vanishes(limit: u64, alignment: u64) -> bool
    requires { 0 < alignment }
    ensures { result ≡ (not (eqb limit 0) && eqb (round_down limit alignment) 0) }
{
    limit != 0 && limit < alignment
}

// A limit that is rounded; the end of memory where that is 0 or past it.
fn limit_within(limit: u64, end: u64) -> u64
    ensures { result ≡ (if eqb limit 0 || ltb end limit then end else limit) }
{
    if limit == 0 { end } else { limit.min(end) }
}

impl<'a> AllowedRequest<'a> {
    // The amounts are rounded as the search takes them.
    pub(crate) fn new(lent: LentRecord<'a>, request: Request) -> Self
        requires memory_value { memory_right lent.memory.base.0 lent.memory.frames lent.memory.block_order ≡ true }
        requires request_value { bad_request request ≡ false }
        ensures { (result.lent ≡ lent.entry) × (result.request ≡ request) }
    {
        let memory = lent.memory;
        let alignment = alignment_for(request.alignment, memory.block_order);
        let end = byte_of_frame(Frame(memory.base.0 + memory.frames));
        let rounded = Rounded {
            alignment,
            base: round_up(request.base, alignment),
            size: round_up(request.size, alignment),
            limit: limit_within(request.limit / alignment * alignment, end),
        };
        AllowedRequest {
            lent,
            request,
            rounded,
        }
    }
}

// The request is fixed, and not cancelled by a base that is 0. The flag is the request's own, and chooses no step here.
pub(crate) fn is_fixed(fixed: bool, base: u64) -> bool
    ensures { result ≡ (fixed && not (eqb base 0)) }
{
    fixed && base != 0
}

// A limit was given, and a range that must begin at its base ends above what the limit has become; `fixed` is what `is_fixed` tells.
pub(crate) fn is_above_limit(limit_given: u64, limit: u64, fixed: bool, end: u64) -> bool
    ensures { result ≡ (fixed && not (eqb limit_given 0) && ltb limit end) }
{
    fixed && limit_given != 0 && limit < end
}

// The end of the lowest place that a search tries: at or above the base, and in memory that begins at frame `first`.
pub(crate) fn lowest_end(rounded: Rounded, first: Frame) -> u64
    requires amounts_fit { AmountsFit rounded }
    requires first_le_most_end { first.0 ≤ most_end }
    ensures { result ≡ round_up (max rounded.base (first.0 * page_bytes)) rounded.alignment + rounded.size }
{
    round_up(rounded.base.max(byte_of_frame(first)), rounded.alignment) + rounded.size
}
