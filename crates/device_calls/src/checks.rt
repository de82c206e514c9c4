// Why a device call is refused: each call's checks in document 01's order.
ghost use Rattle.std.specs.Prelude.{◌≡◌, not, ◌||◌, suc, ◌+◌, ◌-◌, ◌≤◌, ◌<◌, ltb, eqb, length, get_or, take};
ghost use Rattle.search.specs.Search.{every};
ghost use Rattle.frames.specs.Marks.{is_granted, has_kind, field_of, head, later};
ghost use Rattle.frames.specs.Lent.{tables_read};
ghost use Rattle.frames.specs.Scans.{marked};
ghost use Rattle.rules.specs.Record.{area_at};
ghost use Rattle.rules.specs.Limits.{most_end, most_block_order, most_align_order};
ghost use Rattle.rules.specs.Does.{record_in};
ghost use Rattle.rules.specs.DeviceCalls.{bad_device, is_unknown, outside_memory, device_checks, outside_area, off_bit, release_checks, grant_checks};
ghost use Rattle.device_calls.specs.Steps.Refusals.{Decides};

use crate::units::block_of;
use crate::{GrantRequest, ReleaseRequest};
use answer::Refusal;
use frames::{Area, Frame, Kind, Place, ReadTables, are_later, area_at, place_of};
use rules::{LentRecord, Memory, Record};
use shape::shape_right;

// A mark of a grant's first frame or of a later one. `frames` has it as a test of its scans, which stays inside it.
fn is_granted(mark: u32) -> bool
    ensures { result ≡ is_granted mark }
{
    Kind::Head.is_of(mark) || Kind::Later.is_of(mark)
}

// No device has that number.
fn is_bad_device(device: u64) -> bool
    ensures { result ≡ bad_device device }
{
    !(Record::LEAST_DEVICE..=Record::MOST_DEVICE).contains(&device)
}

// The frame at a place has another owner, or none.
fn is_not_owner(owners: &[u32], page: Place, device: u64) -> bool
    requires { page.0 < length owners.now }
    ensures { result ≡ not (eqb (get_or owners.now page.0 0) device) }
{
    u64::from(owners[page.0]) != device
}

// The frame is none of memory.
fn is_outside(memory: Memory, frame: Frame) -> bool
    requires { memory.base.0 + memory.frames ≤ most_end }
    ensures { result ≡ outside_memory memory frame }
{
    frame.0 < memory.base.0 || memory.base.0 + memory.frames <= frame.0
}

// An argument of a device store or a device read is outside its range.
fn is_bad_frame(memory: Memory, frame: Frame, device: u64) -> bool
    requires { memory.base.0 + memory.frames ≤ most_end }
    ensures { result ≡ (outside_memory memory frame || bad_device device) }
{
    is_outside(memory, frame) || is_bad_device(device)
}

// Whether a device may store to a frame, or read it.
pub(crate) fn check_device(
    lent: LentRecord,
    tables: ReadTables,
    frame: Frame,
    device: u64,
) -> Result<(), Refusal>
    ensures { Decides (device_checks (record_in lent.entry) frame device (tables_read tables.entry)) result }
{
    if !shape_right(lent, tables) {
        return Err(Refusal::WrongShape);
    }
    if is_bad_frame(lent.memory, frame, device) {
        return Err(Refusal::OutOfRange);
    }
    let page = place_of(lent.memory.base, frame);
    if !is_granted(tables.marks[page.0]) {
        return Err(Refusal::NotLive);
    }
    if is_not_owner(tables.owners, page, device) {
        return Err(Refusal::NotOwner);
    }
    Ok(())
}

// A range of frames is not inside an area. An end may lie past the largest number, so none is computed; the first test guards the difference.
fn is_outside_area(a: Area, frame: Frame, count: u64) -> bool
    ensures { result ≡ outside_area a frame count }
{
    if frame.0 < a.base.0 {
        return true;
    }
    let past = frame.0 - a.base.0;
    a.count < past || a.count - past < count
}

// An argument of a release is outside its range: its area is not known, its count is 0, its range is not inside the area, or no device has that
// number.
fn is_bad_release(lent: LentRecord, release: ReleaseRequest) -> bool
    ensures { result ≡ (is_unknown lent.entry.memory release.area || eqb release.count 0 || outside_area (area_at (record_in lent.entry) release.area) release.frame release.count || bad_device release.device) }
{
    lent.memory.declared <= release.area
        || release.count == 0
        || is_outside_area(
            area_at(lent.areas, release.area as usize),
            release.frame,
            release.count,
        )
        || is_bad_device(release.device)
}

// A frame of an area is not the first of a bit, or not the first of a grant.
fn is_no_head(marks: &[u32], page: Place, a: Area, frame: Frame) -> bool
    requires { (page.0 < length marks.now) × (a.order_per_bit ≤ most_block_order) × (a.base.0 ≤ frame.0) }
    ensures { result ≡ (off_bit a frame || not (has_kind head (get_or marks.now page.0 0))) }
{
    let per_bit = block_of(a.order_per_bit);
    let past = frame.0 - a.base.0;
    past % per_bit != 0 || !Kind::Head.is_of(marks[page.0])
}

// A grant that begins at a place does not have that count, or a later frame of it is not marked so.
fn is_other_grant(marks: &[u32], page: Place, count: u64) -> bool
    requires { (page.0 < length marks.now) × (0 < count) }
    ensures { result ≡ (not (eqb (field_of (get_or marks.now page.0 0)) count) || not (every (marked (has_kind later) marks.now) (suc page.0) (count - 1))) }
{
    u64::from(Kind::field_of(marks[page.0])) != count
        || !are_later(marks, Place(page.0 + 1), count - 1)
}

// Whether a grant may be released.
pub(crate) fn check_release(
    lent: LentRecord,
    tables: ReadTables,
    release: ReleaseRequest,
) -> Result<(), Refusal>
    ensures { Decides (release_checks (record_in lent.entry) release.area release.frame release.count release.device (tables_read tables.entry)) result }
{
    if !shape_right(lent, tables) {
        return Err(Refusal::WrongShape);
    }
    if is_bad_release(lent, release) {
        return Err(Refusal::OutOfRange);
    }
    let a = area_at(lent.areas, release.area as usize);
    let page = place_of(lent.memory.base, release.frame);
    if is_no_head(tables.marks, page, a, release.frame) {
        return Err(Refusal::NotLive);
    }
    if is_not_owner(tables.owners, page, release.device) {
        return Err(Refusal::NotOwner);
    }
    if is_other_grant(tables.marks, page, release.count) {
        return Err(Refusal::ReleaseDisagrees);
    }
    Ok(())
}

// An argument of a grant is outside its range.
fn is_bad_grant(memory: Memory, request: GrantRequest) -> bool
    ensures { result ≡ (is_unknown memory request.area || eqb request.count 0 || ltb most_align_order request.align || bad_device request.device) }
{
    memory.declared <= request.area
        || request.count == 0
        || Record::MOST_ALIGN_ORDER < request.align
        || is_bad_device(request.device)
}

// Whether a run may be looked for: a grant's first two checks.
pub(crate) fn check_grant(
    lent: LentRecord,
    tables: ReadTables,
    request: GrantRequest,
) -> Result<(), Refusal>
    ensures { Decides (take 2 (grant_checks (record_in lent.entry) request.area request.count request.align request.device (tables_read tables.entry))) result }
{
    if !shape_right(lent, tables) {
        return Err(Refusal::WrongShape);
    }
    if is_bad_grant(lent.memory, request) {
        return Err(Refusal::OutOfRange);
    }
    Ok(())
}
