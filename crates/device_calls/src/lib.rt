// The device calls: grant, release, device store and device read.
//
// Each takes any record, any other numbers and any tables, and checks the shape first. A refused call has changed nothing.
#![tactic(auto)]

ghost use Rattle.std.specs.Prelude.{◌≡◌, ◌<◌, ◌^◌, take};
ghost use Rattle.frames.specs.Tables.{tables};
ghost use Rattle.frames.specs.Lent.{tables_in, tables_read, SameSlices};
ghost use Rattle.rules.specs.Outcomes.{Passed};
ghost use Rattle.rules.specs.DeviceCalls.{device_store, device_read, free_run, release, take_run, grant_checks, grant};
ghost use Rattle.rules.specs.Does.{record_in, AnswersOn, Answers};
ghost use Rattle.device_calls.specs.Steps.DeviceSteps.{RangeFits, RunFits, Chooses};

mod aligned;
mod checks;
mod moves;
mod runs;
mod units;

use answer::{Numbers, Refusal};
use bitmap::put_run;
use checks::{check_device, check_grant, check_release};
use frames::{
    Bit, Frame, Kind, LentTables, ReadTables, area_at, count_movable, fill, has_free_outside,
    place_of,
};
use moves::{mark_run, move_out};
use rules::LentRecord;
use runs::find_run;
use units::{bit_of_frame, bitmap_start, frame_of_bit};

// What a grant asks for: an area, a count of frames, the order that its first frame is a multiple of, and the device that gets them.
// The calls take them one by one, as the methods that README names do.
#[derive(Clone, Copy)]
pub(crate) struct GrantRequest {
    pub(crate) area: u64,
    pub(crate) count: u64,
    pub(crate) align: u64,
    pub(crate) device: u64,
}

// The grant that a release names: its area, its first frame, its count, and the device that owns it.
#[derive(Clone, Copy)]
pub(crate) struct ReleaseRequest {
    pub(crate) area: u64,
    pub(crate) frame: Frame,
    pub(crate) count: u64,
    pub(crate) device: u64,
}

// The run that a grant takes: its bit, its first frame, and how many movable pages go out of it.
#[derive(Clone, Copy)]
pub(crate) struct ChosenRun {
    pub(crate) run: Bit,
    pub(crate) first: Frame,
    pub(crate) moved: u64,
}

// The word becomes that of a frame that the device owns. It changes the words alone, so the tables are lent one by one.
pub fn device_store(
    lent: LentRecord,
    marks: &[u32],
    words: &mut [u64],
    bitmap: &[u64],
    owners: &[u32],
    frame: Frame,
    word: u64,
    device: u64,
) -> Result<Numbers, Refusal>
    ensures { AnswersOn (λ m. device_store m frame word device) lent.entry result (tables marks.now words.old bitmap.now owners.now) (tables marks.now words.new bitmap.now owners.now) }
{
    let tables = ReadTables {
        marks,
        words: &*words,
        bitmap,
        owners,
    };
    check_device(lent, tables, frame, device)?;
    let page = place_of(lent.memory.base, frame);
    words[page.0] = word;
    Ok(Numbers::NONE)
}

// The word of a frame that the device owns.
pub fn device_read(
    lent: LentRecord,
    tables: ReadTables,
    frame: Frame,
    device: u64,
) -> Result<Numbers, Refusal>
    ensures { AnswersOn (λ m. device_read m frame device) lent.entry result (tables_read tables.entry) (tables_read tables.entry) }
{
    check_device(lent, tables, frame, device)?;
    let page = place_of(lent.memory.base, frame);
    Ok(Numbers {
        first: tables.words[page.0],
        second: 0,
    })
}

// The run's marks and words become 0, its bits clear, and no device owns its frames.
fn free_run(lent: LentRecord, tables: &mut LentTables, release: ReleaseRequest)
    requires { RangeFits (record_in lent) (tables_in tables.old) release.area release.frame release.count }
    ensures same { SameSlices tables.old tables.new }
    ensures freed { tables_in tables.new ≡ free_run (record_in lent.entry) (tables_in tables.old) release.area release.frame release.count }
{
    let count = release.count;
    let a = area_at(lent.areas, release.area as usize);
    let start = bitmap_start(lent.areas, release.area);
    let page = place_of(lent.memory.base, release.frame);
    let first = bit_of_frame(a, release.frame);
    let bits = a.bits_for(count) as usize;
    fill(tables.marks, page.0, count, Kind::Free.mark(0));
    fill(tables.words, page.0, count, 0);
    put_run(tables.bitmap, start, first.0, bits, false);
    fill(tables.owners, page.0, count, 0);
}

// A grant ends, by its owner: its frames are free, and its bits clear.
pub fn release(
    lent: LentRecord,
    tables: &mut LentTables,
    area: u64,
    frame: Frame,
    count: u64,
    device: u64,
) -> Result<Numbers, Refusal>
    ensures { Answers (λ m. release m area frame count device) lent.entry result tables.old tables.new }
{
    let release = ReleaseRequest {
        area,
        frame,
        count,
        device,
    };
    check_release(lent, tables.read(), release)?;
    free_run(lent, tables, release);
    Ok(Numbers::NONE)
}

// The run at a bit of an area becomes a device's grant: its pages go out, its frames are marked, its bits set, and the device owns its frames.
fn take_run(lent: LentRecord, tables: &mut LentTables, request: GrantRequest, run: Bit)
    requires run { RunFits (record_in lent) (tables_in tables.old) request.area request.count run }
    requires device { request.device < 2 ^ 32 }
    ensures same { SameSlices tables.old tables.new }
    ensures taken { tables_in tables.new ≡ take_run (record_in lent.entry) (tables_in tables.old) request.area request.count run request.device }
{
    let count = request.count;
    let a = area_at(lent.areas, request.area as usize);
    let start = bitmap_start(lent.areas, request.area);
    let page = place_of(lent.memory.base, frame_of_bit(a, run));
    let bits = a.bits_for(count) as usize;
    move_out(lent, tables.marks, tables.words, request.area, page, count);
    mark_run(tables.marks, tables.words, page, count);
    put_run(tables.bitmap, start, run.0, bits, true);
    fill(tables.owners, page.0, count, request.device as u32);
}

// A grant whose arguments are right: the lowest run that can be granted, where there is one and its pages have somewhere to go.
fn choose_run(
    lent: LentRecord,
    tables: ReadTables,
    request: GrantRequest,
) -> Result<ChosenRun, Refusal>
    requires { Passed (take 2 (grant_checks (record_in lent) request.area request.count request.align request.device (tables_read tables))) }
    ensures { Chooses (record_in lent.entry) (tables_read tables.entry) request result }
{
    let base = lent.memory.base;
    let area = area_at(lent.areas, request.area as usize);
    let run = find_run(lent, tables.marks, tables.bitmap, request).ok_or(Refusal::NoRun)?;
    let first = frame_of_bit(area, run);
    let moved = count_movable(tables.marks, place_of(base, first), request.count);
    if !has_free_outside(tables.marks, base, area, moved) {
        return Err(Refusal::NoTarget);
    }
    Ok(ChosenRun { run, first, moved })
}

// The lowest run that can be granted is a device's, and its movable pages stand elsewhere.
pub fn grant(
    lent: LentRecord,
    tables: &mut LentTables,
    area: u64,
    count: u64,
    align: u64,
    device: u64,
) -> Result<Numbers, Refusal>
    ensures { Answers (λ m. grant m area count align device) lent.entry result tables.old tables.new }
{
    let request = GrantRequest {
        area,
        count,
        align,
        device,
    };
    check_grant(lent, tables.read(), request)?;
    let chosen = choose_run(lent, tables.read(), request)?;
    take_run(lent, tables, request, chosen.run);
    Ok(Numbers {
        first: chosen.first.0,
        second: chosen.moved,
    })
}
