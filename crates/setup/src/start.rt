// What a boot comes to before any table is changed: a record from three numbers and a regions text.
ghost use Rattle.std.specs.Prelude.{◌≡◌, ◌&&◌, length};
ghost use Rattle.frames.specs.Lent.{tables_read};
ghost use Rattle.regions.specs.Steps.Progress.{held};
ghost use Rattle.rules.specs.Shape.{memory_right, lengths_right};
ghost use Rattle.rules.specs.Does.{record_with, has_all_areas};
ghost use Rattle.rules.specs.Boot.{request_of, declare_all, boot_record};
ghost use Rattle.setup.specs.Steps.Boot.{clear_tables, IsBare, Starts};

use crate::plan::{plan_area, with_area};
use answer::Refused;
use frames::ReadTables;
use regions::{Region, Regions, read_regions};
use rules::{LentRecord, Memory, Record, Request};
use shape::{lengths_right, memory_right};

// A region's declaration: a nonzero start is fixed.
fn request_of(region: Region) -> Request
    ensures { result ≡ request_of region }
{
    Request {
        base: region.start,
        size: region.size,
        limit: 0,
        alignment: region.alignment,
        order_per_bit: 0,
        fixed: region.start != 0,
    }
}

// The memory keeps to its limits, the numbers of all areas are lent, and marks, words and owners have an entry for each frame.
// What is asked is no record yet, so memory and areas come apart.
pub(crate) fn is_bootable(memory: Memory, areas: &[u64], tables: ReadTables) -> bool
    ensures { result ≡ (has_all_areas (record_with memory areas.now) && (memory_right memory.base.0 memory.frames memory.block_order && lengths_right memory.frames (tables_read tables.entry))) }
{
    areas.len() == Record::AREA_NUMBERS
        && memory_right(memory.base, memory.frames, memory.block_order)
        && lengths_right(memory.frames, tables)
}

// The regions planned in turn, each with the areas before it, from a record that has none on: the memory then. A refusal gives the region's index. No
// mark is lent, so that every frame is free.
fn plan_regions(
    bare: Memory,
    areas: &mut [u64],
    bitmap: &[u64],
    regions: Regions,
) -> Result<Memory, Refused>
    requires { IsBare bare areas.old }
    ensures { Starts (declare_all (held regions) 0 (record_with bare areas.old) (clear_tables bare.frames (length bitmap.now))) result areas.new }
{
    let mut memory = bare;
    for (i, region) in regions.as_slice().iter().enumerate() {
        let lent = LentRecord {
            memory,
            areas: &*areas,
        };
        // A match adds the index: with `map_err` and `?` the proof of the contract did not close.
        let area = match plan_area(lent, &[], bitmap, request_of(*region)) {
            Ok(area) => area,
            Err(refusal) => return Err(Refused { refusal, place: i }),
        };
        memory = with_area(memory, areas, area);
    }
    Ok(memory)
}

// What a text comes to on a record that has no areas: a refusal, or the memory of the record with those of the text.
pub(crate) fn plan_text(
    bare: Memory,
    areas: &mut [u64],
    bitmap: &[u64],
    text: &[u8],
) -> Result<Memory, Refused>
    requires { IsBare bare areas.old }
    ensures { Starts (boot_record bare.base.0 bare.frames bare.block_order text.now (clear_tables bare.frames (length bitmap.now))) result areas.new }
{
    plan_regions(bare, areas, bitmap, read_regions(text)?)
}
