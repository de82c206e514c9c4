// Declaring areas: where an area goes, and the record and bitmap that know of it afterwards; and boot, which declares those of a regions
// text.
#![tactic(auto)]

ghost use Rattle.std.specs.Prelude.{◌≡◌, ◌≤◌, length};
ghost use Rattle.answer.specs.Answers.{answer_of, answer_at};
ghost use Rattle.frames.specs.Areas.{word_count, first_word};
ghost use Rattle.frames.specs.Tables.{fill, tables};
ghost use Rattle.rules.specs.declared.Memory.{Memory as RecordMemory};
ghost use Rattle.rules.specs.Does.{Returns, ReturnsOn, with_all_areas};
ghost use Rattle.rules.specs.Declare.{declare};
ghost use Rattle.rules.specs.Boot.{boot};
ghost use Rattle.setup.specs.Laid.{memory_after, numbers_in};

mod amounts;
mod place;
mod plan;
mod start;
mod units;

use answer::{Numbers, Refusal, Refused};
use frames::{Area, Frame, LentTables, ReadTables, fill, first_word};
use plan::{plan_area, with_area};
use rules::{LentRecord, Memory, Record, Request};
use shape::shape_right;
use start::{is_bootable, plan_text};

// What a declaration or a boot that is done hands back: the record's memory, and the two numbers that it answers. The areas' numbers of the record
// stand where they were lent.
#[derive(Clone, Copy)]
pub struct Laid {
    pub memory: Memory,
    pub numbers: Numbers,
}

// The bitmap words of one more area become 0.
fn clear_words(lent: LentRecord, bitmap: &mut [u64], area: Area)
    requires { first_word lent.areas.now lent.memory.declared ≤ length bitmap.old }
    ensures { bitmap.new ≡ fill bitmap.old (first_word lent.entry.areas.now lent.entry.memory.declared) (word_count area) 0 }
{
    let from = first_word(lent.areas, lent.memory.declared);
    fill(bitmap, from as usize, area.words(), 0);
}

// A new area, where the request says or at the highest place that it can have. Its bitmap words become 0. The numbers of all areas are to be
// lent, since those of the new one are written among them. Of the tables it changes the bitmap alone, so they are lent one by one.
pub fn declare(
    memory: Memory,
    areas: &mut [u64],
    marks: &[u32],
    words: &[u64],
    bitmap: &mut [u64],
    owners: &[u32],
    request: Request,
) -> Result<Laid, Refusal>
    ensures { ReturnsOn (with_all_areas (λ m. declare m request)) memory areas.old (memory_after memory result) areas.new (answer_of (numbers_in result)) (tables marks.now words.now bitmap.old owners.now) (tables marks.now words.now bitmap.new owners.now) }
{
    if areas.len() != Record::AREA_NUMBERS {
        return Err(Refusal::WrongShape);
    }
    let lent = LentRecord {
        memory,
        areas: &*areas,
    };
    let tables = ReadTables {
        marks,
        words,
        bitmap: &*bitmap,
        owners,
    };
    if !shape_right(lent, tables) {
        return Err(Refusal::WrongShape);
    }
    let area = plan_area(lent, marks, bitmap, request)?;
    clear_words(lent, bitmap, area);
    Ok(Laid {
        memory: with_area(memory, areas, area),
        numbers: Numbers {
            first: area.base.0,
            second: area.count,
        },
    })
}

// A new record, whatever was there. The regions are declared as if every frame were free: of the marks none is lent to the plan.
pub fn boot(
    areas: &mut [u64],
    tables: &mut LentTables,
    base: Frame,
    frames: u64,
    block_order: u64,
    text: &[u8],
) -> Result<Laid, Refused>
    ensures { (memory : RecordMemory) → Returns (with_all_areas (λ m. boot m base.0 frames block_order text.now)) memory areas.old (memory_after memory result) areas.new (answer_at (numbers_in result)) tables.old tables.new }
{
    let bare = Memory {
        base,
        frames,
        block_order,
        declared: 0,
    };
    if !is_bootable(bare, areas, tables.read()) {
        return Err(Refused::from(Refusal::WrongShape));
    }
    // The new record's areas are planned in numbers of their own: a refusal changes none that were lent.
    let mut planned = [0; Record::AREA_NUMBERS];
    let bitmap = &mut *tables.bitmap;
    let memory = plan_text(bare, &mut planned, bitmap, text)?;
    tables.marks.fill(0);
    tables.words.fill(0);
    bitmap.fill(0);
    tables.owners.fill(0);
    areas.copy_from_slice(&planned);
    Ok(Laid {
        memory,
        numbers: Numbers::NONE,
    })
}
