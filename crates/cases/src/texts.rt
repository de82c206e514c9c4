// Regions texts, one a line: what reading each gives, what a boot of machine A with it answers, and the areas that the machine then has.
ghost use Rattle.frames.specs.Lent.{SameSlices};
ghost use Rattle.cases.specs.Steps.Texts.{Ends, Writes};

use crate::next_line;
use answer::{Answer, Refused};
use frames::{Frame, LentTables, area_at};
use machine::Machine;
use playback::Held;
use regions::Regions;
use rules::{Counters, Record};
use text::writing::Writer;

// The frames of machine A.
const FRAMES: usize = 32;

// A word and three numbers, with a space before each.
#[tactic(auto, using(text::proofs::Within::writer_within))]
fn put_three(out: &mut Writer, word: &[u8], numbers: [u64; 3])
    requires { Ends out.old }
    ensures { Writes out.old out.new }
{
    out.put_bytes(word);
    for number in numbers {
        out.put_bytes(b" ");
        out.put_number(number);
    }
}

// The first frame, the count and the order of pages per bit of each area that is in use.
fn put_areas(out: &mut Writer, areas: &[u64], declared: u64)
    requires { Ends out.old }
    ensures { Writes out.old out.new }
{
    for i in 0..declared as usize {
        let area = area_at(areas, i);
        put_three(out, b" area", [area.base.0, area.count, area.order_per_bit]);
    }
}

// What reading a text gave: its refusal and place, or how many regions there are, and their amounts.
fn put_read(out: &mut Writer, read: Result<Regions, Refused>)
    requires { Ends out.old }
    ensures { Writes out.old out.new }
{
    match read {
        Ok(regions) => {
            put_three(out, b"read", [0, 0, regions.count as u64]);
            for region in regions.as_slice() {
                put_three(
                    out,
                    b" region",
                    [region.size, region.start, region.alignment],
                );
            }
        }
        Err(refused) => put_three(
            out,
            b"read",
            [u64::from(refused.refusal), refused.place as u64, 0],
        ),
    }
}

// What a boot with a text answers, and the areas that the machine then has.
fn put_boot(out: &mut Writer, tables: &mut LentTables, text: &[u8])
    requires { Ends out.old }
    ensures { Writes out.old out.new × SameSlices tables.old tables.new }
{
    let fresh = Record::fresh();
    let mut areas = fresh.areas;
    let machine = Machine {
        memory: fresh.memory,
        counters: Counters::zero(),
    };
    let returned = machine.boot(&mut areas, tables, Frame(4), FRAMES as u64, 2, text);
    let told = Answer::from(returned.answer);
    put_three(out, b" boot", [told.refusal, told.first, told.second]);
    put_areas(out, &areas, returned.machine.memory.declared);
}

// A line for a text.
#[tactic(auto, using(text::proofs::Within::writer_within))]
fn put_text(out: &mut Writer, tables: &mut LentTables, text: &[u8])
    requires { Ends out.old }
    ensures { Writes out.old out.new × SameSlices tables.old tables.new }
{
    put_read(out, regions::read_regions(text));
    put_boot(out, tables, text);
    out.put_bytes(b"\n");
}

// A line for each text. The tables are not cleared in between: a boot zeroes them.
pub fn answer_texts(list: &[u8], out: &mut Writer)
    requires { Ends out.old }
    ensures { Writes out.old out.new }
{
    let mut held = Held::zero();
    let mut tables = LentTables {
        marks: &mut held.marks[0..FRAMES],
        words: &mut held.words[0..FRAMES],
        bitmap: &mut held.bitmap,
        owners: &mut held.owners[0..FRAMES],
    };
    let mut rest = list;
    while let Some((text, after)) = next_line(rest) {
        put_text(out, &mut tables, text);
        rest = after;
    }
}
