// Page frames, the areas that are reserved among them, and the marks that say what each frame holds.
#![tactic(auto)]

ghost use Rattle.std.specs.Prelude.{◌≡◌};
ghost use Rattle.frames.specs.Lent.{tables_in, tables_read};

mod areas;
mod fills;
mod kinds;
mod marks;
mod order;
mod scans;
mod targets;
mod units;
mod walk;

pub use areas::{area_at, first_word, set_area};
pub use fills::fill;
pub use kinds::Kind;
pub use marks::{
    are_later, count_granted, count_movable, find_free, find_free_ordinary, find_page, first_stuck,
};
pub use order::OrderedAreas;
pub use targets::{Seeking, has_free_outside};
pub use units::{frame_at, place_of};

// A physical frame number. Frames, places and bits are compared by their numbers, as the definitions compare them.
#[derive(Clone, Copy)]
pub struct Frame(pub u64);

// A place in the tables: the physical frame less the machine's first.
#[derive(Clone, Copy, Default)]
pub struct Place(pub usize);

// A bit number in an area's bitmap, from 0.
#[derive(Clone, Copy)]
pub struct Bit(pub usize);

// The tables that a call is lent: a mark and a content word for each frame, the bitmap's words, and for each frame the device that owns it. They
// are four slices, and no slice of a struct for each frame, since a caller in C lends them so; what is in them is numbers for the same reason: a
// mark that is 0 is free, and an owner that is 0 is none.
#[derive(Drop)]
pub struct LentTables<'a> {
    pub marks: &'a mut [u32],
    pub words: &'a mut [u64],
    pub bitmap: &'a mut [u64],
    pub owners: &'a mut [u32],
}

// The same tables, lent to be read: a call that changes none of them asks for no more.
#[derive(Clone, Copy)]
pub struct ReadTables<'a> {
    pub marks: &'a [u32],
    pub words: &'a [u64],
    pub bitmap: &'a [u64],
    pub owners: &'a [u32],
}

impl LentTables<'_> {
    // The tables as a call is lent them that looks alone.
    pub fn read(&self) -> ReadTables<'_>
        ensures { tables_read result ≡ tables_in self.now }
    {
        ReadTables {
            marks: self.marks,
            words: self.words,
            bitmap: self.bitmap,
            owners: self.owners,
        }
    }
}

// A reserved area: its first frame, its count of frames, and the order of its pages per bit, 2^order_per_bit (Linux's name; document
// 01's k).
#[derive(Clone, Copy)]
pub struct Area {
    pub base: Frame,
    pub count: u64,
    pub order_per_bit: u64,
}

impl Area {
    // How many numbers an area takes in a record: its first frame, its count, and its order of pages per bit.
    pub const NUMBERS: usize = 3;

    // How many a record has room for.
    pub const MOST: usize = 64;
}
