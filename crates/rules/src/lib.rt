// The plain data of a machine, the rules of document 01 as definitions over it, and what is proved of them: the promises in plain quantifiers,
// and the ledger of demand 3 over every list of calls. The contracts of the crates above cite these definitions.
#![tactic(auto)]

ghost use Rattle.std.specs.Prelude.{◌≡◌};
ghost use Rattle.rules.specs.Counters.{no_grants, after_grant, after_boot, since};
ghost use Rattle.rules.specs.Record.{fresh_record};

use answer::Refusal;
use frames::{Area, Frame};

// What a record says of memory, but for its areas' numbers.
#[derive(Clone, Copy)]
pub struct Memory {
    // The first physical frame (document 01's P).
    pub base: Frame,
    // How many frames there are (n).
    pub frames: u64,
    // The block order (b): areas begin and end on a block of 2^b frames.
    pub block_order: u64,
    // How many of the area records are in use.
    pub declared: u64,
}

// The machine record, which each call takes and hands back, but for its counters: its memory by value, and the numbers of its areas lent, so that
// no call but a boot copies them. They are one flat array, as a caller in C lends them. Held by value where a program keeps it between calls; a call
// is lent its areas (`LentRecord`).
#[derive(Clone, Copy)]
pub struct Record {
    pub memory: Memory,
    pub areas: [u64; Record::AREA_NUMBERS],
}

// A record whose areas are lent, for a call that looks at it alone. It is copied, as tables that are lent to be written cannot be, so these stand
// beside it.
#[derive(Clone, Copy)]
pub struct LentRecord<'a> {
    pub memory: Memory,
    pub areas: &'a [u64],
}

impl Record {
    // The limits that a record and its calls keep to: document 01's first table, with the frames and areas of document 02, request (v).
    pub const LEAST_FRAMES: u64 = 1;

    pub const MOST_FRAMES: u64 = 262144;

    pub const LEAST_BASE: u64 = 1;

    pub const MOST_END: u64 = 68719476736;

    pub const MOST_BLOCK_ORDER: u64 = 10;

    // The scans of `frames` list areas, so that it stands there.
    pub const MOST_AREAS: u64 = Area::MOST as u64;

    pub const LEAST_NAME: u64 = 1;

    pub const MOST_NAME: u64 = 536870911;

    pub const LEAST_DEVICE: u64 = 1;

    pub const MOST_DEVICE: u64 = 65535;

    pub const MOST_ALIGN_ORDER: u64 = 16;

    // Numbers of a text keep to it too.
    pub const MOST_BYTES: u64 = text::numbers::MOST_BYTES;

    pub const PAGE_BYTES: u64 = 4096;

    // How many numbers the areas take, in use or not.
    pub const AREA_NUMBERS: usize = Record::MOST_AREAS as usize * Area::NUMBERS;

    // All zeros, which is the wrong shape.
    pub fn fresh() -> Self
        ensures { result ≡ fresh_record }
    {
        let memory = Memory {
            base: Frame(0),
            frames: 0,
            block_order: 0,
            declared: 0,
        };
        Self {
            memory,
            areas: [0; Record::AREA_NUMBERS],
        }
    }
}

// The record's counters since the last accepted boot: how many grants were accepted, and how many were refused with another number than that of
// the wrong shape. They wrap on purpose after 4,294,967,295. No call but a grant and a boot changes them, and none looks at them.
#[derive(Clone, Copy, Default)]
pub struct Counters {
    pub granted: u32,
    pub refused: u32,
}

impl Counters {
    pub fn zero() -> Self
        ensures { result ≡ no_grants }
    {
        Self::default()
    }

    // After a grant that was answered with this number, 0 where it is done. It is the number that an answer has, of whatever refusal.
    #[tactic(auto, unfolding(crate::specs::Counters::after_grant))]
    pub fn after_grant(self, number: u64) -> Self
        ensures { result ≡ after_grant number self }
    {
        if number == 0 {
            return Self {
                granted: self.granted.wrapping_add(1),
                ..self
            };
        }
        if number == Refusal::WrongShape as u64 {
            return self;
        }
        Self {
            refused: self.refused.wrapping_add(1),
            ..self
        }
    }

    // After a boot that was answered with this number.
    pub fn after_boot(self, number: u64) -> Self
        ensures { result ≡ after_boot number self }
    {
        if number == 0 {
            return Counters::zero();
        }
        self
    }
}

// How many calls were counted between an earlier reading of a counter and a later one, where they are fewer than 2^32 and no boot that was accepted
// came between.
#[tactic(auto, unfolding(crate::specs::Counters::since))]
pub fn since(later: u32, earlier: u32) -> u32
    ensures { result ≡ since later earlier }
{
    later.wrapping_sub(earlier)
}

// What a declaration asks for: amounts in bytes, the order of the pages per bit (document 01's k), and whether the base is where the area
// must begin. The flag stands beside the base, and is no option of it, since both are numbers of the call: a fixed base of 0 is one too.
#[derive(Clone, Copy)]
pub struct Request {
    pub base: u64,
    pub size: u64,
    pub limit: u64,
    pub alignment: u64,
    pub order_per_bit: u64,
    pub fixed: bool,
}

// A call with its numbers alone. A boot's text and a report's buffer are lent beside it, as the bytes beside a call are in the definition `perform`.
#[derive(Clone, Copy)]
pub enum Call {
    PutMovable {
        name: u64,
    },
    PutFixed {
        name: u64,
    },
    Drop {
        name: u64,
    },
    Pin {
        name: u64,
    },
    Unpin {
        name: u64,
    },
    Store {
        name: u64,
        word: u64,
    },
    Read {
        name: u64,
    },
    Grant {
        area: u64,
        count: u64,
        align: u64,
        device: u64,
    },
    Release {
        area: u64,
        frame: Frame,
        count: u64,
        device: u64,
    },
    DeviceStore {
        frame: Frame,
        word: u64,
        device: u64,
    },
    DeviceRead {
        frame: Frame,
        device: u64,
    },
    Declare {
        request: Request,
    },
    Boot {
        base: Frame,
        frames: u64,
        block_order: u64,
    },
    Report,
}
