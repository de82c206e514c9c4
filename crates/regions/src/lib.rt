// The regions text: which areas a boot declares.
#![tactic(auto)]

ghost use Rattle.std.specs.Prelude.{◌≡◌, ◌+◌, ◌≤◌, ◌<◌, slice_set, replicate};
ghost use Rattle.regions.specs.Amounts.{is_alignment};
ghost use Rattle.regions.specs.Result.{no_region};
ghost use Rattle.regions.specs.Text.{most_regions};

mod amounts;
mod list;
mod names;
mod parts;
mod reader;

pub use reader::read_regions;

// The longest text, in bytes.
pub const MOST_TEXT: usize = 8192;

// How many regions a text may give.
pub const MOST_REGIONS: usize = 64;

// A region of the text: where its name stands and how long it is, and its amounts in bytes. A name is its place and length: two names of one text
// are compared. An amount that is not given is 0, as one given as 0 is: the rules do not tell them apart.
#[derive(Clone, Copy, Debug, PartialEq, Eq, Default)]
pub struct Region {
    pub name: usize,
    pub length: usize,
    pub size: u64,
    pub start: u64,
    pub alignment: u64,
}

// The regions that a text gives: the first `count` of the list. Entries after the count are all zero. An array and its count, since there is no
// heap.
#[derive(Clone, Copy)]
pub struct Regions {
    pub count: usize,
    pub list: [Region; MOST_REGIONS],
    pub ghost few: { count ≤ most_regions },
}

impl Regions {
    ghost use Rattle.regions.specs.Steps.Progress.{held};

    // No regions.
    fn none() -> Regions
        ensures count { result.count ≡ 0 }
        ensures list { result.list ≡ replicate most_regions no_region }
    {
        Regions {
            count: 0,
            list: [Region::default(); MOST_REGIONS],
        }
    }

    pub fn as_slice(&self) -> &[Region]
        ensures { result.now ≡ held self.now }
    {
        &self.list[..self.count]
    }

    // One region more, after the others.
    fn push(&mut self, region: Region)
        requires { self.old.count < most_regions }
        ensures count { self.new.count ≡ self.old.count + 1 }
        ensures list { self.new.list ≡ slice_set self.old.list self.old.count region }
    {
        self.list[self.count] = region;
        self.count += 1;
    }
}

// An alignment is 0, where none is asked, or a power of two.
pub fn is_alignment(x: u64) -> bool
    ensures { result ≡ is_alignment x }
{
    x == 0 || x.is_power_of_two()
}
