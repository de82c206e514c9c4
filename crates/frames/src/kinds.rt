// The kinds of marks.
ghost use Rattle.std.specs.Prelude.{◌%◌, ◌^◌, ◌≡◌};
ghost use Rattle.frames.specs.Marks.{has_kind, field_of, mark_of, kind_number};

// What a frame holds, as its mark says: nothing, a page, which is movable, pinned or fixed, or a frame of a grant, its first or a later one.
// A mark is 8 times its field and its kind's number; the numbers 6 and 7 are unused. It is one number, and no struct of the two, since a caller in
// C lends the marks so.
#[derive(Clone, Copy, Debug, PartialEq, Eq)]
pub enum Kind {
    Free = 0,
    Movable = 1,
    Pinned = 2,
    Fixed = 3,
    Head = 4,
    Later = 5,
}

impl Kind {
    // How many numbers of kinds a mark has room for.
    const NUMBERS: u32 = 8;

    // How many fields.
    const FIELDS: u32 = 1 << 29;

    // The mark is of this kind.
    pub fn is_of(self, mark: u32) -> bool
        ensures { result ≡ has_kind (kind_number self) mark }
    {
        mark % Self::NUMBERS == self as u32
    }

    // The field of a mark, whatever kind it has.
    pub fn field_of(mark: u32) -> u32
        ensures { result ≡ field_of mark }
    {
        mark / Self::NUMBERS
    }

    // The mark of a field and this kind. Of a field that is longer than a mark has room for, it has the lowest 29 bits.
    pub fn mark(self, field: u32) -> u32
        ensures { result ≡ mark_of (field % 2 ^ 29) (kind_number self) }
    {
        Self::NUMBERS * (field % Self::FIELDS) + self as u32
    }
}
