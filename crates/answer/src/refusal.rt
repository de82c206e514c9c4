// The refusals by name, each with its number in document 01.
ghost use Rattle.std.specs.Prelude.{◌≡◌};
ghost use Rattle.answer.specs.Answers.{number_of};

#[derive(Clone, Copy, Debug, PartialEq, Eq)]
pub enum Refusal {
    // The record, or the tables lent with it, do not have the shape that every call but boot asks.
    WrongShape = 1,
    // An argument is outside its range.
    OutOfRange = 2,
    // No live page or grant is there.
    NotLive = 3,
    // A page of that name is live already.
    NameLive = 4,
    // The page's kind does not allow the call.
    KindForbids = 5,
    // No frame is free for the page that is put.
    NoFrame = 6,
    // No run can be granted.
    NoRun = 7,
    // The run's movable pages have nowhere to go.
    NoTarget = 8,
    // The release does not name the grant as it was made.
    ReleaseDisagrees = 9,
    // The record holds as many areas as it can.
    AreasFull = 10,
    // The area's pages per bit are more than a block; or a limit was given that rounds down to 0, or that a fixed range ends above, the
    // limit being cut to memory.
    OrderOrLimit = 11,
    // A fixed range has a frame that is not free, or is in an area.
    RangeNotFree = 12,
    // The area has no place in memory.
    NoPlace = 13,
    // The bitmap slice is too short for one more area.
    BitmapTooShort = 14,
    // The device is not the owner of the frame named.
    NotOwner = 15,
    // The buffer has no room for the report.
    BufferTooShort = 16,
    // Regions text: the first byte, or the end, that cannot continue.
    UnexpectedByte = 20,
    // Regions text: a number that its place does not allow.
    BadAmount = 21,
    // Regions text: the name of an earlier region.
    NameRepeated = 22,
    // Regions text: a byte after the last region that can be held.
    TooManyRegions = 23,
    // Regions text: more bytes than are read.
    TextTooLong = 24,
    // Regions text: an allocator that is not known.
    UnknownAllocator = 25,
}

impl From<Refusal> for u64 {
    ghost from_gives = { λ refusal number. number ≡ number_of refusal };

    fn from(refusal: Refusal) -> u64 {
        refusal as u64
    }
}
