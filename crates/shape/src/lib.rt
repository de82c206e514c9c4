// The shape of a record and of the tables lent with it, for any field values and any lengths. Every call but boot checks it first, so the
// record's areas are lent, and none is copied.
#![tactic(auto)]

ghost use Rattle.std.specs.Prelude.{◌+◌, ◌^◌, ◌≤◌, ◌≡◌, true};
ghost use Rattle.search.specs.Search.{every};
ghost use Rattle.frames.specs.Areas.{is_multiple, area_in, end_of, are_disjoint};
ghost use Rattle.frames.specs.Lent.{tables_read};
ghost use Rattle.rules.specs.Limits.{most_end, most_block_order};
ghost use Rattle.rules.specs.Shape.{memory_right, lengths_right, area_right, area_fits, shape_right};
ghost use Rattle.rules.specs.Does.{record_in};
ghost use Rattle.shape.specs.Steps.Rooms.{lies_in, IsFree, PartBeside, Surrounds, Tells};

use frames::{Area, Frame, ReadTables, area_at, first_word};
use rules::{LentRecord, Memory, Record};

// Room for areas: frames in a row that none passed so far holds, the first, and the one after the last.
#[derive(Clone, Copy)]
struct Room {
    from: Frame,
    end: Frame,
}

// The first frame, the number of frames and the block order keep to their limits: three numbers and no memory, as the definition takes them.
pub fn memory_right(base: Frame, frames: u64, block_order: u64) -> bool
    ensures { result ≡ memory_right base.0 frames block_order }
{
    let first = base.0;
    Record::LEAST_BASE <= first
        && Record::LEAST_FRAMES <= frames
        && frames <= Record::MOST_FRAMES
        && first.saturating_add(frames) <= Record::MOST_END
        && block_order <= Record::MOST_BLOCK_ORDER
}

// Two areas share no frame. An end may lie past the largest number, so none is computed. Which begins first is asked once, and as `past_other`
// asks it, so that the compiler asks once for both; that they begin together is asked where all else fails.
fn apart(a: Area, c: Area) -> bool
    ensures { result ≡ are_disjoint a c }
{
    if a.base.0 <= c.base.0 {
        return a.count <= c.base.0 - a.base.0 || a.base.0 == c.base.0 && c.count == 0;
    }
    c.count <= a.base.0 - c.base.0
}

// A number of frames is whole blocks of an order.
fn is_whole_blocks(frames: u64, order: u64) -> bool
    requires { order ≤ most_block_order }
    ensures { result ≡ is_multiple frames (2 ^ order) }
{
    frames & ((1u64 << order) - 1) == 0
}

// An area has a frame, no more than a block to a bit, begins and ends on a block, and lies in memory. That the
// memory keeps to its limits is a clause: a record is any numbers, so its type cannot say it.
fn area_right(memory: Memory, a: Area) -> bool
    requires { memory_right memory.base.0 memory.frames memory.block_order ≡ true }
    ensures { result ≡ area_right memory a }
{
    let order = memory.block_order;
    1 <= a.count
        && a.order_per_bit <= order
        && is_whole_blocks(a.base.0, order)
        && is_whole_blocks(a.count, order)
        && memory.base.0 <= a.base.0
        && a.base.0.saturating_add(a.count) <= memory.base.0 + memory.frames
}

// The area lies in the room.
fn lies_in(a: Area, room: Room) -> bool
    requires { end_of a ≤ most_end }
    ensures { result ≡ lies_in a room }
{
    room.from.0 <= a.base.0 && a.base.0 + a.count <= room.end.0
}

// The larger part that an area in a room leaves of it, below the area or above.
fn larger_part(a: Area, room: Room) -> Room
    requires { lies_in a room ≡ true }
    ensures { PartBeside a room result }
{
    let from = room.from;
    let first = a.base;
    let past = Frame(first.0 + a.count);
    let end = room.end;
    if end.0 - past.0 < first.0 - from.0 {
        return Room { from, end: first };
    }
    Room { from: past, end }
}

// The part of a room around an area in it that another, which is apart from that area, leaves.
fn past_other(room: Room, a: Area, other: Area) -> Room
    requires room_value { (lies_in a room ≡ true) × (1 ≤ a.count) }
    requires a_value { are_disjoint other a ≡ true }
    ensures part_beside { PartBeside other room result }
    ensures result_value { lies_in a result ≡ true }
{
    let from = room.from;
    let end = room.end;
    if other.base.0 <= a.base.0 {
        let past = Frame(other.base.0 + other.count);
        return Room {
            from: Frame(from.0.max(past.0)),
            end,
        };
    }
    Room {
        from,
        end: Frame(end.0.min(other.base.0)),
    }
}

// Area i beside each of those before it: where it is apart from them, what lies around it, from one of them to the next or to an end of all
// frames.
fn room_around(areas: &[u64], i: usize, a: Area, all: Room) -> Option<Room>
    requires { (a ≡ area_in areas.now i) × (1 ≤ a.count) × (lies_in a all ≡ true) }
    ensures { Surrounds areas.now i result }
{
    let mut room = all;
    // Area i has a frame, so all numbers of those before it are there: the bound changes nothing, but the compiler tests no length for each of them.
    for k in 0..i.min(areas.len() / Area::NUMBERS) {
        let other = area_at(areas, k);
        if !apart(other, a) {
            return None;
        }
        room = past_other(room, a, other);
    }
    Some(room)
}

// Area i, where a room is free of those before it: if it lies there it is apart from them, at one look. Where it is apart from them, of the room
// where it lies the larger part that it leaves is kept.
fn room_left(areas: &[u64], i: usize, a: Area, room: Room, all: Room) -> Option<Room>
    requires a_value { (a ≡ area_in areas.now i) × (end_of a ≤ most_end) }
    requires all_value { (lies_in a all ≡ true) × (1 ≤ a.count) }
    requires free { IsFree areas.now i room }
    ensures { Tells areas.now i result }
{
    if lies_in(a, room) {
        return Some(larger_part(a, room));
    }
    let around = room_around(areas, i, a, all)?;
    Some(larger_part(a, around))
}

// Every declared area is right, and they are apart. Areas that follow one another upwards or downwards mostly lie in the room that is kept,
// also with a few others before or among them.
fn areas_fit(lent: LentRecord) -> bool
    requires { memory_right lent.memory.base.0 lent.memory.frames lent.memory.block_order ≡ true }
    ensures { result ≡ every (area_fits (record_in lent.entry)) 0 lent.entry.memory.declared }
{
    let memory = lent.memory;
    let all = Room {
        from: memory.base,
        end: Frame(memory.base.0 + memory.frames),
    };
    let mut room = all;
    for i in 0..memory.declared as usize {
        let a = area_at(lent.areas, i);
        if !area_right(memory, a) {
            return false;
        }
        let Some(left) = room_left(lent.areas, i, a, room, all) else {
            return false;
        };
        room = left;
    }
    true
}

// Marks, words and owners have an entry for each frame.
pub fn lengths_right(frames: u64, tables: ReadTables) -> bool
    ensures { result ≡ lengths_right frames (tables_read tables.entry) }
{
    tables.marks.len() as u64 == frames
        && tables.words.len() as u64 == frames
        && tables.owners.len() as u64 == frames
}

// Whether a record has the shape that every call but boot asks, with these tables. The tests return one by one, since the next rests on the one before:
// areas are judged in a memory that keeps to its limits, and their words are counted where they fit.
pub fn shape_right(lent: LentRecord, tables: ReadTables) -> bool
    ensures { result ≡ shape_right (record_in lent.entry) (tables_read tables.entry) }
{
    let memory = lent.memory;
    if !memory_right(memory.base, memory.frames, memory.block_order) {
        return false;
    }
    if Record::MOST_AREAS < memory.declared || !lengths_right(memory.frames, tables) {
        return false;
    }
    if !areas_fit(lent) {
        return false;
    }
    first_word(lent.areas, memory.declared) <= tables.bitmap.len() as u64
}
