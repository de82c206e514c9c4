// The exported functions, one for each call: each makes its call of its numbers and hands it to `exchange::call`. Frames are physical frame
// numbers. `szk_since` is no call: it is lent nothing. They are alike because the C interface has one function for each call, each with the slices
// and the numbers of its own.
ghost use Rattle.std.specs.Prelude.{not, ◌≡◌, [], eqb};
ghost use Rattle.frames.specs.Tables.{tables};
ghost use Rattle.frames.specs.Units.{frame as frame_of};
ghost use Rattle.rules.specs.declared.Call.TheVariants as Call;
ghost use Rattle.rules.specs.Counters.{since};
ghost use Rattle.szk.specs.Exported.{handed, Exports, buffer_left};

use crate::exchange;
use frames::{Frame, LentTables};
use rules::{Call, Request};

// A movable page is put.
#[unsafe(no_mangle)]
pub extern "C" fn szk_put_movable(
    numbers: &mut [u64],
    marks: &mut [u32],
    words: &mut [u64],
    bitmap: &mut [u64],
    owners: &mut [u32],
    answer: &mut [u64],
    name: u64,
)
    ensures { Exports (Call.PutMovable name) [] numbers marks words bitmap owners answer }
{
    let call = Call::PutMovable { name };
    let mut tables = LentTables {
        marks,
        words,
        bitmap,
        owners,
    };
    exchange::call(numbers, &mut tables, answer, call, b"", &mut []);
}

// A fixed page is put, which no area takes.
#[unsafe(no_mangle)]
pub extern "C" fn szk_put_fixed(
    numbers: &mut [u64],
    marks: &mut [u32],
    words: &mut [u64],
    bitmap: &mut [u64],
    owners: &mut [u32],
    answer: &mut [u64],
    name: u64,
)
    ensures { Exports (Call.PutFixed name) [] numbers marks words bitmap owners answer }
{
    let call = Call::PutFixed { name };
    let mut tables = LentTables {
        marks,
        words,
        bitmap,
        owners,
    };
    exchange::call(numbers, &mut tables, answer, call, b"", &mut []);
}

// A page is gone from its frame, unless it is pinned.
#[unsafe(no_mangle)]
pub extern "C" fn szk_drop(
    numbers: &mut [u64],
    marks: &mut [u32],
    words: &mut [u64],
    bitmap: &mut [u64],
    owners: &mut [u32],
    answer: &mut [u64],
    name: u64,
)
    ensures { Exports (Call.Drop name) [] numbers marks words bitmap owners answer }
{
    let call = Call::Drop { name };
    let mut tables = LentTables {
        marks,
        words,
        bitmap,
        owners,
    };
    exchange::call(numbers, &mut tables, answer, call, b"", &mut []);
}

// A movable page is pinned.
#[unsafe(no_mangle)]
pub extern "C" fn szk_pin(
    numbers: &mut [u64],
    marks: &mut [u32],
    words: &mut [u64],
    bitmap: &mut [u64],
    owners: &mut [u32],
    answer: &mut [u64],
    name: u64,
)
    ensures { Exports (Call.Pin name) [] numbers marks words bitmap owners answer }
{
    let call = Call::Pin { name };
    let mut tables = LentTables {
        marks,
        words,
        bitmap,
        owners,
    };
    exchange::call(numbers, &mut tables, answer, call, b"", &mut []);
}

// A pinned page is movable again.
#[unsafe(no_mangle)]
pub extern "C" fn szk_unpin(
    numbers: &mut [u64],
    marks: &mut [u32],
    words: &mut [u64],
    bitmap: &mut [u64],
    owners: &mut [u32],
    answer: &mut [u64],
    name: u64,
)
    ensures { Exports (Call.Unpin name) [] numbers marks words bitmap owners answer }
{
    let call = Call::Unpin { name };
    let mut tables = LentTables {
        marks,
        words,
        bitmap,
        owners,
    };
    exchange::call(numbers, &mut tables, answer, call, b"", &mut []);
}

// The word becomes the page's, unless it is pinned.
#[unsafe(no_mangle)]
pub extern "C" fn szk_store(
    numbers: &mut [u64],
    marks: &mut [u32],
    words: &mut [u64],
    bitmap: &mut [u64],
    owners: &mut [u32],
    answer: &mut [u64],
    name: u64,
    word: u64,
)
    ensures { Exports (Call.Store name word) [] numbers marks words bitmap owners answer }
{
    let call = Call::Store { name, word };
    let mut tables = LentTables {
        marks,
        words,
        bitmap,
        owners,
    };
    exchange::call(numbers, &mut tables, answer, call, b"", &mut []);
}

// Answers the page's frame and its word.
#[unsafe(no_mangle)]
pub extern "C" fn szk_read(
    numbers: &mut [u64],
    marks: &mut [u32],
    words: &mut [u64],
    bitmap: &mut [u64],
    owners: &mut [u32],
    answer: &mut [u64],
    name: u64,
)
    ensures { Exports (Call.Read name) [] numbers marks words bitmap owners answer }
{
    let call = Call::Read { name };
    let mut tables = LentTables {
        marks,
        words,
        bitmap,
        owners,
    };
    exchange::call(numbers, &mut tables, answer, call, b"", &mut []);
}

// A run of frames of an area is granted to a device. Answers its first frame, and how many pages moved out of it.
#[unsafe(no_mangle)]
pub extern "C" fn szk_grant(
    numbers: &mut [u64],
    marks: &mut [u32],
    words: &mut [u64],
    bitmap: &mut [u64],
    owners: &mut [u32],
    answer: &mut [u64],
    area: u64,
    count: u64,
    align: u64,
    device: u64,
)
    ensures { Exports (Call.Grant area count align device) [] numbers marks words bitmap owners answer }
{
    let call = Call::Grant {
        area,
        count,
        align,
        device,
    };
    let mut tables = LentTables {
        marks,
        words,
        bitmap,
        owners,
    };
    exchange::call(numbers, &mut tables, answer, call, b"", &mut []);
}

// A grant ends, by its owner, and its frames are free.
#[unsafe(no_mangle)]
pub extern "C" fn szk_release(
    numbers: &mut [u64],
    marks: &mut [u32],
    words: &mut [u64],
    bitmap: &mut [u64],
    owners: &mut [u32],
    answer: &mut [u64],
    area: u64,
    frame: u64,
    count: u64,
    device: u64,
)
    ensures { Exports (Call.Release area (frame_of frame) count device) [] numbers marks words bitmap owners answer }
{
    let frame = Frame(frame);
    let call = Call::Release {
        area,
        frame,
        count,
        device,
    };
    let mut tables = LentTables {
        marks,
        words,
        bitmap,
        owners,
    };
    exchange::call(numbers, &mut tables, answer, call, b"", &mut []);
}

// A device stores a word in a frame that it owns.
#[unsafe(no_mangle)]
pub extern "C" fn szk_device_store(
    numbers: &mut [u64],
    marks: &mut [u32],
    words: &mut [u64],
    bitmap: &mut [u64],
    owners: &mut [u32],
    answer: &mut [u64],
    frame: u64,
    word: u64,
    device: u64,
)
    ensures { Exports (Call.DeviceStore (frame_of frame) word device) [] numbers marks words bitmap owners answer }
{
    let frame = Frame(frame);
    let call = Call::DeviceStore {
        frame,
        word,
        device,
    };
    let mut tables = LentTables {
        marks,
        words,
        bitmap,
        owners,
    };
    exchange::call(numbers, &mut tables, answer, call, b"", &mut []);
}

// A device reads a frame that it owns. Answers its word.
#[unsafe(no_mangle)]
pub extern "C" fn szk_device_read(
    numbers: &mut [u64],
    marks: &mut [u32],
    words: &mut [u64],
    bitmap: &mut [u64],
    owners: &mut [u32],
    answer: &mut [u64],
    frame: u64,
    device: u64,
)
    ensures { Exports (Call.DeviceRead (frame_of frame) device) [] numbers marks words bitmap owners answer }
{
    let frame = Frame(frame);
    let call = Call::DeviceRead { frame, device };
    let mut tables = LentTables {
        marks,
        words,
        bitmap,
        owners,
    };
    exchange::call(numbers, &mut tables, answer, call, b"", &mut []);
}

// An area is declared, by amounts in bytes. A `fixed` of 0 is no, any other number is yes. Answers its first frame and its count.
#[unsafe(no_mangle)]
pub extern "C" fn szk_declare(
    numbers: &mut [u64],
    marks: &mut [u32],
    words: &mut [u64],
    bitmap: &mut [u64],
    owners: &mut [u32],
    answer: &mut [u64],
    base: u64,
    size: u64,
    limit: u64,
    alignment: u64,
    order_per_bit: u64,
    fixed: u64,
)
    ensures { Exports (Call.Declare (record { base = base; size = size; limit = limit; alignment = alignment; order_per_bit = order_per_bit; fixed = not (eqb fixed 0) })) [] numbers marks words bitmap owners answer }
{
    let request = Request {
        base,
        size,
        limit,
        alignment,
        order_per_bit,
        fixed: fixed != 0,
    };
    let call = Call::Declare { request };
    let mut tables = LentTables {
        marks,
        words,
        bitmap,
        owners,
    };
    exchange::call(numbers, &mut tables, answer, call, b"", &mut []);
}

// A machine starts, with the areas of a regions text. The record lent is ignored, but for its length.
#[unsafe(no_mangle)]
pub extern "C" fn szk_boot(
    numbers: &mut [u64],
    marks: &mut [u32],
    words: &mut [u64],
    bitmap: &mut [u64],
    owners: &mut [u32],
    answer: &mut [u64],
    base: u64,
    frames: u64,
    block_order: u64,
    text: &[u8],
)
    ensures { Exports (Call.Boot (frame_of base) frames block_order) text.now numbers marks words bitmap owners answer }
{
    let base = Frame(base);
    let call = Call::Boot {
        base,
        frames,
        block_order,
    };
    let mut tables = LentTables {
        marks,
        words,
        bitmap,
        owners,
    };
    exchange::call(numbers, &mut tables, answer, call, text, &mut []);
}

// The lines of the memory report, at the front of a buffer. Answers their length.
#[unsafe(no_mangle)]
pub extern "C" fn szk_report(
    numbers: &mut [u64],
    marks: &mut [u32],
    words: &mut [u64],
    bitmap: &mut [u64],
    owners: &mut [u32],
    answer: &mut [u64],
    buffer: &mut [u8],
)
    ensures exports { Exports Call.Report buffer.old numbers marks words bitmap owners answer }
    ensures buffer_after { buffer.new ≡ buffer_left Call.Report buffer.old (handed numbers.old (tables marks.old words.old bitmap.old owners.old) answer.old) }
{
    let mut tables = LentTables {
        marks,
        words,
        bitmap,
        owners,
    };
    exchange::call(numbers, &mut tables, answer, Call::Report, b"", buffer);
}

// How many calls were counted between an earlier reading of a counter and a later one, where they are fewer than 2^32 and no boot that was accepted
// came between.
#[unsafe(no_mangle)]
pub extern "C" fn szk_since(later: u32, earlier: u32) -> u32
    ensures { result ≡ since later earlier }
{
    rules::since(later, earlier)
}
