// The page calls: put, drop, pin and unpin, store and read, over the record and the tables lent.
//
// Each takes any record, any number and any tables, and checks the shape first. None changes the record, so each hands back its answer
// alone. A refused call has changed nothing. One that changes some of the tables is lent them one by one, those to be written: a struct of all would ask
// its caller for the right to write all.
#![tactic(auto)]

ghost use Rattle.std.specs.Prelude.{◌≡◌, ◌<◌, ◌≤◌, true, length, IfOk, IfSome};
ghost use Rattle.frames.specs.Lent.{tables_read};
ghost use Rattle.frames.specs.Tables.{tables};
ghost use Rattle.frames.specs.Marks.{kind_number};
ghost use Rattle.rules.specs.Limits.{most_name};
ghost use Rattle.rules.specs.PageCalls.{bad_name, put_page, drop_page, change_kind, store_page, read_page};
ghost use Rattle.rules.specs.Shape.{shape_right};
ghost use Rattle.rules.specs.Does.{record_in, AnswersOn};
ghost use Rattle.page_calls.specs.Steps.Look.{find_named, look_up, place_for};

use answer::{Numbers, Refusal};
use frames::{Kind, Place, ReadTables, find_free, find_free_ordinary, find_page, frame_at};
use rules::{LentRecord, Record};
use shape::shape_right;

// The content word of a page to which nothing has been stored.
const EMPTY: u64 = 0;

// A page name is outside its range.
fn is_bad_name(name: u64) -> bool
    ensures { result ≡ bad_name name }
{
    !(Record::LEAST_NAME..=Record::MOST_NAME).contains(&name)
}

// The checks that come first for every page that is named: the shape, and the name's range. Then where the page stands, if it is live.
fn find_named(lent: LentRecord, tables: ReadTables, name: u64) -> Result<Option<Place>, Refusal>
    ensures found { result ≡ find_named (record_in lent.entry) name (tables_read tables.entry) }
    ensures passed { IfOk result (λ _. (shape_right (record_in lent.entry) (tables_read tables.entry) ≡ true) × (name ≤ most_name)) }
{
    if !shape_right(lent, tables) {
        return Err(Refusal::WrongShape);
    }
    if is_bad_name(name) {
        return Err(Refusal::OutOfRange);
    }
    Ok(find_page(tables.marks, name))
}

// The same of a page that has to be live.
fn look_up(lent: LentRecord, tables: ReadTables, name: u64) -> Result<Place, Refusal>
    ensures found { result ≡ look_up (record_in lent.entry) name (tables_read tables.entry) }
    ensures inside { IfOk result (λ page. (page.0 < length tables.entry.marks.now) × (page.0 < length tables.entry.words.now) × (name ≤ most_name)) }
{
    find_named(lent, tables, name)?.ok_or(Refusal::NotLive)
}

// The place that a put takes: the lowest free ordinary frame; a movable page with none left takes the lowest free frame of an area,
// which is then the lowest free frame of all.
fn place_for(lent: LentRecord, tables: ReadTables, kind: Kind) -> Option<Place>
    requires { shape_right (record_in lent) (tables_read tables) ≡ true }
    ensures found { result ≡ place_for (kind_number kind) (record_in lent.entry) (tables_read tables.entry) }
    ensures inside { IfSome result (λ page. (page.0 < length tables.entry.marks.now) × (page.0 < length tables.entry.words.now)) }
{
    let memory = lent.memory;
    let ordinary = find_free_ordinary(tables.marks, memory.base, lent.areas, memory.declared);
    if kind != Kind::Movable {
        return ordinary;
    }
    ordinary.or_else(|| find_free(tables.marks))
}

// A page of a kind is put: no area takes one that is fixed.
pub fn put_page(
    lent: LentRecord,
    marks: &mut [u32],
    words: &mut [u64],
    bitmap: &[u64],
    owners: &[u32],
    name: u64,
    kind: Kind,
) -> Result<Numbers, Refusal>
    ensures { AnswersOn (λ m. put_page (kind_number kind) m name) lent.entry result (tables marks.old words.old bitmap.now owners.now) (tables marks.new words.new bitmap.now owners.now) }
{
    let tables = ReadTables {
        marks: &*marks,
        words: &*words,
        bitmap,
        owners,
    };
    if find_named(lent, tables, name)?.is_some() {
        return Err(Refusal::NameLive);
    }
    let page = place_for(lent, tables, kind).ok_or(Refusal::NoFrame)?;
    marks[page.0] = kind.mark(name as u32);
    words[page.0] = EMPTY;
    let taken = frame_at(lent.memory.base, page);
    Ok(Numbers {
        first: taken.0,
        second: 0,
    })
}

// A page is gone from its frame, unless it is pinned.
pub fn drop_page(
    lent: LentRecord,
    marks: &mut [u32],
    words: &mut [u64],
    bitmap: &[u64],
    owners: &[u32],
    name: u64,
) -> Result<Numbers, Refusal>
    ensures { AnswersOn (λ m. drop_page m name) lent.entry result (tables marks.old words.old bitmap.now owners.now) (tables marks.new words.new bitmap.now owners.now) }
{
    let tables = ReadTables {
        marks: &*marks,
        words: &*words,
        bitmap,
        owners,
    };
    let page = look_up(lent, tables, name)?;
    let mark = marks[page.0];
    if Kind::Pinned.is_of(mark) {
        return Err(Refusal::KindForbids);
    }
    marks[page.0] = Kind::Free.mark(0);
    words[page.0] = 0;
    Ok(Numbers::NONE)
}

// A page of one kind becomes one of another: a movable one is pinned, so that nobody may move, rewrite or drop it, or a pinned one is movable
// again.
pub fn change_kind(
    lent: LentRecord,
    marks: &mut [u32],
    words: &[u64],
    bitmap: &[u64],
    owners: &[u32],
    name: u64,
    from: Kind,
    to: Kind,
) -> Result<Numbers, Refusal>
    ensures { AnswersOn (λ m. change_kind (kind_number from) (kind_number to) m name) lent.entry result (tables marks.old words.now bitmap.now owners.now) (tables marks.new words.now bitmap.now owners.now) }
{
    let tables = ReadTables {
        marks: &*marks,
        words,
        bitmap,
        owners,
    };
    let page = look_up(lent, tables, name)?;
    if !from.is_of(marks[page.0]) {
        return Err(Refusal::KindForbids);
    }
    marks[page.0] = to.mark(name as u32);
    Ok(Numbers::NONE)
}

// The word becomes the page's, unless it is pinned.
pub fn store_page(
    lent: LentRecord,
    marks: &[u32],
    words: &mut [u64],
    bitmap: &[u64],
    owners: &[u32],
    name: u64,
    word: u64,
) -> Result<Numbers, Refusal>
    ensures { AnswersOn (λ m. store_page m name word) lent.entry result (tables marks.now words.old bitmap.now owners.now) (tables marks.now words.new bitmap.now owners.now) }
{
    let tables = ReadTables {
        marks,
        words: &*words,
        bitmap,
        owners,
    };
    let page = look_up(lent, tables, name)?;
    if Kind::Pinned.is_of(marks[page.0]) {
        return Err(Refusal::KindForbids);
    }
    words[page.0] = word;
    Ok(Numbers::NONE)
}

// The page's frame and its word.
pub fn read_page(lent: LentRecord, tables: ReadTables, name: u64) -> Result<Numbers, Refusal>
    ensures { AnswersOn (λ m. read_page m name) lent.entry result (tables_read tables.entry) (tables_read tables.entry) }
{
    let page = look_up(lent, tables, name)?;
    let frame = frame_at(lent.memory.base, page);
    Ok(Numbers {
        first: frame.0,
        second: tables.words[page.0],
    })
}
