// The machine record's calls, as methods by value, and one function that performs any of them.
//
// Each takes any record, any numbers, any text and any tables, and hands the next record back with the answer: its memory and its counters by value,
// and the numbers of its areas where they were lent, so that no call but a boot, which plans in numbers of its own, copies them. A refused call has
// changed nothing, but that a grant counts. What a call does stands in `page_calls`, `device_calls`, `setup` and `report`; the counters are looked
// after here.
#![tactic(auto)]

ghost use Rattle.std.specs.Prelude.{◌≡◌, []};
ghost use Rattle.frames.specs.Lent.{tables_in};
ghost use Rattle.rules.specs.declared.Call.TheVariants as Call;
ghost use Rattle.rules.specs.Report.{reported};
ghost use Rattle.rules.specs.Does.{record_with};
ghost use Rattle.machine.specs.Does.{kept, Does, DoesWithAll, beside, buffer_after};

use answer::{Answer, Numbers, Refusal, Refused};
use frames::{Frame, Kind, LentTables};
use rules::{Call, Counters, LentRecord, Memory, Record, Request};

// A machine is its record, but for the numbers of its areas, which are lent beside the tables. Methods can only stand in the crate of their
// type, and those of the memory and the counters stand below the rules that are stated of them; so the calls are methods of this one. README names a
// method for each call, so that those that differ in a kind or in the function called alone stay beside one another.
#[derive(Clone, Copy)]
pub struct Machine {
    pub memory: Memory,
    pub counters: Counters,
}

// What a call hands back: the next record, with the areas as they were left, and the answer.
#[derive(Clone, Copy)]
pub struct Returned {
    pub machine: Machine,
    pub answer: Result<Numbers, Refused>,
}

impl Machine {
    // The record of the machine, with the areas that are lent to it.
    fn lent<'a>(self, areas: &'a [u64]) -> LentRecord<'a>
        ensures memory { result.memory ≡ self.memory }
        ensures areas { result.areas ≡ areas.entry }
    {
        LentRecord {
            memory: self.memory,
            areas,
        }
    }

    // The machine as it was, after a call that changes no record and counts nothing.
    fn kept(self, answer: Result<Numbers, Refusal>) -> Returned
        ensures { result ≡ kept self answer }
    {
        Returned {
            machine: self,
            answer: answer.map_err(Refused::from),
        }
    }

    // A movable page is put. Here and below, before a call that is lent the tables one by one, each is taken into a variable by `&mut *`, also one that
    // the call only reads: the borrow checker has no rule for a field that is read behind a reference while another field there is lent.
    pub fn put_movable(self, areas: &mut [u64], tables: &mut LentTables, name: u64) -> Returned
        ensures { Does (Call.PutMovable name) [] self areas.old areas.new result tables.old tables.new }
    {
        let marks = &mut *tables.marks;
        let words = &mut *tables.words;
        let bitmap = &mut *tables.bitmap;
        let owners = &mut *tables.owners;
        self.kept(page_calls::put_page(
            self.lent(areas),
            marks,
            words,
            bitmap,
            owners,
            name,
            Kind::Movable,
        ))
    }

    // A fixed page is put, which no area takes.
    pub fn put_fixed(self, areas: &mut [u64], tables: &mut LentTables, name: u64) -> Returned
        ensures { Does (Call.PutFixed name) [] self areas.old areas.new result tables.old tables.new }
    {
        let marks = &mut *tables.marks;
        let words = &mut *tables.words;
        let bitmap = &mut *tables.bitmap;
        let owners = &mut *tables.owners;
        self.kept(page_calls::put_page(
            self.lent(areas),
            marks,
            words,
            bitmap,
            owners,
            name,
            Kind::Fixed,
        ))
    }

    // A page is gone from its frame, unless it is pinned.
    pub fn drop_page(self, areas: &mut [u64], tables: &mut LentTables, name: u64) -> Returned
        ensures { Does (Call.Drop name) [] self areas.old areas.new result tables.old tables.new }
    {
        let marks = &mut *tables.marks;
        let words = &mut *tables.words;
        let bitmap = &mut *tables.bitmap;
        let owners = &mut *tables.owners;
        self.kept(page_calls::drop_page(self.lent(areas), marks, words, bitmap, owners, name))
    }

    // A movable page is pinned: nobody may move, rewrite or drop it.
    pub fn pin_page(self, areas: &mut [u64], tables: &mut LentTables, name: u64) -> Returned
        ensures { Does (Call.Pin name) [] self areas.old areas.new result tables.old tables.new }
    {
        let marks = &mut *tables.marks;
        let words = &mut *tables.words;
        let bitmap = &mut *tables.bitmap;
        let owners = &mut *tables.owners;
        self.kept(page_calls::change_kind(
            self.lent(areas),
            marks,
            words,
            bitmap,
            owners,
            name,
            Kind::Movable,
            Kind::Pinned,
        ))
    }

    // A pinned page is movable again.
    pub fn unpin_page(self, areas: &mut [u64], tables: &mut LentTables, name: u64) -> Returned
        ensures { Does (Call.Unpin name) [] self areas.old areas.new result tables.old tables.new }
    {
        let marks = &mut *tables.marks;
        let words = &mut *tables.words;
        let bitmap = &mut *tables.bitmap;
        let owners = &mut *tables.owners;
        self.kept(page_calls::change_kind(
            self.lent(areas),
            marks,
            words,
            bitmap,
            owners,
            name,
            Kind::Pinned,
            Kind::Movable,
        ))
    }

    // The word becomes the page's, unless it is pinned.
    pub fn store_page(
        self,
        areas: &mut [u64],
        tables: &mut LentTables,
        name: u64,
        word: u64,
    ) -> Returned
        ensures { Does (Call.Store name word) [] self areas.old areas.new result tables.old tables.new }
    {
        let marks = &mut *tables.marks;
        let words = &mut *tables.words;
        let bitmap = &mut *tables.bitmap;
        let owners = &mut *tables.owners;
        self.kept(page_calls::store_page(
            self.lent(areas),
            marks,
            words,
            bitmap,
            owners,
            name,
            word,
        ))
    }

    // The page's frame and its word.
    pub fn read_page(self, areas: &mut [u64], tables: &mut LentTables, name: u64) -> Returned
        ensures { Does (Call.Read name) [] self areas.old areas.new result tables.old tables.new }
    {
        self.kept(page_calls::read_page(self.lent(areas), tables.read(), name))
    }

    // The lowest run that can be granted is the device's, and its movable pages stand elsewhere. It is counted.
    pub fn grant(
        self,
        areas: &mut [u64],
        tables: &mut LentTables,
        area: u64,
        count: u64,
        align: u64,
        device: u64,
    ) -> Returned
        ensures { Does (Call.Grant area count align device) [] self areas.old areas.new result tables.old tables.new }
    {
        let granted = device_calls::grant(self.lent(areas), tables, area, count, align, device);
        let answer = granted.map_err(Refused::from);
        let counters = self.counters.after_grant(Answer::from(answer).refusal);
        Returned {
            machine: Machine { counters, ..self },
            answer,
        }
    }

    // A grant ends, by its owner: its frames are free, and its bits clear.
    pub fn release(
        self,
        areas: &mut [u64],
        tables: &mut LentTables,
        area: u64,
        frame: Frame,
        count: u64,
        device: u64,
    ) -> Returned
        ensures { Does (Call.Release area frame count device) [] self areas.old areas.new result tables.old tables.new }
    {
        self.kept(device_calls::release(self.lent(areas), tables, area, frame, count, device))
    }

    // The word becomes that of a frame that the device owns.
    pub fn device_store(
        self,
        areas: &mut [u64],
        tables: &mut LentTables,
        frame: Frame,
        word: u64,
        device: u64,
    ) -> Returned
        ensures { Does (Call.DeviceStore frame word device) [] self areas.old areas.new result tables.old tables.new }
    {
        let marks = &mut *tables.marks;
        let words = &mut *tables.words;
        let bitmap = &mut *tables.bitmap;
        let owners = &mut *tables.owners;
        self.kept(device_calls::device_store(
            self.lent(areas),
            marks,
            words,
            bitmap,
            owners,
            frame,
            word,
            device,
        ))
    }

    // The word of a frame that the device owns.
    pub fn device_read(
        self,
        areas: &mut [u64],
        tables: &mut LentTables,
        frame: Frame,
        device: u64,
    ) -> Returned
        ensures { Does (Call.DeviceRead frame device) [] self areas.old areas.new result tables.old tables.new }
    {
        self.kept(device_calls::device_read(self.lent(areas), tables.read(), frame, device))
    }

    // A new area, where the request says or at the highest place that it can have. Its bitmap words become 0. The numbers of all areas are to
    // be lent, since those of the new one are written among them.
    pub fn declare(self, areas: &mut [u64], tables: &mut LentTables, request: Request) -> Returned
        ensures { DoesWithAll (Call.Declare request) [] self areas.old areas.new result tables.old tables.new }
    {
        let marks = &mut *tables.marks;
        let words = &mut *tables.words;
        let bitmap = &mut *tables.bitmap;
        let owners = &mut *tables.owners;
        let laid = setup::declare(self.memory, areas, marks, words, bitmap, owners, request);
        let memory = laid.map_or(self.memory, |laid| laid.memory);
        Returned {
            machine: Machine { memory, ..self },
            answer: laid.map(|laid| laid.numbers).map_err(Refused::from),
        }
    }

    // A new record, whatever the one given, with the areas of a regions text, and tables that are all zero. The numbers of all areas are to be
    // lent, since it writes them all.
    pub fn boot(
        self,
        areas: &mut [u64],
        tables: &mut LentTables,
        base: Frame,
        frames: u64,
        block_order: u64,
        text: &[u8],
    ) -> Returned
        ensures { DoesWithAll (Call.Boot base frames block_order) text.now self areas.old areas.new result tables.old tables.new }
    {
        let booted = setup::boot(areas, tables, base, frames, block_order, text);
        let memory = booted.map_or(self.memory, |laid| laid.memory);
        let answer = booted.map(|laid| laid.numbers);
        let counters = self.counters.after_boot(Answer::from(answer).refusal);
        Returned {
            machine: Machine { memory, counters },
            answer,
        }
    }

    // The lines of the memory report, at the front of a buffer that has room for them.
    pub fn report(self, areas: &mut [u64], tables: &mut LentTables, buffer: &mut [u8]) -> Returned
        ensures does { Does Call.Report buffer.old self areas.old areas.new result tables.old tables.new }
        ensures buffer_after { buffer.new ≡ reported (record_with self.memory areas.old) buffer.old (tables_in tables.old) }
    {
        self.kept(report::report(self.lent(areas), tables.read(), buffer))
    }

    // Any call. The text is a boot's and the buffer a report's, and no other call looks at them. Since it may be a declare or a boot, the numbers
    // of all areas are to be lent.
    #[tactic(auto, using(crate::proofs::Counted::asked_by))]
    pub fn perform(
        self,
        areas: &mut [u64],
        tables: &mut LentTables,
        call: Call,
        text: &[u8],
        buffer: &mut [u8],
    ) -> Returned
        ensures does_with_all { DoesWithAll call (beside call text.now buffer.old) self areas.old areas.new result tables.old tables.new }
        ensures buffer_after { buffer.new ≡ buffer_after call buffer.old (record_with self.memory areas.old) (tables_in tables.old) }
    {
        if areas.len() != Record::AREA_NUMBERS {
            return self.kept(Err(Refusal::WrongShape));
        }
        match call {
            Call::PutMovable { name } => self.put_movable(areas, tables, name),
            Call::PutFixed { name } => self.put_fixed(areas, tables, name),
            Call::Drop { name } => self.drop_page(areas, tables, name),
            Call::Pin { name } => self.pin_page(areas, tables, name),
            Call::Unpin { name } => self.unpin_page(areas, tables, name),
            Call::Store { name, word } => self.store_page(areas, tables, name, word),
            Call::Read { name } => self.read_page(areas, tables, name),
            Call::Grant {
                area,
                count,
                align,
                device,
            } => self.grant(areas, tables, area, count, align, device),
            Call::Release {
                area,
                frame,
                count,
                device,
            } => self.release(areas, tables, area, frame, count, device),
            Call::DeviceStore {
                frame,
                word,
                device,
            } => self.device_store(areas, tables, frame, word, device),
            Call::DeviceRead { frame, device } => self.device_read(areas, tables, frame, device),
            Call::Declare { request } => self.declare(areas, tables, request),
            Call::Boot {
                base,
                frames,
                block_order,
            } => self.boot(areas, tables, base, frames, block_order, text),
            Call::Report => self.report(areas, tables, buffer),
        }
    }
}
