ghost use Rattle.std.specs.Prelude.{◌≡◌, ◌<◌, ◌^◌, ◌+◌, ◌++◌, ℕ, List, Option, None, Some, IfOk, IfErr, OnOk, length};
ghost use Rattle.std.specs.Bool.{OnTrue, OnFalse};
ghost use Rattle.std.specs.List.{list_any};
ghost use Rattle.q4_value.specs.declared.row.Value.{Value as Field};
ghost use Rattle.q4_value.specs.Spelling.{row_bytes};
ghost use Rattle.q4_value.specs.Row.{IsRowOf, row_size as size_of};
ghost use Rattle.q4_table.specs.declared.origin.Origin.{Origin as RowOrigin};
ghost use Rattle.q4_table.specs.Valid.{IsMark};
ghost use Rattle.q4_record.specs.Wide.{is_long};
ghost use Rattle.q4_record.specs.Replay.{state_of, MayForward, MayInsert, MayEnd, MayMark, MayNext, MayCome, table_after, replayed, passed_limit};
ghost use Rattle.q4_record.specs.Parts.{IsReady, RowStands, RowFails, RecordStood, RecordFailed, SectionStood, SectionFailed};

use crate::extent::{Extent, optional_count, row_extent};
use crate::head::{Head, read_head};
use crate::side::SideFault;
use q4_table::{Mode, Origin, Table};
use q4_value::{Row, RowBytes, read_row, row_size};
use std::alloc::Global;

// Row numbers, and the numbers of sources, stay below this one.
const NUMBER_LIMIT: u64 = 1 << 62;

// Sources stay below this one.
const SOURCE_LIMIT: u8 = 64;

// The most rows of a table.
const COUNT_LIMIT: u32 = 250_000;

// The most bytes of a table's rows together.
const BYTES_LIMIT: u64 = 33_554_432;

// The greatest size of a row in bytes.
const ROW_LIMIT: u64 = 1_048_576;

/// Which records of a side may come next.
#[derive(Clone, Copy)]
pub enum Stage {
    /// The base's rows, marks or next record.
    Rows,
    /// The base's marks behind that of this source, or its next record.
    Marks(u8),
    /// None: the next record ended the base.
    Whole,
    /// The rows of a batch.
    Batch,
}

/// A side as far as it is read.
#[derive(Drop)]
pub struct Replay {
    pub stage: Stage,
    pub table: Table,
}

impl Replay {
    /// Reads the records of a base or a batch. They begin at this place of the side.
    pub fn read_section(&mut self, alloc: Global, bytes: &[u8], at: u64) -> Result<(), SideFault>
        requires place { at + length bytes.now < 2 ^ 64 }
        requires ready { IsReady (state_of self.old) }
        ensures stand { OnOk result (SectionStood (state_of self.old) bytes.now (state_of self.new)) }
        ensures ready { OnOk result (IsReady (state_of self.new)) }
        ensures kept { OnOk result (self.new.table.kept ≡ self.old.table.kept) }
        ensures fault { IfErr result (SectionFailed (state_of self.old) bytes.now at) }
    {
        let mut rest = bytes;
        while !rest.is_empty() {
            let place = at + (bytes.len() - rest.len()) as u64;
            rest = self.read_record(alloc, rest, place)?;
        }
        Ok(())
    }

    // Reads the record at the front, which is at this place, and gives what follows it.
    fn read_record<'a>(
        &mut self,
        alloc: Global,
        bytes: &'a [u8],
        at: u64,
    ) -> Result<&'a [u8], SideFault>
        requires { IsReady (state_of self.old) }
        ensures stands { IfOk result (λ rest. RecordStood (state_of self.old) bytes.now (state_of self.new) rest.now) }
        ensures kept { OnOk result (self.new.table.kept ≡ self.old.table.kept) }
        ensures fault { IfErr result (RecordFailed (state_of self.old) bytes.now at) }
    {
        let Some((head, rest)) = read_head(bytes) else {
            return Err(SideFault::Damaged(at));
        };
        if !self.may_come(head) {
            return Err(SideFault::Damaged(at));
        }
        self.replay(alloc, head, rest, at)
    }

    // Whether the record may come next.
    fn may_come(&self, head: Head) -> bool
        ensures may { OnTrue result (MayCome self.now.stage self.now.table.state head) }
        ensures may_not { OnFalse result (MayCome self.now.stage self.now.table.state head → ⊥) }
    {
        match head {
            Head::Insert(number, origin) => self.may_insert(number, origin),
            Head::End(number) => self.may_end(number),
            Head::Mark(source, number) => self.may_mark(source, number),
            Head::Next(number) => self.may_next(number),
        }
    }

    fn may_insert(&self, number: u64, origin: Option<Origin>) -> bool
        ensures may { OnTrue result (MayInsert self.now.stage self.now.table.state number origin) }
        ensures may_not { OnFalse result (MayInsert self.now.stage self.now.table.state number origin → ⊥) }
    {
        match (self.stage, origin) {
            (Stage::Rows, None) => number >= self.table.next(),
            (Stage::Batch, None) => number == self.table.next(),
            (Stage::Batch, Some(origin)) => {
                number == self.table.next() && self.may_forward(origin)
            }
            (Stage::Rows, Some(_)) | (Stage::Marks(_), _) | (Stage::Whole, _) => false,
        }
    }

    fn may_forward(&self, origin: Origin) -> bool
        ensures may { OnTrue result (MayForward self.now.table.state.marks (Some origin)) }
        ensures may_not { OnFalse result (MayForward self.now.table.state.marks (Some origin) → ⊥) }
    {
        if !is_mark(origin.source, origin.number) {
            return false;
        }
        match origin.mode {
            Mode::A => origin.number > self.table.mark(origin.source),
            Mode::W => true,
        }
    }

    fn may_end(&self, number: u64) -> bool
        ensures may { OnTrue result (MayEnd self.now.stage self.now.table.state number) }
        ensures may_not { OnFalse result (MayEnd self.now.stage self.now.table.state number → ⊥) }
    {
        match self.stage {
            Stage::Rows | Stage::Batch => self.table.row(number).is_some(),
            Stage::Marks(_) | Stage::Whole => false,
        }
    }

    fn may_mark(&self, source: u8, number: u64) -> bool
        ensures may { OnTrue result (MayMark self.now.stage source number) }
        ensures may_not { OnFalse result (MayMark self.now.stage source number → ⊥) }
    {
        match self.stage {
            Stage::Rows => is_mark(source, number),
            Stage::Marks(last) => last < source && is_mark(source, number),
            Stage::Whole | Stage::Batch => false,
        }
    }

    fn may_next(&self, number: u64) -> bool
        ensures may { OnTrue result (MayNext self.now.stage self.now.table.state number) }
        ensures may_not { OnFalse result (MayNext self.now.stage self.now.table.state number → ⊥) }
    {
        match self.stage {
            Stage::Rows | Stage::Marks(_) => number >= self.table.next(),
            Stage::Whole | Stage::Batch => false,
        }
    }

    // Replays the record of this head, which may come. The bytes begin behind the head, and the record is at this place.
    fn replay<'a>(
        &mut self,
        alloc: Global,
        head: Head,
        bytes: &'a [u8],
        at: u64,
    ) -> Result<&'a [u8], SideFault>
        requires ready { IsReady (state_of self.old) }
        requires may { MayCome self.old.stage self.old.table.state head }
        ensures stands { IfOk result (λ rest. RowStands (state_of self.old) head bytes.now (state_of self.new) rest.now) }
        ensures kept { OnOk result (self.new.table.kept ≡ self.old.table.kept) }
        ensures fault { IfErr result (RowFails (state_of self.old) head bytes.now at) }
    {
        match head {
            Head::Insert(number, origin) => self.insert(alloc, number, origin, bytes, at),
            Head::End(number) => {
                self.table.end(number);
                Ok(bytes)
            }
            Head::Mark(source, number) => {
                if self.table.set_mark(source, number).is_err() {
                    return Err(SideFault::Memory);
                }
                self.stage = Stage::Marks(source);
                Ok(bytes)
            }
            Head::Next(number) => {
                if number > NUMBER_LIMIT {
                    return Err(SideFault::Large(3));
                }
                self.table.set_next(number);
                self.stage = Stage::Whole;
                Ok(bytes)
            }
        }
    }

    fn insert<'a>(
        &mut self,
        alloc: Global,
        number: u64,
        origin: Option<Origin>,
        bytes: &'a [u8],
        at: u64,
    ) -> Result<&'a [u8], SideFault>
        requires ready { IsReady (state_of self.old) }
        requires may { MayInsert self.old.stage self.old.table.state number origin }
        ensures stands { IfOk result (λ rest. RowStands (state_of self.old) (Head.Insert number origin) bytes.now (state_of self.new) rest.now) }
        ensures kept { OnOk result (self.new.table.kept ≡ self.old.table.kept) }
        ensures fault { IfErr result (RowFails (state_of self.old) (Head.Insert number origin) bytes.now at) }
    {
        match read_row(alloc, self.table.columns(), bytes) {
            Ok((row, len)) => match self.limit_passed(number, row_size(&row), false) {
                Some(limit) => Err(SideFault::Large(limit)),
                None => {
                    self.add(number, origin, row)?;
                    Ok(bytes.split_at(len).1)
                }
            },
            Err(RowBytes::Large(_)) => Err(self.long_row_fault(number, origin, bytes, at)),
            Err(RowBytes::Short(_)) => Err(SideFault::Damaged(at)),
            Err(RowBytes::NotText(_)) => Err(SideFault::Damaged(at)),
            Err(RowBytes::Flag(_)) => Err(SideFault::Damaged(at)),
            Err(RowBytes::Memory) => Err(SideFault::Memory),
        }
    }

    // Why a row does not stand in which a text is told to be too long.
    fn long_row_fault(
        &self,
        number: u64,
        origin: Option<Origin>,
        bytes: &[u8],
        at: u64,
    ) -> SideFault
        requires { (row : List Field) (rest : List ℕ) → IsRowOf self.now.table.state.columns row → bytes.now ≡ row_bytes self.now.table.state.columns row ++ rest → ⊥ }
        ensures { RowFails (state_of self.now) (Head.Insert number origin) bytes.now at result }
    {
        let (extent, long) = row_extent(self.table.columns(), bytes);
        match extent {
            Extent::Whole(len) => {
                let size = len - optional_count(self.table.columns());
                match self.limit_passed(number, size as u64, long) {
                    Some(limit) => SideFault::Large(limit),
                    None => SideFault::Damaged(at),
                }
            }
            Extent::Cut => {
                if long {
                    SideFault::Large(4)
                } else {
                    SideFault::Damaged(at)
                }
            }
            Extent::Unreadable => SideFault::Damaged(at),
        }
    }

    // The least limit that is passed with one more row, of this number and size, and with a text that is too long or not.
    fn limit_passed(&self, number: u64, size: u64, long: bool) -> Option<u32>
        ensures { (origin : Option RowOrigin) (row : List Field) → size ≡ size_of row → long ≡ list_any is_long row
            → result ≡ passed_limit (table_after self.now.table.state (Head.Insert number origin) row) row }
    {
        if self.table.count() >= COUNT_LIMIT {
            Some(1)
        } else if self.table.bytes().saturating_add(size) > BYTES_LIMIT {
            Some(2)
        } else if number >= NUMBER_LIMIT {
            Some(3)
        } else if long {
            Some(4)
        } else if size > ROW_LIMIT {
            Some(5)
        } else {
            None
        }
    }

    // Adds a row that passes no limit.
    fn add(&mut self, number: u64, origin: Option<Origin>, row: Row) -> Result<(), SideFault>
        requires may { MayInsert self.old.stage self.old.table.state number origin }
        requires fits { IsRowOf self.old.table.state.columns row }
        requires within { passed_limit (table_after self.old.table.state (Head.Insert number origin) row) row ≡ None }
        ensures added { OnOk result (state_of self.new ≡ replayed (state_of self.old) (record { head = Head.Insert number origin; columns = self.old.table.state.columns; row = row })) }
        ensures kept { OnOk result (self.new.table.kept ≡ self.old.table.kept) }
        ensures fault { IfErr result (λ why. why ≡ SideFault.Memory) }
    {
        self.table.set_next(number);
        match self.table.add(row, origin) {
            Ok(_) => Ok(()),
            Err(_) => Err(SideFault::Memory),
        }
    }
}

// Whether a source may have this mark.
fn is_mark(source: u8, number: u64) -> bool
    ensures may { OnTrue result (IsMark (record { source = source; number = number })) }
    ensures may_not { OnFalse result (IsMark (record { source = source; number = number }) → ⊥) }
{
    source < SOURCE_LIMIT && 1 <= number && number < NUMBER_LIMIT
}
