ghost use Rattle.std.specs.Prelude.{◌≡◌, ◌≢◌, ◌+◌, ◌-◌, ◌*◌, ◌≤◌, ◌<◌, ◌^◌, ◌++◌, ◌↔◌, ℕ, Bool, true, false, None, Some, List, [], ◌∷◌, IsTrue, IsSome, IsOk, IsErr, IfOk, IfErr, OnOk, OnErr, length, vec_capacity};
ghost use Rattle.std.specs.Option.{ForSome, option_map};
ghost use Rattle.q4_value.specs.Names.{AreColumns};
ghost use Rattle.q4_value.specs.declared.row.Value.{Value as Field};
ghost use Rattle.q4_value.specs.Row.{IsRowOf};
ghost use Rattle.q4_table.specs.Rows.{values_in};
ghost use Rattle.q4_table.specs.Owners.{without_owners};
ghost use Rattle.q4_record.specs.Record.{record_bytes};
ghost use Rattle.q4_record.specs.Side.{side_limit, base_at};
ghost use Rattle.q4_disk.specs.Told.{Sides, Told};
ghost use Rattle.q4_disk.specs.Images.{on, other, written, Within};
ghost use Rattle.q4_disk.specs.Time.{LeavesOnly};
ghost use Rattle.q4_disk.specs.Calls.{bump, CountsFault};
ghost use Rattle.q4_store.specs.Reading.{IsOutgrown, Opens, ReadsAsOpened, ReadsAsGiven};
ghost use Rattle.q4_store.specs.Parts.{IsShut};
ghost use Rattle.q4_store.specs.Looking.{OnlyReads, HasOpen};
ghost use Rattle.q4_store.specs.Opening.{IsChosen, OpenFails, CountsOpen};
ghost use Rattle.q4_store.specs.Commit.{sealed};
ghost use Rattle.q4_store.specs.Device.{Makes, AllMade, BrokeOff, HasOpened, HasStopped, commit_calls, close_calls, prepare_calls, fill_calls, switch_calls};
ghost use Rattle.q4_store.specs.CopyCalls.{CountsCopy, is_unsure, piece_calls, last_calls, PieceStops, FinishStops};
ghost use Rattle.q4_store.specs.Content.{Content, row_added, row_ended, table_of, with_change, all_committed, IsPrefix, IsAllOrNone, IsPrefixOrNew};
ghost use Rattle.q4_store.specs.Copied.{cursor_after, taken, rows_from, compact_size};
ghost use Rattle.q4_store.specs.Lengths.{change_size, waiting_size, change_cost};
ghost use Rattle.q4_store.specs.Store.{StandsFor, StandsUnsure, IsRest, IsUnsure, IsLongerBy, finished_length, end_extra, ends_with, TakesRow, HasRow, IsOver, IsRefused, length_of, cost_of, pending_length, batch_size};

use crate::batch::Batch;
use crate::committing::commit_batch;
use crate::copying::{Progress, gather, gather_rest, header_of, none_left, put_waiting};
use crate::fault::{AppendFault, CopyFault, OpenFault};
use crate::holding::{END_SIZE, Held};
use crate::limit::{BASE_AT, room};
use crate::opening::{Found, find};
use crate::parts::{extend_by, fill, other_of, prepare, switch};
use q4_def::TableDef;
use q4_disk::{Disk, DiskFailed, Side};
use q4_table::{Origin, Table};
use q4_value::{Column, Columns, Row};
use std::alloc::Global;
use std::marker::Model;

// What a batch has besides its records: a gate and their length.
const BATCH_SIZE: u64 = 5;

/// A table on a disk: it stands for the changes that were appended, and for what of them is committed.
///
/// Appends take no memory and cannot fail: `reserve` takes the room and the memory before. A commit makes all that was
/// appended durable at once. A commit that fails and a finish that is unsure leave the store failed: no further call
/// reaches the disk, and what a crash leaves is read by opening the disk again.
#[derive(Drop)]
pub struct Store<D: Disk> {
    disk: D,
    // by which rows are spelled
    columns: Columns,
    side: Side,
    end: u64,
    generation: u64,
    batch: Batch,
    // memory for the ends that a copy of the table will want
    ends: Vec<u8>,
    rows: u32,
    reserved: u64,
    known: bool,
    failed: bool,
    copy: Option<Progress>,
    // what pieces take their memory from
    alloc: Global,
}

impl<D: Disk> Model for Store<D> {
    ghost use Rattle.std.specs.Prelude.{vec_capacity};
    ghost use Rattle.q4_store.specs.Store.{Stored, IsHeld};

    ghost Value = { Stored D };

    ghost view = { λ s. record { disk = s.disk; columns = s.columns; side = s.side; end = s.end; generation = s.generation; records = s.batch.records; rows = s.rows; reserved = s.reserved; known = s.known; failed = s.failed; copy = s.copy; ends = s.ends.items } };

    ghost invariant = { λ s. IsHeld D.told (record { disk = s.disk; columns = s.columns; side = s.side; end = s.end; generation = s.generation; records = s.batch.records; rows = s.rows; reserved = s.reserved; known = s.known; failed = s.failed; copy = s.copy; ends = s.ends.items }) s.batch.room (vec_capacity s.ends) };
}

impl<D: Disk> Store<D> {
    /// Opens the store of a table, and gives the table that its disk reads as, without an owner. It syncs both sides,
    /// reads the current one, and makes a new table of generation 1 on side A where neither is open. A side whose schema
    /// is narrower, as some columns take null now that took none, is rewritten: its table goes onto the other side, with
    /// a generation greater by one. A refusal gives the disk back.
    pub fn open(alloc: Global, disk: D, def: &TableDef) -> Result<(Store<D>, Table), (OpenFault, D)>
        requires { AreColumns def.now.columns }
        // What is given is what the two sides read as, with a generation greater by one where the schema is narrower.
        ensures reads { IfOk result (λ opened. IsTrue (D.told disk).honest → Opens def.now.columns (D.told disk).bytes opened.1.state opened.0.generation) }
        // Its side is the one that counts, or the other one where the schema of that is narrower, or side A where neither is open.
        ensures side { IfOk result (λ opened. IsTrue (D.told disk).honest → IsChosen def.now.columns (D.told disk).bytes opened.0.side) }
        ensures stands { IfOk result (λ opened. StandsFor D.told opened.0 (record { committed = opened.1.state; pending = [] })) }
        // The table keeps no condition.
        ensures kept { IfOk result (λ opened. opened.1.kept ≡ []) }
        // Whether the gate of the other side is there and closed is known exactly.
        ensures known { IfOk result (λ opened. IsTrue (D.told disk).honest → (opened.0.known ≡ true) ↔ IsShut (on (other opened.0.side) (D.told disk).bytes)) }
        ensures fresh { IfOk result (λ opened. (opened.0.columns ≡ def.now.columns) × (opened.0.failed ≡ false) × (opened.0.records ≡ []) × (opened.0.reserved ≡ 0) × (opened.0.copy ≡ None) × (opened.1.state.columns ≡ def.now.columns)) }
        // Whatever the disk tells.
        ensures generation { IfOk result (λ opened. (1 ≤ opened.0.generation) × (opened.0.generation ≤ 2 ^ 62)) }
        // At each moment inside it each image reads as one that there was, or, where the schema of that one's current side is
        // narrower, as its table with a generation greater by one.
        ensures any_moment { IfOk result (λ opened. IsTrue (D.told disk).honest
            → LeavesOnly (D.told disk) (D.told opened.0.disk) (ReadsAsOpened def.now.columns (D.told disk).images)) }
        ensures any_moment_err { IfErr result (λ refused. IsTrue (D.told disk).honest
            → LeavesOnly (D.told disk) (D.told refused.1) (ReadsAsOpened def.now.columns (D.told disk).images)) }
        // What is not as it was reads as the very table that is given.
        ensures given { IfOk result (λ opened. IsTrue (D.told disk).honest
            → LeavesOnly (D.told disk) (D.told opened.0.disk) (ReadsAsGiven def.now.columns opened.1.state opened.0.generation (D.told disk).images)) }
        // Where a side is open, and the schema of the current one is not narrower, it writes nothing, and adds no image.
        ensures rests { IfOk result (λ opened. IsTrue (D.told disk).honest → HasOpen (D.told disk).bytes → (IsOutgrown def.now.columns (D.told disk).bytes → ⊥)
            → OnlyReads (D.told disk) (D.told opened.0.disk)) }
        ensures rests_err { IfErr result (λ refused. IsTrue (D.told disk).honest → HasOpen (D.told disk).bytes → (IsOutgrown def.now.columns (D.told disk).bytes → ⊥)
            → OnlyReads (D.told disk) (D.told refused.1)) }
        // Refused for any other reason than the disk, it wrote nothing, and added no image: a narrower side is as it was.
        ensures refused { IfErr result (λ refused. refused.0 ≢ OpenFault.Disk → IsTrue (D.told disk).honest → OnlyReads (D.told disk) (D.told refused.1)) }
        // Why they read as nothing. The disk's count rises where it failed, and only there.
        ensures fails { IfErr result (λ refused. IsTrue (D.told disk).honest → OpenFails def.now.columns (D.told disk).bytes refused.0) }
        ensures calm { IfOk result (λ opened. (D.told opened.0.disk).faults ≡ (D.told disk).faults) }
        ensures faults { IfErr result (λ refused. CountsOpen refused.0 (D.told disk).faults (D.told refused.1).faults) }
        // Its device calls, in their order: both sides are synced, their first bytes are read, and then the side that counts is
        // read. The three parts of a new table, or of one whose schema is narrower, are written, of at most nine calls.
        ensures device { IfOk result (λ opened. HasOpened def.now.columns D.told disk opened.0.disk) }
        ensures device_err { IfErr result (λ refused. HasStopped def.now.columns D.told refused.0 disk refused.1) }
        ensures honest { IfOk result (λ opened. (D.told opened.0.disk).honest ≡ (D.told disk).honest) }
        ensures honest_err { IfErr result (λ refused. (D.told refused.1).honest ≡ (D.told disk).honest) }
    {
        let mut disk = disk;
        let found = match find(alloc, &mut disk, &def.columns) {
            Ok(found) => found,
            Err(fault) => return Err((fault, disk)),
        };
        let Found {
            table,
            side,
            generation,
            end,
            known,
            held,
        } = found;
        let Held {
            columns,
            batch,
            ends,
        } = held;
        let store = Store {
            disk,
            columns,
            side,
            end,
            generation,
            batch,
            ends,
            rows: table.count(),
            reserved: 0,
            known,
            failed: false,
            copy: None,
            alloc,
        };
        Ok((store, table))
    }
}

impl<D: Disk> Store<D> {
    /// The length of the side up to and with its closing gate, with what is pending.
    pub fn length(&self) -> u64
        ensures length { result ≡ length_of self.now }
        // There is room for the end of each row.
        ensures room { result + 32 * self.now.rows ≤ side_limit }
        // Told by the changes that wait.
        ensures content { (content : Content) → StandsFor D.told self.now content → result ≡ self.now.end + waiting_size content.pending }
        // No side of the table is shorter than a copy that is made at once.
        ensures least { (content : Content) → StandsFor D.told self.now content → compact_size (table_of content) ≤ result }
    {
        self.end + pending_size(&self.batch)
    }

    /// Whether changes wait for a commit.
    pub fn pending(&self) -> bool
        ensures records { IsTrue result ↔ (0 < length self.now.records) }
        ensures content { (content : Content) → StandsFor D.told self.now content → IsTrue result ↔ (content.pending ≢ []) }
    {
        !self.batch.is_empty()
    }

    /// The generation, which rises where the table is compacted.
    pub fn generation(&self) -> u64
        ensures { result ≡ self.now.generation }
    {
        self.generation
    }

    /// How far a copy has come, where one is under way.
    pub fn copying(&self) -> Option<u64>
        ensures { result ≡ option_map (λ progress. progress.cursor) self.now.copy }
    {
        self.copy.map(|progress| progress.cursor)
    }

    #[cfg(test)]
    pub(crate) fn rows(&self) -> u32
        ensures { result ≡ self.now.rows }
    {
        self.rows
    }

    /// The columns that it was opened with, by which rows are spelled.
    pub fn columns(&self) -> &[Column]
        ensures { result.now ≡ self.now.columns }
    {
        self.columns.as_slice()
    }

    pub fn disk(&self) -> &D
        ensures { result.now ≡ self.now.disk }
    {
        &self.disk
    }

    /// Gives the disk back. What is pending is lost.
    pub fn give_back(self) -> D
        ensures { result ≡ self.disk }
    {
        let Store { disk, .. } = self;
        disk
    }
}

// Reserve and append.
impl<D: Disk> Store<D> {
    /// Takes the room and the memory for one record of this size of a row that is added, for its later end and for that
    /// in a copy.
    /// `live` is the number of rows that there are. A refusal leaves the store as it was.
    pub fn reserve(&mut self, size: u64, live: u32) -> Result<(), AppendFault>
        requires { size ≤ 2 ^ 32 }
        ensures fault { IfErr result (IsRefused (length_of self.old) (cost_of self.old size) live) }
        // There is room exactly where it is not refused for want of it.
        ensures room { OnOk result (IsOver (length_of self.old) (cost_of self.old size) live → ⊥) }
        // Both told by the changes that wait.
        ensures content_fault { (content : Content) → StandsFor D.told self.old content
            → IfErr result (IsRefused (self.old.end + waiting_size content.pending) (change_cost content.pending size) live) }
        ensures content_room { (content : Content) → StandsFor D.told self.old content
            → OnOk result (IsOver (self.old.end + waiting_size content.pending) (change_cost content.pending size) live → ⊥) }
        ensures kept { OnErr result (self.new ≡ self.old) }
        ensures reserved { OnOk result (self.old.rows ≤ live → self.new ≡ record self.old { reserved = size }) }
        // For fewer rows than there are nothing is reserved.
        ensures few { OnOk result (live < self.old.rows → self.new ≡ record self.old { reserved = 0 }) }
        ensures same { self.new ≡ record self.old { reserved = self.new.reserved } }
        ensures stands { (content : Content) → StandsFor D.told self.old content → StandsFor D.told self.new content }
        // A copy that is under way will be as long as it would be.
        ensures copy { (content : Content) (extra : ℕ) → IsLongerBy self.old (table_of content) extra
            → IsLongerBy self.new (table_of content) extra }
    {
        let cost = size + batch_cost(&self.batch);
        if let Err(taken) = room(self.end, pending_size(&self.batch), cost, u64::from(live)) {
            return Err(AppendFault::FileFull(taken));
        }
        let ends = END_SIZE * (live as usize + 1);
        if self.batch.reserve(size as usize + ends).is_err() || self.ends.reserve(ends).is_err() {
            return Err(AppendFault::Memory);
        }
        self.reserved = if self.rows <= live { size } else { 0 };
        Ok(())
    }

    /// Appends a row of the store's columns that was added, with its number and where it came from. It needs a reserve
    /// for its record.
    pub fn append_row(&mut self, number: u64, row: &Row, origin: Option<Origin>)
        requires row { IsRowOf self.old.columns row.now }
        requires reserved { change_size (row_added self.old.columns number row.now origin) ≤ self.old.reserved }
        ensures stands { (content : Content) → StandsFor D.told self.old content → TakesRow content number row.now origin
            → StandsFor D.told self.new (with_change content (row_added self.old.columns number row.now origin)) }
        ensures change { self.new ≡ record self.old { records = self.old.records ++ record_bytes (row_added self.old.columns number row.now origin); rows = self.old.rows + 1; reserved = 0 } }
        ensures length { length_of self.new ≡ length_of self.old + cost_of self.old (length (record_bytes (row_added self.old.columns number row.now origin))) }
        // Told by the changes that wait.
        ensures longer { (content : Content) → StandsFor D.told self.old content
            → length_of self.new ≡ length_of self.old + change_cost content.pending (change_size (row_added self.old.columns number row.now origin)) }
        // A copy that is under way will have it once, as a copy that is made at once.
        ensures copy { (content : Content) (extra : ℕ) → StandsFor D.told self.old content → TakesRow content number row.now origin
            → IsLongerBy self.old (table_of content) extra → IsLongerBy self.new (table_of (with_change content (row_added self.old.columns number row.now origin))) extra }
    {
        self.batch
            .put_row(self.columns.as_slice(), number, row, origin);
        self.rows += 1;
        self.reserved = 0;
    }

    /// Appends that a row was removed.
    pub fn append_end(&mut self, number: u64)
        requires { 1 ≤ self.old.rows }
        ensures stands { (content : Content) → StandsFor D.told self.old content → HasRow content number
            → StandsFor D.told self.new (with_change content (row_ended number)) }
        ensures change { self.new ≡ record self.old { records = self.old.records ++ record_bytes (row_ended number); rows = self.old.rows - 1; ends = ends_with self.old.copy self.old.ends number } }
        ensures length { length_of self.new ≡ length_of self.old + cost_of self.old 9 }
        // Told by the changes that wait.
        ensures longer { (content : Content) → StandsFor D.told self.old content
            → length_of self.new ≡ length_of self.old + change_cost content.pending (change_size (row_ended number)) }
        // A copy that has the row will be longer by its record and that of its end.
        ensures copy { (content : Content) (row : List Field) (extra : ℕ) → StandsFor D.told self.old content → values_in (table_of content).rows number ≡ Some row
            → IsLongerBy self.old (table_of content) extra → IsLongerBy self.new (table_of (with_change content (row_ended number))) (extra + end_extra self.old.copy self.old.columns number row) }
    {
        self.batch.put_end(number);
        put_waiting(&mut self.ends, self.copy, number);
        self.rows -= 1;
    }
}

// Commit.
impl<D: Disk> Store<D> {
    /// Makes all that was appended durable, by at most two writes and two syncs. Where the store has failed, each
    /// commit fails at once.
    pub fn commit(&mut self) -> Result<(), DiskFailed>
        // At each moment inside it opening gives what is committed and a prefix of what is pending.
        ensures any_moment { (content : Content) → StandsFor D.told self.old content → IsTrue (D.told self.old.disk).honest
            → LeavesOnly (D.told self.old.disk) (D.told self.new.disk) (IsPrefix content self.old.generation) }
        // It gives all of them or none, never some alone.
        ensures all_or_none { (content : Content) → StandsFor D.told self.old content
            → IsTrue (D.told self.old.disk).honest
            → self.old.failed ≡ false → self.old.records ≢ []
            → LeavesOnly (D.told self.old.disk) (D.told self.new.disk)
            (IsAllOrNone content self.old.generation) }
        // After success all is committed, and after a failure the store stands for the same content.
        ensures done { OnOk result ((content : Content) → StandsFor D.told self.old content → StandsFor D.told self.new (all_committed content)) }
        ensures open { OnErr result ((content : Content) → StandsFor D.told self.old content → StandsFor D.told self.new content) }
        ensures committed { OnOk result (self.old.records ≢ [] → self.new ≡ record self.old { disk = self.new.disk; end = length_of self.old; records = []; reserved = 0 }) }
        // What the side reads as then: the batch stands from the old closing gate on, which is open, and it ends with a closed one.
        ensures bytes { OnOk result (IsTrue (D.told self.old.disk).honest → self.old.records ≢ []
            → on self.old.side (D.told self.new.disk).bytes ≡ written (written (on self.old.side (D.told self.old.disk).bytes) self.old.end (sealed self.old.records)) (self.old.end - 1) (1 ∷ [])) }
        ensures failed { OnErr result (self.new ≡ record self.old { disk = self.new.disk; failed = true }) }
        // Nothing else changes: neither the side nor its generation, nor a copy that is under way.
        ensures kept { self.new ≡ record self.old { disk = self.new.disk; end = self.new.end; records = self.new.records; reserved = self.new.reserved; failed = self.new.failed } }
        ensures whole { OnOk result (self.new.failed ≡ false) }
        ensures length { length_of self.new ≡ length_of self.old }
        // A copy that is under way will be as long as it would be.
        ensures copy { (content : Content) (extra : ℕ) → IsLongerBy self.old (table_of content) extra
            → IsLongerBy self.new (table_of content) extra }
        ensures honest { (D.told self.new.disk).honest ≡ (D.told self.old.disk).honest }
        // It fails only where the disk failed in it, or where the store has failed.
        ensures cause { OnErr result (self.old.failed ≡ false → bump (D.told self.old.disk).faults ≤ (D.told self.new.disk).faults) }
        ensures calm { OnOk result ((D.told self.new.disk).faults ≡ (D.told self.old.disk).faults) }
        ensures again { self.old.failed ≡ true → IsErr result × (self.new ≡ self.old) }
        ensures nothing { self.old.failed ≡ false → self.old.records ≡ [] → IsOk result × (self.new ≡ self.old) }
        // Its device calls, in their order.
        ensures device { self.old.failed ≡ false → self.old.records ≢ []
            → Makes D.told (commit_calls self.old.side self.old.end (sealed self.old.records)) result self.old.disk self.new.disk }
        ensures calls { (D.told self.new.disk).calls ≤ (D.told self.old.disk).calls + 4 }
        ensures writes { (D.told self.new.disk).writes ≤ (D.told self.old.disk).writes + 2 }
        ensures syncs { (D.told self.new.disk).syncs ≤ (D.told self.old.disk).syncs + 2 }
    {
        if self.failed {
            return Err(DiskFailed);
        }
        if self.batch.is_empty() {
            return Ok(());
        }
        self.failed = true;
        match commit_batch(&mut self.disk, self.side, self.end, self.batch.as_slice()) {
            Ok(()) => {
                self.failed = false;
                self.end += pending_size(&self.batch);
                self.batch.clear();
                self.reserved = 0;
                Ok(())
            }
            Err(DiskFailed) => Err(DiskFailed),
        }
    }
}

// Copy.
impl<D: Disk> Store<D> {
    /// Begins a copy of the table on the other side.
    pub fn compact_begin(&mut self) -> Result<(), CopyFault>
        requires idle { self.old.copy ≡ None }
        requires whole { self.old.failed ≡ false }
        requires limit { self.old.generation < 2 ^ 62 }
        requires content { (content : Content) × StandsFor D.told self.old content }
        ensures any_moment { (content : Content) → StandsFor D.told self.old content → IsTrue (D.told self.old.disk).honest
            → LeavesOnly (D.told self.old.disk) (D.told self.new.disk) (IsPrefix content self.old.generation) }
        ensures stands { (content : Content) → StandsFor D.told self.old content → StandsFor D.told self.new content }
        ensures begun { OnOk result (self.new ≡ record self.old { disk = self.new.disk; known = true; copy = Some (record { cursor = 1; at = base_at }); ends = [] }) }
        // It will be no longer than the table takes.
        ensures length { OnOk result ((content : Content) → StandsFor D.told self.old content → IsLongerBy self.new (table_of content) 0) }
        ensures abandoned { IfErr result (λ fault. (fault ≡ CopyFault.Abandoned) × (self.new ≡ record self.old { disk = self.new.disk; known = self.new.known; ends = [] })) }
        ensures honest { (D.told self.new.disk).honest ≡ (D.told self.old.disk).honest }
        ensures faults { CountsFault result (D.told self.old.disk).faults (D.told self.new.disk).faults }
        ensures device { OnOk result (AllMade D.told (prepare_calls (other self.old.side) self.old.known) self.old.disk self.new.disk) }
        ensures device_err { OnErr result (BrokeOff D.told (prepare_calls (other self.old.side) self.old.known) self.old.disk self.new.disk) }
        // What was known of the other gate stays known, and it is known where the calls that close it were made.
        ensures known { self.old.known ≡ true → self.new.known ≡ true }
        ensures unknown { self.new.known ≡ false → BrokeOff D.told (close_calls (other self.old.side) false) self.old.disk self.new.disk }
    {
        self.ends.truncate(0);
        match prepare(&mut self.disk, other_of(self.side), &mut self.known) {
            Ok(()) => {
                self.copy = Some(Progress {
                    cursor: 1,
                    at: BASE_AT,
                });
                Ok(())
            }
            Err(DiskFailed) => Err(CopyFault::Abandoned),
        }
    }

    /// Copies the next rows from the cursor on, at most so many, by one write behind what the copy has. It tells
    /// whether no row is left.
    pub fn compact_piece(&mut self, table: &Table, most: u32) -> Result<bool, CopyFault>
        requires copying { IsSome self.old.copy }
        requires whole { self.old.failed ≡ false }
        requires content { (content : Content) × StandsFor D.told self.old content × (table_of content ≡ without_owners table.now.state) }
        requires most { 1 ≤ most }
        ensures any_moment { (content : Content) → StandsFor D.told self.old content → IsTrue (D.told self.old.disk).honest
            → LeavesOnly (D.told self.old.disk) (D.told self.new.disk) (IsPrefix content self.old.generation) }
        // Whether it fails or not the store stands for the same content, and where it succeeds the copy has come so far.
        ensures stands { (content : Content) → StandsFor D.told self.old content → table_of content ≡ without_owners table.now.state → StandsFor D.told self.new content }
        ensures copied { OnOk result (option_map (λ p. p.cursor) self.new.copy ≡ option_map (λ p. cursor_after p.cursor (taken most p.cursor table.now.state)) self.old.copy) }
        // Whether no row is left then.
        ensures done { IfOk result (λ done. ForSome self.old.copy (λ progress.
            (done ≡ true) ↔ (rows_from (cursor_after progress.cursor (taken most progress.cursor table.now.state)) table.now.state.rows ≡ []))) }
        // It makes the copy neither longer nor shorter than it would be.
        ensures length { (content : Content) (extra : ℕ) → StandsFor D.told self.old content → table_of content ≡ without_owners table.now.state
            → IsLongerBy self.old (table_of content) extra → IsLongerBy self.new (table_of content) extra }
        // Where it fails the copy is dropped, and the current side goes on.
        ensures dropped { OnErr result (self.new.copy ≡ None) }
        ensures kept { self.new ≡ record self.old { disk = self.new.disk; copy = self.new.copy; ends = [] } }
        // It is abandoned exactly where the disk failed, and never unsure.
        ensures fault { IfErr result (λ fault. fault ≢ CopyFault.Unsure) }
        ensures faults { IfErr result (λ fault. CountsCopy fault (D.told self.old.disk).faults (D.told self.new.disk).faults) }
        ensures calm { OnOk result ((D.told self.new.disk).faults ≡ (D.told self.old.disk).faults) }
        // Its device call.
        ensures device { OnOk result (ForSome self.old.copy (λ progress. AllMade D.told (piece_calls self.old progress most table.now.state) self.old.disk self.new.disk)) }
        ensures device_err { IfErr result (λ fault. ForSome self.old.copy (λ progress. PieceStops D.told (piece_calls self.old progress most table.now.state) fault self.old.disk self.new.disk)) }
        ensures honest { (D.told self.new.disk).honest ≡ (D.told self.old.disk).honest }
    {
        let Some(progress) = self.copy else {
            unreachable!()
        };
        self.copy = None;
        let gathered = gather(self.alloc, table, progress, most, &self.ends);
        self.ends.truncate(0);
        let Ok(piece) = gathered else {
            return Err(CopyFault::Memory);
        };
        let more = piece.bytes.as_slice();
        let Ok(()) = extend_by(&mut self.disk, other_of(self.side), progress.at, more) else {
            return Err(CopyFault::Abandoned);
        };
        self.copy = Some(Progress {
            cursor: piece.cursor,
            at: progress.at + more.len() as u64,
        });
        Ok(none_left(table, piece.cursor))
    }

    /// Copies what is left, opens the copy's gate, and goes on with its side. It gives the new generation.
    pub fn compact_finish(&mut self, table: &Table) -> Result<u64, CopyFault>
        requires copying { IsSome self.old.copy }
        requires whole { self.old.failed ≡ false }
        requires content { (content : Content) × StandsFor D.told self.old content × (table_of content ≡ without_owners table.now.state) }
        ensures any_moment { (content : Content) → StandsFor D.told self.old content → table_of content ≡ without_owners table.now.state → IsTrue (D.told self.old.disk).honest
            → LeavesOnly (D.told self.old.disk) (D.told self.new.disk) (IsPrefixOrNew content self.old.generation) }
        // The new table is read at no moment of a finish that is refused before its gate was written.
        ensures before_the_gate { IfErr result (λ fault. fault ≢ CopyFault.Unsure → (content : Content) → StandsFor D.told self.old content → IsTrue (D.told self.old.disk).honest
            → LeavesOnly (D.told self.old.disk) (D.told self.new.disk) (IsPrefix content self.old.generation)) }
        // The new side stands for the table as it is, and nothing waits.
        ensures stands { OnOk result ((content : Content) → StandsFor D.told self.old content → table_of content ≡ without_owners table.now.state → StandsFor D.told self.new (all_committed content)) }
        ensures generation { IfOk result (λ generation. generation ≡ self.old.generation + 1) }
        ensures finished { OnOk result (ForSome self.old.copy (λ progress. self.new ≡ record self.old {
          disk = self.new.disk;
          side = other self.old.side;
          end = finished_length self.old progress table.now.state;
          generation = self.old.generation + 1;
          records = [];
          reserved = 0;
          known = false;
          copy = None;
          ends = [];
        })) }
        ensures whole { OnOk result (self.new.failed ≡ false) }
        // It is no longer than before, and as long as the copy would be.
        ensures length { OnOk result (length_of self.new ≤ length_of self.old) }
        ensures exact { OnOk result ((content : Content) (extra : ℕ) → StandsFor D.told self.old content → table_of content ≡ without_owners table.now.state → IsLongerBy self.old (table_of content) extra
            → length_of self.new ≡ compact_size (table_of content) + extra) }
        // Where it fails the copy is dropped. The store is failed where it is unsure, and else the current side goes on.
        ensures dropped { IfErr result (λ fault. self.new ≡ record self.old { disk = self.new.disk; failed = is_unsure fault; copy = None; ends = [] }) }
        ensures goes_on { IfErr result (λ fault. fault ≢ CopyFault.Unsure → (content : Content) → StandsFor D.told self.old content → table_of content ≡ without_owners table.now.state → StandsFor D.told self.new content) }
        // What a crash leaves where it is unsure.
        ensures unsure { IfErr result (λ fault. fault ≡ CopyFault.Unsure → (content : Content) → StandsFor D.told self.old content → table_of content ≡ without_owners table.now.state → IsTrue (D.told self.old.disk).honest
            → ForSome self.old.copy (λ progress. Within (D.told self.new.disk).images (IsUnsure content self.old.generation (other self.old.side) (finished_length self.old progress table.now.state)))) }
        // The same, told by the store as it is then.
        ensures unsure_stands { IfErr result (λ fault. fault ≡ CopyFault.Unsure
            → (content : Content) → StandsFor D.told self.old content
            → table_of content ≡ without_owners table.now.state → StandsUnsure D.told self.new content) }
        // It is abandoned or unsure exactly where the disk failed.
        ensures faults { IfErr result (λ fault. CountsCopy fault (D.told self.old.disk).faults (D.told self.new.disk).faults) }
        ensures calm { OnOk result ((D.told self.new.disk).faults ≡ (D.told self.old.disk).faults) }
        // Its device calls, in their order.
        ensures device { OnOk result (ForSome self.old.copy (λ progress. AllMade D.told (last_calls self.old progress table.now.state ++ switch_calls (other self.old.side)) self.old.disk self.new.disk)) }
        ensures device_err { IfErr result (λ fault. ForSome self.old.copy (λ progress. FinishStops D.told (last_calls self.old progress table.now.state) (switch_calls (other self.old.side)) fault self.old.disk self.new.disk)) }
        ensures honest { (D.told self.new.disk).honest ≡ (D.told self.old.disk).honest }
    {
        let Some(progress) = self.copy else {
            unreachable!()
        };
        let Ok(last) = gather_rest(self.alloc, table, progress, &self.ends) else {
            self.copy = None;
            self.ends.truncate(0);
            return Err(CopyFault::Memory);
        };
        let last = last.as_slice();
        let length = progress.at + last.len() as u64 - (BASE_AT + 1);
        let header = header_of(self.generation + 1, length);
        self.finish(progress, last, &header)
    }

    // Writes what is left of a copy and its header, opens its gate, and goes on with its side.
    fn finish(
        &mut self,
        progress: Progress,
        last: &[u8],
        header: &[u8; 20],
    ) -> Result<u64, CopyFault>
        requires copying { self.old.copy ≡ Some progress }
        requires whole { self.old.failed ≡ false }
        requires content { (content : Content) × StandsFor D.told self.old content × IsRest self.old progress content last.now header.now }
        ensures any_moment { (content : Content) → StandsFor D.told self.old content → IsRest self.old progress content last.now header.now → IsTrue (D.told self.old.disk).honest
            → LeavesOnly (D.told self.old.disk) (D.told self.new.disk) (IsPrefixOrNew content self.old.generation) }
        ensures before_the_gate { IfErr result (λ fault. fault ≢ CopyFault.Unsure → (content : Content) → StandsFor D.told self.old content → IsTrue (D.told self.old.disk).honest
            → LeavesOnly (D.told self.old.disk) (D.told self.new.disk) (IsPrefix content self.old.generation)) }
        ensures stands { OnOk result ((content : Content) → StandsFor D.told self.old content → IsRest self.old progress content last.now header.now → StandsFor D.told self.new (all_committed content)) }
        ensures finished { OnOk result (self.new ≡ record self.old { disk = self.new.disk; side = other self.old.side; end = progress.at + length last.now; generation = self.old.generation + 1; records = []; reserved = 0; known = false; copy = None; ends = [] }) }
        ensures generation { IfOk result (λ generation. generation ≡ self.old.generation + 1) }
        ensures whole { OnOk result (self.new.failed ≡ false) }
        // No longer than before.
        ensures length { OnOk result (length_of self.new ≤ length_of self.old) }
        // A copy that is abandoned leaves what the store stands for.
        ensures dropped { IfErr result (λ fault. self.new ≡ record self.old { disk = self.new.disk; failed = is_unsure fault; copy = None; ends = [] }) }
        ensures goes_on { IfErr result (λ fault. fault ≢ CopyFault.Unsure → (content : Content) → StandsFor D.told self.old content → IsRest self.old progress content last.now header.now → StandsFor D.told self.new content) }
        // Where it is unsure the new side is whole but for its gate in each image.
        ensures unsure { IfErr result (λ fault. fault ≡ CopyFault.Unsure → (content : Content) → StandsFor D.told self.old content → IsRest self.old progress content last.now header.now → IsTrue (D.told self.old.disk).honest
            → Within (D.told self.new.disk).images (IsUnsure content self.old.generation (other self.old.side) (progress.at + length last.now))) }
        ensures faults { IfErr result (λ fault. CountsCopy fault (D.told self.old.disk).faults (D.told self.new.disk).faults) }
        ensures calm { OnOk result ((D.told self.new.disk).faults ≡ (D.told self.old.disk).faults) }
        ensures device { OnOk result (AllMade D.told (fill_calls (other self.old.side) progress.at last.now header.now ++ switch_calls (other self.old.side)) self.old.disk self.new.disk) }
        ensures device_err { IfErr result (λ fault. FinishStops D.told (fill_calls (other self.old.side) progress.at last.now header.now) (switch_calls (other self.old.side)) fault self.old.disk self.new.disk) }
        ensures honest { (D.told self.new.disk).honest ≡ (D.told self.old.disk).honest }
    {
        let side = other_of(self.side);
        self.copy = None;
        self.ends.truncate(0);
        let Ok(()) = fill(&mut self.disk, side, progress.at, last, header) else {
            return Err(CopyFault::Abandoned);
        };
        self.failed = true;
        let Ok(()) = switch(&mut self.disk, side) else {
            return Err(CopyFault::Unsure);
        };
        self.failed = false;
        self.side = side;
        self.end = progress.at + last.len() as u64;
        self.generation += 1;
        self.known = false;
        self.batch.clear();
        self.reserved = 0;
        Ok(self.generation)
    }
}

// What the batch adds to the side.
fn pending_size(batch: &Batch) -> u64
    requires { length batch.now.records ≤ 2 ^ 32 }
    ensures { result ≡ pending_length batch.now.records }
{
    if batch.is_empty() {
        return 0;
    }
    BATCH_SIZE + batch.len() as u64
}

// What a record adds besides its size.
fn batch_cost(batch: &Batch) -> u64
    ensures { result ≡ batch_size batch.now.records 0 }
{
    if batch.is_empty() { BATCH_SIZE } else { 0 }
}
