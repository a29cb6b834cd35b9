ghost use Rattle.std.specs.Prelude.{◌≡◌, ◌<◌, ◌↔◌, ℕ, List, Option, Some, None, All, IsSome, IsTrue, length};
ghost use Rattle.std.specs.Result.{result_ok};
ghost use Rattle.q4_machine.specs.declared.entry.Entry.{Entry};
ghost use Rattle.q4_machine.specs.declared.entry.Call.TheVariants as call;
ghost use Rattle.q4_machine.specs.Definitions.{IsRowFor, IsListed};
ghost use Rattle.q4_machine.specs.History.{state_after, definitions_of};
ghost use Rattle.q4_machine.specs.Machine.{IsSessionOpen};
ghost use Rattle.q4_machine.specs.Parts.{IsInOrder, IsOpened, IsClosed, IsPart, Grows, Waits, insert_answer, wait_answer, mode_answer, row_answer, select_answer};

use crate::{Looks, Patience, Rows};
use q4_def::Defs;
use q4_table::Added;
use q4_value::Row;

/// Why a desk did not do a call.
#[derive(Clone, Copy, Debug, PartialEq, Eq)]
pub enum DeskFault {
    /// The history has this many entries, and with the open sessions no room for a call.
    Worn(u64),
    Memory,
}

/// Why a desk did not add a row.
#[derive(Clone, Copy, Debug, PartialEq, Eq)]
pub enum InsertFault {
    /// The table's row numbers are used up.
    Spent,
    /// The table has 250,000 rows.
    Rows,
    /// The sizes of the table's rows, this many bytes together, and that of the new row exceed 33,554,432.
    Bytes(u64),
    Desk(DeskFault),
}

/// Why a desk did not end, give back or tell the owned row.
#[derive(Clone, Copy, Debug, PartialEq, Eq)]
pub enum ModeFault {
    /// The session is not in owner mode.
    NotOwner,
    /// The session is in owner mode and owns no row. Only the question for the row is refused so.
    NoRow,
    Desk(DeskFault),
}

/// What a session speaks to. Each call grows the history by its part, and what was answered is settled. Want of
/// memory and a full history leave no entry of the call.
pub trait Desk {
    /// What a call that waits for others needs; nothing for a desk of one thread.
    type Leave;

    /// The history as far as the desk has seen it.
    ghost seen: { Self → List Entry };

    /// Whose entries the desk's calls make. No call changes it.
    ghost caller: { Self → ℕ };

    /// The session for which calls are made.
    ghost current: { Self → Option ℕ };

    /// How many entries and open sessions the history may come to. No call changes it.
    ghost limit: { Self → ℕ };

    /// The definitions of the tables, as they were opened. No call changes them.
    fn defs(&self) -> &Defs
        ensures { result.now ≡ definitions_of (seen self.now) };

    /// Opens a session, which is then the current one.
    fn open(&mut self, leave: &Self::Leave) -> Result<u64, DeskFault>
        requires { current self.old ≡ None }
        ensures in_order { IsInOrder (seen self.new) (caller self.new) (current self.new) }
        ensures same { (caller self.new ≡ caller self.old) × (limit self.new ≡ limit self.old) }
        ensures defined { definitions_of (seen self.new) ≡ definitions_of (seen self.old) }
        ensures current { current self.new ≡ result_ok result }
        ensures entry { Grows (seen self.old) (seen self.new) (λ grown. IsOpened (limit self.old) (seen self.old) grown (caller self.old) result) };

    /// Adds a row to the table at this place, from 0.
    fn insert(&mut self, leave: &Self::Leave, table: u32, row: Row) -> Result<Added, InsertFault>
        requires is_open { IsSome (current self.old) }
        requires row { IsRowFor (definitions_of (seen self.old)) table row }
        ensures in_order { IsInOrder (seen self.new) (caller self.new) (current self.new) }
        ensures same { (caller self.new ≡ caller self.old) × (limit self.new ≡ limit self.old) }
        ensures defined { definitions_of (seen self.new) ≡ definitions_of (seen self.old) }
        ensures current { current self.new ≡ current self.old }
        ensures part { (s : ℕ) → current self.old ≡ Some s → Grows (seen self.old) (seen self.new) (λ grown.
            IsPart (limit self.old) (seen self.old) grown (caller self.old) s (call.Insert table row) (insert_answer result)) };

    /// Takes the oldest row without an owner that meets the condition of the earliest entry of the list that has one,
    /// and tells that entry's place, from 1. In owner mode it ends first. It starts the patience with these seconds, and
    /// looks until it finds a row or the patience tells that the time is over; then it answers none.
    fn wait<P: Patience>(
        &mut self,
        leave: &Self::Leave,
        list: &Looks,
        seconds: u32,
        patience: &mut P,
    ) -> Result<Option<u32>, DeskFault>
        requires is_open { IsSome (current self.old) }
        requires listed { All (IsListed (definitions_of (seen self.old))) list.now }
        ensures in_order { IsInOrder (seen self.new) (caller self.new) (current self.new) }
        ensures same { (caller self.new ≡ caller self.old) × (limit self.new ≡ limit self.old) }
        ensures defined { definitions_of (seen self.new) ≡ definitions_of (seen self.old) }
        ensures current { current self.new ≡ current self.old }
        ensures part { (s : ℕ) → current self.old ≡ Some s → Grows (seen self.old) (seen self.new) (λ grown.
            IsPart (limit self.old) (seen self.old) grown (caller self.old) s (call.Look list.now) (wait_answer result)) }
        ensures patience { Waits (P.state patience.old) (P.state patience.new) seconds (wait_answer result) };

    /// Removes the owned row and leaves owner mode.
    fn end(&mut self, leave: &Self::Leave) -> Result<(), ModeFault>
        requires { IsSome (current self.old) }
        ensures in_order { IsInOrder (seen self.new) (caller self.new) (current self.new) }
        ensures same { (caller self.new ≡ caller self.old) × (limit self.new ≡ limit self.old) }
        ensures defined { definitions_of (seen self.new) ≡ definitions_of (seen self.old) }
        ensures current { current self.new ≡ current self.old }
        ensures part { (s : ℕ) → current self.old ≡ Some s → Grows (seen self.old) (seen self.new) (λ grown.
            IsPart (limit self.old) (seen self.old) grown (caller self.old) s call.End (mode_answer result)) };

    /// Gives the owned row back to its place and leaves owner mode.
    fn abort(&mut self, leave: &Self::Leave) -> Result<(), ModeFault>
        requires { IsSome (current self.old) }
        ensures in_order { IsInOrder (seen self.new) (caller self.new) (current self.new) }
        ensures same { (caller self.new ≡ caller self.old) × (limit self.new ≡ limit self.old) }
        ensures defined { definitions_of (seen self.new) ≡ definitions_of (seen self.old) }
        ensures current { current self.new ≡ current self.old }
        ensures part { (s : ℕ) → current self.old ≡ Some s → Grows (seen self.old) (seen self.new) (λ grown.
            IsPart (limit self.old) (seen self.old) grown (caller self.old) s call.Abort (mode_answer result)) };

    /// The number of the owned row.
    fn row_id(&mut self, leave: &Self::Leave) -> Result<u64, ModeFault>
        requires { IsSome (current self.old) }
        ensures in_order { IsInOrder (seen self.new) (caller self.new) (current self.new) }
        ensures same { (caller self.new ≡ caller self.old) × (limit self.new ≡ limit self.old) }
        ensures defined { definitions_of (seen self.new) ≡ definitions_of (seen self.old) }
        ensures current { current self.new ≡ current self.old }
        ensures part { (s : ℕ) → current self.old ≡ Some s → Grows (seen self.old) (seen self.new) (λ grown.
            IsPart (limit self.old) (seen self.old) grown (caller self.old) s call.RowId (row_answer result)) };

    /// The first rows, at most so many, that the session sees of the table at this place, from 0: in non-owner mode those
    /// that nobody owns, oldest first, in owner mode its own row in that row's table.
    fn select(&mut self, leave: &Self::Leave, table: u32, most: u32) -> Result<Rows, DeskFault>
        requires is_open { IsSome (current self.old) }
        requires inside { table < length (definitions_of (seen self.old)) }
        ensures in_order { IsInOrder (seen self.new) (caller self.new) (current self.new) }
        ensures same { (caller self.new ≡ caller self.old) × (limit self.new ≡ limit self.old) }
        ensures defined { definitions_of (seen self.new) ≡ definitions_of (seen self.old) }
        ensures current { current self.new ≡ current self.old }
        ensures part { (s : ℕ) → current self.old ≡ Some s → Grows (seen self.old) (seen self.new) (λ grown.
            IsPart (limit self.old) (seen self.old) grown (caller self.old) s (call.Select table most) (select_answer result)) };

    /// Closes the current session, which gives its row back. It takes no memory.
    fn close(&mut self, leave: &Self::Leave)
        requires { IsSome (current self.old) }
        ensures in_order { IsInOrder (seen self.new) (caller self.new) (current self.new) }
        ensures same { (caller self.new ≡ caller self.old) × (limit self.new ≡ limit self.old) }
        ensures defined { definitions_of (seen self.new) ≡ definitions_of (seen self.old) }
        ensures current { current self.new ≡ None }
        ensures entry { (s : ℕ) → current self.old ≡ Some s → Grows (seen self.old) (seen self.new) (λ grown.
            IsClosed (caller self.old) s grown) };
}

/// A desk that serves one thread with many sessions, of which one at most is the current one. All open sessions are those
/// of the desk's caller.
pub trait Seats: Desk {
    /// Makes this session the current one, where it is open; else the current one stays.
    fn choose(&mut self, session: u64) -> bool
        ensures open { IsTrue result ↔ IsSessionOpen (state_after (Self.seen self.old)) session }
        ensures chosen { IsTrue result → Self.current self.new ≡ Some session }
        ensures kept { (IsTrue result → ⊥) → Self.current self.new ≡ Self.current self.old }
        ensures in_order { IsInOrder (Self.seen self.new) (Self.caller self.new) (Self.current self.new) }
        ensures same { (Self.seen self.new ≡ Self.seen self.old) × (Self.caller self.new ≡ Self.caller self.old) × (Self.limit self.new ≡ Self.limit self.old) };

    /// Leaves no session current. All stay open.
    fn stand_up(&mut self)
        ensures current { Self.current self.new ≡ None }
        ensures in_order { IsInOrder (Self.seen self.new) (Self.caller self.new) (Self.current self.new) }
        ensures same { (Self.seen self.new ≡ Self.seen self.old) × (Self.caller self.new ≡ Self.caller self.old) × (Self.limit self.new ≡ Self.limit self.old) };
}
