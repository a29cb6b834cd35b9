use crate::{Looks, Rows, Tables};
use q4_value::Row;

/// What a history keeps of a call.
#[derive(Drop)]
pub enum Call {
    /// The first entry: the tables as they were opened.
    Opened(Tables),
    Open,
    /// The place of the table, from 0, and the row.
    Insert(u32, Row),
    Look(Looks),
    End,
    Abort,
    RowId,
    /// The place of the table, from 0, and how many rows at most.
    Select(u32, u32),
    Close,
    /// Every change before it was made safe.
    Sync,
}

/// Why a call changed nothing.
#[derive(Clone, Copy, Debug, PartialEq, Eq)]
pub enum Refusal {
    /// The session is not in owner mode.
    NotOwner,
    /// The session is in owner mode and owns no row.
    NoRow,
    /// The table's row numbers are used up.
    Spent,
    /// The table has 250,000 rows.
    Rows,
    /// The sizes of the table's rows, this many bytes together, and that of the new row exceed 33,554,432.
    Bytes(u64),
}

/// What a call was answered.
#[derive(Drop)]
pub enum Reply {
    Done,
    /// The number of the session that was opened.
    Session(u64),
    /// The number of the row that was added.
    Added(u64),
    /// The mark of the source at which the row was seen before.
    Seen(u64),
    /// The place in the list of the wait, from 1, whose table gave the row.
    Found(u32),
    /// The time was over, and no table of the list had a row to take.
    Nothing,
    /// The number of the owned row.
    Number(u64),
    /// The rows that the session sees, oldest first.
    Shown(Rows),
    Refused(Refusal),
}

/// One call of a history, with its reply.
#[derive(Drop)]
pub struct Entry {
    /// Whose desk made the call.
    pub caller: u64,
    /// The session that the call was made for. `Opened` has 0.
    pub session: u64,
    pub call: Call,
    pub reply: Reply,
}
