/// What adding a row gave.
#[derive(Clone, Copy, Debug, PartialEq, Eq)]
pub enum Added {
    /// The row was added, with this number.
    New(u64),
    /// The row was seen before: its source has this mark. Nothing was added.
    Seen(u64),
}

/// What adding a row would come to.
#[derive(Clone, Copy, Debug, PartialEq, Eq)]
pub enum Check {
    /// The row would be added.
    New,
    /// The row was seen before: its source has this mark.
    Seen(u64),
    /// The row numbers are used up.
    Spent,
    /// The table has 250,000 rows.
    Rows,
    /// The sizes of the rows, this many bytes together, and that of the new row exceed 33,554,432.
    Bytes(u64),
}

/// Why a row was not added.
#[derive(Clone, Copy, Debug, PartialEq, Eq)]
pub enum AddFault {
    /// The row numbers are used up.
    Spent,
    /// The table has 250,000 rows.
    Rows,
    /// The sizes of the rows, this many bytes together, and that of the new row exceed 33,554,432.
    Bytes(u64),
    /// Memory was wanted and could not be had.
    Memory,
}
