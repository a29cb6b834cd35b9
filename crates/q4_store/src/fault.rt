use q4_disk::Side;
use thiserror::Error;

/// Why a store was not opened. Places are counted from 0 in the side's bytes.
#[derive(Clone, Copy, Debug, Drop, PartialEq, Eq, Error)]
pub enum OpenFault {
    /// The disk failed.
    #[error("disk fault")]
    Disk,
    /// At this place of this side no part of a side begins: a header at 0, a record, or a batch at its gate. Two open
    /// sides of one generation are damaged at 5 of side B.
    #[error("damaged {} {}", letter(.0), .1)]
    Damaged(Side, u64),
    /// The schema is another than that of the definition, at this column first, counted from 1, or behind the last one. A
    /// column that takes null in the definition alone is none: the side is rewritten.
    #[error("schema {0}")]
    Schema(u32),
    /// A limit is passed: 1 more than 250,000 rows, 2 more than 33,554,432 bytes of rows, 3 a next number over 2^62,
    /// 4 a text of more than 65,535 bytes, 5 a row of more than 1,048,576 bytes, 6 a side of more than 536,870,912
    /// bytes, 7 a generation over 2^62, or of 2^62 where a column takes null in the definition alone, 8 no room for the end
    /// of each row within the bytes of a side.
    #[error("large {0}")]
    Large(u32),
    /// Memory was wanted and could not be had.
    #[error("out of memory")]
    Memory,
}

// The letter by which a side's file is named.
fn letter(side: &Side) -> &'static str {
    match side {
        Side::A => "a",
        Side::B => "b",
    }
}

/// Why there is no place for one more record.
#[derive(Clone, Copy, Debug, PartialEq, Eq)]
pub enum AppendFault {
    /// The side is full. It has so many bytes, with what is pending.
    FileFull(u64),
    /// Memory was wanted and could not be had.
    Memory,
}

/// Why a copy is no more.
#[derive(Clone, Copy, Debug, PartialEq, Eq)]
pub enum CopyFault {
    /// The disk failed before the gate of the copy was written. The current side goes on.
    Abandoned,
    /// The disk failed as the gate of the copy was opened: a crash leaves the one side or the other.
    Unsure,
    /// Memory was wanted and could not be had.
    Memory,
}
