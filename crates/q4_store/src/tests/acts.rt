use crate::CopyFault;
use q4_table::Mode;

// A call of a store, and what it means for the table.
#[derive(Clone, Copy)]
pub enum Act {
    // so many rows more
    Add(u64),
    // one row more, from this source, in this mode, with this number there
    Forward(u8, Mode, u64),
    // the ends of the rows from the one to the other
    End(u64, u64),
    Commit,
    Begin,
    Piece(u32),
    Finish,
}

#[derive(Clone, Copy, Debug, PartialEq, Eq)]
pub enum Answer {
    Done,
    // of a piece behind which rows are left, and of one behind which none is
    More,
    Last,
    // the generation that a finish gives
    Generation(u64),
    // of a commit
    Failed,
    Fault(CopyFault),
}

// What opening gives.
#[derive(Clone, Copy)]
pub struct Want {
    pub generation: u64,
    // the rows from the one to the other, by rising number
    pub rows: &'static [(u64, u64)],
    pub next: u64,
    // by source; the others are 0
    pub marks: &'static [(u8, u64)],
    pub length: u64,
}

impl Want {
    fn has_row(&self, number: u64) -> bool {
        self.rows
            .iter()
            .any(|(first, last)| *first <= number && number <= *last)
    }

    // Each row has its number as its first value.
    pub fn value(&self, number: u64) -> Option<i64> {
        if !self.has_row(number) {
            return None;
        }
        i64::try_from(number).ok()
    }

    pub fn mark(&self, source: u8) -> u64 {
        for (of, number) in self.marks {
            if *of == source {
                return *number;
            }
        }
        0
    }
}
