/// How the number of a source counts.
#[derive(Clone, Copy, Debug, PartialEq, Eq)]
pub enum Mode {
    /// A number that is at most the source's mark was seen before, and its row is not added again.
    A,
    /// Every row is added.
    W,
}

/// Where a row comes from: a source, from 0 to 63, and the row's number there, from 1 to 2^62 - 1.
#[derive(Clone, Copy, Debug, PartialEq, Eq)]
pub struct Origin {
    pub source: u8,
    pub mode: Mode,
    pub number: u64,
}
