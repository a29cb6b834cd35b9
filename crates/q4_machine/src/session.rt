/// Whether a session is in owner mode, and what it owns there.
#[derive(Clone, Copy, Debug, PartialEq, Eq)]
pub enum SessionMode {
    NonOwner,
    /// Owner mode without a row.
    Empty,
    /// Owner mode with one row: the place of its table, from 0, and its number.
    Owner(u32, u64),
}

/// A session that is open, by its number.
#[derive(Clone, Copy, Debug, PartialEq, Eq)]
pub struct OpenSession {
    pub session: u64,
    pub mode: SessionMode,
}
