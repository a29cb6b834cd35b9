//! What a pass knows. No value of these types is made: they are read by contracts and by the rule of the turn.
use std::collections::LinkedList;

/// A pass that was joined into another: its number, and the entries that it added.
pub struct JoinedPass<E> {
    pub number: u64,
    pub mine: LinkedList<E>,
}

/// What a pass knows of its turn.
pub struct View<E> {
    /// There is no entry yet: the first pass, while its turn is made.
    pub founding: bool,
    /// It is a pass of its turn: not founding, joined into another, or closed.
    pub live: bool,
    /// It holds the turn.
    pub holding: bool,
    /// It has all parts, and the history has ended.
    pub closing: bool,
    /// The ticket that it waits or holds the turn with.
    pub ticket: Option<u64>,
    /// A number that it drew for a split.
    pub in_hand: Option<u64>,
    /// The mark of its entries.
    pub number: u64,
    /// How many of the turn's parts it has.
    pub parts: u64,
    /// How often it entered.
    pub holds: u64,
    /// The beginning of the history that it has seen.
    pub seen: LinkedList<E>,
    /// The entries that it added.
    pub mine: LinkedList<E>,
    /// Right after a join, what the pass that had seen less has seen.
    pub unmerged: LinkedList<E>,
    /// The passes that were joined into it.
    pub olds: LinkedList<JoinedPass<E>>,
}
