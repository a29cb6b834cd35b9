//! The types of a turn. What they can do stands in other files, whose clauses name these types.
ghost use Rattle.std.specs.Prelude.{◌≡◌};

use crate::kept::Kept;
use crate::rule::InTurn;
use crate::view::View;
use atomic_table::{Seat, Table};
use std::alloc::Global;
use std::marker::PhantomData;
use std::snapshot::Snapshot;

/// Keeps a value that threads hold in turn.
///
/// Its passes have parts, which add up to a number that is fixed when the turn is made.
#[derive(Drop)]
pub struct Turn<V: Kept> {
    pub(crate) table: Table<Option<V>, View<V::Entry>, u64, InTurn<V>, Global>,
    ghost sized: { (table.shared.table_id.words ≡ 68) × (table.shared.table_id.slots ≡ 1) },
}

/// What a thread holds the turn by. It takes no bytes.
///
/// A pass that is let go keeps its parts, so its turn can't be closed any more.
pub struct Pass<V: Kept> {
    pub(crate) seat: Seat<Option<V>, View<V::Entry>>,
}

impl<V: Kept> Pass<V> {
    pub(crate) fn into_seat(self) -> Seat<Option<V>, View<V::Entry>>
        ensures { result ≡ self.seat }
    {
        let Self { seat } = self;
        seat
    }
}

// Not derived: it needs no `Drop` of the value.
impl<V: Kept> Drop for Pass<V> {
    fn drop(self) {
        let Self { seat: _ } = self;
    }
}

/// The value, while a pass holds the turn.
///
/// It can't be let go: it has to go back by `leave`.
pub struct Held<'t, V: Kept> {
    // The pass whose `enter` gave it, for the proofs alone.
    pub(crate) of: Snapshot<Seat<Option<V>, View<V::Entry>>>,
    pub(crate) count: u64,
    pub(crate) value: V,
    pub(crate) turn: PhantomData<&'t ()>,
}
