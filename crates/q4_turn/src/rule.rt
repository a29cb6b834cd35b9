//! The rule of the table that a turn stands on.
use crate::kept::Kept;
use crate::view::View;
use atomic_table::TableRule;
use std::marker::PhantomData;

/// The rule of a turn. The key of its table is the number of parts.
pub struct InTurn<V> {
    value: PhantomData<V>,
}

impl<V: Kept> TableRule<Option<V>, View<V::Entry>, u64> for InTurn<V> {
    ghost use Rattle.q4_turn.specs.Rules.{Keeps};
    ghost use Rattle.q4_turn.specs.Views.{founding_view};

    ghost holds = { λ all. Keeps V.stands V.mark all };

    ghost first = { λ all. founding_view all };
}
