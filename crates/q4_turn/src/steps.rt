//! The steps of a turn: what each tells the pass that makes it. These types are for the proofs alone, and no value of them is made.
use crate::kept::Kept;
use crate::view::View;
use atomic_table::{Join, Play, Split};
use std::marker::{Brand, PhantomData};

/// Entries that a caller's proof names. A step reads no argument, so they come by a type.
pub trait NamedEntries<E> {
    ghost use Rattle.std.specs.Prelude.{List};

    ghost entries: { List E };
}

impl<E> NamedEntries<E> for Brand {
    ghost use Rattle.std.specs.Prelude.{[]};

    ghost entries = { [] };
}

/// Parts that a caller's proof names.
pub trait NamedParts {
    ghost use Rattle.std.specs.Prelude.{ℕ};

    ghost parts: { ℕ };
}

impl NamedParts for Brand {
    ghost parts = { 0 };
}

/// A load that takes the empty slot.
pub struct Open;

impl<V, E> Play<Option<V>, View<E>> for Open {
    ghost use Rattle.q4_turn.specs.Steps.{TellsOpening};

    ghost then = { TellsOpening };
}

/// The addition to the length by which the first entries stand.
pub struct Begin<V, N> {
    names: PhantomData<(V, N)>,
}

impl<V: Kept, N: NamedEntries<V::Entry>> Play<Option<V>, View<V::Entry>> for Begin<V, N> {
    ghost use Rattle.q4_turn.specs.Steps.{TellsFirst};

    ghost then = { TellsFirst V.mark N.entries };
}

/// The exchange that draws a ticket.
pub struct Draw;

impl<V, E> Play<Option<V>, View<E>> for Draw {
    ghost use Rattle.q4_turn.specs.Steps.{TellsTicket};

    ghost then = { TellsTicket };
}

/// A load of the ticket that is served.
pub struct Look<V> {
    value: PhantomData<V>,
}

impl<V: Kept> Play<Option<V>, View<V::Entry>> for Look<V> {
    ghost use Rattle.q4_turn.specs.Steps.{TellsLook};

    ghost then = { TellsLook V.stands V.mark };
}

/// A load of the length, while the turn is held.
pub struct Measure;

impl<V, E> Play<Option<V>, View<E>> for Measure {
    ghost use Rattle.q4_turn.specs.Steps.{TellsLength};

    ghost then = { TellsLength };
}

/// The addition to the length by which the entries of a hold stand.
pub struct Count<V, N> {
    names: PhantomData<(V, N)>,
}

impl<V: Kept, N: NamedEntries<V::Entry>> Play<Option<V>, View<V::Entry>> for Count<V, N> {
    ghost use Rattle.q4_turn.specs.Steps.{TellsGrowth};

    ghost then = { TellsGrowth V.mark N.entries };
}

/// The addition that serves the next ticket.
pub struct End;

impl<V, E> Play<Option<V>, View<E>> for End {
    ghost use Rattle.q4_turn.specs.Steps.{TellsEnd};

    ghost then = { TellsEnd };
}

/// The addition to the word of a ticket by which whoever sleeps there sees that it was served.
pub struct Ring;

impl<V, E> Play<Option<V>, View<E>> for Ring {
    ghost use Rattle.q4_turn.specs.Steps.{TellsNothing};

    ghost then = { TellsNothing };
}

/// The exchange that draws a number.
pub struct Number;

impl<V, E> Play<Option<V>, View<E>> for Number {
    ghost use Rattle.q4_turn.specs.Steps.{TellsNumber};

    ghost then = { TellsNumber };
}

/// A split by the number in hand.
pub struct Cut<N> {
    parts: PhantomData<N>,
}

impl<E, N: NamedParts> Split<View<E>> for Cut<N> {
    ghost use Rattle.q4_turn.specs.Views.{after_split, split_by_hand};

    ghost left = { after_split N.parts };

    ghost right = { split_by_hand N.parts };
}

/// A load after a split, for what the rule says of one pass.
pub struct Know<V> {
    value: PhantomData<V>,
}

impl<V: Kept> Play<Option<V>, View<V::Entry>> for Know<V> {
    ghost use Rattle.q4_turn.specs.Steps.{TellsExact};

    ghost then = { TellsExact V.mark };
}

/// A join, after which the two `seen` are still to be compared.
pub struct Both;

impl<E> Join<View<E>> for Both {
    ghost use Rattle.q4_turn.specs.Views.{uncompared, spent_view};

    ghost both = { uncompared };

    ghost spent = { spent_view };
}

/// The load that compares them.
pub struct Compare<V> {
    value: PhantomData<V>,
}

impl<V: Kept> Play<Option<V>, View<V::Entry>> for Compare<V> {
    ghost use Rattle.q4_turn.specs.Steps.{TellsCompared};

    ghost then = { TellsCompared V.mark };
}

/// A load with all parts, after which the history is the one that it saw.
pub struct Close<V> {
    value: PhantomData<V>,
}

impl<V: Kept> Play<Option<V>, View<V::Entry>> for Close<V> {
    ghost use Rattle.q4_turn.specs.Steps.{TellsClose};

    ghost then = { TellsClose V.mark };
}

/// A split that keeps a copy of the view, for after the end.
pub struct After;

impl<E> Split<View<E>> for After {
    ghost use Rattle.q4_turn.specs.Views.{retired};

    ghost left = { λ v. v };

    ghost right = { retired };
}
