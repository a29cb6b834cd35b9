//! How a turn is made.
ghost use Rattle.std.specs.Prelude.{◌≡◌, ◌<◌, IfOk, IfErr, [], ◌∷◌, length};
ghost use Rattle.q4_turn.specs.Lists.{Every};
ghost use Rattle.q4_turn.specs.Views.{founding_view, first_view};
ghost use Rattle.q4_turn.specs.Steps.{IsExact};
ghost use Rattle.q4_turn.specs.Turns.{turn_parts, view, IsFree};

use crate::kept::Kept;
use crate::steps::{Begin, NamedEntries, Open};
use crate::turn::{Pass, Turn};
use crate::words::{FIRST_WORDS, LENGTH, TICKET, VALUE};
use atomic_table::Table;
use q4_value::NoMemory;
use std::alloc::Global;
use std::marker::Brand;

impl<V: Kept> Turn<V> {
    /// A turn of so many parts, and the pass that has them all.
    ///
    /// The value stands for one entry, which the caller's proof names. On an error it comes back.
    pub fn new(alloc: Global, value: V, parts: u64) -> Result<(Turn<V>, Pass<V>), (V, NoMemory)>
        ghost entry: { V.Entry }
        requires value { V.stands value (entry ∷ []) × (V.mark entry ≡ 0) }
        requires parts { 0 < parts }
        ensures turn { IfOk result (λ t. (turn_parts t.0 ≡ parts) × IsFree t.0 t.1) }
        ensures pass { IfOk result (λ t. (view t.1 ≡ first_view parts (entry ∷ [])) × IsExact V.mark (view t.1)) }
        ensures err { IfErr result (λ e. e.0 ≡ value) }
    {
        Self::new_named::<Brand>(alloc, value, parts)
    }

    // `new`, by entries that the caller's proof names.
    fn new_named<N: NamedEntries<V::Entry>>(
        alloc: Global,
        value: V,
        parts: u64,
    ) -> Result<(Turn<V>, Pass<V>), (V, NoMemory)>
        requires value { V.stands value N.entries × Every (λ e. V.mark e ≡ 0) N.entries × (length N.entries ≡ 1) }
        requires parts { 0 < parts }
        ensures turn { IfOk result (λ t. (turn_parts t.0 ≡ parts) × IsFree t.0 t.1) }
        ensures pass { IfOk result (λ t. (view t.1 ≡ first_view parts N.entries) × IsExact V.mark (view t.1)) }
        ensures err { IfErr result (λ e. e.0 ≡ value) }
    {
        match Table::vacant(alloc, &FIRST_WORDS, 1, &parts) {
            Ok((table, seat)) => {
                let turn = Turn { table };
                let mut pass = Pass { seat };
                turn.begin_named::<N>(&mut pass, value);
                Ok((turn, pass))
            }
            Err(_) => Err((value, NoMemory)),
        }
    }

    // Takes the empty slot, fills it, and counts the first entry.
    fn begin_named<N: NamedEntries<V::Entry>>(&self, pass: &mut Pass<V>, value: V)
        requires pass { (pass.old.seat.table_id ≡ self.now.table.shared.table_id) × (pass.old.seat.me ≡ (founding_view self.now.table.shared.key, [])) }
        requires value { V.stands value N.entries × Every (λ e. V.mark e ≡ 0) N.entries × (length N.entries ≡ 1) }
        requires parts { 0 < self.now.table.shared.key }
        ensures free { IsFree self.now pass.new }
        ensures view { (view pass.new ≡ first_view self.now.table.shared.key N.entries) × IsExact V.mark (view pass.new) }
    {
        let words = &self.table.shared;
        words.load::<Open>(&mut pass.seat, TICKET);
        match words.exchange(&mut pass.seat, VALUE, Some(value)) {
            None => {}
            Some(_) => unreachable!(),
        }
        words.fetch_add::<Begin<V, N>>(&mut pass.seat, LENGTH, 1);
    }
}
