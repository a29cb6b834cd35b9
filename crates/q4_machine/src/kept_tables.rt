//! The tables of a machine, and what they keep beside the rules.
ghost use Rattle.std.specs.Prelude.{◌≡◌, ◌<◌, None, Some, IfOk, IfErr, OnOk, OnErr, length, slice_set};
ghost use Rattle.q4_value.specs.Row.{Fits};
ghost use Rattle.q4_cond.specs.Reading.{kinds_of};
ghost use Rattle.q4_table.specs.Adding.{check_of, IsAdded, IsRefused, with_added};
ghost use Rattle.q4_table.specs.Cursors.{begin_of, end_of_look, with_kept, with_moved};
ghost use Rattle.q4_table.specs.Oldest.{oldest_meeting, IsAsked};
ghost use Rattle.q4_table.specs.Rows.{IsThere, IsUnowned, IsOwned, with_owner, without_row};
ghost use Rattle.q4_machine.specs.Machine.{table_at};
ghost use Rattle.q4_machine.specs.Kept.{kept_at, lowered_at, tables_view};
ghost use Rattle.q4_machine.specs.Step.{tables_with, rows_with};

use crate::Opening;
use q4_cond::{Cond, Steps};
use q4_table::{AddFault, Added, Table};
use q4_value::{NoMemory, Row};
use std::marker::Model;
use std::sync::ledger::Ledger;

// The tables of a machine by place from 0. A contract sees those of the rules, and apart from them what each keeps.
#[derive(Drop)]
pub(crate) struct KeptTables {
    openings: Vec<Opening>,
}

impl Model for KeptTables {
    ghost use Rattle.q4_machine.specs.Kept.{TablesView, tables_view};
    ghost use Rattle.q4_table.specs.contracts.cursors.Cursors as cursors;
    ghost use Rattle.std.specs.Coded.{codes};

    ghost Value = { TablesView };

    ghost coded = { Prim.hlevel (codes, cursors.the_row.coded) };

    ghost view = { λ t. tables_view t.openings.items };
}

impl KeptTables {
    pub(crate) fn new(openings: Vec<Opening>) -> KeptTables
        ensures { result ≡ tables_view openings.items }
    {
        KeptTables { openings }
    }

    // The table at this place.
    pub(crate) fn at(&self, place: u32) -> &Table
        requires { place < length self.now.tables }
        ensures state { result.now.state ≡ table_at self.now.tables place }
        ensures kept { result.now.kept ≡ kept_at self.now.kept place }
    {
        &self.openings[place as usize].table
    }

    // Adds a row from nowhere, as the table at this place does.
    pub(crate) fn add(&mut self, place: u32, row: Row) -> Result<Added, (AddFault, Row)>
        requires inside { place < length self.old.tables }
        requires row { Fits (table_at self.old.tables place).columns row }
        ensures added { IfOk result (IsAdded (check_of (table_at self.old.tables place) row None) (table_at self.old.tables place).next) }
        ensures table { IfOk result (λ added. self.new ≡ record self.old { tables = tables_with self.old.tables place (with_added (table_at self.old.tables place) row None added) }) }
        ensures refused { IfErr result (λ fault. IsRefused (check_of (table_at self.old.tables place) row None) fault.0) }
        ensures given_back { IfErr result (λ fault. fault.1 ≡ row) }
        ensures kept { OnErr result (self.new ≡ self.old) }
    {
        let opening = &mut self.openings[place as usize];
        opening.table.add(row, None)
    }

    // Keeps a condition in the table at this place, as that table does.
    pub(crate) fn keep(&mut self, place: u32, cond: &Cond) -> Result<(), NoMemory>
        requires inside { place < length self.old.tables }
        requires kinds { cond.now.kinds ≡ kinds_of (table_at self.old.tables place).columns }
        ensures kept { OnOk result (self.new ≡ record self.old { kept = slice_set self.old.kept place (with_kept cond.now.tree (kept_at self.old.kept place)) }) }
        ensures unchanged { OnErr result (self.new ≡ self.old) }
    {
        let opening = &mut self.openings[place as usize];
        opening.table.keep(cond)
    }

    // How many tables there are.
    pub(crate) fn len(&self) -> usize
        ensures count { result ≡ length self.now.tables }
        ensures lists { length self.now.kept ≡ length self.now.tables }
    {
        self.openings.len()
    }

    // Looks for the oldest free row of the table at this place, as that table does.
    pub(crate) fn oldest<L: Ledger>(
        &mut self,
        place: u32,
        cond: &Cond,
        steps: &mut Steps<L>,
    ) -> Option<u64>
        requires inside { place < length self.old.tables }
        requires kinds { cond.now.kinds ≡ kinds_of (table_at self.old.tables place).columns }
        ensures oldest { result ≡ oldest_meeting (table_at self.old.tables place).rows cond.now.tree }
        ensures moved { self.new ≡ record self.old {
          kept = slice_set self.old.kept place
              (with_moved cond.now.tree (end_of_look (table_at self.old.tables place) result) (kept_at self.old.kept place));
        } }
        ensures asked { IsAsked (table_at self.old.tables place).rows (begin_of (kept_at self.old.kept place) cond.now.tree) result steps.old steps.new }
    {
        let opening = &mut self.openings[place as usize];
        opening.table.oldest(cond, steps)
    }

    // Makes a session the owner of a row that nobody owns.
    pub(crate) fn own(&mut self, place: u32, number: u64, session: u64)
        requires inside { place < length self.old.tables }
        requires unowned { IsUnowned (table_at self.old.tables place).rows number }
        ensures { self.new ≡ record self.old { tables = rows_with self.old.tables place (with_owner number (Some session)) } }
    {
        let opening = &mut self.openings[place as usize];
        opening.table.own(number, session);
    }

    // Takes the owner from a row, which lowers the cursors of its table.
    pub(crate) fn release(&mut self, place: u32, number: u64)
        requires inside { place < length self.old.tables }
        requires owned { IsOwned (table_at self.old.tables place).rows number }
        ensures { self.new ≡ record { tables = rows_with self.old.tables place (with_owner number None); kept = lowered_at place number self.old.kept } }
    {
        let opening = &mut self.openings[place as usize];
        opening.table.release(number);
    }

    // Removes a row.
    pub(crate) fn end(&mut self, place: u32, number: u64)
        requires inside { place < length self.old.tables }
        requires there { IsThere (table_at self.old.tables place).rows number }
        ensures { self.new ≡ record self.old { tables = rows_with self.old.tables place (without_row number) } }
    {
        let opening = &mut self.openings[place as usize];
        opening.table.end(number);
    }
}
