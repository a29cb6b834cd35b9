ghost use Rattle.std.specs.Prelude.{◌≡◌, ◌<◌, ◌+◌, [], ◌∷◌, ◌++◌, length, find, IfOk, IfErr, OnOk, OnErr};
ghost use Rattle.std.specs.Option.{option_copied, option_map};
ghost use Rattle.q4_table.specs.Adding.{number_limit};
ghost use Rattle.q4_table.specs.Rows.{row_in, IsThere, with_owner, without_row, numbers_of, rows_from, least_from as least_of};
ghost use Rattle.q4_table.specs.Oldest.{is_free, oldest_meeting, IsAsked};
ghost use Rattle.q4_table.specs.Searching.{asked, values_from};
ghost use Rattle.q4_table.specs.Valid.{RiseBelow};

use q4_cond::{Cond, Steps, met};
use q4_value::{NoMemory, Row};
use std::alloc::Global;
use std::collections::BTreeMap;
use std::marker::Model;
use std::sync::ledger::Ledger;

/// A row of a table, with its number and the session that owns it.
#[derive(Drop)]
pub struct StoredRow {
    pub number: u64,
    pub row: Row,
    pub owner: Option<u64>,
}

impl StoredRow {
    fn copy(&self, alloc: Global) -> Result<StoredRow, NoMemory>
        ensures { IfOk result (λ stored. stored ≡ self.now) }
    {
        Ok(StoredRow {
            number: self.number,
            row: self.row.copy(alloc)?,
            owner: self.owner,
        })
    }
}

/// The rows of a table, under their numbers. A contract sees the list of them, by rising number.
#[derive(Drop)]
pub struct Rows {
    rows: BTreeMap<u64, StoredRow>,
}

impl Model for Rows {
    ghost use Rattle.std.specs.Prelude.{List};
    ghost use Rattle.std.specs.BTreeMap.{values};
    ghost use Rattle.q4_table.specs.declared.rows.StoredRow.{StoredRow as Element};
    ghost use Rattle.q4_table.specs.Numbered.{IsNumbered};

    ghost Value = { List Element };

    ghost view = { λ r. values r.rows };

    ghost invariant = { λ r. IsNumbered r.rows.entries };
}

impl Rows {
    /// No rows. It takes no memory.
    pub fn new(alloc: Global) -> Rows
        ensures { result ≡ [] }
    {
        Rows {
            rows: BTreeMap::new(alloc),
        }
    }

    /// How many rows there are.
    pub fn len(&self) -> usize
        ensures { result ≡ length self.now }
    {
        self.rows.len()
    }

    /// The row with this number, if there is one.
    pub fn get(&self, number: u64) -> Option<&StoredRow>
        ensures { option_copied result ≡ row_in self.now number }
    {
        self.rows.get(&number)
    }

    /// The least number that is at least this one.
    pub fn least_from(&self, number: u64) -> Option<u64>
        ensures { result ≡ least_of self.now number }
    {
        let (least, _) = self.rows.range(number..).next()?;
        Some(*least)
    }

    /// The number of the oldest row from a number on that nobody owns and that meets the condition.
    pub fn oldest<L: Ledger>(&self, from: u64, cond: &Cond, steps: &mut Steps<L>) -> Option<u64>
        ensures oldest { result ≡ oldest_meeting (rows_from from self.now) cond.now.tree }
        ensures asked { IsAsked self.now from result steps.old steps.new }
    {
        first_free(&self.rows, from, cond, steps)
    }

    /// Puts a row behind the others, whose numbers are lesser. A refusal gives it back.
    pub fn push(&mut self, stored: StoredRow) -> Result<(), (StoredRow, NoMemory)>
        requires positive { 0 < stored.number }
        requires limit { stored.number < number_limit }
        requires above { RiseBelow 0 stored.number (numbers_of self.old) }
        ensures pushed { OnOk result (self.new ≡ self.old ++ stored ∷ []) }
        ensures kept { OnErr result (self.new ≡ self.old) }
        ensures given_back { IfErr result (λ fault. fault.0 ≡ stored) }
    {
        match self.rows.insert(stored.number, stored) {
            Ok(_) => Ok(()),
            Err(refused) => Err((refused.value.1, NoMemory)),
        }
    }

    /// Changes the owner of a row.
    pub fn set_owner(&mut self, number: u64, owner: Option<u64>)
        requires { IsThere self.old number }
        ensures { self.new ≡ with_owner number owner self.old }
    {
        if let Some(stored) = self.rows.get_mut(&number) {
            stored.owner = owner;
        }
    }

    /// Removes a row, and gives it.
    pub fn remove(&mut self, number: u64) -> StoredRow
        requires { IsThere self.old number }
        ensures rest { self.new ≡ without_row number self.old }
        ensures removed { row_in self.old number ≡ Some result }
    {
        self.rows.remove(&number).unwrap()
    }

    /// The same rows, in memory of their own.
    pub fn copy(&self, alloc: Global) -> Result<Rows, NoMemory>
        ensures { IfOk result (λ rows. rows ≡ self.now) }
    {
        let mut rows = Rows::new(alloc);
        for stored in self.rows.values() {
            let stored = stored.copy(alloc)?;
            if rows.push(stored).is_err() {
                return Err(NoMemory);
            }
        }
        Ok(rows)
    }
}

// The number of the first row from a number on that nobody owns and that meets the condition. Those before it are asked
// once each.
fn first_free<L: Ledger>(
    rows: &BTreeMap<u64, StoredRow>,
    from: u64,
    cond: &Cond,
    steps: &mut Steps<L>,
) -> Option<u64>
    ensures found { result ≡ option_map (λ r. r.number) (find (is_free cond.now.tree) (values_from from rows.now.entries)) }
    ensures asked { steps.new ≡ steps.old + asked cond.now.tree (values_from from rows.now.entries) }
{
    for (_, stored) in rows.range(from..) {
        if stored.owner.is_some() {
            continue;
        }
        if met(cond, &stored.row, steps) {
            return Some(stored.number);
        }
    }
    None
}
