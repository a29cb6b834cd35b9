ghost use Rattle.std.specs.Prelude.{◌≡◌, ◌<◌, ◌≤◌, ◌^◌, [], ◌∷◌, ◌++◌, Some, length, slice_get, IfSome, IfNone, IfOk, IfErr, OnOk, OnErr};

use q4_value::{NoMemory, Row};
use std::alloc::Global;
use std::marker::Model;

/// A row that is shown, with its number.
#[derive(Drop)]
pub struct NumberedRow {
    pub number: u64,
    pub row: Row,
}

impl NumberedRow {
    /// The same row and number, in memory of its own.
    pub fn copy(&self, alloc: Global) -> Result<NumberedRow, NoMemory>
        ensures { IfOk result (λ copy. copy ≡ self.now) }
    {
        Ok(NumberedRow {
            number: self.number,
            row: self.row.copy(alloc)?,
        })
    }
}

/// The rows that a `select` shows, oldest first. A contract sees the list.
#[derive(Drop)]
pub struct Rows {
    rows: Vec<NumberedRow>,
}

impl Model for Rows {
    ghost use Rattle.std.specs.Prelude.{◌<◌, List, vec_len};
    ghost use Rattle.q4_machine.specs.declared.shown.NumberedRow.{NumberedRow as Element};
    ghost use Rattle.q4_machine.specs.contracts.shown.NumberedRow as element;
    ghost use Rattle.std.specs.Coded.{coded_list};

    ghost Value = { List Element };

    ghost coded = { coded_list element.the_row.coded };

    ghost view = { λ r. r.rows.items };

    ghost invariant = { λ r. vec_len r.rows < 4294967296 };
}

impl Rows {
    /// No row. It takes no memory.
    pub fn new(alloc: Global) -> Rows
        ensures { result ≡ [] }
    {
        Rows {
            rows: Vec::new(alloc),
        }
    }

    /// Puts a row at the end. A refusal gives the row back, and leaves the list. It also wants memory behind
    /// 2^32 - 1 rows.
    pub fn push(&mut self, shown: NumberedRow) -> Result<(), (NumberedRow, NoMemory)>
        ensures pushed { OnOk result (self.new ≡ self.old ++ shown ∷ []) }
        ensures kept { OnErr result (self.new ≡ self.old) }
        ensures given_back { IfErr result (λ fault. fault.0 ≡ shown) }
    {
        if self.rows.len() as u64 >= u64::from(u32::MAX) {
            return Err((shown, NoMemory));
        }
        match self.rows.push(shown) {
            Ok(()) => Ok(()),
            Err(refused) => Err((refused.value, NoMemory)),
        }
    }

    /// How many rows there are.
    pub fn len(&self) -> u32
        ensures { result ≡ length self.now }
    {
        self.rows.len() as u32
    }

    /// The number and the row at this place, from 0.
    pub fn at(&self, place: u32) -> Option<(u64, &Row)>
        ensures found { IfSome result (λ shown. slice_get self.now place ≡ Some (record { number = shown.0; row = shown.1.now })) }
        ensures none { IfNone result (length self.now ≤ place) }
    {
        match self.rows.get(place as usize) {
            Some(shown) => Some((shown.number, &shown.row)),
            None => None,
        }
    }

    /// The rows in order.
    pub fn as_slice(&self) -> &[NumberedRow]
        ensures list { result.now ≡ self.now }
        ensures short { length result.now < 2 ^ 32 }
    {
        self.rows.as_slice()
    }

    /// The same rows, in memory of their own.
    pub fn copy(&self, alloc: Global) -> Result<Rows, NoMemory>
        ensures { IfOk result (λ rows. rows ≡ self.now) }
    {
        let mut rows = Rows::new(alloc);
        for shown in &self.rows {
            let shown = shown.copy(alloc)?;
            if let Err((_, fault)) = rows.push(shown) {
                return Err(fault);
            }
        }
        Ok(rows)
    }
}
