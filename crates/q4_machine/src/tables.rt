ghost use Rattle.std.specs.Prelude.{◌≡◌, [], ◌∷◌, ◌++◌, length, map, slice_get, IfOk, IfErr, OnOk, OnErr};
ghost use Rattle.std.specs.Option.{option_copied, option_map};
ghost use Rattle.q4_def.specs.Tables.{IsTableDef};
ghost use Rattle.q4_table.specs.TableState.{new_table};
ghost use Rattle.q4_machine.specs.Opening.{opening_of};
ghost use Rattle.q4_machine.specs.Kept.{none_kept};
ghost use Rattle.q4_machine.specs.Recorded.{new_opening};

use crate::kept_tables::KeptTables;
use q4_def::{Defs, TableDef};
use q4_table::Table;
use q4_value::{NoMemory, Words};
use std::alloc::Global;
use std::marker::Model;

/// A table as it was opened, with its name.
#[derive(Drop)]
pub struct Opening {
    pub name: Words,
    pub table: Table,
}

/// Named tables that keep no condition, by place from 0. A contract sees the list.
#[derive(Drop)]
pub struct Tables {
    tables: Vec<Opening>,
}

impl Model for Tables {
    ghost use Rattle.std.specs.Prelude.{◌≡◌, List, [], All, map};
    ghost use Rattle.q4_machine.specs.Opening.{Opening as Element, opening_of};

    ghost Value = { List Element };

    ghost view = { λ t. map opening_of t.tables.items };

    ghost invariant = { λ t. All (λ opening. opening.table.kept ≡ []) t.tables.items };
}

impl Tables {
    /// No tables. It takes no memory.
    pub fn new(alloc: Global) -> Tables
        ensures { result ≡ [] }
    {
        Tables {
            tables: Vec::new(alloc),
        }
    }

    /// Empty tables of these definitions.
    pub fn of_definitions(alloc: Global, defs: &Defs) -> Result<Tables, NoMemory>
        ensures { IfOk result (λ tables. tables ≡ map new_opening defs.now) }
    {
        let mut tables = Tables::new(alloc);
        for def in defs.as_slice() {
            let opening = new_opening(alloc, def)?;
            if let Err((_, fault)) = tables.push(opening) {
                return Err(fault);
            }
        }
        Ok(tables)
    }

    /// Puts a table at the end, which keeps no condition. A refusal gives it back, and leaves the tables.
    pub fn push(&mut self, opening: Opening) -> Result<(), (Opening, NoMemory)>
        requires { opening.table.kept ≡ [] }
        ensures pushed { OnOk result (self.new ≡ self.old ++ opening_of opening ∷ []) }
        ensures kept { OnErr result (self.new ≡ self.old) }
        ensures given_back { IfErr result (λ fault. fault.0 ≡ opening) }
    {
        match self.tables.push(opening) {
            Ok(()) => Ok(()),
            Err(refused) => Err((refused.value, NoMemory)),
        }
    }

    /// How many tables there are.
    pub fn len(&self) -> usize
        ensures { result ≡ length self.now }
    {
        self.tables.len()
    }

    /// The table at this place, counted from 0.
    pub fn at(&self, place: usize) -> Option<&Opening>
        ensures { option_map opening_of (option_copied result) ≡ slice_get self.now place }
    {
        self.tables.get(place)
    }

    // The tables themselves, with what they keep.
    pub(crate) fn into_kept(self) -> KeptTables
        ensures { result ≡ record { tables = self; kept = none_kept self } }
    {
        KeptTables::new(self.tables)
    }
}

// An empty table of this definition.
fn new_opening(alloc: Global, def: &TableDef) -> Result<Opening, NoMemory>
    requires { IsTableDef def.now }
    ensures { IfOk result (λ opening. opening ≡ record { name = def.now.name; table = record { state = new_table def.now.columns; kept = [] } }) }
{
    let name = def.name.copy(alloc)?;
    let columns = def.columns.copy(alloc)?;
    Ok(Opening {
        name,
        table: Table::new(alloc, columns),
    })
}
