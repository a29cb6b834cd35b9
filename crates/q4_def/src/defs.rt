ghost use Rattle.std.specs.Prelude.{◌≡◌, ◌<◌, Some, length, map, slice_get, Contains, IfOk, IfSome, IfNone};
ghost use Rattle.std.specs.Option.{option_copied};
ghost use Rattle.q4_def.specs.Tables.{AreDefs, IsTableDef, names_of};

use crate::TableDef;
use q4_value::NoMemory;
use std::alloc::Global;
use std::marker::Model;

/// The definitions of 1 to 16 tables, as a file has them. A contract sees the list, and each call
/// tells that it is one: each name a table's name, none twice, and each table of 1 to 32 columns
/// with names of columns, none twice.
#[derive(Drop)]
pub struct Defs {
    tables: Vec<TableDef>,
}

impl Model for Defs {
    ghost use Rattle.std.specs.Prelude.{List};
    ghost use Rattle.q4_def.specs.declared.table_def.TableDef.{TableDef as Element};
    ghost use Rattle.q4_def.specs.Tables.{AreDefs};

    ghost Value = { List Element };

    ghost view = { λ d. d.tables.items };

    ghost invariant = { λ d. AreDefs d.tables.items };
}

impl Defs {
    // The definitions that these tables are.
    pub(crate) fn from_tables(tables: Vec<TableDef>) -> Defs
        requires { AreDefs tables.items }
        ensures { result ≡ tables.items }
    {
        Defs { tables }
    }

    /// How many tables there are, 1 to 16.
    pub fn len(&self) -> u32
        ensures count { result ≡ length self.now }
        ensures well_formed { AreDefs self.now }
    {
        self.tables.len() as u32
    }

    /// The definition at this place, counted from 0, if there are so many.
    pub fn table(&self, place: u32) -> Option<&TableDef>
        ensures lookup { option_copied result ≡ slice_get self.now place }
        ensures well_formed { AreDefs self.now }
        ensures def { IfSome result (λ def. IsTableDef def.now) }
    {
        self.tables.get(place as usize)
    }

    /// The place, counted from 0, of the table of this name, if there is one.
    pub fn find(&self, name: &str) -> Option<u32>
        ensures found { IfSome result (λ place. slice_get (names_of self.now) place ≡ Some name.now) }
        ensures within { IfSome result (λ place. place < length self.now) }
        ensures none { IfNone result (Contains (names_of self.now) name.now → ⊥) }
        ensures well_formed { AreDefs self.now }
    {
        for place in 0..self.len() {
            if self.tables[place as usize].name.as_str() == name {
                return Some(place);
            }
        }
        None
    }

    /// The definitions in order.
    pub fn as_slice(&self) -> &[TableDef]
        ensures list { result.now ≡ self.now }
        ensures well_formed { AreDefs self.now }
    {
        self.tables.as_slice()
    }

    /// The same definitions, in memory of their own.
    pub fn copy(&self, alloc: Global) -> Result<Defs, NoMemory>
        ensures same { IfOk result (λ defs. defs ≡ self.now) }
        ensures well_formed { AreDefs self.now }
    {
        let mut tables = Vec::new(alloc);
        for def in &self.tables {
            let def = def.copy(alloc)?;
            if tables.push(def).is_err() {
                return Err(NoMemory);
            }
        }
        Ok(Defs { tables })
    }
}
