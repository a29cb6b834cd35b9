ghost use Rattle.std.specs.Prelude.{◌≡◌, IfOk};

use q4_value::{Columns, NoMemory, Words};
use std::alloc::Global;

/// The definition of a table: its name, and its columns in order.
#[derive(Drop)]
pub struct TableDef {
    pub name: Words,
    pub columns: Columns,
}

impl TableDef {
    /// The same definition, in memory of its own.
    pub fn copy(&self, alloc: Global) -> Result<TableDef, NoMemory>
        ensures { IfOk result (λ def. def ≡ self.now) }
    {
        Ok(TableDef {
            name: self.name.copy(alloc)?,
            columns: self.columns.copy(alloc)?,
        })
    }
}
