ghost use Rattle.std.specs.Prelude.{◌≡◌, IfOk};

use crate::{NoMemory, Words};
use std::alloc::Global;

/// What values a column takes: numbers of 64 bits, or texts.
#[derive(Clone, Copy, Debug, PartialEq, Eq)]
pub enum Kind {
    /// Numbers of 64 bits with a sign.
    Int,
    /// Texts of at most 65,535 bytes.
    Words,
}

/// A column of a table: its name, what values it takes, and whether null is one of them.
#[derive(Drop)]
pub struct Column {
    pub name: Words,
    pub kind: Kind,
    /// Whether the column takes null.
    pub optional: bool,
}

impl Column {
    /// The same column, in memory of its own.
    pub fn copy(&self, alloc: Global) -> Result<Column, NoMemory>
        ensures { IfOk result (λ column. column ≡ self.now) }
    {
        Ok(Column {
            name: self.name.copy(alloc)?,
            kind: self.kind,
            optional: self.optional,
        })
    }
}
