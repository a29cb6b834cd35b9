ghost use Rattle.std.specs.Prelude.{◌≡◌, ◌<◌, false, Some, [], ◌∷◌, ◌++◌, length, slice_get, slice_set, IfOk, IfErr, OnOk, OnErr};
ghost use Rattle.std.specs.Option.{option_copied};
ghost use Rattle.q4_value.specs.declared.column.Column.{Column as Header};
ghost use Rattle.q4_value.specs.Row.{AreWider};

use crate::{Column, NoMemory};
use std::alloc::Global;
use std::marker::Model;

/// A list of columns. A contract sees the list.
#[derive(Drop)]
pub struct Columns {
    columns: Vec<Column>,
}

impl Model for Columns {
    ghost use Rattle.std.specs.Prelude.{List};
    ghost use Rattle.q4_value.specs.declared.column.Column.{Column as Element};

    ghost Value = { List Element };

    ghost view = { λ c. c.columns.items };
}

impl Columns {
    /// No columns. It takes no memory.
    pub fn new(alloc: Global) -> Columns
        ensures { result ≡ [] }
    {
        Columns {
            columns: Vec::new(alloc),
        }
    }

    /// Puts a column at the end. A refusal gives it back, and leaves the list.
    pub fn push(&mut self, column: Column) -> Result<(), (Column, NoMemory)>
        ensures pushed { OnOk result (self.new ≡ self.old ++ column ∷ []) }
        ensures kept { OnErr result (self.new ≡ self.old) }
        ensures given_back { IfErr result (λ fault. fault.0 ≡ column) }
    {
        match self.columns.push(column) {
            Ok(()) => Ok(()),
            Err(refused) => Err((refused.value, NoMemory)),
        }
    }

    /// Has the column at this place, counted from 0, take no null.
    pub fn require(&mut self, place: usize)
        requires { place < length self.old }
        ensures required { (column : Header) → slice_get self.old place ≡ Some column
            → self.new ≡ slice_set self.old place (record column { optional = false }) }
        ensures narrower { AreWider self.old self.new }
    {
        self.columns[place].optional = false;
    }

    /// How many columns there are.
    pub fn len(&self) -> usize
        ensures { result ≡ length self.now }
    {
        self.columns.len()
    }

    /// The column at this place, counted from 0, if there are so many.
    pub fn at(&self, place: usize) -> Option<&Column>
        ensures { option_copied result ≡ slice_get self.now place }
    {
        self.columns.get(place)
    }

    /// The columns in order, as the calls on rows want them.
    pub fn as_slice(&self) -> &[Column]
        ensures { result.now ≡ self.now }
    {
        self.columns.as_slice()
    }

    /// The same columns, in memory of their own.
    pub fn copy(&self, alloc: Global) -> Result<Columns, NoMemory>
        ensures { IfOk result (λ columns. columns ≡ self.now) }
    {
        let mut columns = Columns::new(alloc);
        for column in &self.columns {
            let column = column.copy(alloc)?;
            if let Err((_, fault)) = columns.push(column) {
                return Err(fault);
            }
        }
        Ok(columns)
    }
}
