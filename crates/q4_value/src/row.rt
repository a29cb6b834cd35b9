ghost use Rattle.std.specs.Prelude.{◌≡◌, [], ◌∷◌, ◌++◌, length, slice_get, IfOk, IfErr, OnOk, OnErr};
ghost use Rattle.std.specs.Option.{option_copied};

use crate::{NoMemory, Words};
use std::alloc::Global;
use std::marker::Model;

/// The most bytes of a text in a row.
pub const TEXT_LIMIT: usize = 65_535;

/// One value of a row.
#[derive(Drop)]
pub enum Value {
    /// A number of 64 bits with a sign.
    Int(i64),
    /// A text.
    Word(Words),
    /// No number and no text, in an optional column.
    Null,
}

impl Value {
    /// The same value, in memory of its own.
    pub fn copy(&self, alloc: Global) -> Result<Value, NoMemory>
        ensures { IfOk result (λ value. value ≡ self.now) }
    {
        match self {
            Value::Int(number) => Ok(Value::Int(*number)),
            Value::Word(words) => Ok(Value::Word(words.copy(alloc)?)),
            Value::Null => Ok(Value::Null),
        }
    }
}

/// A row. A contract sees the list of its values.
#[derive(Drop)]
pub struct Row {
    values: Vec<Value>,
}

impl Model for Row {
    ghost use Rattle.std.specs.Prelude.{List};
    ghost use Rattle.q4_value.specs.declared.row.Value.{Value as Field};

    ghost Value = { List Field };

    ghost view = { λ row. row.values.items };
}

impl Row {
    /// A row without a value. It takes no memory.
    pub fn new(alloc: Global) -> Row
        ensures { result ≡ [] }
    {
        Row {
            values: Vec::new(alloc),
        }
    }

    /// Puts a value at the end. A refusal gives it back, and leaves the row.
    pub fn push(&mut self, value: Value) -> Result<(), (Value, NoMemory)>
        ensures pushed { OnOk result (self.new ≡ self.old ++ value ∷ []) }
        ensures kept { OnErr result (self.new ≡ self.old) }
        ensures given_back { IfErr result (λ fault. fault.0 ≡ value) }
    {
        match self.values.push(value) {
            Ok(()) => Ok(()),
            Err(refused) => Err((refused.value, NoMemory)),
        }
    }

    /// How many values there are.
    pub fn len(&self) -> usize
        ensures { result ≡ length self.now }
    {
        self.values.len()
    }

    /// The value at this place, counted from 0, if there are so many.
    pub fn at(&self, place: usize) -> Option<&Value>
        ensures { option_copied result ≡ slice_get self.now place }
    {
        self.values.get(place)
    }

    // The values in order.
    pub(crate) fn as_slice(&self) -> &[Value]
        ensures { result.now ≡ self.now }
    {
        self.values.as_slice()
    }

    /// The same row, in memory of its own.
    pub fn copy(&self, alloc: Global) -> Result<Row, NoMemory>
        ensures { IfOk result (λ row. row ≡ self.now) }
    {
        let mut row = Row::new(alloc);
        for value in &self.values {
            let value = value.copy(alloc)?;
            if let Err((_, fault)) = row.push(value) {
                return Err(fault);
            }
        }
        Ok(row)
    }
}
