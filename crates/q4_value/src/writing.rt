ghost use Rattle.std.specs.Prelude.{◌≡◌, ◌++◌, List, ℕ, OnOk, OnErr};
ghost use Rattle.q4_value.specs.Row.{IsValue, IsRowOf};
ghost use Rattle.q4_value.specs.Spelling.{flag_of, value_bytes, cell_bytes, row_bytes};

use crate::bytes::Bytes;
use crate::row::{Row, Value};
use crate::{Column, NoMemory};

/// Puts the spelling of a row of these columns behind what is there: its values in column order, a
/// number as 8 bytes in two's complement, a text as 4 bytes of length and its bytes, the highest byte
/// first. In front of the value of an optional column stands 1, or 0 alone for a null. A refusal
/// leaves what was there.
pub fn put_row(columns: &[Column], row: &Row, out: &mut Bytes) -> Result<(), NoMemory>
    requires { IsRowOf columns.now row.now }
    ensures put { OnOk result (out.new ≡ out.old ++ row_bytes columns.now row.now) }
    ensures kept { OnErr result (out.new ≡ out.old) }
{
    let before = out.len();
    let put = put_values(columns, row.as_slice(), out);
    if put.is_err() {
        out.cut(before);
    }
    put
}

// Puts value by value. A refusal may leave more behind what was there.
fn put_values(columns: &[Column], values: &[Value], out: &mut Bytes) -> Result<(), NoMemory>
    requires { IsRowOf columns.now values.now }
    ensures put { OnOk result (out.new ≡ out.old ++ row_bytes columns.now values.now) }
    ensures begins { OnErr result ((more : List ℕ) × (out.new ≡ out.old ++ more)) }
{
    for (place, column) in columns.iter().enumerate() {
        put_cell(column, &values[place], out)?;
    }
    Ok(())
}

fn put_cell(column: &Column, value: &Value, out: &mut Bytes) -> Result<(), NoMemory>
    requires { IsValue value.now }
    ensures put { OnOk result (out.new ≡ out.old ++ cell_bytes column.now value.now) }
    ensures begins { OnErr result ((more : List ℕ) × (out.new ≡ out.old ++ more)) }
{
    if column.optional {
        out.push(&[flag_of(value)])?;
    }
    put_value(value, out)
}

// The flag in front of the value of an optional column.
fn flag_of(value: &Value) -> u8
    ensures { result ≡ flag_of value.now }
{
    match value {
        Value::Null => 0,
        Value::Int(_) | Value::Word(_) => 1,
    }
}

fn put_value(value: &Value, out: &mut Bytes) -> Result<(), NoMemory>
    requires { IsValue value.now }
    ensures put { OnOk result (out.new ≡ out.old ++ value_bytes value.now) }
    ensures begins { OnErr result ((more : List ℕ) × (out.new ≡ out.old ++ more)) }
{
    match value {
        Value::Int(number) => out.push(&number.to_be_bytes()),
        Value::Word(words) => {
            let text = words.as_str().as_bytes();
            out.push(&(text.len() as u32).to_be_bytes())?;
            out.push(text)
        }
        Value::Null => Ok(()),
    }
}
