ghost use Rattle.std.specs.Prelude.{◌≡◌, ◌^◌, ◌<◌, ◌≤◌, length, OnOk, IfErr};
ghost use Rattle.q4_value.specs.Row.{Takes, IsValue, IsRowOf, value_size as size_of_value, row_size as size_of, Fits};
ghost use Rattle.q4_value.specs.Fit.{ValueMisfits, Misfits};

use crate::column::{Column, Kind};
use crate::row::{Row, TEXT_LIMIT, Value};

/// The greatest size of a row in bytes.
pub const ROW_LIMIT: u64 = 1_048_576;

/// Why a row does not fit columns, which are counted from 1.
#[derive(Clone, Copy, Debug, PartialEq, Eq)]
pub enum RowFault {
    /// The row has another number of values than there are columns, which is told.
    Count(u32),
    /// The value of this column is of another kind, or null though the column is not optional.
    Kind(u32),
    /// The text of this column has more than 65,535 bytes.
    Text(u32),
    /// The row's size exceeds 1,048,576 bytes.
    Long,
}

/// Whether the row fits the columns: as many values as columns, each of its column's kind or null
/// in an optional column, no text over 65,535 bytes, and a size of at most 1,048,576. The first fault in this order is told, and
/// of the columns the first one.
pub fn fits(columns: &[Column], row: &Row) -> Result<(), RowFault>
    requires { length columns.now ≤ 32 }
    ensures fits { OnOk result (Fits columns.now row.now) }
    ensures cause { IfErr result (Misfits columns.now row.now) }
{
    let values = row.as_slice();
    if values.len() != columns.len() {
        return Err(RowFault::Count(columns.len() as u32));
    }
    values_fit(columns, values)?;
    if row_size(row) > ROW_LIMIT {
        return Err(RowFault::Long);
    }
    Ok(())
}

// Whether each value fits its column.
fn values_fit(columns: &[Column], values: &[Value]) -> Result<(), RowFault>
    requires few { length columns.now ≤ 32 }
    requires same { length values.now ≡ length columns.now }
    ensures fits { OnOk result (IsRowOf columns.now values.now) }
    ensures cause { IfErr result (Misfits columns.now values.now) }
{
    for (place, column) in columns.iter().enumerate() {
        value_fits(column, &values[place], place as u32 + 1)?;
    }
    Ok(())
}

// Whether the value fits the column of this number.
fn value_fits(column: &Column, value: &Value, number: u32) -> Result<(), RowFault>
    ensures fits { OnOk result (Takes column.now value.now × IsValue value.now) }
    ensures cause { IfErr result (ValueMisfits column.now value.now number) }
{
    match (column.kind, value) {
        (_, Value::Null) => {
            if column.optional {
                Ok(())
            } else {
                Err(RowFault::Kind(number))
            }
        }
        // Bound, so that it counts as a number of 64 bits.
        (Kind::Int, &Value::Int(_number)) => Ok(()),
        (Kind::Words, Value::Word(words)) => {
            if words.as_str().len() > TEXT_LIMIT {
                return Err(RowFault::Text(number));
            }
            Ok(())
        }
        (Kind::Int, Value::Word(_)) | (Kind::Words, Value::Int(_)) => Err(RowFault::Kind(number)),
    }
}

/// The size of the row in bytes: 8 for a number, 4 and its bytes for a text, nothing for a null.
/// Its spelling in a file is longer by one byte for each optional column.
pub fn row_size(row: &Row) -> u64
    requires { size_of row.now < 2 ^ 64 }
    ensures { result ≡ size_of row.now }
{
    let mut size = 0;
    for value in row.as_slice() {
        size += value_size(value);
    }
    size
}

fn value_size(value: &Value) -> u64
    ensures { result ≡ size_of_value value.now }
{
    match value {
        Value::Int(_) => 8,
        Value::Word(words) => 4 + words.as_str().len() as u64,
        Value::Null => 0,
    }
}
