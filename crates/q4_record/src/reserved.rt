// Records as they are put into memory that the caller has reserved, which cannot fail.

ghost use Rattle.std.specs.Prelude.{◌≡◌, ◌+◌, ◌≤◌, ◌++◌, [], length, vec_capacity};
ghost use Rattle.std.specs.Int.{w64, to_be_bytes};
ghost use Rattle.q4_value.specs.Row.{IsValue, IsRowOf};
ghost use Rattle.q4_value.specs.Spelling.{flag_of as flag_of_value, value_bytes, cell_bytes, row_bytes};
ghost use Rattle.q4_record.specs.Record.{head_bytes, record_bytes};

use crate::head::Head;
use crate::writing::mode_byte;
use q4_table::Origin;
use q4_value::{Column, Row, Value};

/// Puts the record of a row of these columns that was added behind what is there, into memory that was reserved.
pub fn spell_insert(
    columns: &[Column],
    number: u64,
    row: &Row,
    origin: Option<Origin>,
    out: &mut Vec<u8>,
)
    requires row { IsRowOf columns.now row.now }
    requires room { length out.old.items
        + length (record_bytes (record { head = Head.Insert number origin; columns = columns.now; row = row.now }))
        ≤ vec_capacity out.old }
    ensures items { out.new.items ≡ out.old.items
        ++ record_bytes (record { head = Head.Insert number origin; columns = columns.now; row = row.now }) }
    ensures capacity { vec_capacity out.old ≤ vec_capacity out.new }
{
    spell_head(Head::Insert(number, origin), out);
    spell_row(columns, row, out);
}

/// Puts the record of a row that was removed behind what is there, 9 bytes, into memory that was reserved.
pub fn spell_end(number: u64, out: &mut Vec<u8>)
    requires { length out.old.items + 9 ≤ vec_capacity out.old }
    ensures items { out.new.items ≡ out.old.items
        ++ record_bytes (record { head = Head.End number; columns = []; row = [] }) }
    ensures capacity { vec_capacity out.old ≤ vec_capacity out.new }
{
    spell_head(Head::End(number), out);
}

// Puts what a record tells before its row.
fn spell_head(head: Head, out: &mut Vec<u8>)
    requires { length out.old.items + length (head_bytes head) ≤ vec_capacity out.old }
    ensures items { out.new.items ≡ out.old.items ++ head_bytes head }
    ensures capacity { vec_capacity out.old ≤ vec_capacity out.new }
{
    match head {
        Head::Insert(number, None) => spell_numbered(&[1], number, out),
        Head::Insert(number, Some(origin)) => {
            let front = [2, origin.source, mode_byte(origin.mode)];
            spell_numbered(&front, origin.number, out);
            spell(&number.to_be_bytes(), out);
        }
        Head::End(number) => spell_numbered(&[3], number, out),
        Head::Mark(source, number) => spell_numbered(&[5, source], number, out),
        Head::Next(number) => spell_numbered(&[6], number, out),
    }
}

// Puts these bytes and then the number.
fn spell_numbered(front: &[u8], number: u64, out: &mut Vec<u8>)
    requires { length out.old.items + length front.now + 8 ≤ vec_capacity out.old }
    ensures items { out.new.items ≡ out.old.items ++ (front.now ++ to_be_bytes w64 number) }
    ensures capacity { vec_capacity out.old ≤ vec_capacity out.new }
{
    spell(front, out);
    spell(&number.to_be_bytes(), out);
}

// Puts the values of a row of these columns.
fn spell_row(columns: &[Column], row: &Row, out: &mut Vec<u8>)
    requires row { IsRowOf columns.now row.now }
    requires room { length out.old.items + length (row_bytes columns.now row.now) ≤ vec_capacity out.old }
    ensures items { out.new.items ≡ out.old.items ++ row_bytes columns.now row.now }
    ensures capacity { vec_capacity out.old ≤ vec_capacity out.new }
{
    for (place, column) in columns.iter().enumerate() {
        if let Some(value) = row.at(place) {
            spell_cell(column, value, out);
        }
    }
}

// Puts the value of a column, and the flag in front of it where the column is optional.
fn spell_cell(column: &Column, value: &Value, out: &mut Vec<u8>)
    requires value { IsValue value.now }
    requires room { length out.old.items + length (cell_bytes column.now value.now) ≤ vec_capacity out.old }
    ensures items { out.new.items ≡ out.old.items ++ cell_bytes column.now value.now }
    ensures capacity { vec_capacity out.old ≤ vec_capacity out.new }
{
    if column.optional {
        spell(&[flag_of(value)], out);
    }
    spell_value(value, out);
}

fn flag_of(value: &Value) -> u8
    ensures { result ≡ flag_of_value value.now }
{
    match value {
        Value::Null => 0,
        Value::Int(_) | Value::Word(_) => 1,
    }
}

fn spell_value(value: &Value, out: &mut Vec<u8>)
    requires value { IsValue value.now }
    requires room { length out.old.items + length (value_bytes value.now) ≤ vec_capacity out.old }
    ensures items { out.new.items ≡ out.old.items ++ value_bytes value.now }
    ensures capacity { vec_capacity out.old ≤ vec_capacity out.new }
{
    match value {
        Value::Int(number) => spell(&number.to_be_bytes(), out),
        Value::Word(words) => {
            let text = words.as_str().as_bytes();
            spell(&(text.len() as u32).to_be_bytes(), out);
            spell(text, out);
        }
        Value::Null => {}
    }
}

// Puts these bytes behind what is there.
fn spell(bytes: &[u8], out: &mut Vec<u8>)
    requires { length out.old.items + length bytes.now ≤ vec_capacity out.old }
    ensures items { out.new.items ≡ out.old.items ++ bytes.now }
    ensures capacity { vec_capacity out.old ≤ vec_capacity out.new }
{
    let Ok(()) = out.extend_from_slice(bytes) else {
        unreachable!()
    };
}
