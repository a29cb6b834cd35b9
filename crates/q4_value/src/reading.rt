ghost use Rattle.std.specs.Prelude.{◌≡◌, ◌+◌, ◌≤◌, ◌<◌, ◌⊎◌, ◌++◌, ℕ, List, length, drop, FitsSigned, IfOk, IfErr, IfSome, IfNone};
ghost use Rattle.std.specs.Int.{w32, w64, to_be_bytes};
ghost use Rattle.q4_value.specs.declared.row.Value.{Value as Field};
ghost use Rattle.q4_value.specs.declared.row.Value.TheVariants.{Int, Word};
ghost use Rattle.q4_value.specs.Row.{IsOf, Takes, IsValue, IsRowOf, row_size as size_of};
ghost use Rattle.q4_value.specs.Spelling.{value_bytes, cell_bytes, row_bytes, optional_count};
ghost use Rattle.q4_value.specs.Reading.{told_length, Reads, ValueFails, CellFails, ReadFails};

use crate::column::{Column, Kind};
use crate::row::{Row, TEXT_LIMIT, Value};
use crate::words::Words;
use std::alloc::Global;

/// Why no row can be read at the front of bytes: the first value that cannot be read. Columns are
/// counted from 1.
#[derive(Clone, Copy, Debug, PartialEq, Eq)]
pub enum RowBytes {
    /// The bytes end within the value that begins at this offset, with its flag byte where its
    /// column is optional.
    Short(u64),
    /// The bytes of the text in this column are not UTF-8.
    NotText(u32),
    /// The text in this column has a length of more than 65,535 bytes. It goes before `Short` of
    /// the same value.
    Large(u32),
    /// The flag byte in front of the value of this optional column is neither 0 nor 1.
    Flag(u32),
    /// Memory was wanted and could not be had.
    Memory,
}

/// Reads the row of these columns at the front of the bytes, and tells how many bytes it takes.
/// Bytes may follow it. The size of the row is not tested.
pub fn read_row(alloc: Global, columns: &[Column], bytes: &[u8]) -> Result<(Row, usize), RowBytes>
    requires { length columns.now ≤ 32 }

    // What is read is a row of the columns, and stands spelled at the front.
    ensures read { IfOk result (λ found. Reads columns.now bytes.now found.0 found.1) }
    ensures size { IfOk result (λ found. found.1 ≡ size_of found.0 + optional_count columns.now) }

    // What is spelled so is read, whatever follows it, unless memory runs out.
    ensures spelled { (row : List Field) (rest : List ℕ) → IsRowOf columns.now row → bytes.now ≡ row_bytes columns.now row ++ rest
        → (result ≡ Ok (row, length (row_bytes columns.now row))) ⊎ (result ≡ Err RowBytes.Memory) }

    // Else the first value that cannot be read is told.
    ensures fault { IfErr result (ReadFails columns.now bytes.now) }
{
    read_values(alloc, columns, bytes)
}

// The same, value by value.
fn read_values(alloc: Global, columns: &[Column], bytes: &[u8]) -> Result<(Row, usize), RowBytes>
    requires { length columns.now ≤ 32 }
    ensures read { IfOk result (λ found. Reads columns.now bytes.now found.0 found.1) }
    ensures fault { IfErr result (ReadFails columns.now bytes.now) }
{
    let mut row = Row::new(alloc);
    let mut rest = bytes;
    for (place, column) in columns.iter().enumerate() {
        let offset = (bytes.len() - rest.len()) as u64;
        let (value, after) = read_cell(alloc, column, offset, place as u32 + 1, rest)?;
        match row.push(value) {
            Ok(()) => rest = after,
            Err(_) => return Err(RowBytes::Memory),
        }
    }
    Ok((row, bytes.len() - rest.len()))
}

// The value of this column at the front, behind its flag where the column is optional, and the bytes behind it.
fn read_cell<'a>(
    alloc: Global,
    column: &Column,
    offset: u64,
    number: u32,
    bytes: &'a [u8],
) -> Result<(Value, &'a [u8]), RowBytes>
    ensures value { IfOk result (λ found. Takes column.now found.0 × IsValue found.0) }
    ensures read { IfOk result (λ found. bytes.now ≡ cell_bytes column.now found.0 ++ found.1.now) }
    ensures fault { IfErr result (CellFails column.now bytes.now offset number) }
{
    if !column.optional {
        return read_value(alloc, column.kind, offset, number, bytes);
    }
    match bytes {
        [] => Err(RowBytes::Short(offset)),
        [0, rest @ ..] => Ok((Value::Null, rest)),
        [1, rest @ ..] => read_value(alloc, column.kind, offset, number, rest),
        _ => Err(RowBytes::Flag(number)),
    }
}

// The value of this kind at the front, and the bytes behind it.
fn read_value(
    alloc: Global,
    kind: Kind,
    offset: u64,
    column: u32,
    bytes: &[u8],
) -> Result<(Value, &[u8]), RowBytes>
    ensures value { IfOk result (λ found. IsOf kind found.0 × IsValue found.0) }
    ensures read { IfOk result (λ found. bytes.now ≡ value_bytes found.0 ++ found.1.now) }
    ensures fault { IfErr result (ValueFails kind bytes.now offset column) }
{
    match kind {
        Kind::Int => match read_int(bytes) {
            Some((number, rest)) => Ok((Value::Int(number), rest)),
            None => Err(RowBytes::Short(offset)),
        },
        Kind::Words => {
            let (words, rest) = read_text(alloc, offset, column, bytes)?;
            Ok((Value::Word(words), rest))
        }
    }
}

// The number at the front, unless there are fewer than 8 bytes.
fn read_int(bytes: &[u8]) -> Option<(i64, &[u8])>
    ensures number { IfSome result (λ found. FitsSigned w64 found.0) }
    ensures read { IfSome result (λ found. bytes.now ≡ value_bytes (Int found.0) ++ found.1.now) }
    ensures short { IfNone result (length bytes.now < 8) }
{
    if bytes.len() < 8 {
        return None;
    }
    let (front, rest) = bytes.split_at(8);
    let number = i64::from_be_bytes([
        front[0], front[1], front[2], front[3], front[4], front[5], front[6], front[7],
    ]);
    Some((number, rest))
}

// The text at the front. Too great a length goes before an early end.
fn read_text(
    alloc: Global,
    offset: u64,
    column: u32,
    bytes: &[u8],
) -> Result<(Words, &[u8]), RowBytes>
    ensures value { IfOk result (λ found. IsValue (Word found.0)) }
    ensures read { IfOk result (λ found. bytes.now ≡ value_bytes (Word found.0) ++ found.1.now) }
    ensures fault { IfErr result (ValueFails Kind.Words bytes.now offset column) }
{
    let Some((len, rest)) = read_length(bytes) else {
        return Err(RowBytes::Short(offset));
    };
    if len > TEXT_LIMIT {
        return Err(RowBytes::Large(column));
    }
    if rest.len() < len {
        return Err(RowBytes::Short(offset));
    }
    let (text, rest) = rest.split_at(len);
    let Ok(text) = std::str::from_utf8(text) else {
        return Err(RowBytes::NotText(column));
    };
    match Words::new(alloc, text) {
        Ok(words) => Ok((words, rest)),
        Err(_) => Err(RowBytes::Memory),
    }
}

// The length of a text in the first 4 bytes, unless there are fewer.
fn read_length(bytes: &[u8]) -> Option<(usize, &[u8])>
    ensures told { IfSome result (λ found. (found.0 ≡ told_length bytes.now) × (4 ≤ length bytes.now)) }
    ensures rest { IfSome result (λ found. found.1.now ≡ drop 4 bytes.now) }
    ensures spelled { IfSome result (λ found. bytes.now ≡ to_be_bytes w32 found.0 ++ found.1.now) }
    ensures short { IfNone result (length bytes.now < 4) }
{
    if bytes.len() < 4 {
        return None;
    }
    let (front, rest) = bytes.split_at(4);
    let len = u32::from_be_bytes([front[0], front[1], front[2], front[3]]);
    Some((len as usize, rest))
}
