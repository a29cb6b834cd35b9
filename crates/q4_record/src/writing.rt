ghost use Rattle.std.specs.Prelude.{◌≡◌, ◌<◌, ◌++◌, [], List, ℕ, length, OnOk, OnErr};
ghost use Rattle.std.specs.Int.{w64, to_be_bytes};
ghost use Rattle.q4_value.specs.Row.{IsRowOf};
ghost use Rattle.q4_record.specs.Record.{mode_byte as byte_of_mode, head_bytes, record_bytes};
ghost use Rattle.q4_record.specs.Schema.{IsSchema, kind_byte as byte_of_column, column_bytes, schema_bytes};

use crate::head::Head;
use q4_table::{Mode, Origin};
use q4_value::{Bytes, Column, Kind, NoMemory, Row, put_row};

/// Puts the record of a row of these columns that was added behind what is there: its number, where it came from if it
/// was forwarded, and its values. A refusal leaves what was there.
pub fn put_insert(
    columns: &[Column],
    number: u64,
    row: &Row,
    origin: Option<Origin>,
    out: &mut Bytes,
) -> Result<(), NoMemory>
    requires { IsRowOf columns.now row.now }
    ensures put { OnOk result (out.new ≡ out.old
        ++ record_bytes (record { head = Head.Insert number origin; columns = columns.now; row = row.now })) }
    ensures kept { OnErr result (out.new ≡ out.old) }
{
    let before = out.as_slice().len();
    let put = put_head_and_row(columns, Head::Insert(number, origin), row, out);
    if put.is_err() {
        out.cut(before);
    }
    put
}

/// Puts the record of the end of a row behind what is there. A refusal leaves what was there.
pub fn put_end(number: u64, out: &mut Bytes) -> Result<(), NoMemory>
    ensures put { OnOk result (out.new ≡ out.old ++ record_bytes (record { head = Head.End number; columns = []; row = [] })) }
    ensures kept { OnErr result (out.new ≡ out.old) }
{
    put_rowless(Head::End(number), out)
}

/// Puts the record of a source's mark behind what is there. A refusal leaves what was there.
pub fn put_mark(source: u8, number: u64, out: &mut Bytes) -> Result<(), NoMemory>
    ensures put { OnOk result (out.new ≡ out.old ++ record_bytes (record { head = Head.Mark source number; columns = []; row = [] })) }
    ensures kept { OnErr result (out.new ≡ out.old) }
{
    put_rowless(Head::Mark(source, number), out)
}

/// Puts the record of the next row number, which ends a base, behind what is there. A refusal leaves what was there.
pub fn put_next(number: u64, out: &mut Bytes) -> Result<(), NoMemory>
    ensures put { OnOk result (out.new ≡ out.old ++ record_bytes (record { head = Head.Next number; columns = []; row = [] })) }
    ensures kept { OnErr result (out.new ≡ out.old) }
{
    put_rowless(Head::Next(number), out)
}

/// Puts the record of the columns, with which a base begins, behind what is there. Their number and the length of
/// each name are below 256. A refusal leaves what was there.
pub fn put_schema(columns: &[Column], out: &mut Bytes) -> Result<(), NoMemory>
    requires { IsSchema columns.now }
    ensures put { OnOk result (out.new ≡ out.old ++ schema_bytes columns.now) }
    ensures kept { OnErr result (out.new ≡ out.old) }
{
    let before = out.as_slice().len();
    let put = put_columns(columns, out);
    if put.is_err() {
        out.cut(before);
    }
    put
}

// Puts a record that has no row.
fn put_rowless(head: Head, out: &mut Bytes) -> Result<(), NoMemory>
    ensures put { OnOk result (out.new ≡ out.old ++ head_bytes head) }
    ensures kept { OnErr result (out.new ≡ out.old) }
{
    let before = out.as_slice().len();
    let put = put_head(head, out);
    if put.is_err() {
        out.cut(before);
    }
    put
}

// Puts both. A refusal may leave more behind what was there.
fn put_head_and_row(
    columns: &[Column],
    head: Head,
    row: &Row,
    out: &mut Bytes,
) -> Result<(), NoMemory>
    requires { IsRowOf columns.now row.now }
    ensures put { OnOk result (out.new ≡ out.old
        ++ record_bytes (record { head = head; columns = columns.now; row = row.now })) }
    ensures begins { OnErr result ((more : List ℕ) × (out.new ≡ out.old ++ more)) }
{
    put_head(head, out)?;
    put_row(columns, row, out)
}

fn put_head(head: Head, out: &mut Bytes) -> Result<(), NoMemory>
    ensures put { OnOk result (out.new ≡ out.old ++ head_bytes head) }
    ensures begins { OnErr result ((more : List ℕ) × (out.new ≡ out.old ++ more)) }
{
    match head {
        Head::Insert(number, None) => put_numbered(&[1], number, out),
        Head::Insert(number, Some(origin)) => {
            let front = [2, origin.source, mode_byte(origin.mode)];
            put_numbered(&front, origin.number, out)?;
            out.push(&number.to_be_bytes())
        }
        Head::End(number) => put_numbered(&[3], number, out),
        Head::Mark(source, number) => put_numbered(&[5, source], number, out),
        Head::Next(number) => put_numbered(&[6], number, out),
    }
}

// Puts these bytes and then the number.
fn put_numbered(front: &[u8], number: u64, out: &mut Bytes) -> Result<(), NoMemory>
    ensures put { OnOk result (out.new ≡ out.old ++ (front.now ++ to_be_bytes w64 number)) }
    ensures begins { OnErr result ((more : List ℕ) × (out.new ≡ out.old ++ more)) }
{
    out.push(front)?;
    out.push(&number.to_be_bytes())
}

pub(crate) fn mode_byte(mode: Mode) -> u8
    ensures { result ≡ byte_of_mode mode }
{
    match mode {
        Mode::A => 1,
        Mode::W => 2,
    }
}

fn kind_byte(column: &Column) -> u8
    ensures { result ≡ byte_of_column column.now }
{
    match (column.kind, column.optional) {
        (Kind::Int, false) => 1,
        (Kind::Words, false) => 2,
        (Kind::Int, true) => 3,
        (Kind::Words, true) => 4,
    }
}

// Puts the schema. A refusal may leave more behind what was there.
fn put_columns(columns: &[Column], out: &mut Bytes) -> Result<(), NoMemory>
    requires { IsSchema columns.now }
    ensures put { OnOk result (out.new ≡ out.old ++ schema_bytes columns.now) }
    ensures begins { OnErr result ((more : List ℕ) × (out.new ≡ out.old ++ more)) }
{
    out.push(&[7, columns.len() as u8])?;
    for column in columns {
        put_column(column, out)?;
    }
    Ok(())
}

fn put_column(column: &Column, out: &mut Bytes) -> Result<(), NoMemory>
    requires { length column.now.name < 256 }
    ensures put { OnOk result (out.new ≡ out.old ++ column_bytes column.now) }
    ensures begins { OnErr result ((more : List ℕ) × (out.new ≡ out.old ++ more)) }
{
    let name = column.name.as_str().as_bytes();
    out.push(&[kind_byte(column), name.len() as u8])?;
    out.push(name)
}
