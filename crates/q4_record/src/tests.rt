ghost use Rattle.std.specs.Prelude.{◌≤◌, length};
ghost use Rattle.q4_value.specs.Row.{IsRowOf};
ghost use Rattle.q4_table.specs.Valid.{IsColumns};
ghost use Rattle.q4_record.specs.Schema.{IsSchema};

mod narrow;
mod nulls;
mod records;
mod worked;

use super::*;
use q4_table::Origin;
use q4_value::{Bytes, Column, Columns, Kind, NoMemory, Row, Value, Words, fits};
use std::alloc::Global;
use std::process::Abort;
use std::test::*;

// The side of generation 1 of the columns `prio int` and `body text`, with row 1, which is 7 and `resize a.png`.
const WORKED: [u8; 83] = [
    0x01, 0x51, 0x34, 0x4f, 0x31, // the open gate and the magic
    0x00, 0x00, 0x00, 0x00, 0x00, 0x00, 0x00, 0x01, // 5: the generation
    0x00, 0x00, 0x00, 0x00, 0x00, 0x00, 0x00, 0x17, // 13: the length of the base
    0x07, 0x02, 0x01, 0x04, 0x70, 0x72, 0x69, 0x6f, 0x02, 0x04, 0x62, 0x6f, 0x64, 0x79, // 21: the schema
    0x06, 0x00, 0x00, 0x00, 0x00, 0x00, 0x00, 0x00, 0x01, // 35: next
    0x01, 0x00, 0x00, 0x00, 0x21, // 44: a batch of 33 bytes
    0x01, 0x00, 0x00, 0x00, 0x00, 0x00, 0x00, 0x00, 0x01, // 49: an insert of row 1
    0x00, 0x00, 0x00, 0x00, 0x00, 0x00, 0x00, 0x07, // 58
    0x00, 0x00, 0x00, 0x0c, 0x72, 0x65, 0x73, 0x69, 0x7a, 0x65, 0x20, 0x61, 0x2e, 0x70, 0x6e, 0x67, // 66
    0x00, // 82: the closing gate
];

// The columns `prio` and `body`, which are optional or not.
fn columns_of(rt: &impl Abort, alloc: Global, prio: bool, body: bool) -> Columns
    ensures columns { IsColumns result }
    ensures schema { IsSchema result }
{
    let mut columns = Columns::new(alloc);
    let name = Words::new(alloc, "prio").expect(rt, "memory");
    let column = Column {
        name,
        kind: Kind::Int,
        optional: prio,
    };
    assert!(rt; columns.push(column).is_ok());
    let name = Words::new(alloc, "body").expect(rt, "memory");
    let column = Column {
        name,
        kind: Kind::Words,
        optional: body,
    };
    assert!(rt; columns.push(column).is_ok());
    columns
}

fn jobs(rt: &impl Abort, alloc: Global) -> Columns
    ensures columns { IsColumns result }
    ensures schema { IsSchema result }
{
    columns_of(rt, alloc, false, false)
}

// The row of a number and a text, where none of either is null.
fn row_of(
    rt: &impl Abort,
    alloc: Global,
    columns: &[Column],
    prio: Option<i64>,
    body: Option<&str>,
) -> Row
    requires { length columns.now ≤ 32 }
    ensures { IsRowOf columns.now result }
{
    let mut row = Row::new(alloc);
    let prio = match prio {
        Some(prio) => Value::Int(prio),
        None => Value::Null,
    };
    let body = match body {
        Some(body) => Value::Word(Words::new(alloc, body).expect(rt, "memory")),
        None => Value::Null,
    };
    assert!(rt; row.push(prio).is_ok());
    assert!(rt; row.push(body).is_ok());
    match fits(columns, &row) {
        Ok(()) => row,
        Err(_) => panic!(rt; "the row does not fit"),
    }
}

// Puts an insert into the table of jobs.
fn put_job(
    rt: &impl Abort,
    alloc: Global,
    number: u64,
    job: (i64, &str),
    origin: Option<Origin>,
    out: &mut Bytes,
) {
    let columns = jobs(rt, alloc);
    let row = row_of(rt, alloc, columns.as_slice(), Some(job.0), Some(job.1));
    put(
        rt,
        put_insert(columns.as_slice(), number, &row, origin, out),
    );
}

// The first so many bytes of a side, with its format's byte in the magic and with some bytes changed.
fn changed(
    rt: &impl Abort,
    alloc: Global,
    side: &[u8],
    format: u8,
    len: usize,
    changes: &[(usize, u8)],
) -> Vec<u8> {
    let mut bytes = Vec::new(alloc);
    for (at, byte) in side.iter().enumerate() {
        if at >= len {
            break;
        }
        let mut byte = if at == 4 { format } else { *byte };
        for change in changes {
            if change.0 == at {
                byte = change.1;
            }
        }
        assert!(rt; bytes.push(byte).is_ok());
    }
    bytes
}

// What reading is to give: rows, next, generation and length, or a fault.
type Wanted = Result<(u32, u64, u64, u64), SideFault>;

fn read(rt: &impl Abort, alloc: Global, bytes: &[u8]) -> Wanted {
    read_as(rt, alloc, bytes, jobs(rt, alloc), false)
}

// Reads a side as one of these columns. Where it is one its schema has to be narrower than they are, or not.
fn read_as(
    rt: &impl Abort,
    alloc: Global,
    bytes: &[u8],
    columns: Columns,
    is_narrower: bool,
) -> Wanted
    requires columns { IsColumns columns }
    requires schema { IsSchema columns }
{
    let (table, generation, len, narrower) = read_side(alloc, bytes, columns)?;
    assert_eq!(rt; narrower, is_narrower);
    Ok((table.count(), table.next(), generation, len))
}

fn put(rt: &impl Abort, put: Result<(), NoMemory>) {
    assert!(rt; put.is_ok());
}

// An open gate, the magic, the generation, the length of the base, the base, and what is behind it.
fn side_of(rt: &impl Abort, alloc: Global, base: &Bytes, behind: &[&[u8]]) -> Bytes {
    let mut side = Bytes::new(alloc);
    put(rt, side.push(b"\x01Q4O2\x00\x00\x00\x00\x00\x00\x00\x01"));
    put(rt, side.push(&(base.as_slice().len() as u64).to_be_bytes()));
    put(rt, side.push(base.as_slice()));
    for part in behind {
        put(rt, side.push(part));
    }
    side
}

// One batch of these records.
fn batch_of(rt: &impl Abort, alloc: Global, records: &Bytes) -> Bytes {
    let mut batch = Bytes::new(alloc);
    let len = u32::try_from(records.as_slice().len()).expect(rt, "few bytes");
    put(rt, batch.push(&[1]));
    put(rt, batch.push(&len.to_be_bytes()));
    put(rt, batch.push(records.as_slice()));
    batch
}
