ghost use Rattle.std.specs.Prelude.{◌≡◌, ◌≤◌, ◌<◌, ◌^◌, length};
ghost use Rattle.q4_value.specs.Row.{row_size as size_of};
ghost use Rattle.q4_store.specs.Content.{row_added};
ghost use Rattle.q4_store.specs.Lengths.{change_size};

mod abandoned;
mod acts;
mod commits;
mod copies;
mod files;
mod longest;
mod migrations;
mod openings;
mod stops;
mod twin;

use crate::OpenFault::{Damaged, Large, Schema};
use crate::{AppendFault, OpenFault, Store, room};
use q4_def::read_defs;
use q4_disk::{Disk, MemoryDisk, Pick, Side, StopDisk};
use q4_record::optional_count;
use q4_table::{Mode, Origin, Table};
use q4_value::{Bytes, Column, Row, Value, Words, fits, row_size};
use std::alloc::Global;
use std::process::Abort;
use std::test::*;

// Side A of a table of a number and a text, of generation 1, with row 1, which is 7 and `resize a.png`.
static WORKED: [u8; 83] = [
    0x01, 0x51, 0x34, 0x4f, 0x31, // the open gate and the first magic
    0x00, 0x00, 0x00, 0x00, 0x00, 0x00, 0x00, 0x01, // 5: the generation
    0x00, 0x00, 0x00, 0x00, 0x00, 0x00, 0x00, 0x17, // 13: the length of the base
    0x07, 0x02, 0x01, 0x04, 0x70, 0x72, 0x69, 0x6f, 0x02, 0x04, 0x62, 0x6f, 0x64, 0x79, // 21: the schema
    0x06, 0x00, 0x00, 0x00, 0x00, 0x00, 0x00, 0x00, 0x01, // 35: next
    0x01, 0x00, 0x00, 0x00, 0x21, // 44: a batch of 33 bytes
    0x01, 0x00, 0x00, 0x00, 0x00, 0x00, 0x00, 0x00, 0x01, // 49: an insert of row 1
    0x00, 0x00, 0x00, 0x00, 0x00, 0x00, 0x00, 0x07, // 58
    0x00, 0x00, 0x00, 0x0c, 0x72, 0x65, 0x73, 0x69, 0x7a, 0x65, 0x20, 0x61, 0x2e, 0x70, 0x6e, 0x67, // 66
    0x00, // 82: the closing gate
];

const PICKS: [Pick; 4] = [Pick::Kept, Pick::Lost, Pick::Half, Pick::Ones];

// What opening gives: the generation, the number of rows, the next row number and the length; or its fault.
type Given = Result<(u64, u32, u64, u64), OpenFault>;

// Opens the first table that the text defines: where it is empty, one with a number `prio` and a text `body`.
fn open_as<D: Disk>(
    rt: &impl Abort,
    alloc: Global,
    disk: D,
    text: &str,
) -> Result<(Store<D>, Table), (OpenFault, D)> {
    let Ok(defs) = read_defs(alloc, text.as_bytes()) else {
        panic!(rt; "no definitions")
    };
    let Some(def) = defs.table(0) else {
        panic!(rt; "no definition")
    };
    Store::open(alloc, disk, def)
}

fn open<D: Disk>(
    rt: &impl Abort,
    alloc: Global,
    disk: D,
) -> Result<(Store<D>, Table), (OpenFault, D)> {
    open_as(rt, alloc, disk, "")
}

fn opened<D: Disk>(rt: &impl Abort, alloc: Global, disk: D) -> (Store<D>, Table) {
    opened_as(rt, alloc, disk, "")
}

fn opened_as<D: Disk>(rt: &impl Abort, alloc: Global, disk: D, text: &str) -> (Store<D>, Table) {
    match open_as(rt, alloc, disk, text) {
        Ok(opened) => opened,
        Err((_fault, _disk)) => panic!(rt; "it was not opened"),
    }
}

fn given<D: Disk>(rt: &impl Abort, alloc: Global, disk: D) -> Given {
    given_as(rt, alloc, disk, "")
}

fn given_as<D: Disk>(rt: &impl Abort, alloc: Global, disk: D, text: &str) -> Given {
    match open_as(rt, alloc, disk, text) {
        Ok((store, table)) => Ok((
            store.generation(),
            table.count(),
            table.next(),
            store.length(),
        )),
        Err((fault, _disk)) => Err(fault),
    }
}

// A disk whose sides hold these bytes, synced.
fn seeded(rt: &impl Abort, alloc: Global, a: &[u8], b: &[u8]) -> MemoryDisk {
    let mut disk = MemoryDisk::new(alloc);
    assert!(rt; disk.write(Side::A, 0, a).is_ok() && disk.sync(Side::A).is_ok());
    assert!(rt; disk.write(Side::B, 0, b).is_ok() && disk.sync(Side::B).is_ok());
    disk
}

fn job(rt: &impl Abort, alloc: Global, prio: i64, body: &str) -> Row {
    let mut row = Row::new(alloc);
    let body = Words::new(alloc, body).expect(rt, "memory");
    assert!(rt; row.push(Value::Int(prio)).is_ok());
    assert!(rt; row.push(Value::Word(body)).is_ok());
    row
}

// The size of the record of a row of these columns that was added.
fn record_size(columns: &[Column], row: &Row, origin: Option<Origin>) -> u64
    requires few { length columns.now ≤ 32 }
    requires size { size_of row.now < 2 ^ 31 }
    ensures size { result ≡ change_size (row_added columns.now 0 row.now origin) }
    ensures small { result ≤ 2 ^ 32 }
{
    let flags = optional_count(columns) as u64;
    match origin {
        None => 9 + row_size(row) + flags,
        Some(_) => 19 + row_size(row) + flags,
    }
}

// Reserves for the record of a row, and appends it.
fn append<D: Disk>(
    rt: &impl Abort,
    store: &mut Store<D>,
    number: u64,
    row: &Row,
    origin: Option<Origin>,
) {
    let columns = store.columns();
    assert!(rt; columns.len() <= 32);
    let Ok(()) = fits(columns, row) else {
        panic!(rt; "the row does not fit")
    };
    let size = record_size(columns, row, origin);
    match store.reserve(size, store.rows()) {
        Ok(()) => store.append_row(number, row, origin),
        Err(_) => panic!(rt; "no room"),
    }
}

fn end<D: Disk>(rt: &impl Abort, store: &mut Store<D>, number: u64) {
    assert!(rt; store.rows() >= 1);
    store.append_end(number);
}

#[test]
fn room_at_its_limit(rt: HostRuntime) {
    assert_eq!(rt; room(536_870_000, 0, 880, 0), Ok(()));
    assert_eq!(rt; room(536_870_000, 0, 881, 0), Err(536_870_000));
    assert_eq!(rt; room(536_860_000, 10_000, 880, 0), Ok(()));
    assert_eq!(rt; room(536_860_000, 10_000, 848, 1), Ok(()));
    assert_eq!(rt; room(536_860_000, 10_000, 849, 1), Err(536_870_000));
}

static WORDS: [(OpenFault, &'static str); 6] = [
    (OpenFault::Disk, "disk fault"),
    (Damaged(Side::A, 44), "damaged a 44"),
    (Damaged(Side::B, 5), "damaged b 5"),
    (Schema(2), "schema 2"),
    (Large(7), "large 7"),
    (OpenFault::Memory, "out of memory"),
];

#[test]
fn words_of_faults(rt: HostRuntime) -> Result<(), Fail> {
    for (fault, words) in &WORDS {
        assert_eq!(rt; format!(in rt.alloc(); "{fault}")?.as_str(), *words);
    }
    Ok(())
}

#[test]
fn a_store_writes_the_worked_side(rt: HostRuntime) {
    let alloc = rt.alloc();
    let (mut store, table) = opened(&rt, alloc, MemoryDisk::new(alloc));
    assert_eq!(rt;
        (table.count(), table.next(), store.generation()),
        (0, 1, 1)
    );
    assert_eq!(rt;
        (store.length(), store.pending(), store.copying()),
        (45, false, None)
    );
    append(
        &rt,
        &mut store,
        1,
        &job(&rt, alloc, 7, "resize a.png"),
        None,
    );
    assert_eq!(rt; (store.length(), store.pending()), (83, true));
    assert_eq!(rt; store.commit(), Ok(()));
    assert_eq!(rt; (store.length(), store.pending()), (83, false));
    let disk = store.give_back();
    // in the second format
    let mut worked = WORKED;
    worked[4] = 0x32;
    assert_eq!(rt; disk.bytes(Side::A), worked.as_slice());
    assert_eq!(rt; disk.bytes(Side::B), [].as_slice());
    assert_eq!(rt; given(&rt, alloc, disk), Ok((1, 1, 2, 83)));
}

// The numbers of device calls, writes, syncs and faults.
fn counts(disk: &MemoryDisk) -> [u64; 4] {
    [disk.calls(), disk.writes(), disk.syncs(), disk.faults()]
}

fn added(before: [u64; 4], now: [u64; 4]) -> [u64; 4] {
    [
        now[0].saturating_sub(before[0]),
        now[1].saturating_sub(before[1]),
        now[2].saturating_sub(before[2]),
        now[3].saturating_sub(before[3]),
    ]
}

#[test]
fn ends_and_forwarded_rows_are_read_again(rt: HostRuntime) {
    let alloc = rt.alloc();
    let (mut store, _) = opened(&rt, alloc, MemoryDisk::new(alloc));
    let row = job(&rt, alloc, 7, "a");
    let from = Origin {
        source: 4,
        mode: Mode::A,
        number: 9,
    };
    append(&rt, &mut store, 1, &row, None);
    append(&rt, &mut store, 2, &row, Some(from));
    end(&rt, &mut store, 1);
    // 45, then 5 and records of 9 and 13 bytes, 19 and 13, and 9
    assert_eq!(rt; store.length(), 113);
    assert_eq!(rt; store.commit(), Ok(()));
    end(&rt, &mut store, 2);
    assert_eq!(rt; store.commit(), Ok(()));
    append(&rt, &mut store, 3, &row, None);
    assert_eq!(rt; store.reserve(1 << 30, 1), Err(AppendFault::FileFull(154)));
    let (store, table) = opened(&rt, alloc, store.give_back());
    assert_eq!(rt;
        (table.count(), table.next(), table.mark(4), store.length()),
        (0, 3, 9, 127)
    );
}

// Memory and room are there for as many rows as are read again, and for one more.
#[test]
fn many_rows_are_read_again(rt: HostRuntime) {
    let alloc = rt.alloc();
    let (mut store, _) = opened(&rt, alloc, MemoryDisk::new(alloc));
    let row = job(&rt, alloc, 7, "a");
    for number in 1..3001 {
        append(&rt, &mut store, number, &row, None);
    }
    // 45, then 5 and 3,000 records of 9 and 13 bytes
    assert_eq!(rt; store.length(), 66_050);
    assert_eq!(rt; store.commit(), Ok(()));
    let (mut store, table) = opened(&rt, alloc, store.give_back());
    assert_eq!(rt;
        (table.count(), table.next(), store.length()),
        (3000, 3001, 66_050)
    );
    for number in 1..3001 {
        end(&rt, &mut store, number);
    }
    append(&rt, &mut store, 3001, &row, None);
    assert_eq!(rt; store.commit(), Ok(()));
    assert_eq!(rt;
        given(&rt, alloc, store.give_back()),
        Ok((1, 1, 3002, 93_077))
    );
}

// A disk of the picked image.
fn left(rt: &impl Abort, alloc: Global, disk: &StopDisk, pick: Pick) -> MemoryDisk {
    let a = image(rt, alloc, disk, Side::A, pick);
    let b = image(rt, alloc, disk, Side::B, pick);
    seeded(rt, alloc, a.as_slice(), b.as_slice())
}

fn image(rt: &impl Abort, alloc: Global, disk: &StopDisk, side: Side, pick: Pick) -> Bytes {
    match disk.image(alloc, side, pick) {
        Ok(bytes) => bytes,
        Err(_) => panic!(rt; "no image"),
    }
}
