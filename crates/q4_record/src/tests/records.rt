use super::{Wanted, batch_of, jobs, put, put_job, read, side_of};
use crate::side::SideFault::{Damaged, Large};
use crate::{put_end, put_mark, put_next, put_schema, read_side};
use q4_table::{Mode, Origin};
use q4_value::Bytes;
use std::alloc::Global;
use std::process::Abort;
use std::test::*;

// The base of the columns with row 3, the mark 7 of source 2 and next 5.
fn base_of(rt: &impl Abort, alloc: Global) -> Bytes {
    let columns = jobs(rt, alloc);
    let mut base = Bytes::new(alloc);
    put(rt, put_schema(columns.as_slice(), &mut base));
    put_job(rt, alloc, 2, (1, "a"), None, &mut base);
    put_job(rt, alloc, 3, (-1, "b"), None, &mut base);
    put(rt, put_end(2, &mut base));
    put(rt, put_mark(2, 7, &mut base));
    put(rt, put_next(5, &mut base));
    base
}

fn from_source(source: u8, mode: Mode, number: u64) -> Option<Origin> {
    let origin = Origin {
        source,
        mode,
        number,
    };
    Some(origin)
}

#[test]
fn put_records_are_read(rt: HostRuntime) {
    let alloc = rt.alloc();
    let mut records = Bytes::new(alloc);
    let job = (4, "c");
    put_job(&rt, alloc, 5, job, from_source(2, Mode::A, 8), &mut records);
    put_job(
        &rt,
        alloc,
        6,
        job,
        from_source(63, Mode::W, 1),
        &mut records,
    );
    put_job(&rt, alloc, 7, job, from_source(2, Mode::W, 3), &mut records);
    put(&rt, put_end(3, &mut records));
    put(&rt, put_end(7, &mut records));
    let batch = batch_of(&rt, alloc, &records);
    // A batch without records reads, and what follows the closing gate is ignored.
    let behind: [&[u8]; 3] = [batch.as_slice(), &[1, 0, 0, 0, 0], &[9, 1, 1]];
    let side = side_of(&rt, alloc, &base_of(&rt, alloc), &behind);
    let read = read_side(alloc, side.as_slice(), jobs(&rt, alloc));
    let Ok((table, generation, len, false)) = read else {
        panic!(rt; "the side was not read");
    };
    // 21, then 14, 22, 22, 9, 10 and 9 of the base, then 5, 32, 32, 32, 9 and 9, then 5, then the closing gate.
    assert_eq!(rt; (generation, len), (1, 232));
    assert_eq!(rt; (table.count(), table.next(), table.bytes()), (2, 8, 26));
    assert_eq!(rt; (table.mark(2), table.mark(63), table.mark(0)), (3, 1, 0));
    assert!(rt; table.row(2).is_none() && table.row(3).is_none() && table.row(7).is_none());
    assert!(rt; table.row(5).is_some() && table.row(6).is_some());
}

// The fault of a side whose base is that of `base_of` and whose batch holds this record. It stands at 112.
fn fault_of(rt: &impl Abort, alloc: Global, record: &Bytes) -> Wanted {
    let batch = batch_of(rt, alloc, record);
    let side = side_of(rt, alloc, &base_of(rt, alloc), &[batch.as_slice(), &[0]]);
    read(rt, alloc, side.as_slice())
}

#[test]
fn records_out_of_place(rt: HostRuntime) {
    let alloc = rt.alloc();
    // Of forwarded inserts: the row number, and where the row comes from.
    let inserts: [(u64, Option<Origin>, Wanted); 8] = [
        (5, from_source(2, Mode::A, 8), Ok((2, 6, 1, 145))),
        (5, from_source(2, Mode::A, 7), Err(Damaged(112))),
        (5, from_source(64, Mode::A, 8), Err(Damaged(112))),
        (5, from_source(2, Mode::W, 0), Err(Damaged(112))),
        (5, from_source(2, Mode::W, 1 << 62), Err(Damaged(112))),
        (5, None, Ok((2, 6, 1, 135))),
        (6, None, Err(Damaged(112))),
        (4, None, Err(Damaged(112))),
    ];
    for (number, origin, wanted) in inserts {
        let mut record = Bytes::new(alloc);
        put_job(&rt, alloc, number, (4, "c"), origin, &mut record);
        assert_eq!(rt; fault_of(&rt, alloc, &record), wanted);
    }
    for number in [2, 4] {
        let mut record = Bytes::new(alloc);
        put(&rt, put_end(number, &mut record));
        assert_eq!(rt; fault_of(&rt, alloc, &record), Err(Damaged(112)));
    }
    let mut record = Bytes::new(alloc);
    put(&rt, put_mark(3, 7, &mut record));
    assert_eq!(rt; fault_of(&rt, alloc, &record), Err(Damaged(112)));
    record.clear();
    put(&rt, put_next(9, &mut record));
    assert_eq!(rt; fault_of(&rt, alloc, &record), Err(Damaged(112)));
}

// The fault of a side whose base is the schema and these records, which begin at 35.
fn base_fault(rt: &impl Abort, alloc: Global, records: &Bytes) -> Wanted {
    let columns = jobs(rt, alloc);
    let mut base = Bytes::new(alloc);
    put(rt, put_schema(columns.as_slice(), &mut base));
    put(rt, base.push(records.as_slice()));
    let side = side_of(rt, alloc, &base, &[&[0]]);
    read(rt, alloc, side.as_slice())
}

// A record of a base.
#[derive(Clone, Copy)]
enum Part {
    Row(u64, Option<Origin>),
    End(u64),
    Mark(u8, u64),
    Next(u64),
}

#[test]
fn bases_out_of_order(rt: HostRuntime) {
    use Part::{End, Mark, Next, Row};
    let alloc = rt.alloc();
    let forwarded = from_source(2, Mode::A, 8);
    // A row takes 22 bytes, or 32 where it was forwarded, an end and a next record 9, a mark 10.
    let cases: [(&[Part], Wanted); 14] = [
        (&[Next(1)], Ok((0, 1, 1, 45))),
        (&[Row(9, None), Next(10)], Ok((1, 10, 1, 67))),
        (&[Row(9, None), Next(9)], Err(Damaged(57))),
        (&[Row(9, None), Row(9, None), Next(10)], Err(Damaged(57))),
        (&[Row(1, forwarded), Next(2)], Err(Damaged(35))),
        (&[Mark(1, 1), Mark(2, 1), Next(1)], Ok((0, 1, 1, 65))),
        (&[Mark(2, 1), Mark(2, 2), Next(1)], Err(Damaged(45))),
        (&[Mark(2, 1), Mark(1, 2), Next(1)], Err(Damaged(45))),
        (&[Mark(64, 1), Next(1)], Err(Damaged(35))),
        (&[Mark(1, 0), Next(1)], Err(Damaged(35))),
        (&[Mark(1, 1), Row(1, None), Next(2)], Err(Damaged(45))),
        (&[Row(1, None), End(1), Next(2)], Ok((0, 2, 1, 76))),
        (&[Row(1, None), End(2), Next(2)], Err(Damaged(57))),
        (&[Mark(1, 1)], Err(Damaged(45))),
    ];
    for (parts, wanted) in cases {
        let mut records = Bytes::new(alloc);
        for part in parts {
            match *part {
                Row(number, origin) => {
                    put_job(&rt, alloc, number, (4, "c"), origin, &mut records);
                }
                End(number) => put(&rt, put_end(number, &mut records)),
                Mark(source, number) => put(&rt, put_mark(source, number, &mut records)),
                Next(number) => put(&rt, put_next(number, &mut records)),
            }
        }
        assert_eq!(rt; base_fault(&rt, alloc, &records), wanted);
    }
}

// A batch's insert of row 5 with 7 and a text of so many letters x, of which the last is this byte, cut off behind so
// many of its bytes.
fn long_record(rt: &impl Abort, alloc: Global, len: u32, last: u8, cut: u32) -> Bytes {
    let mut record = Bytes::new(alloc);
    put(
        rt,
        record.push(b"\x01\x00\x00\x00\x00\x00\x00\x00\x05\x00\x00\x00\x00\x00\x00\x00\x07"),
    );
    put(rt, record.push(&len.to_be_bytes()));
    for _ in 1..len.min(cut) {
        put(rt, record.push(b"x"));
    }
    put(rt, record.push(&[last]));
    record
}

#[test]
fn long_texts(rt: HostRuntime) {
    let alloc = rt.alloc();
    let cases: [(u32, u8, u32, Wanted); 6] = [
        (65_535, b'x', 65_535, Ok((2, 6, 1, 65_669))),
        (65_536, b'x', 65_536, Err(Large(4))),
        (65_536, 0xff, 65_536, Err(Damaged(112))),
        (65_536, 0xff, 65_535, Err(Large(4))),
        (65_535, 0xff, 65_535, Err(Damaged(112))),
        (65_535, b'x', 65_534, Err(Damaged(112))),
    ];
    for (len, last, cut, wanted) in cases {
        let record = long_record(&rt, alloc, len, last, cut);
        assert_eq!(rt; fault_of(&rt, alloc, &record), wanted);
    }
}
