use super::{WORKED, Wanted, batch_of, changed, jobs, put, put_job, read, side_of};
use crate::side::SideFault::{Closed, Damaged, Large, Schema};
use crate::{put_next, put_schema, read_side};
use q4_value::{Bytes, Value};
use std::test::*;

#[test]
fn worked_side(rt: HostRuntime) {
    let alloc = rt.alloc();
    let Ok((table, generation, len, false)) = read_side(alloc, &WORKED, jobs(&rt, alloc)) else {
        panic!(rt; "the side was not read");
    };
    assert_eq!(rt; (generation, len), (1, 83));
    assert_eq!(rt; (table.count(), table.next(), table.bytes()), (1, 2, 24));
    assert_eq!(rt; table.owner(1), None);
    let Some(row) = table.row(1) else {
        panic!(rt; "row 1 is not there");
    };
    assert!(rt; matches!(row.at(0), Some(Value::Int(7))));
    assert!(rt; matches!(row.at(1), Some(Value::Word(body)) if body.as_str() == "resize a.png"));
}

// The length, the bytes that are changed, and what reading gives.
const CHANGED: [(usize, &[(usize, u8)], Wanted); 56] = [
    // The gate and the header.
    (0, &[], Err(Closed)),
    (20, &[], Err(Closed)),
    (83, &[(0, 0)], Err(Closed)),
    (83, &[(0, 2)], Err(Closed)),
    (21, &[], Err(Damaged(0))),
    (44, &[], Err(Damaged(0))),
    (83, &[(1, 0x52)], Err(Damaged(0))),
    (83, &[(4, b'3')], Err(Damaged(0))),
    (83, &[(12, 0)], Err(Damaged(0))),
    (83, &[(20, 62)], Err(Damaged(0))),
    (83, &[(20, 0xff)], Err(Damaged(0))),
    (83, &[(13, 0x80)], Err(Damaged(0))),
    (83, &[(5, 0x40), (12, 0)], Ok((1, 2, 1 << 62, 83))),
    (83, &[(5, 0x40)], Err(Large(7))),
    (83, &[(5, 0x40), (1, 0)], Err(Damaged(0))),
    // The schema.
    (83, &[(20, 0)], Err(Damaged(21))),
    (83, &[(20, 13)], Err(Damaged(21))),
    (83, &[(21, 6)], Err(Damaged(21))),
    (83, &[(23, 7)], Err(Damaged(21))),
    (83, &[(22, 3)], Err(Damaged(21))),
    (83, &[(23, 2)], Err(Schema(1))),
    (83, &[(25, 0x71)], Err(Schema(1))),
    (83, &[(31, 0x42)], Err(Schema(2))),
    (83, &[(31, 0x63)], Err(Schema(2))),
    (83, &[(22, 1)], Err(Schema(2))),
    (83, &[(22, 0)], Err(Schema(1))),
    // The rest of the base.
    (83, &[(20, 14)], Err(Damaged(35))),
    (83, &[(20, 22)], Err(Damaged(35))),
    (83, &[(20, 61)], Err(Damaged(44))),
    (83, &[(35, 3)], Err(Damaged(35))),
    (83, &[(35, 2)], Err(Damaged(35))),
    (83, &[(35, 7)], Err(Damaged(35))),
    (83, &[(35, 9)], Err(Damaged(35))),
    (83, &[(35, 4)], Err(Damaged(35))),
    (83, &[(43, 0)], Err(Damaged(35))),
    (83, &[(36, 0x40)], Err(Large(3))),
    (83, &[(43, 2)], Err(Damaged(49))),
    (83, &[(43, 5)], Err(Damaged(49))),
    // The gates and the length of the batch.
    (45, &[(44, 0)], Ok((0, 1, 1, 45))),
    (45, &[(12, 2), (44, 0)], Ok((0, 1, 2, 45))),
    (50, &[(44, 0)], Ok((0, 1, 1, 45))),
    (83, &[(44, 2)], Ok((0, 1, 1, 45))),
    (60, &[], Err(Damaged(44))),
    (82, &[], Err(Damaged(44))),
    (47, &[], Err(Damaged(44))),
    (83, &[(82, 1)], Err(Damaged(82))),
    (83, &[(48, 32)], Err(Damaged(49))),
    (83, &[(48, 0x22)], Err(Damaged(44))),
    // The row.
    (83, &[(49, 2)], Err(Damaged(49))),
    (83, &[(49, 3)], Err(Damaged(49))),
    (83, &[(57, 2)], Err(Damaged(49))),
    (83, &[(70, 0xff)], Err(Damaged(49))),
    (83, &[(69, 0x0d)], Err(Damaged(49))),
    (83, &[(67, 1)], Err(Large(4))),
    (83, &[(66, 1)], Err(Large(4))),
    (83, &[(66, 1), (57, 2)], Err(Damaged(49))),
];

// In a table without optional columns the two formats differ by the magic alone.
#[test]
fn changed_sides(rt: HostRuntime) {
    let alloc = rt.alloc();
    for (len, changes, wanted) in CHANGED {
        for format in [b'1', b'2'] {
            let bytes = changed(&rt, alloc, &WORKED, format, len, changes);
            assert_eq!(rt; read(&rt, alloc, &bytes), wanted);
        }
    }
}

#[test]
fn put_records_are_the_worked_side(rt: HostRuntime) {
    let alloc = rt.alloc();
    let columns = jobs(&rt, alloc);
    let mut base = Bytes::new(alloc);
    put(&rt, put_schema(columns.as_slice(), &mut base));
    put(&rt, put_next(1, &mut base));
    let mut records = Bytes::new(alloc);
    put_job(&rt, alloc, 1, (7, "resize a.png"), None, &mut records);
    let batch = batch_of(&rt, alloc, &records);
    let side = side_of(&rt, alloc, &base, &[batch.as_slice(), &[0]]);
    let worked = changed(&rt, alloc, &WORKED, b'2', 83, &[]);
    assert_eq!(rt; side.as_slice(), worked.as_slice());
}
