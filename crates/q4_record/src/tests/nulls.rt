use super::{Wanted, changed, columns_of, put, read_as, row_of, side_of};
use crate::side::SideFault::{Damaged, Large, Schema};
use crate::{put_insert, put_next, put_schema, read_side};
use q4_value::{Bytes, Value};
use std::alloc::Global;
use std::process::Abort;
use std::test::*;

// The side of generation 1 of the columns `prio int null` and `body text null`, with four rows in one batch.
const NULLS: [u8; 119] = [
    0x01, 0x51, 0x34, 0x4f, 0x32, // the open gate and the magic
    0x00, 0x00, 0x00, 0x00, 0x00, 0x00, 0x00, 0x01, // 5: the generation
    0x00, 0x00, 0x00, 0x00, 0x00, 0x00, 0x00, 0x17, // 13: the length of the base
    0x07, 0x02, 0x03, 0x04, 0x70, 0x72, 0x69, 0x6f, 0x04, 0x04, 0x62, 0x6f, 0x64, 0x79, // 21: the schema
    0x06, 0x00, 0x00, 0x00, 0x00, 0x00, 0x00, 0x00, 0x01, // 35: next
    0x01, 0x00, 0x00, 0x00, 0x45, // 44: a batch of 69 bytes
    0x01, 0x00, 0x00, 0x00, 0x00, 0x00, 0x00, 0x00, 0x01, // 49: an insert of row 1
    0x00, // 58: null
    0x01, 0x00, 0x00, 0x00, 0x01, 0x61, // 59: `a`
    0x01, 0x00, 0x00, 0x00, 0x00, 0x00, 0x00, 0x00, 0x02, // 65: an insert of row 2
    0x01, 0x00, 0x00, 0x00, 0x00, 0x00, 0x00, 0x00, 0x00, // 74: 0
    0x00, // 83: null
    0x01, 0x00, 0x00, 0x00, 0x00, 0x00, 0x00, 0x00, 0x03, // 84: an insert of row 3
    0x00, 0x00, // 93: null, twice
    0x01, 0x00, 0x00, 0x00, 0x00, 0x00, 0x00, 0x00, 0x04, // 95: an insert of row 4
    0x01, 0xff, 0xff, 0xff, 0xff, 0xff, 0xff, 0xff, 0xff, // 104: -1
    0x01, 0x00, 0x00, 0x00, 0x00, // 113: the empty text
    0x00, // 118: the closing gate
];

// The rows of that side.
const ROWS: [(Option<i64>, Option<&str>); 4] = [
    (None, Some("a")),
    (Some(0), None),
    (None, None),
    (Some(-1), Some("")),
];

// Whether a value is this number, or null where there is none.
fn is_number(value: Option<&Value>, wanted: Option<i64>) -> bool {
    match (value, wanted) {
        (Some(Value::Int(number)), Some(wanted)) => *number == wanted,
        (Some(Value::Null), None) => true,
        _ => false,
    }
}

// Whether a value is this text, or null where there is none.
fn is_text(value: Option<&Value>, wanted: Option<&str>) -> bool {
    match (value, wanted) {
        (Some(Value::Word(words)), Some(wanted)) => words.as_str() == wanted,
        (Some(Value::Null), None) => true,
        _ => false,
    }
}

#[test]
fn rows_with_nulls_are_read(rt: HostRuntime) {
    let alloc = rt.alloc();
    let read = read_side(alloc, &NULLS, columns_of(&rt, alloc, true, true));
    let Ok((table, generation, len, false)) = read else {
        panic!(rt; "the side was not read");
    };
    // Flags count in no size: 5, 8, 0 and 12.
    assert_eq!(rt; (generation, len), (1, 119));
    assert_eq!(rt; (table.count(), table.next(), table.bytes()), (4, 5, 25));
    for (place, wanted) in ROWS.iter().enumerate() {
        let Some(row) = table.row(place as u64 + 1) else {
            panic!(rt; "a row is not there");
        };
        assert_eq!(rt; row.len(), 2);
        assert!(rt; is_number(row.at(0), wanted.0));
        assert!(rt; is_text(row.at(1), wanted.1));
    }
}

// Puts the insert of a row into the table of that side.
fn put_null_row(
    rt: &impl Abort,
    alloc: Global,
    number: u64,
    row: (Option<i64>, Option<&str>),
    out: &mut Bytes,
) {
    let columns = columns_of(rt, alloc, true, true);
    let row = row_of(rt, alloc, columns.as_slice(), row.0, row.1);
    put(rt, put_insert(columns.as_slice(), number, &row, None, out));
}

#[test]
fn rows_with_nulls_are_written(rt: HostRuntime) {
    let alloc = rt.alloc();
    let mut base = Bytes::new(alloc);
    put(
        &rt,
        put_schema(columns_of(&rt, alloc, true, true).as_slice(), &mut base),
    );
    put(&rt, put_next(1, &mut base));
    let mut batch = Bytes::new(alloc);
    put(&rt, batch.push(&[1, 0, 0, 0, 69]));
    for (place, row) in ROWS.iter().enumerate() {
        put_null_row(&rt, alloc, place as u64 + 1, *row, &mut batch);
    }
    let side = side_of(&rt, alloc, &base, &[batch.as_slice(), &[0]]);
    assert_eq!(rt; side.as_slice(), NULLS.as_slice());
}

// The bytes of that side that are changed, and what reading gives.
const CHANGED: [(&[(usize, u8)], Wanted); 17] = [
    (&[], Ok((4, 5, 1, 119))),
    (&[(4, b'1')], Err(Damaged(21))),
    // A flag that is none, and a text that is not UTF-8.
    (&[(58, 2)], Err(Damaged(49))),
    (&[(58, 0xff)], Err(Damaged(49))),
    (&[(59, 2)], Err(Damaged(49))),
    (&[(64, 0xff)], Err(Damaged(49))),
    (&[(94, 3)], Err(Damaged(84))),
    // A flag that is the other one: what follows is read otherwise.
    (&[(58, 1)], Err(Damaged(68))),
    (&[(74, 0)], Err(Damaged(76))),
    (&[(83, 1)], Err(Large(4))),
    (&[(83, 1), (84, 0)], Err(Damaged(88))),
    (&[(93, 1)], Err(Damaged(103))),
    // A batch that ends behind row 3, before a flag, behind a flag, and within the value behind it.
    (&[(48, 46)], Ok((3, 4, 1, 101))),
    (&[(48, 55)], Err(Damaged(95))),
    (&[(48, 56)], Err(Damaged(95))),
    (&[(48, 64)], Err(Damaged(95))),
    (&[(48, 66)], Err(Damaged(95))),
];

#[test]
fn changed_sides_with_nulls(rt: HostRuntime) {
    let alloc = rt.alloc();
    for (changes, wanted) in CHANGED {
        let bytes = changed(&rt, alloc, &NULLS, b'2', 119, changes);
        let columns = columns_of(&rt, alloc, true, true);
        assert_eq!(rt; read_as(&rt, alloc, &bytes, columns, false), wanted);
    }
}

// The format's byte of the magic, bytes of the worked side that are changed, which of the columns are optional, and what
// reading gives. The kinds stand at 23 and 29, the row's values at 58 and 66.
const KINDS: [(u8, &[(usize, u8)], (bool, bool), Wanted); 20] = [
    // The first format has no optional column.
    (b'1', &[(23, 3)], (false, false), Err(Damaged(21))),
    (b'1', &[(23, 3)], (true, false), Err(Damaged(21))),
    (b'1', &[(23, 4)], (false, false), Err(Damaged(21))),
    (b'1', &[(29, 3)], (false, true), Err(Damaged(21))),
    (b'1', &[(29, 4)], (false, true), Err(Damaged(21))),
    (b'1', &[(23, 5)], (true, true), Err(Damaged(21))),
    // In the second one other columns are another schema.
    (b'2', &[(23, 3)], (false, false), Err(Schema(1))),
    (b'2', &[(23, 4)], (false, false), Err(Schema(1))),
    (b'2', &[(23, 4)], (true, false), Err(Schema(1))),
    (b'2', &[(29, 4)], (false, false), Err(Schema(2))),
    (b'2', &[(29, 3)], (false, true), Err(Schema(2))),
    (b'2', &[(23, 5)], (true, true), Err(Damaged(21))),
    // The same columns, of which one is optional: its value begins with a flag.
    (b'2', &[(23, 3)], (true, false), Err(Damaged(63))),
    (b'2', &[(23, 3), (58, 1)], (true, false), Err(Damaged(49))),
    (b'2', &[(23, 3), (58, 2)], (true, false), Err(Damaged(49))),
    (b'2', &[(29, 4)], (false, true), Err(Damaged(67))),
    (b'2', &[(29, 4), (66, 1)], (false, true), Err(Damaged(49))),
    (b'2', &[(29, 4), (66, 2)], (false, true), Err(Damaged(49))),
    (b'2', &[(29, 4), (48, 18)], (false, true), Ok((1, 2, 1, 68))),
    (
        b'2',
        &[(5, 0x40), (12, 0), (29, 4), (48, 18)],
        (false, true),
        Ok((1, 2, 1 << 62, 68)),
    ),
];

#[test]
fn kinds_of_columns(rt: HostRuntime) {
    let alloc = rt.alloc();
    for (format, changes, optional, wanted) in KINDS {
        let bytes = changed(&rt, alloc, &super::WORKED, format, 83, changes);
        let columns = columns_of(&rt, alloc, optional.0, optional.1);
        assert_eq!(rt; read_as(&rt, alloc, &bytes, columns, false), wanted);
    }
}
