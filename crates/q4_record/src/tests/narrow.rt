use super::{WORKED, Wanted, changed, columns_of, read_as};
use crate::read_side;
use crate::side::SideFault::{Damaged, Large, Schema};
use q4_value::Value;
use std::test::*;

// The worked side, of columns that take no null, is read as one of columns that do. Its row stands as it is.
#[test]
fn narrower_side(rt: HostRuntime) {
    let alloc = rt.alloc();
    let read = read_side(alloc, &WORKED, columns_of(&rt, alloc, true, false));
    let Ok((table, generation, len, true)) = read else {
        panic!(rt; "the side was not read as a narrower one");
    };
    assert_eq!(rt; (generation, len), (1, 83));
    assert_eq!(rt; (table.count(), table.next(), table.bytes()), (1, 2, 24));
    let [prio, body] = table.columns() else {
        panic!(rt; "two columns were given");
    };
    assert_eq!(rt; (prio.optional, body.optional), (true, false));
    let Some(row) = table.row(1) else {
        panic!(rt; "row 1 is not there");
    };
    assert!(rt; matches!(row.at(0), Some(Value::Int(7))));
    assert!(rt; matches!(row.at(1), Some(Value::Word(body)) if body.as_str() == "resize a.png"));
}

// The generation 2^62 - 1.
const BEFORE_LAST: [(usize, u8); 8] = [
    (5, 0x3f),
    (6, 0xff),
    (7, 0xff),
    (8, 0xff),
    (9, 0xff),
    (10, 0xff),
    (11, 0xff),
    (12, 0xff),
];

// The format's byte of the magic, bytes of the worked side that are changed, which of the columns given are optional, and
// what reading gives. The generation stands at 5, the count of columns at 22, the kinds at 23 and 29.
const NARROWER: [(u8, &[(usize, u8)], (bool, bool), Wanted); 21] = [
    // Sides of narrower columns, in both formats.
    (b'1', &[], (true, false), Ok((1, 2, 1, 83))),
    (b'1', &[], (false, true), Ok((1, 2, 1, 83))),
    (b'1', &[], (true, true), Ok((1, 2, 1, 83))),
    (b'2', &[], (true, true), Ok((1, 2, 1, 83))),
    // `body` is optional in the side too, and null in its row.
    (b'2', &[(29, 4), (48, 18)], (true, true), Ok((1, 2, 1, 68))),
    // The side is of wider columns, or of others.
    (b'2', &[(29, 4)], (true, false), Err(Schema(2))),
    (b'2', &[(23, 3)], (false, true), Err(Schema(1))),
    (b'2', &[(23, 4)], (true, true), Err(Schema(1))),
    (b'2', &[(23, 2)], (true, true), Err(Schema(1))),
    (b'2', &[(25, 0x71)], (true, true), Err(Schema(1))),
    (b'2', &[(31, 0x63)], (true, true), Err(Schema(2))),
    (b'2', &[(22, 1)], (true, true), Err(Schema(2))),
    // An unknown kind goes before a column that differs.
    (b'2', &[(23, 4), (29, 5)], (true, false), Err(Damaged(21))),
    // The greatest generation, and the one before it.
    (b'1', &[(5, 0x40), (12, 0)], (true, false), Err(Large(7))),
    (
        b'1',
        &BEFORE_LAST,
        (true, false),
        Ok((1, 2, (1 << 62) - 1, 83)),
    ),
    // Every other fault goes before that.
    (
        b'1',
        &[(5, 0x40), (12, 0), (31, 0x63)],
        (true, false),
        Err(Schema(2)),
    ),
    (
        b'1',
        &[(5, 0x40), (12, 0), (43, 2)],
        (true, false),
        Err(Damaged(49)),
    ),
    (
        b'1',
        &[(5, 0x40), (12, 0), (36, 0x40)],
        (true, false),
        Err(Large(3)),
    ),
    (
        b'1',
        &[(5, 0x40), (12, 0), (67, 1)],
        (true, false),
        Err(Large(4)),
    ),
    (
        b'1',
        &[(5, 0x40), (12, 0), (82, 1)],
        (true, false),
        Err(Damaged(82)),
    ),
    // A greater generation goes before all of these.
    (b'1', &[(5, 0x40), (23, 9)], (true, false), Err(Large(7))),
];

#[test]
fn narrower_sides(rt: HostRuntime) {
    let alloc = rt.alloc();
    for (format, changes, optional, wanted) in NARROWER {
        let bytes = changed(&rt, alloc, &WORKED, format, 83, changes);
        let columns = columns_of(&rt, alloc, optional.0, optional.1);
        assert_eq!(rt; read_as(&rt, alloc, &bytes, columns, true), wanted);
    }
}
