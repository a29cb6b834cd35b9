ghost use Rattle.std.specs.Prelude.{◌≤◌, length};
ghost use Rattle.q4_value.specs.Row.{Fits};

use super::*;
use std::alloc::Global;
use std::process::Abort;
use std::test::*;

// A value as the tables write it: a number, a text, so many bytes of the letter x, or null.
#[derive(Clone, Copy)]
enum Field {
    Number(i64),
    Text(&'static str),
    Long(usize),
    Nothing,
}

use Field::{Long, Nothing, Number, Text};

// The kind of a column, and whether it is optional.
const INT: (Kind, bool) = (Kind::Int, false);

const TEXT: (Kind, bool) = (Kind::Words, false);

const INT_OR_NULL: (Kind, bool) = (Kind::Int, true);

const TEXT_OR_NULL: (Kind, bool) = (Kind::Words, true);

fn long_text(rt: &impl Abort, alloc: Global, len: usize) -> Words {
    let mut text = String::new(alloc);
    for _ in 0..len {
        assert!(rt; text.push('x').is_ok());
    }
    Words::new(alloc, text.as_str()).expect(rt, "memory")
}

fn row_of(rt: &impl Abort, alloc: Global, fields: &[Field]) -> Row {
    let mut row = Row::new(alloc);
    for field in fields {
        let value = match *field {
            Number(number) => Value::Int(number),
            Text(text) => Value::Word(Words::new(alloc, text).expect(rt, "memory")),
            Long(len) => Value::Word(long_text(rt, alloc, len)),
            Nothing => Value::Null,
        };
        assert!(rt; row.push(value).is_ok());
    }
    row
}

fn columns_of(rt: &impl Abort, alloc: Global, kinds: &[(Kind, bool)]) -> Columns
    ensures { length result ≤ 32 }
{
    let mut columns = Columns::new(alloc);
    for &(kind, optional) in kinds {
        let name = Words::new(alloc, "c").expect(rt, "memory");
        let column = Column {
            name,
            kind,
            optional,
        };
        assert!(rt; columns.push(column).is_ok());
    }
    assert!(rt; columns.len() <= 32);
    columns
}

// The row, which has to fit.
fn fitting_row(rt: &impl Abort, alloc: Global, columns: &Columns, fields: &[Field]) -> Row
    requires { length columns.now ≤ 32 }
    ensures { Fits columns.now result }
{
    let row = row_of(rt, alloc, fields);
    match fits(columns.as_slice(), &row) {
        Ok(()) => row,
        Err(_) => panic!(rt; "the row does not fit"),
    }
}

fn same_value(value: &Value, field: &Field) -> bool {
    match (value, field) {
        (Value::Int(number), Number(wanted)) => *number == *wanted,
        (Value::Word(words), Text(wanted)) => words.as_str() == *wanted,
        (Value::Word(words), Long(len)) => words.as_str().len() == *len,
        (Value::Null, Nothing) => true,
        _ => false,
    }
}

fn same_row(row: &Row, fields: &[Field]) -> bool {
    if row.len() != fields.len() {
        return false;
    }
    for (place, field) in fields.iter().enumerate() {
        match row.at(place) {
            Some(value) if same_value(value, field) => {}
            _ => return false,
        }
    }
    true
}

const LEAST: &[u8] = b"-9223372036854775808";

const GREATEST: &[u8] = b"9223372036854775807";

#[test]
fn signed_numbers(rt: HostRuntime) {
    let spelled: [(&[u8], i64); 5] = [
        (b"0", 0),
        (b"-1", -1),
        (b"10", 10),
        (LEAST, i64::MIN),
        (GREATEST, i64::MAX),
    ];
    for (text, number) in spelled {
        assert_eq!(rt; parse_signed(text), Some(number));
    }
    let others: [&[u8]; 12] = [
        b"",
        b"-",
        b"-0",
        b"+1",
        b"01",
        b"-01",
        b" 1",
        b"1 ",
        b"1a",
        b"\xff",
        b"9223372036854775808",
        b"-9223372036854775809",
    ];
    for text in others {
        assert_eq!(rt; parse_signed(text), None);
    }
}

#[test]
fn unsigned_numbers(rt: HostRuntime) {
    let spelled: [(&[u8], u64); 3] = [(b"0", 0), (b"7", 7), (b"18446744073709551615", u64::MAX)];
    for (text, number) in spelled {
        assert_eq!(rt; parse_unsigned(text), Some(number));
    }
    let others: [&[u8]; 6] = [b"", b"-1", b"+1", b"00", b"1_0", b"18446744073709551616"];
    for text in others {
        assert_eq!(rt; parse_unsigned(text), None);
    }
}

// The row of 7 and `resize a.png`.
const JOB: [u8; 24] = [
    0, 0, 0, 0, 0, 0, 0, 7, 0, 0, 0, 12, 114, 101, 115, 105, 122, 101, 32, 97, 46, 112, 110, 103,
];

#[test]
fn a_row_as_bytes(rt: HostRuntime) {
    let columns = columns_of(&rt, rt.alloc(), &[INT, TEXT]);
    let fields = [Number(7), Text("resize a.png")];
    let row = fitting_row(&rt, rt.alloc(), &columns, &fields);
    let mut wanted = Bytes::new(rt.alloc());
    assert_eq!(rt; wanted.push(b"before"), Ok(()));
    assert_eq!(rt; wanted.push(&JOB), Ok(()));
    let mut out = Bytes::new(rt.alloc());
    assert_eq!(rt; out.push(b"before"), Ok(()));
    assert_eq!(rt; put_row(columns.as_slice(), &row, &mut out), Ok(()));
    assert_eq!(rt; out.as_slice(), wanted.as_slice());
    assert_eq!(rt; row_size(&row), 24);

    out.clear();
    assert_eq!(rt; out.push(&JOB), Ok(()));
    assert_eq!(rt; out.push(b"behind"), Ok(()));
    let (read, len) = read_row(rt.alloc(), columns.as_slice(), out.as_slice()).expect(&rt, "a row");
    assert_eq!(rt; len, 24);
    assert!(rt; same_row(&read, &fields));
}

#[test]
fn extreme_numbers_as_bytes(rt: HostRuntime) {
    let rows: [(i64, [u8; 8]); 4] = [
        (i64::MIN, [128, 0, 0, 0, 0, 0, 0, 0]),
        (i64::MAX, [127, 255, 255, 255, 255, 255, 255, 255]),
        (-1, [255; 8]),
        (258, [0, 0, 0, 0, 0, 0, 1, 2]),
    ];
    let columns = columns_of(&rt, rt.alloc(), &[INT]);
    for (number, bytes) in rows {
        let row = fitting_row(&rt, rt.alloc(), &columns, &[Number(number)]);
        let mut out = Bytes::new(rt.alloc());
        assert_eq!(rt; put_row(columns.as_slice(), &row, &mut out), Ok(()));
        assert_eq!(rt; out.as_slice(), bytes.as_slice());
        let (read, len) = read_row(rt.alloc(), columns.as_slice(), &bytes).expect(&rt, "a row");
        assert_eq!(rt; len, 8);
        assert!(rt; same_row(&read, &[Number(number)]));
    }
}

// Optional columns have a flag in front: 0 alone for a null, 1 before a value. The column between them has none.
#[test]
fn nulls_as_bytes(rt: HostRuntime) {
    let columns = columns_of(&rt, rt.alloc(), &[INT_OR_NULL, INT, TEXT_OR_NULL]);
    let rows: [([Field; 3], u64, &[u8]); 3] = [
        (
            [Nothing, Number(7), Nothing],
            8,
            &[0, 0, 0, 0, 0, 0, 0, 0, 7, 0],
        ),
        (
            [Number(0), Number(7), Text("")],
            20,
            &[
                1, 0, 0, 0, 0, 0, 0, 0, 0, 0, 0, 0, 0, 0, 0, 0, 7, 1, 0, 0, 0, 0,
            ],
        ),
        (
            [Nothing, Number(7), Text("a")],
            13,
            &[0, 0, 0, 0, 0, 0, 0, 0, 7, 1, 0, 0, 0, 1, 97],
        ),
    ];
    for (fields, size, bytes) in rows {
        let row = fitting_row(&rt, rt.alloc(), &columns, &fields);
        assert_eq!(rt; row_size(&row), size);
        let mut out = Bytes::new(rt.alloc());
        assert_eq!(rt; put_row(columns.as_slice(), &row, &mut out), Ok(()));
        assert_eq!(rt; out.as_slice(), bytes);
        let (read, len) = read_row(rt.alloc(), columns.as_slice(), bytes).expect(&rt, "a row");
        assert_eq!(rt; len, bytes.len());
        assert!(rt; same_row(&read, &fields));
    }
}

#[test]
fn flags_that_are_none(rt: HostRuntime) {
    let columns = columns_of(&rt, rt.alloc(), &[INT_OR_NULL, TEXT_OR_NULL]);
    let cases: [(&[u8], RowBytes); 8] = [
        (&[], RowBytes::Short(0)),
        (&[0], RowBytes::Short(1)),
        (&[1], RowBytes::Short(0)),
        (&[1, 0, 0, 0, 0, 0, 0, 0], RowBytes::Short(0)),
        (&[2, 0, 0, 0, 0, 0, 0, 0, 0, 0], RowBytes::Flag(1)),
        (&[0, 255], RowBytes::Flag(2)),
        (&[0, 1, 0, 1, 0, 0], RowBytes::Large(2)),
        (&[0, 1, 0, 0, 0, 1, 255], RowBytes::NotText(2)),
    ];
    for (bytes, wanted) in cases {
        let fault = read_row(rt.alloc(), columns.as_slice(), bytes).err();
        assert_eq!(rt; fault, Some(wanted), "of {bytes:?}");
    }
}

#[test]
fn nulls_that_fit(rt: HostRuntime) {
    let columns = columns_of(&rt, rt.alloc(), &[INT_OR_NULL, TEXT]);
    let cases: [(&[Field], Result<(), RowFault>); 4] = [
        (&[Nothing, Text("a")], Ok(())),
        (&[Number(1), Nothing], Err(RowFault::Kind(2))),
        (&[Text("a"), Nothing], Err(RowFault::Kind(1))),
        (&[Nothing], Err(RowFault::Count(2))),
    ];
    for (fields, wanted) in cases {
        let row = row_of(&rt, rt.alloc(), fields);
        assert_eq!(rt; fits(columns.as_slice(), &row), wanted);
    }
}

#[test]
fn bytes_that_are_no_row(rt: HostRuntime) {
    let one = columns_of(&rt, rt.alloc(), &[INT, TEXT]);
    let two = columns_of(&rt, rt.alloc(), &[TEXT, TEXT]);
    let cases: [(&Columns, &[u8], RowBytes); 13] = [
        (&one, &[], RowBytes::Short(0)),
        (&one, &[0, 0, 0, 0, 0, 0, 0], RowBytes::Short(0)),
        (&one, &[0, 0, 0, 0, 0, 0, 0, 0], RowBytes::Short(8)),
        (&one, &[0, 0, 0, 0, 0, 0, 0, 0, 0, 0, 0], RowBytes::Short(8)),
        (
            &one,
            &[0, 0, 0, 0, 0, 0, 0, 0, 0, 0, 0, 2, 97],
            RowBytes::Short(8),
        ),
        (
            &one,
            &[0, 0, 0, 0, 0, 0, 0, 0, 0, 0, 0, 2, 255],
            RowBytes::Short(8),
        ),
        (
            &one,
            &[0, 0, 0, 0, 0, 0, 0, 0, 0, 1, 0, 0],
            RowBytes::Large(2),
        ),
        (
            &one,
            &[0, 0, 0, 0, 0, 0, 0, 0, 0, 0, 0, 1, 255],
            RowBytes::NotText(2),
        ),
        (&two, &[0, 0, 0, 0], RowBytes::Short(4)),
        (
            &two,
            &[0, 0, 0, 1, 97, 0, 0, 255, 255, 97],
            RowBytes::Short(5),
        ),
        (&two, &[0, 0, 0, 0, 0, 1, 0, 0], RowBytes::Large(2)),
        (&two, &[255, 255, 255, 255], RowBytes::Large(1)),
        (
            &two,
            &[0, 0, 0, 1, 255, 255, 255, 255, 255],
            RowBytes::NotText(1),
        ),
    ];
    for (columns, bytes, wanted) in cases {
        assert!(rt; columns.len() <= 32);
        let fault = read_row(rt.alloc(), columns.as_slice(), bytes).err();
        assert_eq!(rt; fault, Some(wanted), "of {bytes:?}");
    }
}

// A lone continuation, characters cut short, overlong spellings, a surrogate, what lies past the
// last character, and bytes that no character has.
#[test]
fn ill_formed_texts(rt: HostRuntime) {
    let columns = columns_of(&rt, rt.alloc(), &[TEXT]);
    let texts: [&[u8]; 12] = [
        &[0x80],
        &[0xc3],
        &[0xe2, 0x82],
        &[0xf0, 0x9f, 0x92],
        &[0xc3, 0x28],
        &[0xc0, 0x80],
        &[0xe0, 0x80, 0x80],
        &[0xf0, 0x80, 0x80, 0x80],
        &[0xed, 0xa0, 0x80],
        &[0xf4, 0x90, 0x80, 0x80],
        &[0xf5, 0x80, 0x80, 0x80],
        &[0xff],
    ];
    for text in texts {
        let mut bytes = Bytes::new(rt.alloc());
        assert_eq!(rt; bytes.push(&(text.len() as u32).to_be_bytes()), Ok(()));
        assert_eq!(rt; bytes.push(text), Ok(()));
        let fault = read_row(rt.alloc(), columns.as_slice(), bytes.as_slice()).err();
        assert_eq!(rt; fault, Some(RowBytes::NotText(1)), "of {text:?}");
    }
}

#[test]
fn rows_that_fit(rt: HostRuntime) {
    let columns = columns_of(&rt, rt.alloc(), &[INT, TEXT]);
    let cases: [(&[Field], Result<(), RowFault>); 10] = [
        (&[Number(1), Text("a")], Ok(())),
        (&[Number(1), Long(65_535)], Ok(())),
        (&[Number(i64::MIN), Text("")], Ok(())),
        (&[], Err(RowFault::Count(2))),
        (&[Long(65_536)], Err(RowFault::Count(2))),
        (&[Number(1), Text("a"), Number(2)], Err(RowFault::Count(2))),
        (&[Text("1"), Text("a")], Err(RowFault::Kind(1))),
        (&[Number(1), Number(2)], Err(RowFault::Kind(2))),
        (&[Long(65_536), Long(65_536)], Err(RowFault::Kind(1))),
        (&[Number(1), Long(65_536)], Err(RowFault::Text(2))),
    ];
    for (fields, wanted) in cases {
        let row = row_of(&rt, rt.alloc(), fields);
        assert_eq!(rt; fits(columns.as_slice(), &row), wanted);
    }
}

// Sixteen texts of 65,532 bytes have the size 1,048,576 together with their lengths.
#[test]
fn the_largest_row(rt: HostRuntime) {
    let columns = columns_of(&rt, rt.alloc(), &[TEXT; 16]);
    let mut fields = [Long(65_532); 16];
    let row = fitting_row(&rt, rt.alloc(), &columns, &fields);
    assert_eq!(rt; row_size(&row), 1_048_576);
    fields[15] = Long(65_533);
    let row = row_of(&rt, rt.alloc(), &fields);
    assert_eq!(rt; fits(columns.as_slice(), &row), Err(RowFault::Long));
}

#[test]
fn escaped_texts(rt: HostRuntime) {
    let pairs: [(&str, &str); 9] = [
        ("", ""),
        ("resize a.png", "resize a.png"),
        ("a\tb", "a\\tb"),
        ("\n", "\\n"),
        ("\r", "\\r"),
        ("\\", "\\\\"),
        ("\\t", "\\\\t"),
        ("\\\\\t", "\\\\\\\\\\t"),
        ("\u{e9}\t\\\n\r\u{20ac}", "\u{e9}\\t\\\\\\n\\r\u{20ac}"),
    ];
    for (text, spelled) in pairs {
        let mut out = Bytes::new(rt.alloc());
        assert_eq!(rt; out.push(b"|"), Ok(()));
        assert_eq!(rt; escape(text, &mut out), Ok(()));
        let mut wanted = Bytes::new(rt.alloc());
        assert_eq!(rt; wanted.push(b"|"), Ok(()));
        assert_eq!(rt; wanted.push(spelled.as_bytes()), Ok(()));
        assert_eq!(rt; out.as_slice(), wanted.as_slice(), "of {spelled}");
        let words = unescape(rt.alloc(), spelled).expect(&rt, "a text");
        assert_eq!(rt; words.as_str(), text);
        assert!(rt; is_escaped(spelled), "of {spelled}");
    }
}

#[test]
fn bad_escapes(rt: HostRuntime) {
    let cases: [(&str, u64); 14] = [
        ("\\", 0),
        ("\\x", 0),
        ("\\T", 0),
        ("a\\q", 1),
        ("\\t\\", 2),
        ("\\\\\\", 2),
        ("a\tb", 1),
        ("\n", 0),
        ("ab\r", 2),
        ("\\\t", 0),
        ("\u{e9}\\", 2),
        ("\\t\t\\x", 2),
        ("\\x\t", 0),
        ("\\\\x\\\\\n", 5),
    ];
    for (text, place) in cases {
        let fault = unescape(rt.alloc(), text).err();
        assert_eq!(rt; fault, Some(EscapeFault::BadEscape(place)), "of {text}");
        assert!(rt; !is_escaped(text), "of {text}");
    }
}

#[test]
fn copies(rt: HostRuntime) {
    let fields = [Number(-3), Text("b"), Text(""), Nothing];
    let row = row_of(&rt, rt.alloc(), &fields)
        .copy(rt.alloc())
        .expect(&rt, "memory");
    assert!(rt; same_row(&row, &fields));
    assert!(rt; row.at(4).is_none());

    let columns = columns_of(&rt, rt.alloc(), &[INT_OR_NULL, TEXT_OR_NULL]);
    let mut copied = columns.copy(rt.alloc()).expect(&rt, "memory");
    assert_eq!(rt; copied.len(), 2);
    copied.require(1);
    for (place, wanted) in [INT_OR_NULL, TEXT].iter().enumerate() {
        let column = copied.at(place).expect(&rt, "a column");
        assert_eq!(rt; (column.kind, column.optional), *wanted);
        assert_eq!(rt; column.name.as_str(), "c");
    }
    assert!(rt; copied.at(2).is_none());
}
