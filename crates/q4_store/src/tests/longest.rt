use super::{append, opened_as};
use q4_disk::MemoryDisk;
use q4_value::{Row, Value, Words};
use std::alloc::Global;
use std::process::Abort;
use std::test::*;

// A table of sixteen texts.
const TEXTS: &str =
    "[[table]]\nname = \"t\"\ncolumns = [\"a text\", \"b text\", \"c text\", \"d text\", \"e text\", \"f text\", \"g text\", \"h text\", \"i text\", \"j text\", \"k text\", \"l text\", \"m text\", \"n text\", \"o text\", \"p text\"]\n";

// The text of a column, counted from 0: each has a letter of its own, and is as long as a text may be, but for the last.
fn letters(rt: &impl Abort, alloc: Global, place: u8) -> String {
    let letter = char::from(b'a'.saturating_add(place));
    let len = if place < 15 { 65_535 } else { 65_487 };
    let mut text = String::new(alloc);
    for _ in 0..len {
        assert!(rt; text.push(letter).is_ok());
    }
    text
}

// A row of sixteen texts, of 1,048,576 bytes in all: each text has its length in 4 bytes in front.
fn longest_row(rt: &impl Abort, alloc: Global) -> Row {
    let mut row = Row::new(alloc);
    for place in 0..16 {
        let text = letters(rt, alloc, place);
        let words = Words::new(alloc, text.as_str()).expect(rt, "memory");
        assert!(rt; row.push(Value::Word(words)).is_ok());
    }
    row
}

fn assert_is_longest(rt: &impl Abort, alloc: Global, row: &Row) {
    assert_eq!(rt; row.len(), 16);
    for place in 0..16u8 {
        let Some(Value::Word(words)) = row.at(usize::from(place)) else {
            panic!(rt; "{place} is no text")
        };
        assert!(rt;
            words.as_str() == letters(rt, alloc, place).as_str(),
            "{place}"
        );
    }
}

#[test]
fn the_longest_row_is_read_again(rt: HostRuntime) {
    let alloc = rt.alloc();
    let (mut store, _) = opened_as(&rt, alloc, MemoryDisk::new(alloc), TEXTS);
    // 21, the schema of 2 bytes and 3 for each column, next and the closing gate
    assert_eq!(rt; store.length(), 81);
    let row = longest_row(&rt, alloc);
    append(&rt, &mut store, 1, &row, None);
    // 5, and a record of 9 bytes and the row, which has 1,048,576
    assert_eq!(rt; store.length(), 1_048_671);
    assert_eq!(rt; store.commit(), Ok(()));
    let (store, table) = opened_as(&rt, alloc, store.give_back(), TEXTS);
    assert_eq!(rt;
        (table.count(), table.next(), store.length()),
        (1, 2, 1_048_671)
    );
    let Some(row) = table.row(1) else {
        panic!(&rt; "no row")
    };
    assert_is_longest(&rt, alloc, row);
}
