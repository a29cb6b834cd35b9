// Nulls in the fields of inserts and of rows.

use super::tests::{add_row, add_value, add_words, check_refusal, check_reply};
use super::*;
use q4_def::{Defs, read_defs};
use q4_machine::Rows;
use q4_value::{Row, Value};
use std::alloc::Global;
use std::process::Abort;
use std::test::*;

// A table whose columns are optional, beside one whose columns are not.
fn tables_with_nulls(rt: &impl Abort, alloc: Global) -> Defs {
    let text = b"[[table]]
name = \"jobs\"
columns = [\"prio int\", \"body text\"]

[[table]]
name = \"t\"
columns = [\"n int null\", \"s text null\"]
";
    match read_defs(alloc, text) {
        Ok(defs) => defs,
        Err(_) => panic!(rt; "no definitions"),
    }
}

const REFUSED: [(&[u8], CommandFault, &[u8]); 15] = [
    // A column that is not optional takes no null.
    (
        b"insert\tjobs\t\\N\ta",
        CommandFault::Value(1),
        b"err\t22\tbad value\t1\n",
    ),
    (
        b"insert\tjobs\t1\t\\N",
        CommandFault::Value(2),
        b"err\t22\tbad value\t2\n",
    ),
    (
        b"insert\tjobs\t07\t\\N",
        CommandFault::Value(1),
        b"err\t22\tbad value\t1\n",
    ),
    // An optional column of numbers takes only numbers and null.
    (
        b"insert\tt\t\t\\N",
        CommandFault::Value(1),
        b"err\t22\tbad value\t1\n",
    ),
    (
        b"insert\tt\tN\t\\N",
        CommandFault::Value(1),
        b"err\t22\tbad value\t1\n",
    ),
    (
        b"insert\tt\t\\\\N\ta",
        CommandFault::Value(1),
        b"err\t22\tbad value\t1\n",
    ),
    (
        b"insert\tt\t9223372036854775808\t\\N",
        CommandFault::Value(1),
        b"err\t22\tbad value\t1\n",
    ),
    // Null is the whole field of a value. Anywhere else a backslash and N is a bad escape.
    (
        b"insert\tt\t\\N\t\\Nx",
        CommandFault::Escape(3),
        b"err\t14\tbad escape\t3\n",
    ),
    (
        b"insert\tt\t\\N\tx\\N",
        CommandFault::Escape(3),
        b"err\t14\tbad escape\t3\n",
    ),
    (
        b"insert\tt\t\\n\\N\t\\N",
        CommandFault::Escape(2),
        b"err\t14\tbad escape\t2\n",
    ),
    (
        b"insert\t\\N\t\\N\t\\N",
        CommandFault::Escape(1),
        b"err\t14\tbad escape\t1\n",
    ),
    (
        b"select\t\\N\t1",
        CommandFault::Escape(1),
        b"err\t14\tbad escape\t1\n",
    ),
    (
        b"wait\tt:s=\\N\t=0",
        CommandFault::Escape(1),
        b"err\t14\tbad escape\t1\n",
    ),
    // The checks before it come first.
    (
        b"insert\tmail\t\\N",
        CommandFault::NoTable(1),
        b"err\t21\tno table\t1\n",
    ),
    (
        b"insert\tt\t\\N",
        CommandFault::Count(2),
        b"err\t20\twrong number of values\t2\n",
    ),
];

#[test]
fn lines_without_nulls(rt: HostRuntime) {
    let defs = tables_with_nulls(&rt, rt.alloc());
    for (place, (line, wanted, reply)) in REFUSED.iter().enumerate() {
        assert!(rt; line.len() < 100);
        match read_command(rt.alloc(), line, &defs) {
            Ok(_) => panic!(rt; "line {place} is taken"),
            Err(fault) => {
                assert_eq!(rt; fault, *wanted);
                check_refusal(&rt, rt.alloc(), refusal_of(fault), reply);
            }
        }
    }
}

// Lines that are taken, and the two values of the row, where none stands for null.
const TAKEN: [(&[u8], Option<i64>, Option<&str>); 8] = [
    (b"insert\tt\t\\N\ta", None, Some("a")),
    (b"insert\tt\t0\t\\N", Some(0), None),
    (b"insert\tt\t\\N\t\\N", None, None),
    (b"insert\tt\t1\t\\\\N", Some(1), Some("\\N")),
    (b"insert\tt\t-5\tN", Some(-5), Some("N")),
    (b"insert\tt\t\\N\t", None, Some("")),
    (b"insert\tt\t7\t\\n", Some(7), Some("\n")),
    (b"insert\tt\t7\tnull", Some(7), Some("null")),
];

fn is_number(value: Option<&Value>, wanted: Option<i64>) -> bool {
    match (value, wanted) {
        (Some(Value::Int(number)), Some(wanted)) => *number == wanted,
        (Some(Value::Null), None) => true,
        _ => false,
    }
}

fn is_text(value: Option<&Value>, wanted: Option<&str>) -> bool {
    match (value, wanted) {
        (Some(Value::Word(words)), Some(wanted)) => words.as_str() == wanted,
        (Some(Value::Null), None) => true,
        _ => false,
    }
}

#[test]
fn lines_with_nulls(rt: HostRuntime) {
    let defs = tables_with_nulls(&rt, rt.alloc());
    for (place, (line, number, text)) in TAKEN.iter().enumerate() {
        assert!(rt; line.len() < 100);
        match read_command(rt.alloc(), line, &defs) {
            Ok(Command::Insert(1, row)) => {
                assert!(rt; row.len() == 2, "line {place}");
                assert!(rt; is_number(row.at(0), *number), "line {place}");
                assert!(rt; is_text(row.at(1), *text), "line {place}");
            }
            _ => panic!(rt; "line {place} is no insert"),
        }
    }
}

#[test]
fn shown_nulls(rt: HostRuntime) {
    let alloc = rt.alloc();
    let mut first = Row::new(alloc);
    add_value(&rt, &mut first, Value::Int(0));
    add_value(&rt, &mut first, Value::Null);
    let mut second = Row::new(alloc);
    add_value(&rt, &mut second, Value::Null);
    add_words(&rt, alloc, &mut second, "\\N");
    let mut third = Row::new(alloc);
    add_value(&rt, &mut third, Value::Null);
    add_words(&rt, alloc, &mut third, "N");
    let mut rows = Rows::new(alloc);
    add_row(&rt, &mut rows, 2, first);
    add_row(&rt, &mut rows, 3, second);
    add_row(&rt, &mut rows, 4, third);
    check_reply(
        &rt,
        alloc,
        &Outcome::Rows(&rows),
        b"rows\t3\nrow\t2\t0\t\\N\nrow\t3\t\\N\t\\\\N\nrow\t4\t\\N\tN\n",
    );
}
