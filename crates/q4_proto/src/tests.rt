ghost use Rattle.std.specs.Prelude.{◌≡◌, ◌≢◌, ◌++◌, ◌∷◌, []};
ghost use Rattle.q4_proto.specs.Told as Told;
ghost use Rattle.q4_proto.specs.Told.{told};
ghost use Rattle.q4_proto.specs.Text.{IsCode, IsOutcome};

use super::*;
use q4_cond::CondFault;
use q4_def::{Defs, read_defs};
use q4_flow::{MemorySink, WriteFailed};
use q4_machine::{Looks, NumberedRow, Rows};
use q4_value::{Row, Value, Words};
use std::alloc::Global;
use std::process::Abort;
use std::test::*;

// A reply is one write: the second write of the sink fails, and nothing of it is there.
pub(crate) fn check_reply(rt: &impl Abort, alloc: Global, outcome: &Outcome, wanted: &[u8])
    requires { IsOutcome (told outcome.now) }
{
    let mut sink = MemorySink::new(alloc, &[2]).expect(rt, "memory");
    assert_eq!(rt; put_reply(outcome, &mut sink), Ok(()));
    assert_eq!(rt; put_reply(outcome, &mut sink), Err(WriteFailed));
    assert_eq!(rt; sink.bytes(), wanted);
}

#[test]
fn replies(rt: HostRuntime) {
    check_reply(&rt, rt.alloc(), &Outcome::Ok, b"ok\n");
    check_reply(&rt, rt.alloc(), &Outcome::Bye, b"bye\n");
    check_reply(&rt, rt.alloc(), &Outcome::Number(0), b"ok\t0\n");
    check_reply(&rt, rt.alloc(), &Outcome::Seen(10), b"seen\t10\n");
    check_reply(
        &rt,
        rt.alloc(),
        &Outcome::Number(u64::MAX),
        b"ok\t18446744073709551615\n",
    );
    let none_owned = Code {
        number: 32,
        first: None,
        second: None,
    };
    check_refusal(&rt, rt.alloc(), none_owned, b"err\t32\tno owned row\n");
    let worn = Code {
        number: 70,
        first: Some(1_048_576),
        second: None,
    };
    check_refusal(&rt, rt.alloc(), worn, b"err\t70\thistory full\t1048576\n");
}

// The same behind a label.
fn check_behind(rt: &impl Abort, alloc: Global, label: u8, outcome: &Outcome, wanted: &[u8])
    requires { IsOutcome (told outcome.now) }
{
    let mut sink = MemorySink::new(alloc, &[2]).expect(rt, "memory");
    assert_eq!(rt; put_reply_behind(Some(label), outcome, &mut sink), Ok(()));
    assert_eq!(rt;
        put_reply_behind(Some(label), outcome, &mut sink),
        Err(WriteFailed)
    );
    assert_eq!(rt; sink.bytes(), wanted);
}

#[test]
fn replies_behind_labels(rt: HostRuntime) {
    let alloc = rt.alloc();
    check_behind(&rt, alloc, 1, &Outcome::Ok, b"1 ok\n");
    check_behind(&rt, alloc, 64, &Outcome::Number(12), b"64 ok\t12\n");
    check_behind(&rt, alloc, 7, &Outcome::Bye, b"7 bye\n");
    let bad_label = Code {
        number: 15,
        first: None,
        second: None,
    };
    check_behind(
        &rt,
        alloc,
        0,
        &Outcome::Refused(bad_label),
        b"0 err\t15\tbad label\n",
    );
    let mut rows = Rows::new(alloc);
    let mut first = Row::new(alloc);
    add_value(&rt, &mut first, Value::Int(-7));
    add_words(&rt, alloc, &mut first, "a\nb");
    add_row(&rt, &mut rows, 1, first);
    let mut second = Row::new(alloc);
    add_words(&rt, alloc, &mut second, "");
    add_row(&rt, &mut rows, 12, second);
    check_behind(
        &rt,
        alloc,
        5,
        &Outcome::Rows(&rows),
        b"5 rows\t2\n5 row\t1\t-7\ta\\nb\n5 row\t12\t\n",
    );
}

// Puts the value behind those of the row.
pub(crate) fn add_value(rt: &impl Abort, row: &mut Row, value: Value)
    ensures { row.new ≡ row.old ++ value ∷ [] }
{
    match row.push(value) {
        Ok(()) => {}
        Err(_) => panic!(rt; "memory"),
    }
}

pub(crate) fn add_words(rt: &impl Abort, alloc: Global, row: &mut Row, text: &str)
    ensures { row.new ≢ [] }
{
    match Words::new(alloc, text) {
        Ok(words) => add_value(rt, row, Value::Word(words)),
        Err(_) => panic!(rt; "memory"),
    }
}

pub(crate) fn add_row(rt: &impl Abort, rows: &mut Rows, number: u64, row: Row)
    ensures { rows.new ≡ rows.old ++ record { number = number; row = row } ∷ [] }
{
    match rows.push(NumberedRow { number, row }) {
        Ok(()) => {}
        Err(_) => panic!(rt; "memory"),
    }
}

#[test]
fn shown_rows(rt: HostRuntime) {
    let mut rows = Rows::new(rt.alloc());
    check_reply(&rt, rt.alloc(), &Outcome::Rows(&rows), b"rows\t0\n");
    let mut first = Row::new(rt.alloc());
    add_value(&rt, &mut first, Value::Int(-7));
    add_words(&rt, rt.alloc(), &mut first, "a\tb\\c\nd\r");
    add_row(&rt, &mut rows, 1, first);
    let mut second = Row::new(rt.alloc());
    add_words(&rt, rt.alloc(), &mut second, "");
    add_row(&rt, &mut rows, 4_611_686_018_427_387_903, second);
    check_reply(
        &rt,
        rt.alloc(),
        &Outcome::Rows(&rows),
        b"rows\t2\nrow\t1\t-7\ta\\tb\\\\c\\nd\\r\nrow\t4611686018427387903\t\n",
    );
}

// The rows of one text of this size. Their reply has 14 bytes more.
fn long_row(rt: &impl Abort, alloc: Global, size: usize) -> Rows
    ensures { IsOutcome (Told.Rows result) }
{
    let mut text = String::new(alloc);
    for _ in 0..size {
        text.push('x').expect(rt, "memory");
    }
    let mut row = Row::new(alloc);
    add_words(rt, alloc, &mut row, text.as_str());
    let mut rows = Rows::new(alloc);
    add_row(rt, &mut rows, 5, row);
    rows
}

// The size of the text, the write that fails, and what was taken before it.
const PIECES: [(usize, u64, usize); 8] = [
    (4_082, 1, 0),
    (4_082, 2, 4_096),
    (4_083, 2, 4_096),
    (4_083, 3, 4_097),
    (10_000, 1, 0),
    (10_000, 2, 4_096),
    (10_000, 3, 8_192),
    (10_000, 4, 10_014),
];

#[test]
fn long_replies(rt: HostRuntime) {
    for (size, failing, taken) in &PIECES {
        let rows = long_row(&rt, rt.alloc(), *size);
        let mut sink = MemorySink::new(rt.alloc(), &[*failing]).expect(&rt, "memory");
        let put = put_reply(&Outcome::Rows(&rows), &mut sink);
        assert_eq!(rt; sink.bytes().len(), *taken);
        assert_eq!(rt; put.is_ok(), taken.saturating_sub(14) == *size);
    }
}

// The definitions that the lines are read for.
fn two_tables(rt: &impl Abort, alloc: Global) -> Defs {
    let text = b"[[table]]
name = \"jobs\"
columns = [\"prio int\", \"body text\"]

[[table]]
name = \"hot\"
columns = [\"prio int\"]
";
    match read_defs(alloc, text) {
        Ok(defs) => defs,
        Err(_) => panic!(rt; "no definitions"),
    }
}

const REFUSED: [(&[u8], CommandFault, &[u8]); 73] = [
    (b"end\xff", CommandFault::NotText, b"err\t10\tnot UTF-8\n"),
    (b"\xc3", CommandFault::NotText, b"err\t10\tnot UTF-8\n"),
    (b"", CommandFault::Unknown, b"err\t11\tunknown command\n"),
    (
        b"\tend",
        CommandFault::Unknown,
        b"err\t11\tunknown command\n",
    ),
    (b"End", CommandFault::Unknown, b"err\t11\tunknown command\n"),
    (
        b"quit ",
        CommandFault::Unknown,
        b"err\t11\tunknown command\n",
    ),
    (
        b"waits\tjobs",
        CommandFault::Unknown,
        b"err\t11\tunknown command\n",
    ),
    (
        b"srcid\t1\ta\t1",
        CommandFault::NotBuilt,
        b"err\t19\tnot built\n",
    ),
    (b"srcid", CommandFault::NotBuilt, b"err\t19\tnot built\n"),
    (
        b"compact\tjobs",
        CommandFault::NotBuilt,
        b"err\t19\tnot built\n",
    ),
    (
        b"compact\tx\\q",
        CommandFault::NotBuilt,
        b"err\t19\tnot built\n",
    ),
    (
        b"insert",
        CommandFault::Fields,
        b"err\t12\twrong number of fields\n",
    ),
    (
        b"wait",
        CommandFault::Fields,
        b"err\t12\twrong number of fields\n",
    ),
    (
        b"wait\t=5",
        CommandFault::Fields,
        b"err\t12\twrong number of fields\n",
    ),
    (
        b"wait\t=x",
        CommandFault::Fields,
        b"err\t12\twrong number of fields\n",
    ),
    (
        b"rowid\t",
        CommandFault::Fields,
        b"err\t12\twrong number of fields\n",
    ),
    (
        b"end\t",
        CommandFault::Fields,
        b"err\t12\twrong number of fields\n",
    ),
    (
        b"abort\tx\\q",
        CommandFault::Fields,
        b"err\t12\twrong number of fields\n",
    ),
    (
        b"quit\tx\\q",
        CommandFault::Fields,
        b"err\t12\twrong number of fields\n",
    ),
    (
        b"select",
        CommandFault::Fields,
        b"err\t12\twrong number of fields\n",
    ),
    (
        b"select\tjobs",
        CommandFault::Fields,
        b"err\t12\twrong number of fields\n",
    ),
    (
        b"select\tx\\q\t1001\t",
        CommandFault::Fields,
        b"err\t12\twrong number of fields\n",
    ),
    (
        b"wait\tjobs\t=3601",
        CommandFault::Number(2),
        b"err\t13\tbad number\t2\n",
    ),
    (
        b"wait\tjobs\t=00",
        CommandFault::Number(2),
        b"err\t13\tbad number\t2\n",
    ),
    (
        b"wait\tjobs\t=",
        CommandFault::Number(2),
        b"err\t13\tbad number\t2\n",
    ),
    (
        b"wait\tjobs\t=x",
        CommandFault::Number(2),
        b"err\t13\tbad number\t2\n",
    ),
    (
        b"wait\tjobs\t=-1",
        CommandFault::Number(2),
        b"err\t13\tbad number\t2\n",
    ),
    (
        b"wait\tjobs\t=60s",
        CommandFault::Number(2),
        b"err\t13\tbad number\t2\n",
    ),
    (
        b"wait\tjobs\t=4294967296",
        CommandFault::Number(2),
        b"err\t13\tbad number\t2\n",
    ),
    (
        b"wait\tjobs\t=18446744073709551616",
        CommandFault::Number(2),
        b"err\t13\tbad number\t2\n",
    ),
    (
        b"wait\tj\\q\tmail\t=3601",
        CommandFault::Number(3),
        b"err\t13\tbad number\t3\n",
    ),
    (
        b"select\tjobs\t1001",
        CommandFault::Number(2),
        b"err\t13\tbad number\t2\n",
    ),
    (
        b"select\tjobs\t01",
        CommandFault::Number(2),
        b"err\t13\tbad number\t2\n",
    ),
    (
        b"select\tjobs\t",
        CommandFault::Number(2),
        b"err\t13\tbad number\t2\n",
    ),
    (
        b"select\tjobs\tx",
        CommandFault::Number(2),
        b"err\t13\tbad number\t2\n",
    ),
    (
        b"select\tjobs\t-1",
        CommandFault::Number(2),
        b"err\t13\tbad number\t2\n",
    ),
    (
        b"select\tjobs\t\\q",
        CommandFault::Number(2),
        b"err\t13\tbad number\t2\n",
    ),
    (
        b"select\tj\\q\t1001",
        CommandFault::Number(2),
        b"err\t13\tbad number\t2\n",
    ),
    (
        b"insert\tjobs\t1\ta\\q",
        CommandFault::Escape(3),
        b"err\t14\tbad escape\t3\n",
    ),
    (
        b"insert\tj\\obs\t\\q",
        CommandFault::Escape(1),
        b"err\t14\tbad escape\t1\n",
    ),
    (
        b"insert\tmail\t\\q\t\\q",
        CommandFault::Escape(2),
        b"err\t14\tbad escape\t2\n",
    ),
    (
        b"wait\tjobs:body='\r'",
        CommandFault::Escape(1),
        b"err\t14\tbad escape\t1\n",
    ),
    (
        b"wait\tmail\tj\\q\t=0",
        CommandFault::Escape(2),
        b"err\t14\tbad escape\t2\n",
    ),
    (
        b"select\tj\\q\t1",
        CommandFault::Escape(1),
        b"err\t14\tbad escape\t1\n",
    ),
    (
        b"wait\thot\thot\thot\thot\thot\thot\thot\thot\thot\thot\thot\thot\thot\thot\thot\thot\t\\",
        CommandFault::Escape(17),
        b"err\t14\tbad escape\t17\n",
    ),
    (
        b"wait\thot\thot\thot\thot\thot\thot\thot\thot\thot\thot\thot\thot\thot\thot\thot\thot\thot",
        CommandFault::Entries,
        b"err\t25\ttoo many entries\n",
    ),
    (
        b"wait\thot\thot\thot\thot\thot\thot\thot\thot\thot\thot\thot\thot\thot\thot\thot\thot\thot\t=0",
        CommandFault::Entries,
        b"err\t25\ttoo many entries\n",
    ),
    (
        b"wait\tx\tx\tx\tx\tx\tx\tx\tx\tx\tx\tx\tx\tx\tx\tx\tx\tx",
        CommandFault::Entries,
        b"err\t25\ttoo many entries\n",
    ),
    (
        b"insert\tmail\t1",
        CommandFault::NoTable(1),
        b"err\t21\tno table\t1\n",
    ),
    (
        b"insert\t",
        CommandFault::NoTable(1),
        b"err\t21\tno table\t1\n",
    ),
    (
        b"wait\tjob:prio<",
        CommandFault::NoTable(1),
        b"err\t21\tno table\t1\n",
    ),
    (
        b"wait\tjobs:prio<\tmail",
        CommandFault::NoTable(2),
        b"err\t21\tno table\t2\n",
    ),
    (
        b"wait\t=5\tjobs",
        CommandFault::NoTable(1),
        b"err\t21\tno table\t1\n",
    ),
    (
        b"wait\t=5\t=6",
        CommandFault::NoTable(1),
        b"err\t21\tno table\t1\n",
    ),
    (
        b"wait\thot\t\t=6",
        CommandFault::NoTable(2),
        b"err\t21\tno table\t2\n",
    ),
    (
        b"wait\tj\\tobs:",
        CommandFault::NoTable(1),
        b"err\t21\tno table\t1\n",
    ),
    (
        b"select\tmail\t1",
        CommandFault::NoTable(1),
        b"err\t21\tno table\t1\n",
    ),
    (
        b"select\t\t1000",
        CommandFault::NoTable(1),
        b"err\t21\tno table\t1\n",
    ),
    (
        b"wait\tjobs:prio<2<3",
        CommandFault::Cond(1, CondFault::At(6)),
        b"err\t24\tbad condition\t1\t6\n",
    ),
    (
        b"wait\thot\tjobs:prio<\thot:body='x'\t=9",
        CommandFault::Cond(2, CondFault::At(5)),
        b"err\t24\tbad condition\t2\t5\n",
    ),
    (
        b"wait\tjobs:((((((((((((((((((((((((((((((((1",
        CommandFault::Cond(1, CondFault::At(33)),
        b"err\t24\tbad condition\t1\t33\n",
    ),
    (
        b"wait\tjobs:(((((((((((((((((((((((((((((((((1",
        CommandFault::Cond(1, CondFault::Deep(32)),
        b"err\t27\tcondition too deep\t1\t32\n",
    ),
    (
        b"wait\thot\tjobs:(((((((((((((((((((((((((((((((((1",
        CommandFault::Cond(2, CondFault::Deep(32)),
        b"err\t27\tcondition too deep\t2\t32\n",
    ),
    (
        b"wait\tjobs:size>1",
        CommandFault::Cond(1, CondFault::NoColumn(0)),
        b"err\t28\tno column\t1\t0\n",
    ),
    (
        b"wait\thot:body='x'",
        CommandFault::Cond(1, CondFault::NoColumn(0)),
        b"err\t28\tno column\t1\t0\n",
    ),
    (
        b"wait\tjobs\thot:prio=1 or size>1",
        CommandFault::Cond(2, CondFault::NoColumn(10)),
        b"err\t28\tno column\t2\t10\n",
    ),
    (
        b"wait\tjobs:prio=body",
        CommandFault::Cond(1, CondFault::Kinds(5)),
        b"err\t29\twrong kinds\t1\t5\n",
    ),
    (
        b"wait\tjobs:prio=1\tjobs:prio=body\t=0",
        CommandFault::Cond(2, CondFault::Kinds(5)),
        b"err\t29\twrong kinds\t2\t5\n",
    ),
    (
        b"insert\tjobs\t1",
        CommandFault::Count(2),
        b"err\t20\twrong number of values\t2\n",
    ),
    (
        b"insert\thot\tx\ty",
        CommandFault::Count(1),
        b"err\t20\twrong number of values\t1\n",
    ),
    (
        b"insert\tjobs",
        CommandFault::Count(2),
        b"err\t20\twrong number of values\t2\n",
    ),
    (
        b"insert\tjobs\t07\ta",
        CommandFault::Value(1),
        b"err\t22\tbad value\t1\n",
    ),
    (
        b"insert\thot\t1\\t",
        CommandFault::Value(1),
        b"err\t22\tbad value\t1\n",
    ),
];

pub(crate) fn check_refusal(rt: &impl Abort, alloc: Global, code: Code, wanted: &[u8])
    requires { IsCode code }
{
    check_reply(rt, alloc, &Outcome::Refused(code), wanted);
}

#[test]
fn refused_lines(rt: HostRuntime) {
    let defs = two_tables(&rt, rt.alloc());
    for (line, wanted, reply) in &REFUSED {
        assert!(rt; line.len() < 100);
        match read_command(rt.alloc(), line, &defs) {
            Ok(_) => panic!(rt; "taken"),
            Err(fault) => {
                assert_eq!(rt; fault, *wanted);
                check_refusal(&rt, rt.alloc(), refusal_of(fault), reply);
            }
        }
    }
}

// A condition of 1,024 spaces is the empty one, and one space more is too long.
#[test]
fn long_conditions(rt: HostRuntime) {
    let defs = two_tables(&rt, rt.alloc());
    let mut line = Vec::from_slice(rt.alloc(), b"wait\thot\tjobs:").expect(&rt, "memory");
    for _ in 0..1_024 {
        line.push(b' ').expect(&rt, "memory");
    }
    assert!(rt; line.len() < 2_000);
    assert!(rt; read_command(rt.alloc(), &line, &defs).is_ok());
    line.push(b' ').expect(&rt, "memory");
    assert!(rt; line.len() < 2_000);
    match read_command(rt.alloc(), &line, &defs) {
        Ok(_) => panic!(rt; "taken"),
        Err(fault) => check_refusal(
            &rt,
            rt.alloc(),
            refusal_of(fault),
            b"err\t30\tcondition too long\t2\t1024\n",
        ),
    }
}

// What an accepted line is read as.
#[derive(Clone, Copy)]
enum Read {
    Job(i64, &'static str),
    Hot(i64),
    Wait(&'static [u32], u32),
    RowId,
    End,
    Abort,
    Select(u32, u32),
    Quit,
}

fn is_job(row: &Row, priority: i64, body: &str) -> bool {
    match (row.at(0), row.at(1)) {
        (Some(Value::Int(first)), Some(Value::Word(second))) => {
            row.len() == 2 && *first == priority && second.as_str() == body
        }
        _ => false,
    }
}

fn is_hot(row: &Row, priority: i64) -> bool {
    match row.at(0) {
        Some(Value::Int(first)) => row.len() == 1 && *first == priority,
        _ => false,
    }
}

fn are_listed(list: &Looks, tables: &[u32]) -> bool {
    let listed = list.as_slice();
    listed.len() == tables.len()
        && listed
            .iter()
            .zip(tables)
            .all(|(entry, table)| entry.table == *table)
}

fn is_read_as(command: &Command, wanted: Read) -> bool {
    match (command, wanted) {
        (Command::Insert(0, row), Read::Job(priority, body)) => is_job(row, priority, body),
        (Command::Insert(1, row), Read::Hot(priority)) => is_hot(row, priority),
        (Command::Wait(list, seconds), Read::Wait(tables, most)) => {
            are_listed(list, tables) && *seconds == most
        }
        (Command::Select(table, most), Read::Select(place, limit)) => {
            *table == place && *most == limit
        }
        (Command::RowId, Read::RowId) => true,
        (Command::End, Read::End) => true,
        (Command::Abort, Read::Abort) => true,
        (Command::Quit, Read::Quit) => true,
        _ => false,
    }
}

const TAKEN: [(&[u8], Read); 21] = [
    (b"insert\tjobs\t7\ta", Read::Job(7, "a")),
    (b"insert\tjobs\t0\t", Read::Job(0, "")),
    (
        b"insert\tjobs\t-9223372036854775808\tx y",
        Read::Job(i64::MIN, "x y"),
    ),
    (
        b"insert\tjobs\t9223372036854775807\t\xc3\xa9",
        Read::Job(i64::MAX, "\u{e9}"),
    ),
    (b"insert\tjobs\t1\t\\t\\n\\r\\\\", Read::Job(1, "\t\n\r\\")),
    (b"insert\thot\t-1", Read::Hot(-1)),
    (b"wait\tjobs", Read::Wait(&[0], 60)),
    (b"wait\thot:", Read::Wait(&[1], 60)),
    (b"wait\tjobs:body='a:b' or prio>=5", Read::Wait(&[0], 60)),
    (b"wait\tjobs:body='\\t'", Read::Wait(&[0], 60)),
    (
        b"wait\thot\tjobs:prio>3\tjobs\t=0",
        Read::Wait(&[1, 0, 0], 0),
    ),
    (b"wait\tjobs\t=3600", Read::Wait(&[0], 3_600)),
    (b"wait\tjobs\thot\t=1", Read::Wait(&[0, 1], 1)),
    (
        b"wait\thot\thot\thot\thot\thot\thot\thot\thot\thot\thot\thot\thot\thot\thot\thot\thot",
        Read::Wait(&[1; 16], 60),
    ),
    (
        b"wait\thot\thot\thot\thot\thot\thot\thot\thot\thot\thot\thot\thot\thot\thot\thot\tjobs\t=59",
        Read::Wait(&[1, 1, 1, 1, 1, 1, 1, 1, 1, 1, 1, 1, 1, 1, 1, 0], 59),
    ),
    (b"rowid", Read::RowId),
    (b"end", Read::End),
    (b"abort", Read::Abort),
    (b"quit", Read::Quit),
    (b"select\tjobs\t0", Read::Select(0, 0)),
    (b"select\thot\t1000", Read::Select(1, 1_000)),
];

#[test]
fn taken_lines(rt: HostRuntime) {
    let defs = two_tables(&rt, rt.alloc());
    for (place, (line, wanted)) in TAKEN.iter().enumerate() {
        assert!(rt; line.len() < 100);
        match read_command(rt.alloc(), line, &defs) {
            Ok(command) => assert!(rt; is_read_as(&command, *wanted), "line {place}"),
            Err(_) => panic!(rt; "line {place} is refused"),
        }
    }
}
