ghost use Rattle.std.specs.Prelude.{◌≡◌, ◌≤◌, length};
ghost use Rattle.std.specs.Option.{ForSome};
ghost use Rattle.q4_value.specs.Row.{Fits};
ghost use Rattle.q4_cond.specs.Reading.{kinds_of};
ghost use Rattle.q4_table.specs.Adding.{IsOrigin};
ghost use Rattle.q4_table.specs.Valid.{IsColumns};

use super::*;
use q4_cond::{Cond, cond_steps, read};
use q4_value::{Column, Columns, Kind, Row, Value, Words, fits};
use std::alloc::Global;
use std::process::Abort;
use std::test::*;

// Columns of these names and kinds, of which there have to be from 1 to 32. All are optional, or none is.
fn columns_of(rt: &impl Abort, alloc: Global, named: &[(&str, Kind)], optional: bool) -> Columns
    ensures { IsColumns result }
{
    let mut columns = Columns::new(alloc);
    for (name, kind) in named {
        let name = Words::new(alloc, name).expect(rt, "memory");
        assert!(rt;
            columns
                .push(Column {
                    name,
                    kind: *kind,
                    optional
                })
                .is_ok()
        );
    }
    assert!(rt; columns.len() >= 1 && columns.len() <= 32);
    columns
}

// A table with a number `prio` and a text `body`.
fn jobs(rt: &impl Abort, alloc: Global) -> Table {
    let named = [("prio", Kind::Int), ("body", Kind::Words)];
    Table::new(alloc, columns_of(rt, alloc, &named, false))
}

// The row, which has to fit the table.
fn fitting(rt: &impl Abort, table: &Table, row: Row) -> Row
    ensures { Fits table.now.state.columns result }
{
    tables_are_valid(table);
    match fits(table.columns(), &row) {
        Ok(()) => row,
        Err(_) => panic!(rt; "the row does not fit"),
    }
}

fn job(rt: &impl Abort, alloc: Global, table: &Table, prio: i64, body: &str) -> Row
    ensures { Fits table.now.state.columns result }
{
    let mut row = Row::new(alloc);
    let body = Words::new(alloc, body).expect(rt, "memory");
    assert!(rt; row.push(Value::Int(prio)).is_ok());
    assert!(rt; row.push(Value::Word(body)).is_ok());
    fitting(rt, table, row)
}

// The origin, which has to be valid.
fn valid(rt: &impl Abort, origin: Origin) -> Origin
    ensures { IsOrigin result }
{
    assert!(rt; origin.source < 64 && origin.number >= 1 && origin.number < 1 << 62);
    origin
}

// Adds the row, and has to get what was foretold.
fn add(rt: &impl Abort, table: &mut Table, row: Row, origin: Option<Origin>, wanted: Check)
    requires row { Fits table.old.state.columns row }
    requires origin { ForSome origin IsOrigin }
    ensures { table.new.state.columns ≡ table.old.state.columns }
{
    assert_eq!(rt; table.check(&row, origin), wanted);
    let size = row.len();
    let number = table.next();
    match (table.add(row, origin), wanted) {
        (Ok(Added::New(added)), Check::New) => assert_eq!(rt; added, number),
        (Ok(Added::Seen(mark)), Check::Seen(wanted)) => assert_eq!(rt; mark, wanted),
        (Err((AddFault::Spent, row)), Check::Spent) => assert_eq!(rt; row.len(), size),
        (Err((AddFault::Rows, row)), Check::Rows) => assert_eq!(rt; row.len(), size),
        (Err((AddFault::Bytes(sum), row)), Check::Bytes(wanted)) => {
            assert_eq!(rt; (sum, row.len()), (wanted, size));
        }
        _ => panic!(rt; "another answer"),
    }
}

// The condition of this text on the table's rows.
fn condition(rt: &impl Abort, alloc: Global, table: &Table, text: &str) -> Cond
    ensures { result.kinds ≡ kinds_of table.now.state.columns }
{
    match read(alloc, text, table.columns()) {
        Ok(cond) => cond,
        Err(_) => panic!(rt; "no condition"),
    }
}

// The oldest free row that meets the condition.
fn oldest(rt: &impl Abort, alloc: Global, table: &mut Table, text: &str) -> Option<u64> {
    let cond = condition(rt, alloc, table, text);
    table.oldest(&cond, &mut cond_steps())
}

fn keep(rt: &impl Abort, alloc: Global, table: &mut Table, text: &str) {
    let cond = condition(rt, alloc, table, text);
    assert!(rt; table.keep(&cond).is_ok());
}

fn own(rt: &impl Abort, table: &mut Table, number: u64, session: u64) {
    assert!(rt; table.row(number).is_some() && table.owner(number).is_none());
    table.own(number, session);
}

fn release(rt: &impl Abort, table: &mut Table, number: u64) {
    assert!(rt; table.owner(number).is_some());
    table.release(number);
}

fn end(rt: &impl Abort, table: &mut Table, number: u64) {
    assert!(rt; table.row(number).is_some());
    table.end(number);
}

fn mark(rt: &impl Abort, table: &Table, source: u8) -> u64 {
    assert!(rt; source < 64);
    table.mark(source)
}

fn set_mark(rt: &impl Abort, table: &mut Table, source: u8, number: u64) {
    assert!(rt; source < 64 && number >= 1 && number < 1 << 62);
    assert!(rt; table.set_mark(source, number).is_ok());
}

fn set_next(rt: &impl Abort, table: &mut Table, number: u64) {
    assert!(rt; table.next() <= number && number <= 1 << 62);
    table.set_next(number);
}

// One step of a test: a call, and what it has to answer.
#[derive(Clone, Copy)]
enum Step {
    // A row of this number and text is added, from nowhere.
    Add(i64, &'static str),
    // A row of number 1 and an empty text: its origin, what comes of it, and the mark afterwards.
    From(u8, Mode, u64, Check, u64),
    // The same row from nowhere, and why it is refused.
    Refused(Check),
    Own(u64, u64),
    Release(u64),
    End(u64),
    SetMark(u8, u64),
    SetNext(u64),
    // A condition, and the oldest free row that meets it.
    Oldest(&'static str, Option<u64>),
    // A condition that is kept.
    Keep(&'static str),
    // A condition, and whether it is kept.
    Kept(&'static str, bool),
    // A number, and the least row number from it on.
    Live(u64, Option<u64>),
    // A row's number, its first value, and its owner.
    Stored(u64, i64, Option<u64>),
    Gone(u64),
    Mark(u8, u64),
    // The next number, the count of rows and the sum of their sizes.
    Stands(u64, u32, u64),
}

use Step::*;

// The first value of the row, which has to be a number.
fn first_number(rt: &impl Abort, table: &Table, number: u64) -> i64 {
    let Some(row) = table.row(number) else {
        panic!(rt; "no row");
    };
    match row.at(0) {
        Some(Value::Int(number)) => *number,
        _ => panic!(rt; "no number"),
    }
}

fn add_from(rt: &impl Abort, alloc: Global, table: &mut Table, origin: Origin, wanted: Check) {
    let origin = valid(rt, origin);
    let row = job(rt, alloc, table, 1, "");
    add(rt, table, row, Some(origin), wanted);
}

fn change(rt: &impl Abort, alloc: Global, table: &mut Table, step: Step) {
    match step {
        Step::Add(prio, body) => {
            let row = job(rt, alloc, table, prio, body);
            add(rt, table, row, None, Check::New);
        }
        Step::From(source, mode, number, wanted, _) => {
            let origin = Origin {
                source,
                mode,
                number,
            };
            add_from(rt, alloc, table, origin, wanted);
        }
        Step::Refused(wanted) => {
            let row = job(rt, alloc, table, 1, "");
            add(rt, table, row, None, wanted);
        }
        Step::Own(number, session) => own(rt, table, number, session),
        Step::Release(number) => release(rt, table, number),
        Step::End(number) => end(rt, table, number),
        Step::SetMark(source, number) => set_mark(rt, table, source, number),
        Step::SetNext(number) => set_next(rt, table, number),
        Step::Keep(text) => keep(rt, alloc, table, text),
        _ => {}
    }
}

fn look(rt: &impl Abort, alloc: Global, table: &mut Table, step: Step) {
    match step {
        Step::From(source, _, _, _, wanted) | Step::Mark(source, wanted) => {
            assert_eq!(rt; mark(rt, table, source), wanted, "{source}");
        }
        Step::Oldest(text, wanted) => {
            assert_eq!(rt; oldest(rt, alloc, table, text), wanted, "{text}");
        }
        Step::Kept(text, wanted) => {
            let cond = condition(rt, alloc, table, text);
            assert_eq!(rt; table.kept(&cond), wanted, "{text}");
        }
        Step::Live(number, wanted) => {
            assert_eq!(rt; table.live_from(number), wanted, "{number}");
        }
        Step::Stored(number, first, owner) => {
            assert_eq!(rt; first_number(rt, table, number), first);
            assert_eq!(rt; table.owner(number), owner, "{number}");
        }
        Step::Gone(number) => {
            assert!(rt; table.row(number).is_none() && table.owner(number).is_none());
        }
        Step::Stands(next, count, bytes) => {
            assert_eq!(rt;
                (table.next(), table.count(), table.bytes()),
                (next, count, bytes)
            );
        }
        _ => {}
    }
}

fn follow(rt: &impl Abort, alloc: Global, table: &mut Table, steps: &[Step]) {
    for step in steps {
        change(rt, alloc, table, *step);
        look(rt, alloc, table, *step);
    }
}

#[test]
fn looks_take_the_oldest_row_that_meets_the_condition(rt: HostRuntime) -> Result<(), Fail> {
    let steps = [
        Oldest("", None),
        Add(1, "a"),
        Add(9, "bc"),
        Add(5, "d"),
        Oldest("", Some(1)),
        Oldest("prio>=5", Some(2)),
        Oldest("prio>9", None),
        Oldest("body='d'", Some(3)),
        Oldest("prio/0", None),
        Own(2, 7),
        Oldest("prio>=5", Some(3)),
        Own(3, 8),
        Oldest("prio>=5", None),
        Release(2),
        Oldest("prio>=5", Some(2)),
        End(2),
        Oldest("prio>=5", None),
        Release(3),
        Oldest("prio>=5", Some(3)),
    ];
    follow(&rt, rt.alloc(), &mut jobs(&rt, rt.alloc()), &steps);
    Ok(())
}

#[test]
fn a_kept_condition_is_found_where_its_cursor_stands(rt: HostRuntime) -> Result<(), Fail> {
    let alloc = rt.alloc();
    let mut table = jobs(&rt, alloc);
    for _ in 0..1_000 {
        change(&rt, alloc, &mut table, Add(0, ""));
    }
    let steps = [
        Kept("prio>=5", false),
        Keep("prio>=5"),
        // Texts of one tree are one condition.
        Kept(" (prio >= 5)", true),
        Kept("prio>5", false),
        Oldest("prio>=5", None),
        Oldest("prio>=5", None),
        Add(9, ""),
        Oldest("prio>=5", Some(1_001)),
        Own(1_001, 1),
        Oldest("prio>=5", None),
        Release(1_001),
        Oldest("prio>=5", Some(1_001)),
        Oldest("", Some(1)),
        End(1_001),
        Oldest("prio>=5", None),
        Add(5, ""),
        Oldest("prio>=5", Some(1_002)),
    ];
    follow(&rt, alloc, &mut table, &steps);
    Ok(())
}

#[test]
fn rows_that_are_given_back_are_found_again(rt: HostRuntime) -> Result<(), Fail> {
    let steps = [
        Add(9, "a"),
        Add(9, "b"),
        Add(1, "c"),
        Keep("prio>=5"),
        Keep(""),
        Oldest("prio>=5", Some(1)),
        Own(1, 7),
        Oldest("prio>=5", Some(2)),
        Own(2, 8),
        Oldest("prio>=5", None),
        Oldest("", Some(3)),
        Release(2),
        Oldest("", Some(2)),
        Oldest("prio>=5", Some(2)),
        Release(1),
        Oldest("prio>=5", Some(1)),
        Oldest("", Some(1)),
        // A condition that is kept again stays at its cursor, and one that is not kept begins at the front.
        Own(1, 7),
        Own(2, 8),
        Oldest("prio>=5", None),
        Keep("prio>=5"),
        Oldest("prio>=5", None),
        Oldest("prio>8", None),
        Release(1),
        Oldest("prio>8", Some(1)),
        Oldest("prio>=5", Some(1)),
    ];
    let mut table = jobs(&rt, rt.alloc());
    follow(&rt, rt.alloc(), &mut table, &steps);
    // A copy keeps what the table keeps, and apart from it.
    let Ok(mut copy) = table.copy(rt.alloc()) else {
        panic!(&rt; "memory");
    };
    let more = [
        Kept("prio>=5", true),
        Kept("prio>8", false),
        Own(1, 9),
        Oldest("prio>=5", None),
    ];
    follow(&rt, rt.alloc(), &mut copy, &more);
    follow(&rt, rt.alloc(), &mut table, &[Oldest("prio>=5", Some(1))]);
    Ok(())
}

// The condition `prio=n`, for an n of two digits.
fn numbered(rt: &impl Abort, alloc: Global, table: &Table, n: u8) -> Cond
    ensures { result.kinds ≡ kinds_of table.now.state.columns }
{
    let mut text = String::new(alloc);
    for part in ["prio=1", digit(n / 10), digit(n % 10)] {
        assert!(rt; text.push_str(part).is_ok());
    }
    condition(rt, alloc, table, text.as_str())
}

fn digit(n: u8) -> &'static str {
    match n {
        0 => "0",
        1 => "1",
        2 => "2",
        3 => "3",
        4 => "4",
        5 => "5",
        6 => "6",
        7 => "7",
        8 => "8",
        _ => "9",
    }
}

#[test]
fn of_65_conditions_the_one_kept_longest_ago_goes(rt: HostRuntime) -> Result<(), Fail> {
    let alloc = rt.alloc();
    let mut table = jobs(&rt, alloc);
    for n in 0..64 {
        let cond = numbered(&rt, alloc, &table, n);
        assert!(rt; table.keep(&cond).is_ok());
    }
    for n in 0..64 {
        let cond = numbered(&rt, alloc, &table, n);
        assert!(rt; table.kept(&cond), "{n}");
    }
    // The first is kept again, so the second goes.
    for n in [0, 64] {
        let cond = numbered(&rt, alloc, &table, n);
        assert!(rt; table.keep(&cond).is_ok());
    }
    for (n, wanted) in [(0, true), (1, false), (2, true), (63, true), (64, true)] {
        let cond = numbered(&rt, alloc, &table, n);
        assert_eq!(rt; table.kept(&cond), wanted, "{n}");
    }
    Ok(())
}

#[test]
fn rows_are_found_by_their_numbers(rt: HostRuntime) -> Result<(), Fail> {
    // 8 for each number, 4 and its bytes for each text.
    let steps = [
        Stands(1, 0, 0),
        Add(1, "a"),
        Add(9, "bc"),
        Add(5, "d"),
        Add(6, ""),
        Stands(5, 4, 52),
        End(2),
        End(4),
        Stands(5, 2, 26),
        Live(0, Some(1)),
        Live(1, Some(1)),
        Live(2, Some(3)),
        Live(3, Some(3)),
        Live(4, None),
        Gone(0),
        Gone(2),
        Gone(4),
        Own(3, 7),
        Stored(1, 1, None),
        Stored(3, 5, Some(7)),
    ];
    let mut table = jobs(&rt, rt.alloc());
    follow(&rt, rt.alloc(), &mut table, &steps);
    // The copy is a table of its own, and no number is given again.
    let Ok(mut copy) = table.copy(rt.alloc()) else {
        panic!(&rt; "memory");
    };
    let more = [
        Stored(3, 5, Some(7)),
        Add(2, "e"),
        Live(4, Some(5)),
        Stands(6, 3, 39),
    ];
    follow(&rt, rt.alloc(), &mut copy, &more);
    follow(
        &rt,
        rt.alloc(),
        &mut table,
        &[Live(4, None), Stands(5, 2, 26)],
    );
    assert_eq!(rt; copy.columns().len(), 2);
    Ok(())
}

#[test]
fn marks_tell_what_was_seen(rt: HostRuntime) -> Result<(), Fail> {
    let last = (1 << 62) - 1;
    let steps = [
        From(4, Mode::A, 10, Check::New, 10),
        From(4, Mode::A, 10, Check::Seen(10), 10),
        From(4, Mode::A, 3, Check::Seen(10), 10),
        From(4, Mode::A, 11, Check::New, 11),
        From(0, Mode::A, 1, Check::New, 1),
        From(63, Mode::W, 5, Check::New, 5),
        From(4, Mode::W, 11, Check::New, 11),
        From(4, Mode::W, 2, Check::New, 2),
        From(4, Mode::A, 2, Check::Seen(2), 2),
        From(4, Mode::A, 3, Check::New, 3),
        From(0, Mode::A, 1, Check::Seen(1), 1),
        From(63, Mode::A, last, Check::New, last),
        Mark(5, 0),
        Stands(9, 8, 96),
        // What a file says of a table.
        SetMark(5, 6),
        SetMark(4, 1),
        Mark(4, 1),
        Mark(5, 6),
        Mark(63, last),
        SetNext(100),
        Add(1, ""),
        Live(9, Some(100)),
        Stands(101, 9, 108),
    ];
    follow(&rt, rt.alloc(), &mut jobs(&rt, rt.alloc()), &steps);
    Ok(())
}

// The row of a number or of null, which has to fit the table.
fn number_row(rt: &impl Abort, alloc: Global, table: &Table, value: Value) -> Row
    ensures { Fits table.now.state.columns result }
{
    let mut row = Row::new(alloc);
    assert!(rt; row.push(value).is_ok());
    fitting(rt, table, row)
}

#[test]
fn wider_columns_take_null(rt: HostRuntime) -> Result<(), Fail> {
    let alloc = rt.alloc();
    let wide = columns_of(&rt, alloc, &[("n", Kind::Int)], true);
    assert_eq!(rt; wide.len(), 1);
    let mut narrow = wide.copy(alloc).expect(&rt, "memory");
    narrow.require(0);
    assert_eq!(rt; narrow.len(), 1);
    let mut table = Table::new(alloc, narrow);
    let row = number_row(&rt, alloc, &table, Value::Int(7));
    add(&rt, &mut table, row, None, Check::New);
    table.widen(wide);
    let row = number_row(&rt, alloc, &table, Value::Null);
    add(&rt, &mut table, row, None, Check::New);
    let steps = [
        Stored(1, 7, None),
        Stands(3, 2, 8),
        Oldest("", Some(1)),
        Oldest("n=7", Some(1)),
        Oldest("not n=7", None),
    ];
    follow(&rt, alloc, &mut table, &steps);
    assert!(rt;
        table
            .row(2)
            .is_some_and(|row| matches!(row.at(0), Some(Value::Null)))
    );
    Ok(())
}

// A number that was seen before goes before the numbers, and these before the places.
#[test]
fn full_tables_refuse_rows(rt: HostRuntime) -> Result<(), Fail> {
    let mut table = jobs(&rt, rt.alloc());
    for _ in 0..249_999 {
        change(&rt, rt.alloc(), &mut table, Add(1, ""));
    }
    let steps = [
        From(1, Mode::A, 7, Check::New, 7),
        Refused(Check::Rows),
        From(1, Mode::A, 7, Check::Seen(7), 7),
        From(1, Mode::A, 8, Check::Rows, 7),
        SetNext(1 << 62),
        Refused(Check::Spent),
        From(1, Mode::A, 7, Check::Seen(7), 7),
        End(125_000),
        Refused(Check::Spent),
        Stands(1 << 62, 249_999, 2_999_988),
    ];
    follow(&rt, rt.alloc(), &mut table, &steps);
    Ok(())
}

// So many bytes of the letter x.
fn long_text(rt: &impl Abort, alloc: Global, len: usize) -> Words {
    let mut text = String::new(alloc);
    for _ in 0..len {
        assert!(rt; text.push('x').is_ok());
    }
    Words::new(alloc, text.as_str()).expect(rt, "memory")
}

// A row of sixteen texts, of 1,048,576 bytes in all.
fn longest_row(rt: &impl Abort, alloc: Global) -> Row {
    let mut row = Row::new(alloc);
    for _ in 0..15 {
        assert!(rt; row.push(Value::Word(long_text(rt, alloc, 65_535))).is_ok());
    }
    assert!(rt; row.push(Value::Word(long_text(rt, alloc, 65_487))).is_ok());
    row
}

#[test]
fn bytes_of_rows_are_limited(rt: HostRuntime) -> Result<(), Fail> {
    let alloc = rt.alloc();
    let named = [("c", Kind::Words); 16];
    let mut table = Table::new(alloc, columns_of(&rt, alloc, &named, false));
    let longest = longest_row(&rt, alloc);
    for _ in 0..32 {
        let row = longest.copy(alloc).expect(&rt, "memory");
        let row = fitting(&rt, &table, row);
        add(&rt, &mut table, row, None, Check::New);
    }
    let row = longest.copy(alloc).expect(&rt, "memory");
    let row = fitting(&rt, &table, row);
    add(&rt, &mut table, row, None, Check::Bytes(33_554_432));
    // An end makes room for one more.
    end(&rt, &mut table, 2);
    let row = fitting(&rt, &table, longest);
    add(&rt, &mut table, row, None, Check::New);
    assert_eq!(rt;
        (table.bytes(), table.count(), table.next()),
        (33_554_432, 32, 34)
    );
    Ok(())
}
