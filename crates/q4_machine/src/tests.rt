ghost use Rattle.std.specs.Prelude.{◌≡◌, ◌<◌, ◌≤◌, [], Some, None, All, length, IsSome};
ghost use Rattle.q4_table.specs.Valid.{IsValidTable};
ghost use Rattle.q4_machine.specs.Definitions.{columns_at, definitions, IsRowFor, IsListed};
ghost use Rattle.q4_machine.specs.History.{definitions_of, IsOpenFor};
ghost use Rattle.q4_machine.specs.Machine.{mode_of};

use crate::recorded::RecordedMachine;
use crate::*;
use q4_cond::read;
use q4_def::{Defs, read_defs};
use q4_table::{AddFault, Added, Check, Table, tables_are_valid};
use q4_value::{Column, Row, Value, Words, fits};
use std::alloc::Global;
use std::process::Abort;
use std::test::*;

// The columns of the two tables have the same names, in another order.
const TWO_TABLES: &[u8] =
    b"[[table]]\nname = \"jobs\"\ncolumns = [\"prio int\", \"body text\"]\n\n[[table]]\nname = \"hot\"\ncolumns = [\"body text\", \"prio int\"]\n";

const SIXTEEN_TEXTS: &[u8] =
    b"[[table]]\nname = \"texts\"\ncolumns = [\"a text\", \"b text\", \"c text\", \"d text\", \"e text\", \"f text\", \"g text\", \"h text\", \"i text\", \"j text\", \"k text\", \"l text\", \"m text\", \"n text\", \"o text\", \"p text\"]\n";

fn defs_of(rt: &impl Abort, alloc: Global, text: &[u8]) -> Defs {
    read_defs(alloc, text).expect(rt, "definitions")
}

// The columns of the table at this place, which has to be there.
fn columns_of<'a>(rt: &impl Abort, defs: &'a Defs, place: u32) -> &'a [Column]
    ensures inside { place < length defs.now }
    ensures columns { result.now ≡ columns_at defs.now place }
    ensures few { length result.now ≤ 32 }
{
    match defs.table(place) {
        Some(def) => def.columns.as_slice(),
        None => panic!(rt; "no such table"),
    }
}

#[derive(Clone, Copy)]
enum Cell {
    Number(i64),
    Text(&'static str),
}

use Cell::{Number, Text};

fn row_of(rt: &impl Abort, alloc: Global, cells: &[Cell]) -> Row {
    let mut row = Row::new(alloc);
    for cell in cells {
        let value = match cell {
            Number(number) => Value::Int(*number),
            Text(text) => Value::Word(Words::new(alloc, text).expect(rt, "memory")),
        };
        assert!(rt; row.push(value).is_ok());
    }
    row
}

// The row, which has to be one for the table at this place.
fn row_for(rt: &impl Abort, defs: &Defs, place: u32, row: Row) -> Row
    ensures { IsRowFor defs.now place result }
{
    match fits(columns_of(rt, defs, place), &row) {
        Ok(()) => row,
        Err(_) => panic!(rt; "the row does not fit"),
    }
}

// Puts an entry at the end of the list of a wait.
fn list_table(rt: &impl Abort, alloc: Global, defs: &Defs, list: &mut Looks, table: u32, text: &str)
    requires { All (IsListed defs.now) list.old }
    ensures { All (IsListed defs.now) list.new }
{
    match read(alloc, text, columns_of(rt, defs, table)) {
        Ok(cond) => assert!(rt; list.push(table, cond).is_ok()),
        Err(_) => panic!(rt; "no condition"),
    }
}

// The list of a wait: places of tables, from 0, and conditions.
fn list_of(rt: &impl Abort, alloc: Global, defs: &Defs, entries: &[(u32, &str)]) -> Looks
    ensures { All (IsListed defs.now) result }
{
    let mut list = Looks::new(alloc);
    for (table, text) in entries {
        list_table(rt, alloc, defs, &mut list, *table, text);
    }
    list
}

// What a session asks of a desk.
#[derive(Clone, Copy)]
enum Ask {
    // The place of the table, from 0, and the row.
    Insert(u32, &'static [Cell]),
    Wait(&'static [(u32, &'static str)]),
    End,
    Abort,
    RowId,
    // The place of the table, from 0, and how many rows at most.
    Select(u32, u32),
}

use Ask::{Abort as Give, End, Insert, RowId, Select, Wait};

// What the desk has to answer. Of rows that are shown it has the numbers, and how many values they have together.
#[derive(Clone, Copy, Debug, PartialEq, Eq)]
enum Told {
    Done,
    Session(u64),
    Added(u64),
    Found(u32),
    Nothing,
    Number(u64),
    Shown(&'static [u64], usize),
    NotOwner,
    NoRow,
    Bytes(u64),
}

fn are_numbers(rows: &Rows, numbers: &[u64], values: usize) -> bool {
    let mut sum: usize = 0;
    for row in rows.as_slice() {
        sum = sum.saturating_add(row.row.len());
    }
    sum == values
        && rows.as_slice().len() == numbers.len()
        && rows
            .as_slice()
            .iter()
            .zip(numbers)
            .all(|(row, number)| row.number == *number)
}

fn is_told(reply: &Reply, told: Told) -> bool {
    match (reply, told) {
        (Reply::Done, Told::Done) => true,
        (Reply::Session(x), Told::Session(y)) => *x == y,
        (Reply::Added(x), Told::Added(y)) => *x == y,
        (Reply::Found(x), Told::Found(y)) => *x == y,
        (Reply::Nothing, Told::Nothing) => true,
        (Reply::Number(x), Told::Number(y)) => *x == y,
        (Reply::Shown(rows), Told::Shown(numbers, values)) => are_numbers(rows, numbers, values),
        (Reply::Refused(Refusal::NotOwner), Told::NotOwner) => true,
        (Reply::Refused(Refusal::NoRow), Told::NoRow) => true,
        (Reply::Refused(Refusal::Bytes(x)), Told::Bytes(y)) => *x == y,
        _ => false,
    }
}

fn insert<K: Desk<Leave = ()>>(rt: &impl Abort, desk: &mut K, place: u32, row: Row) -> Reply
    requires { IsSome (K.current desk.old) }
    ensures { K.current desk.new ≡ K.current desk.old }
{
    let row = row_for(rt, desk.defs(), place, row);
    match desk.insert(&(), place, row) {
        Ok(Added::New(number)) => Reply::Added(number),
        Ok(Added::Seen(mark)) => Reply::Seen(mark),
        Err(InsertFault::Spent) => Reply::Refused(Refusal::Spent),
        Err(InsertFault::Rows) => Reply::Refused(Refusal::Rows),
        Err(InsertFault::Bytes(sum)) => Reply::Refused(Refusal::Bytes(sum)),
        Err(InsertFault::Desk(_)) => panic!(rt; "memory"),
    }
}

fn wait<K: Desk<Leave = ()>>(
    rt: &impl Abort,
    alloc: Global,
    desk: &mut K,
    entries: &[(u32, &str)],
) -> Reply
    requires { IsSome (K.current desk.old) }
    ensures { K.current desk.new ≡ K.current desk.old }
{
    let list = list_of(rt, alloc, desk.defs(), entries);
    let mut patience = Never::new();
    match desk.wait(&(), &list, 60, &mut patience) {
        Ok(Some(place)) => Reply::Found(place),
        Ok(None) => Reply::Nothing,
        Err(_) => panic!(rt; "memory"),
    }
}

fn left(rt: &impl Abort, answer: Result<(), ModeFault>) -> Reply {
    match answer {
        Ok(()) => Reply::Done,
        Err(ModeFault::NotOwner) => Reply::Refused(Refusal::NotOwner),
        Err(_) => panic!(rt; "memory"),
    }
}

fn owned<K: Desk<Leave = ()>>(rt: &impl Abort, desk: &mut K) -> Reply
    requires { IsSome (K.current desk.old) }
    ensures { K.current desk.new ≡ K.current desk.old }
{
    match desk.row_id(&()) {
        Ok(number) => Reply::Number(number),
        Err(ModeFault::NotOwner) => Reply::Refused(Refusal::NotOwner),
        Err(ModeFault::NoRow) => Reply::Refused(Refusal::NoRow),
        Err(ModeFault::Desk(_)) => panic!(rt; "memory"),
    }
}

fn select<K: Desk<Leave = ()>>(rt: &impl Abort, desk: &mut K, place: u32, most: u32) -> Reply
    requires { IsSome (K.current desk.old) }
    ensures { K.current desk.new ≡ K.current desk.old }
{
    if place >= desk.defs().len() {
        panic!(rt; "no such table");
    }
    match desk.select(&(), place, most) {
        Ok(rows) => Reply::Shown(rows),
        Err(_) => panic!(rt; "memory"),
    }
}

fn asked<K: Desk<Leave = ()>>(rt: &impl Abort, alloc: Global, desk: &mut K, ask: Ask) -> Reply
    requires { IsSome (K.current desk.old) }
    ensures { K.current desk.new ≡ K.current desk.old }
{
    match ask {
        Insert(place, cells) => insert(rt, desk, place, row_of(rt, alloc, cells)),
        Wait(entries) => wait(rt, alloc, desk, entries),
        End => left(rt, desk.end(&())),
        Give => left(rt, desk.abort(&())),
        RowId => owned(rt, desk),
        Select(place, most) => select(rt, desk, place, most),
    }
}

// A whole session of this number: what it asks, and what it has to be answered.
fn session<K: Desk<Leave = ()>>(
    rt: &impl Abort,
    alloc: Global,
    desk: &mut K,
    number: u64,
    asks: &[(Ask, Told)],
)
    requires { K.current desk.old ≡ None }
    ensures { K.current desk.new ≡ None }
{
    match desk.open(&()) {
        Ok(session) => assert_eq!(rt; session, number),
        Err(_) => panic!(rt; "no session"),
    }
    for (ask, wanted) in asks {
        assert!(rt; is_told(&asked(rt, alloc, desk, *ask), *wanted));
    }
    desk.close(&());
}

// The call, and the place of its table or the length of its list.
fn call_of(entry: &Entry) -> (&'static str, u64) {
    match &entry.call {
        Call::Opened(tables) => ("opened", tables.len() as u64),
        Call::Open => ("open", 0),
        Call::Insert(place, _) => ("insert", u64::from(*place)),
        Call::Look(list) => ("look", list.as_slice().len() as u64),
        Call::End => ("end", 0),
        Call::Abort => ("abort", 0),
        Call::RowId => ("rowid", 0),
        Call::Select(_, most) => ("select", u64::from(*most)),
        Call::Close => ("close", 0),
        Call::Sync => ("sync", 0),
    }
}

// Two rows are added, the first is ended, and the second is owned at the close.
const FIRST: [(Ask, Told); 8] = [
    (Insert(0, &[Number(7), Text("a")]), Told::Added(1)),
    (Insert(0, &[Number(-1), Text("")]), Told::Added(2)),
    (End, Told::NotOwner),
    (Wait(&[(0, "")]), Told::Found(1)),
    (RowId, Told::Number(1)),
    (End, Told::Done),
    (Wait(&[(0, "")]), Told::Found(1)),
    (Select(0, 9), Told::Shown(&[2], 2)),
];

// The row of the session before is taken again, and there is no other.
const SECOND: [(Ask, Told); 8] = [
    (Wait(&[(0, "prio<0")]), Told::Found(1)),
    (Wait(&[(0, "")]), Told::Nothing),
    (RowId, Told::NoRow),
    (Wait(&[(0, "")]), Told::Nothing),
    (Give, Told::Done),
    (Insert(0, &[Number(0), Text("b")]), Told::Added(3)),
    (Give, Told::NotOwner),
    (End, Told::NotOwner),
];

// The session, the call and the reply of each entry.
const HISTORY: [(u64, &str, u64, Told); 28] = [
    (0, "opened", 1, Told::Done),
    (1, "open", 0, Told::Session(1)),
    (1, "insert", 0, Told::Added(1)),
    (1, "sync", 0, Told::Done),
    (1, "insert", 0, Told::Added(2)),
    (1, "sync", 0, Told::Done),
    (1, "end", 0, Told::NotOwner),
    (1, "look", 1, Told::Found(1)),
    (1, "rowid", 0, Told::Number(1)),
    (1, "end", 0, Told::Done),
    (1, "sync", 0, Told::Done),
    (1, "look", 1, Told::Found(1)),
    (1, "select", 9, Told::Shown(&[2], 2)),
    (1, "close", 0, Told::Done),
    (2, "open", 0, Told::Session(2)),
    (2, "look", 1, Told::Found(1)),
    (2, "end", 0, Told::Done),
    (2, "look", 1, Told::Nothing),
    (2, "sync", 0, Told::Done),
    (2, "rowid", 0, Told::NoRow),
    (2, "end", 0, Told::Done),
    (2, "look", 1, Told::Nothing),
    (2, "abort", 0, Told::Done),
    (2, "insert", 0, Told::Added(3)),
    (2, "sync", 0, Told::Done),
    (2, "abort", 0, Told::NotOwner),
    (2, "end", 0, Told::NotOwner),
    (2, "close", 0, Told::Done),
];

#[test]
fn two_sessions(rt: HostRuntime) {
    let alloc = rt.alloc();
    let mut desk = OneDesk::new(alloc, defs_of(&rt, alloc, b"")).expect(&rt, "memory");
    session(&rt, alloc, &mut desk, 1, &FIRST);
    session(&rt, alloc, &mut desk, 2, &SECOND);
    reached_machines_are_valid();
    looks_take_the_oldest();
    assert_eq!(rt; desk.history().len(), HISTORY.len());
    for (entry, (session, call, number, reply)) in desk.history().iter().zip(&HISTORY) {
        assert_eq!(rt; call_of(entry), (*call, *number));
        assert!(rt; is_told(&entry.reply, *reply));
        assert_eq!(rt; (entry.caller, entry.session), (0, *session));
    }
}

// Which row each wait took shows in what is left for the later ones.
const WAITS: [(Ask, Told); 16] = [
    (Insert(0, &[Number(1), Text("a")]), Told::Added(1)),
    (Insert(0, &[Number(9), Text("b")]), Told::Added(2)),
    (Insert(0, &[Number(5), Text("c")]), Told::Added(3)),
    (Insert(1, &[Text("x"), Number(4)]), Told::Added(1)),
    // Row 2 of `jobs`, the oldest that meets a condition of the list.
    (
        Wait(&[(0, "prio>9"), (1, "prio>=5"), (0, "prio>=5")]),
        Told::Found(3),
    ),
    (End, Told::Done),
    // Row 3 of `jobs`, and no longer row 2.
    (Wait(&[(0, "prio>=5")]), Told::Found(1)),
    // Row 1 of `hot`, though `jobs` has a row as well.
    (Wait(&[(1, ""), (0, "")]), Told::Found(1)),
    (
        Wait(&[(1, ""), (0, "prio>=5"), (0, "body='a'")]),
        Told::Found(3),
    ),
    (Insert(0, &[Number(7), Text("d")]), Told::Added(4)),
    (Wait(&[(0, "prio<7"), (1, "")]), Told::Nothing),
    (Wait(&[(0, "prio<7"), (0, "prio<8")]), Told::Found(2)),
    (Insert(1, &[Text("y"), Number(0)]), Told::Added(2)),
    (Wait(&[(0, ""), (1, "prio<1")]), Told::Found(2)),
    (Wait(&[]), Told::Nothing),
    (Wait(&[(0, ""), (1, "")]), Told::Nothing),
];

#[test]
fn waits_over_two_tables(rt: HostRuntime) {
    let alloc = rt.alloc();
    let mut desk = OneDesk::new(alloc, defs_of(&rt, alloc, TWO_TABLES)).expect(&rt, "memory");
    session(&rt, alloc, &mut desk, 1, &WAITS);
    assert_eq!(rt; desk.defs().find("hot"), Some(1));
    let Some(Call::Opened(tables)) = desk.history().first().map(|entry| &entry.call) else {
        panic!(&rt; "no tables");
    };
    for (place, name) in ["jobs", "hot"].iter().enumerate() {
        match tables.at(place) {
            Some(opening) => assert_eq!(rt; opening.name.as_str(), *name),
            None => panic!(&rt; "no table"),
        }
    }
    assert_eq!(rt; tables.len(), 2);
}

// In non-owner mode a session sees the rows that nobody owns, in owner mode its own row, of that row's table alone.
const SELECTS: [(Ask, Told); 18] = [
    (Select(0, 9), Told::Shown(&[], 0)),
    (Insert(0, &[Number(1), Text("a")]), Told::Added(1)),
    (Insert(0, &[Number(9), Text("b")]), Told::Added(2)),
    (Insert(0, &[Number(5), Text("c")]), Told::Added(3)),
    (Insert(1, &[Text("x"), Number(4)]), Told::Added(1)),
    (Select(0, 9), Told::Shown(&[1, 2, 3], 6)),
    (Select(0, 3), Told::Shown(&[1, 2, 3], 6)),
    (Select(0, 2), Told::Shown(&[1, 2], 4)),
    (Select(0, 0), Told::Shown(&[], 0)),
    (Wait(&[(0, "prio=9")]), Told::Found(1)),
    (Select(0, 9), Told::Shown(&[2], 2)),
    (Select(0, 0), Told::Shown(&[], 0)),
    (Select(1, 9), Told::Shown(&[], 0)),
    (Give, Told::Done),
    (Select(0, 9), Told::Shown(&[1, 2, 3], 6)),
    (Wait(&[(1, "prio>4")]), Told::Nothing),
    (Select(1, 9), Told::Shown(&[], 0)),
    (RowId, Told::NoRow),
];

#[test]
fn selects(rt: HostRuntime) {
    let alloc = rt.alloc();
    let mut desk = OneDesk::new(alloc, defs_of(&rt, alloc, TWO_TABLES)).expect(&rt, "memory");
    session(&rt, alloc, &mut desk, 1, &SELECTS);
}

// A wait with a patience of two turns, in owner mode with a row, that finds no other.
fn wait_in_vain(rt: &impl Abort, alloc: Global, desk: &mut OneDesk, turns: u64)
    requires { IsSome desk.old.current }
    ensures { desk.new.current ≡ desk.old.current }
{
    let list = list_of(rt, alloc, desk.defs(), &[(0, "prio=1")]);
    let mut patience = Turns::new(turns);
    match desk.wait(&(), &list, 7, &mut patience) {
        Ok(place) => assert_eq!(rt; place, None),
        Err(_) => panic!(rt; "memory"),
    }
}

// The end of a wait is synced before the first pause, or else behind the look.
#[test]
fn the_end_of_a_wait_is_synced_before_its_pause(rt: HostRuntime) {
    let alloc = rt.alloc();
    for (turns, wanted) in [(0, ["end", "look", "sync"]), (2, ["end", "sync", "look"])] {
        let mut desk = OneDesk::new(alloc, defs_of(&rt, alloc, b"")).expect(&rt, "memory");
        assert!(rt; desk.open(&()).is_ok());
        let row = row_of(&rt, alloc, &[Number(2), Text("a")]);
        assert!(rt; is_told(&insert(&rt, &mut desk, 0, row), Told::Added(1)));
        assert!(rt; is_told(&wait(&rt, alloc, &mut desk, &[(0, "")]), Told::Found(1)));
        wait_in_vain(&rt, alloc, &mut desk, turns);
        desk.close(&());
        let calls = ["opened", "open", "insert", "sync", "look"];
        let behind = desk.history().iter().skip(5);
        assert_eq!(rt; desk.history().len(), calls.len() + wanted.len() + 1);
        for (entry, call) in desk.history().iter().zip(&calls) {
            assert_eq!(rt; call_of(entry).0, *call);
        }
        for (entry, call) in behind.zip(&wanted) {
            assert_eq!(rt; call_of(entry).0, *call);
        }
    }
}

// Each wait may be asked this often in vain, and then is told that its time is over.
#[test]
fn patience_of_turns(rt: HostRuntime) {
    for turns in [0, 1, 3] {
        let mut patience = Turns::new(turns);
        for seconds in [0, 3_600] {
            patience.start(seconds);
            for _ in 0..turns {
                assert!(rt; !patience.over());
            }
            assert!(rt; patience.over());
            assert!(rt; patience.over());
        }
    }
    let mut never = Never::new();
    assert!(rt; never.over());
    never.start(5);
    assert!(rt; never.over());
}

// A session stands up, another sits down, and the first comes back to its row.
#[test]
fn seats(rt: HostRuntime) {
    let alloc = rt.alloc();
    let mut desk = OneDesk::new(alloc, defs_of(&rt, alloc, b"")).expect(&rt, "memory");
    assert!(rt; !desk.choose(1));
    assert!(rt; desk.open(&()).is_ok());
    let row = row_of(&rt, alloc, &[Number(2), Text("a")]);
    assert!(rt; is_told(&insert(&rt, &mut desk, 0, row), Told::Added(1)));
    assert!(rt; is_told(&wait(&rt, alloc, &mut desk, &[(0, "")]), Told::Found(1)));
    desk.stand_up();
    assert!(rt; desk.open(&()).is_ok());
    assert!(rt; is_told(&wait(&rt, alloc, &mut desk, &[(0, "")]), Told::Nothing));
    assert!(rt; !desk.choose(3));
    assert!(rt; is_told(&owned(&rt, &mut desk), Told::NoRow));
    if !desk.choose(1) {
        panic!(&rt; "session 1 is not open");
    }
    assert!(rt; is_told(&owned(&rt, &mut desk), Told::Number(1)));
    desk.close(&());
    assert!(rt; !desk.choose(1));
    if !desk.choose(2) {
        panic!(&rt; "session 2 is not open");
    }
    assert!(rt; is_told(&wait(&rt, alloc, &mut desk, &[(0, "")]), Told::Found(1)));
    desk.close(&());
}

// Asks for the owned row as often as the history allows, and tells how often that was, and the count of the refusal.
fn wear_out(rt: &impl Abort, desk: &mut OneDesk) -> (u32, u64)
    requires { IsSome desk.old.current }
    ensures { desk.new.current ≡ desk.old.current }
{
    for asked in 0..1_100_000 {
        match desk.row_id(&()) {
            Err(ModeFault::NotOwner) => {}
            Err(ModeFault::Desk(DeskFault::Worn(count))) => return (asked, count),
            _ => panic!(rt; "memory"),
        }
    }
    panic!(rt; "no end")
}

// The limit counts the entries, the open sessions and four more. A close is always possible.
#[test]
fn a_history_is_full(rt: HostRuntime) {
    let alloc = rt.alloc();
    let mut desk = OneDesk::new(alloc, defs_of(&rt, alloc, b"")).expect(&rt, "memory");
    assert!(rt; desk.open(&()).is_ok());
    assert_eq!(rt; wear_out(&rt, &mut desk), (1_048_570, 1_048_572));
    assert_eq!(rt; desk.history().len(), 1_048_572);
    desk.close(&());
    assert_eq!(rt; desk.history().len(), 1_048_573);
    assert_eq!(rt; desk.open(&()), Err(DeskFault::Worn(1_048_573)));
}

const LETTERS: [u8; 65_535] = [b'x'; 65_535];

// A row of sixteen texts, of 1,048,576 bytes in all.
fn longest_row(rt: &impl Abort, alloc: Global) -> Row {
    let mut row = Row::new(alloc);
    for place in 0..16 {
        let len = if place < 15 { 65_535 } else { 65_487 };
        match std::str::from_utf8(&LETTERS[..len]) {
            Ok(text) => {
                let words = Words::new(alloc, text).expect(rt, "memory");
                assert!(rt; row.push(Value::Word(words)).is_ok());
            }
            Err(_) => panic!(rt; "no text"),
        }
    }
    row
}

// 32 rows of 1,048,576 bytes are added, and then not even the smallest row. It has 16 empty texts of 4 bytes.
fn fill<K: Desk<Leave = ()>>(rt: &impl Abort, alloc: Global, desk: &mut K)
    requires { K.current desk.old ≡ None }
    ensures { K.current desk.new ≡ None }
{
    assert!(rt; desk.open(&()).is_ok());
    for number in 1..33 {
        let added = insert(rt, desk, 0, longest_row(rt, alloc));
        assert!(rt; is_told(&added, Told::Added(number)));
    }
    let refused = insert(rt, desk, 0, row_of(rt, alloc, &[Text(""); 16]));
    assert!(rt; is_told(&refused, Told::Bytes(33_554_432)));
    assert!(rt; is_told(&wait(rt, alloc, desk, &[(0, "")]), Told::Found(1)));
    assert!(rt; is_told(&left(rt, desk.end(&())), Told::Done));
    let added = insert(rt, desk, 0, longest_row(rt, alloc));
    assert!(rt; is_told(&added, Told::Added(33)));
    desk.close(&());
}

#[test]
fn a_full_table_refuses(rt: HostRuntime) {
    let alloc = rt.alloc();
    let mut desk = OneDesk::new(alloc, defs_of(&rt, alloc, SIXTEEN_TEXTS)).expect(&rt, "memory");
    fill(&rt, alloc, &mut desk);
    // Behind the opening, and 32 inserts with their syncs. The refusal needs no sync.
    let wanted = [
        ("insert", Told::Bytes(33_554_432)),
        ("look", Told::Found(1)),
        ("end", Told::Done),
        ("sync", Told::Done),
        ("insert", Told::Added(33)),
        ("sync", Told::Done),
        ("close", Told::Done),
    ];
    assert_eq!(rt; desk.history().len(), 66 + wanted.len());
    for (entry, (call, reply)) in desk.history().iter().skip(66).zip(&wanted) {
        assert_eq!(rt; call_of(entry).0, *call);
        assert!(rt; is_told(&entry.reply, *reply));
    }
}

// The built-in table without a row. Its next row gets this number.
fn opening(rt: &impl Abort, alloc: Global, next: u64) -> Opening
    ensures valid { IsValidTable result.table.state }
    ensures empty { result.table.state.rows ≡ [] }
    ensures kept { result.table.kept ≡ [] }
{
    assert!(rt; next >= 1 && next <= 1 << 62);
    let defs = defs_of(rt, alloc, b"");
    let Some(def) = defs.table(0) else {
        panic!(rt; "no such table");
    };
    let def = def.copy(alloc).expect(rt, "memory");
    let mut table = Table::new(alloc, def.columns);
    table.set_next(next);
    tables_are_valid(&table);
    Opening {
        name: def.name,
        table,
    }
}

// A machine of that table alone.
fn numbered_from(rt: &impl Abort, alloc: Global, next: u64) -> Machine
    ensures { length result.state.tables ≡ 1 }
{
    let mut tables = Tables::new(alloc);
    assert!(rt; tables.push(opening(rt, alloc, next)).is_ok());
    match Machine::new(alloc, tables) {
        Ok(machine) => machine,
        Err(_) => panic!(rt; "memory"),
    }
}

fn open(rt: &impl Abort, machine: &mut Machine) -> u64
    ensures mode { mode_of machine.new.state result ≡ Some SessionMode.NonOwner }
    ensures tables { machine.new.state.tables ≡ machine.old.state.tables }
{
    machine.open().expect(rt, "memory")
}

// The row, which has to be one for the table at this place.
fn row_in(rt: &impl Abort, machine: &Machine, place: u32, row: Row) -> Row
    requires { place < length machine.now.state.tables }
    ensures { IsRowFor (definitions machine.now.state.tables) place result }
{
    let table = machine.table(place);
    tables_are_valid(table);
    match fits(table.columns(), &row) {
        Ok(()) => row,
        Err(_) => panic!(rt; "the row does not fit"),
    }
}

// A check foretells what the insert behind it comes to. The last number is 2^62 - 1.
#[test]
fn numbers_of_rows_are_used_up(rt: HostRuntime) {
    let alloc = rt.alloc();
    let cases = [
        (1, Check::New, Some(1)),
        (5, Check::New, Some(5)),
        ((1 << 62) - 1, Check::New, Some((1 << 62) - 1)),
        (1 << 62, Check::Spent, None),
    ];
    for (next, wanted, number) in cases {
        let mut machine = numbered_from(&rt, alloc, next);
        let session = open(&rt, &mut machine);
        let row = row_of(&rt, alloc, &[Number(3), Text("a")]);
        let row = row_in(&rt, &machine, 0, row);
        assert_eq!(rt; machine.check(session, 0, &row), wanted);
        match machine.insert(session, 0, row) {
            Ok(added) => assert_eq!(rt; Some(added), number.map(Added::New)),
            Err((fault, row)) => {
                assert_eq!(rt; (fault, row.len(), number), (AddFault::Spent, 2, None));
            }
        }
    }
}

// Adds a row in a session of its own, which stays open.
fn add(rt: &impl Abort, alloc: Global, defs: &Defs, machine: &mut RecordedMachine) -> Added
    requires { definitions_of machine.old.log.seen ≡ defs.now }
    ensures { definitions_of machine.new.log.seen ≡ defs.now }
{
    assert!(rt; machine.begin().is_ok());
    let session = machine.open().expect(rt, "memory");
    assert!(rt; machine.begin().is_ok());
    let row = row_of(rt, alloc, &[Number(3), Text("a")]);
    let row = row_for(rt, defs, 0, row);
    let copy = row.copy(alloc).expect(rt, "memory");
    machine.insert(session, 0, row, copy).expect(rt, "a row")
}

// Looks in a new session, and tells its number and what it owns then.
fn look(
    rt: &impl Abort,
    alloc: Global,
    defs: &Defs,
    machine: &mut RecordedMachine,
) -> (u64, SessionMode)
    requires { definitions_of machine.old.log.seen ≡ defs.now }
    ensures is_open { IsOpenFor machine.new.log.seen 0 result.0 }
    ensures defined { definitions_of machine.new.log.seen ≡ defs.now }
{
    assert!(rt; machine.begin().is_ok());
    let session = machine.open().expect(rt, "memory");
    assert!(rt; machine.mode(session) == SessionMode::NonOwner);
    assert!(rt; machine.begin().is_ok());
    assert!(rt;
        machine
            .look(session, list_of(rt, alloc, defs, &[(0, "")]), true)
            .is_ok()
    );
    (session, machine.mode(session))
}

fn look_and_close(
    rt: &impl Abort,
    alloc: Global,
    defs: &Defs,
    machine: &mut RecordedMachine,
) -> SessionMode
    requires { definitions_of machine.old.log.seen ≡ defs.now }
    ensures { definitions_of machine.new.log.seen ≡ defs.now }
{
    let (session, mode) = look(rt, alloc, defs, machine);
    assert!(rt; machine.begin().is_ok());
    machine.close(session);
    mode
}

// A close gives the row back to its old place, and leaves those that other sessions own.
#[test]
fn owned_at_close(rt: HostRuntime) {
    let alloc = rt.alloc();
    let defs = defs_of(&rt, alloc, b"");
    let mut machine = RecordedMachine::new(alloc, &defs).expect(&rt, "memory");
    assert_eq!(rt;
        look_and_close(&rt, alloc, &defs, &mut machine),
        SessionMode::Empty
    );
    assert_eq!(rt; add(&rt, alloc, &defs, &mut machine), Added::New(1));
    assert_eq!(rt; add(&rt, alloc, &defs, &mut machine), Added::New(2));
    assert_eq!(rt;
        look_and_close(&rt, alloc, &defs, &mut machine),
        SessionMode::Owner(0, 1)
    );
    assert_eq!(rt;
        look(&rt, alloc, &defs, &mut machine),
        (5, SessionMode::Owner(0, 1))
    );
    assert_eq!(rt;
        look_and_close(&rt, alloc, &defs, &mut machine),
        SessionMode::Owner(0, 2)
    );
    assert_eq!(rt;
        look(&rt, alloc, &defs, &mut machine),
        (7, SessionMode::Owner(0, 2))
    );
    assert_eq!(rt;
        look_and_close(&rt, alloc, &defs, &mut machine),
        SessionMode::Empty
    );
}

// Whether the desk's table at this place keeps the condition.
fn keeps(rt: &impl Abort, alloc: Global, desk: &OneDesk, place: u32, text: &str) -> bool {
    assert!(rt; place < desk.defs().len());
    let table = desk.machine().table(place);
    tables_are_valid(table);
    match read(alloc, text, table.columns()) {
        Ok(cond) => table.kept(&cond),
        Err(_) => panic!(rt; "no condition"),
    }
}

// The next session, which is then the current one.
fn seat(rt: &impl Abort, desk: &mut OneDesk) -> u64
    ensures { desk.new.current ≡ Some result }
{
    desk.stand_up();
    desk.open(&()).expect(rt, "a session")
}

// Another session takes its seat.
fn sit(rt: &impl Abort, desk: &mut OneDesk, session: u64)
    ensures { IsSome desk.new.current }
{
    desk.stand_up();
    assert!(rt; desk.choose(session));
}

// Looks for a row of at least 5, and has to be answered so.
fn look_high(rt: &impl Abort, alloc: Global, desk: &mut OneDesk, wanted: Told)
    requires { IsSome desk.old.current }
    ensures { IsSome desk.new.current }
{
    assert!(rt; is_told(&wait(rt, alloc, desk, &[(0, "prio>=5")]), wanted));
}

// A thousand rows of 0 are added.
fn add_low(rt: &impl Abort, alloc: Global, desk: &mut OneDesk)
    requires { IsSome desk.old.current }
    ensures { IsSome desk.new.current }
{
    for number in 1..1_001 {
        let added = insert(rt, desk, 0, row_of(rt, alloc, &[Number(0), Text("")]));
        assert!(rt; is_told(&added, Told::Added(number)));
    }
}

// A look for a condition that a wait kept passes no row that is free for it, and finds one that is given back.
#[test]
fn looks_begin_at_cursors(rt: HostRuntime) {
    let alloc = rt.alloc();
    let mut desk = OneDesk::new(alloc, defs_of(&rt, alloc, b"")).expect(&rt, "memory");
    let first = seat(&rt, &mut desk);
    add_low(&rt, alloc, &mut desk);
    assert!(rt; !keeps(&rt, alloc, &desk, 0, "prio>=5"));
    look_high(&rt, alloc, &mut desk, Told::Nothing);
    assert!(rt; keeps(&rt, alloc, &desk, 0, "prio>=5"));
    assert!(rt; !keeps(&rt, alloc, &desk, 0, "prio>=6"));
    look_high(&rt, alloc, &mut desk, Told::Nothing);
    let added = insert(
        &rt,
        &mut desk,
        0,
        row_of(&rt, alloc, &[Number(9), Text("")]),
    );
    assert!(rt; is_told(&added, Told::Added(1_001)));
    look_high(&rt, alloc, &mut desk, Told::Found(1));
    assert!(rt; is_told(&owned(&rt, &mut desk), Told::Number(1_001)));
    let second = seat(&rt, &mut desk);
    look_high(&rt, alloc, &mut desk, Told::Nothing);
    sit(&rt, &mut desk, first);
    assert!(rt; is_told(&left(&rt, desk.abort(&())), Told::Done));
    sit(&rt, &mut desk, second);
    look_high(&rt, alloc, &mut desk, Told::Found(1));
    assert!(rt; is_told(&owned(&rt, &mut desk), Told::Number(1_001)));
}

// Each table keeps the conditions that are listed for it.
#[test]
fn waits_keep_their_conditions(rt: HostRuntime) {
    let alloc = rt.alloc();
    let mut desk = OneDesk::new(alloc, defs_of(&rt, alloc, TWO_TABLES)).expect(&rt, "memory");
    let _ = seat(&rt, &mut desk);
    let entries = [(0, "prio>=5"), (1, "prio<0"), (1, "body='a'"), (0, "")];
    assert!(rt; is_told(&wait(&rt, alloc, &mut desk, &entries), Told::Nothing));
    for (place, text) in entries {
        assert!(rt; keeps(&rt, alloc, &desk, place, text), "{text}");
    }
    for (place, text) in [(1, "prio>=5"), (0, "prio<0"), (0, "body='a'"), (1, "")] {
        assert!(rt; !keeps(&rt, alloc, &desk, place, text), "{text}");
    }
}

// Conditions are kept without a call's entry.
#[test]
fn two_tables_keep_conditions(rt: HostRuntime) {
    let alloc = rt.alloc();
    let defs = defs_of(&rt, alloc, TWO_TABLES);
    let mut machine = RecordedMachine::new(alloc, &defs).expect(&rt, "memory");
    let list = list_of(&rt, alloc, &defs, &[(1, "prio<0"), (0, "prio>=5"), (1, "")]);
    assert!(rt; machine.keep(&list).is_ok());
    assert_eq!(rt; machine.history().len(), 1);
    for listed in list.as_slice() {
        assert!(rt; listed.table < defs.len());
        assert!(rt; machine.machine().table(listed.table).kept(&listed.cond));
    }
}
