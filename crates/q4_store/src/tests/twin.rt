ghost use Rattle.std.specs.Prelude.{◌≡◌};
ghost use Rattle.std.specs.Option.{ForSome};
ghost use Rattle.q4_value.specs.Row.{Fits};
ghost use Rattle.q4_table.specs.Adding.{IsOrigin};
ghost use Rattle.q4_table.specs.Owners.{without_owners};
ghost use Rattle.q4_store.specs.Content.{Content, table_of};
ghost use Rattle.q4_store.specs.Store.{StandsFor};

use super::acts::{Act, Answer, Want};
use super::record_size;
use crate::{CopyFault, Store};
use q4_def::read_defs;
use q4_disk::{Disk, DiskFailed};
use q4_table::{Check, Origin, Table};
use q4_value::{Column, Kind, Row, Value, Words, fits};
use std::alloc::Global;
use std::marker::Model;
use std::process::Abort;

// A store and the table that it stands for, as long as it has not failed.
#[derive(Drop)]
pub struct Twin<D: Disk> {
    alloc: Global,
    store: Store<D>,
    table: Table,
    whole: bool,
}

impl<D: Disk> Model for Twin<D> {
    ghost use Rattle.std.specs.Prelude.{◌≡◌, Bool, false, IsTrue};
    ghost use Rattle.q4_store.specs.Content.{Content, table_of};
    ghost use Rattle.q4_store.specs.Store.{StandsFor};

    ghost Value = { Bool };

    ghost view = { λ t. t.whole };

    ghost invariant = { λ t. IsTrue t.whole → (t.store.failed ≡ false) × ((content : Content) × StandsFor D.told t.store content × (table_of content ≡ t.table.state)) };
}

impl<D: Disk> Twin<D> {
    // Opens the first of the tables that the text defines.
    pub fn open(rt: &impl Abort, alloc: Global, disk: D, text: &str) -> Twin<D> {
        let Ok(defs) = read_defs(alloc, text.as_bytes()) else {
            panic!(rt; "no definitions")
        };
        let Some(def) = defs.table(0) else {
            panic!(rt; "no definition")
        };
        match Store::open(alloc, disk, def) {
            Ok((store, table)) => Twin {
                alloc,
                store,
                table,
                whole: true,
            },
            Err((fault, _disk)) => panic!(rt; "{fault}"),
        }
    }

    pub fn store(&self) -> &Store<D> {
        &self.store
    }

    pub fn give_back(self) -> D {
        let Twin { store, .. } = self;
        store.give_back()
    }

    // Asserts that it is this.
    pub fn assert_is(&self, rt: &impl Abort, want: &Want, name: &str) {
        assert_eq!(rt; self.store.generation(), want.generation, "{name}");
        assert_eq!(rt; self.store.length(), want.length, "{name}");
        assert_eq!(rt; self.table.next(), want.next, "{name}");
        for number in 0..=want.next {
            assert_eq!(rt;
                first_value(&self.table, number),
                want.value(number),
                "{name} {number}"
            );
        }
        for source in 0..64 {
            assert_eq!(rt;
                self.table.mark(source),
                want.mark(source),
                "{name} {source}"
            );
        }
    }
}

fn first_value(table: &Table, number: u64) -> Option<i64> {
    match table.row(number)?.at(0)? {
        Value::Int(value) => Some(*value),
        Value::Word(_) | Value::Null => None,
    }
}

// The calls.
impl<D: Disk> Twin<D> {
    // Makes these calls, and asserts what each is answered.
    pub fn play(&mut self, rt: &impl Abort, acts: &[(Act, Answer)], name: &str) {
        for (place, (act, want)) in acts.iter().enumerate() {
            assert_eq!(rt; self.make(rt, *act), *want, "{name} {place}");
        }
    }

    // Makes these calls up to the first that the disk fails, and gives its place and what it is answered.
    pub fn play_to_fault(
        &mut self,
        rt: &impl Abort,
        acts: &[(Act, Answer)],
    ) -> Option<(usize, Answer)> {
        for (place, (act, want)) in acts.iter().enumerate() {
            let answer = self.make(rt, *act);
            if answer != *want {
                return Some((place, answer));
            }
        }
        None
    }

    pub fn make(&mut self, rt: &impl Abort, act: Act) -> Answer {
        assert!(rt; self.whole);
        match act {
            Act::Add(count) => self.add_rows(rt, count),
            Act::Forward(source, mode, number) => {
                let origin = Origin {
                    source,
                    mode,
                    number,
                };
                self.add(rt, Some(origin));
                Answer::Done
            }
            Act::End(first, last) => self.end_rows(rt, first, last),
            Act::Commit => self.commit(rt),
            Act::Begin => self.begin(rt),
            Act::Piece(most) => self.piece(rt, most),
            Act::Finish => self.finish(rt),
        }
    }

    fn add_rows(&mut self, rt: &impl Abort, count: u64) -> Answer {
        for _ in 0..count {
            self.add(rt, None);
        }
        Answer::Done
    }

    fn end_rows(&mut self, rt: &impl Abort, first: u64, last: u64) -> Answer {
        for number in first..=last {
            self.end(rt, number);
        }
        Answer::Done
    }

    // Adds a row, of the next number.
    fn add(&mut self, rt: &impl Abort, origin: Option<Origin>) {
        assert!(rt; self.whole);
        check_origin(rt, origin);
        let number = self.table.next();
        let row = row_of(rt, self.alloc, self.table.columns(), number);
        let Check::New = self.table.check(&row, origin) else {
            panic!(rt; "{number} is refused")
        };
        same_columns(&self.store, &self.table);
        assert!(rt; self.store.columns().len() <= 32);
        let size = record_size(self.store.columns(), &row, origin);
        let Ok(()) = self.store.reserve(size, self.store.rows()) else {
            panic!(rt; "no room")
        };
        self.store.append_row(number, &row, origin);
        let Ok(_) = self.table.add(row, origin) else {
            panic!(rt; "no memory")
        };
    }

    fn end(&mut self, rt: &impl Abort, number: u64) {
        assert!(rt; self.whole);
        assert!(rt; self.store.rows() >= 1);
        assert!(rt; self.table.row(number).is_some(), "no row {number}");
        self.store.append_end(number);
        self.table.end(number);
    }

    fn commit(&mut self, rt: &impl Abort) -> Answer {
        assert!(rt; self.whole);
        match self.store.commit() {
            Ok(()) => Answer::Done,
            Err(DiskFailed) => {
                self.whole = false;
                Answer::Failed
            }
        }
    }

    fn begin(&mut self, rt: &impl Abort) -> Answer {
        assert!(rt; self.whole);
        assert!(rt; self.store.generation() < 1 << 62);
        assert!(rt; self.store.copying().is_none());
        match self.store.compact_begin() {
            Ok(()) => Answer::Done,
            Err(fault) => Answer::Fault(fault),
        }
    }

    fn piece(&mut self, rt: &impl Abort, most: u32) -> Answer {
        assert!(rt; self.whole);
        assert!(rt; most >= 1);
        assert!(rt; self.store.copying().is_some());
        nobody_owns(&self.store, &self.table);
        match self.store.compact_piece(&self.table, most) {
            Ok(false) => Answer::More,
            Ok(true) => Answer::Last,
            Err(fault) => Answer::Fault(fault),
        }
    }

    fn finish(&mut self, rt: &impl Abort) -> Answer {
        assert!(rt; self.whole);
        assert!(rt; self.store.copying().is_some());
        nobody_owns(&self.store, &self.table);
        match self.store.compact_finish(&self.table) {
            Ok(generation) => Answer::Generation(generation),
            Err(CopyFault::Unsure) => {
                self.whole = false;
                Answer::Fault(CopyFault::Unsure)
            }
            Err(fault) => Answer::Fault(fault),
        }
    }
}

// A law: nobody owns a row of the table that a store stands for.
fn nobody_owns<D: Disk>(_store: &Store<D>, _table: &Table)
    ensures { (content : Content) → StandsFor D.told _store.now content → table_of content ≡ _table.now.state → table_of content ≡ without_owners _table.now.state }
{}

// A law: a store spells rows by the columns of its table.
fn same_columns<D: Disk>(_store: &Store<D>, _table: &Table)
    ensures { (content : Content) → StandsFor D.told _store.now content → table_of content ≡ _table.now.state → _store.now.columns ≡ _table.now.state.columns }
{}

fn check_origin(rt: &impl Abort, origin: Option<Origin>)
    ensures { ForSome origin IsOrigin }
{
    if let Some(origin) = origin {
        assert!(rt; origin.source < 64);
        assert!(rt; origin.number >= 1);
        assert!(rt; origin.number < 1 << 62);
    }
}

// A row of these columns: each number is this one, and each text is `a`. Where this one is even, an optional column has
// null.
fn row_of(rt: &impl Abort, alloc: Global, columns: &[Column], number: u64) -> Row
    ensures { Fits columns.now result }
{
    assert!(rt; columns.len() <= 32);
    let mut row = Row::new(alloc);
    for column in columns {
        let value = value_of(rt, alloc, column, number);
        assert!(rt; row.push(value).is_ok());
    }
    match fits(columns, &row) {
        Ok(()) => row,
        Err(fault) => panic!(rt; "{fault:?}"),
    }
}

fn value_of(rt: &impl Abort, alloc: Global, column: &Column, number: u64) -> Value {
    if column.optional && number % 2 == 0 {
        return Value::Null;
    }
    match column.kind {
        Kind::Int => Value::Int(i64::try_from(number).expect(rt, "a row's number")),
        Kind::Words => Value::Word(Words::new(alloc, "a").expect(rt, "memory")),
    }
}
