ghost use Rattle.std.specs.Prelude.{◌≡◌, ◌<◌, ◌≤◌, [], false, None, Some, length, IfOk, IfErr, OnOk, OnErr, option_and_then};
ghost use Rattle.std.specs.Option.{option_copied, ForSome};
ghost use Rattle.q4_value.specs.Row.{AreWider, Fits};
ghost use Rattle.q4_cond.specs.Reading.{kinds_of};
ghost use Rattle.q4_table.specs.TableState.{new_table};
ghost use Rattle.q4_table.specs.Cursors.{is_kept, begin_of, with_kept, end_of_look, with_moved, with_lowered};
ghost use Rattle.q4_table.specs.Rows.{values_in, owner_in, IsThere, IsUnowned, IsOwned, with_owner, without_row, least_from, bytes_of};
ghost use Rattle.q4_table.specs.Marks.{mark_of, with_mark};
ghost use Rattle.q4_table.specs.Oldest.{oldest_meeting, IsAsked};
ghost use Rattle.q4_table.specs.Adding.{number_limit, source_limit, IsOrigin, was_seen as number_was_seen, check_of, room_for, IsAdded, IsRefused, with_added};
ghost use Rattle.q4_table.specs.Valid.{IsColumns};
ghost use Rattle.q4_table.specs.Passed.{IsValidView};

use crate::adding::{AddFault, Added, Check};
use crate::cursors::Cursors;
use crate::marks::{Mark, Marks};
use crate::origin::{Mode, Origin};
use crate::rows::{Rows, StoredRow};
use q4_cond::{Cond, Steps};
use q4_value::{Column, Columns, NoMemory, Row, row_size};
use std::alloc::Global;
use std::marker::Model;
use std::sync::ledger::Ledger;

// Row numbers stay below this one.
const NUMBER_LIMIT: u64 = 1 << 62;

// The most rows of a table.
const COUNT_LIMIT: usize = 250_000;

// The most bytes of a table's rows together.
const BYTES_LIMIT: u64 = 33_554_432;

/// A table: its columns, its rows by rising number, each with its owner, the number that the next row gets, and the
/// marks of the sources that rows came from. Beside them it keeps conditions, at most 64, each with a cursor at which a
/// look for it begins. A contract sees the table of the rules, `state`, and apart from it what is `kept`.
#[derive(Drop)]
pub struct Table {
    columns: Columns,
    next: u64,
    rows: Rows,
    marks: Marks,
    /// The sum of the rows' sizes.
    bytes: u64,
    cursors: Cursors,
}

impl Model for Table {
    ghost use Rattle.std.specs.Prelude.{◌≡◌};
    ghost use Rattle.q4_table.specs.Cursors.{TableView};
    ghost use Rattle.q4_table.specs.Rows.{bytes_of};
    ghost use Rattle.q4_table.specs.Passed.{IsValidView};
    ghost use Rattle.q4_table.specs.contracts.cursors.Cursors as watching;
    ghost use Rattle.std.specs.Coded.{codes};

    ghost Value = { TableView };

    ghost coded = { Prim.hlevel (codes, watching.the_row.coded) };

    ghost view = { λ t. record { state = record { columns = t.columns; next = t.next; rows = t.rows; marks = t.marks }; kept = t.cursors } };

    ghost invariant = { λ t. record {
      valid : IsValidView (record { state = record { columns = t.columns; next = t.next; rows = t.rows; marks = t.marks }; kept = t.cursors });
      sum : t.bytes ≡ bytes_of t.rows;
    } };
}

/// A law: every table is valid, and what it keeps with it.
pub fn tables_are_valid(table: &Table)
    ensures { IsValidView table.now }
{
    let _next = table.next;
}

// Whether the number of the origin was seen before, at this mark of its source.
fn was_seen(origin: Origin, mark: u64) -> bool
    ensures { result ≡ number_was_seen origin.mode origin.number mark }
{
    match origin.mode {
        Mode::A => origin.number <= mark,
        Mode::W => false,
    }
}

impl Table {
    /// A table of these columns, without a row or a mark. It takes no memory.
    pub fn new(alloc: Global, columns: Columns) -> Table
        requires { IsColumns columns }
        ensures { result ≡ record { state = new_table columns; kept = [] } }
    {
        Table {
            columns,
            next: 1,
            rows: Rows::new(alloc),
            marks: Marks::new(alloc),
            bytes: 0,
            cursors: Cursors::new(alloc),
        }
    }

    /// What adding the row would come to. In this order: the row was seen before, the row numbers are used up, the
    /// table has 250,000 rows, its rows have too many bytes; else the row would be added.
    pub fn check(&self, row: &Row, origin: Option<Origin>) -> Check
        requires row { Fits self.now.state.columns row.now }
        requires origin { ForSome origin IsOrigin }
        ensures { result ≡ check_of self.now.state row.now origin }
    {
        if let Some(origin) = origin {
            let mark = self.mark(origin.source);
            if was_seen(origin, mark) {
                return Check::Seen(mark);
            }
        }
        self.check_room(row)
    }

    // Whether there is room for the row: a number, a place and bytes.
    fn check_room(&self, row: &Row) -> Check
        requires { Fits self.now.state.columns row.now }
        ensures { result ≡ room_for self.now.state row.now }
    {
        if self.next == NUMBER_LIMIT {
            Check::Spent
        } else if self.rows.len() == COUNT_LIMIT {
            Check::Rows
        } else if self.bytes + row_size(row) > BYTES_LIMIT {
            Check::Bytes(self.bytes)
        } else {
            Check::New
        }
    }

    /// Adds a row behind the others, unowned, with the next number. The origin's number becomes the mark of its
    /// source. It answers what `check` says, or that it wants memory for a new row. A refusal gives the row back;
    /// neither it nor `Seen` changes anything.
    pub fn add(&mut self, row: Row, origin: Option<Origin>) -> Result<Added, (AddFault, Row)>
        requires row { Fits self.old.state.columns row }
        requires origin { ForSome origin IsOrigin }
        ensures added { IfOk result (IsAdded (check_of self.old.state row origin) self.old.state.next) }
        ensures table { IfOk result (λ added. self.new ≡ record self.old { state = with_added self.old.state row origin added }) }
        ensures refused { IfErr result (λ fault. IsRefused (check_of self.old.state row origin) fault.0) }
        ensures given_back { IfErr result (λ fault. fault.1 ≡ row) }
        ensures kept { OnErr result (self.new ≡ self.old) }
    {
        match self.check(&row, origin) {
            Check::New => self.add_new(row, origin),
            Check::Seen(mark) => Ok(Added::Seen(mark)),
            Check::Spent => Err((AddFault::Spent, row)),
            Check::Rows => Err((AddFault::Rows, row)),
            Check::Bytes(sum) => Err((AddFault::Bytes(sum), row)),
        }
    }

    // Adds a row that there is room for.
    fn add_new(&mut self, row: Row, origin: Option<Origin>) -> Result<Added, (AddFault, Row)>
        requires row { Fits self.old.state.columns row }
        requires origin { ForSome origin IsOrigin }
        requires room { room_for self.old.state row ≡ Check.New }
        ensures added { IfOk result (λ added. added ≡ Added.New self.old.state.next) }
        ensures table { IfOk result (λ added. self.new ≡ record self.old { state = with_added self.old.state row origin added }) }
        ensures refused { IfErr result (λ fault. fault.0 ≡ AddFault.Memory) }
        ensures given_back { IfErr result (λ fault. fault.1 ≡ row) }
        ensures kept { OnErr result (self.new ≡ self.old) }
    {
        let size = row_size(&row);
        let number = self.next;
        let stored = StoredRow {
            number,
            row,
            owner: None,
        };
        if let Err((stored, NoMemory)) = self.rows.push(stored) {
            return Err((AddFault::Memory, stored.row));
        }
        if self.marks.note(origin).is_err() {
            return Err((AddFault::Memory, self.rows.remove(number).row));
        }
        self.next += 1;
        self.bytes += size;
        Ok(Added::New(number))
    }

    /// Keeps a condition on rows of these columns, as the newest: it stays at its cursor, or a look for it begins at row 1.
    /// Of 65 the one that was kept longest ago goes. A refusal changes nothing, and a condition that is kept is not refused.
    pub fn keep(&mut self, cond: &Cond) -> Result<(), NoMemory>
        requires { cond.now.kinds ≡ kinds_of self.old.state.columns }
        ensures kept { OnOk result (self.new ≡ record self.old { kept = with_kept cond.now.tree self.old.kept }) }
        ensures unchanged { OnErr result (self.new ≡ self.old) }
        ensures again { OnErr result (is_kept self.old.kept cond.now.tree ≡ false) }
    {
        self.cursors.keep(cond)
    }

    /// Whether the condition is kept.
    pub fn kept(&self, cond: &Cond) -> bool
        ensures { result ≡ is_kept self.now.kept cond.now.tree }
    {
        self.cursors.has(cond)
    }

    /// The number of the oldest row that nobody owns and that meets the condition, which is one on rows of these
    /// columns. It asks at most once of each row that nobody owns, from the condition's cursor, or row 1 where it is not
    /// kept, up to the row that it finds. The cursor then stands at that row, or at the next row to come where none was
    /// found. It takes no memory.
    pub fn oldest<L: Ledger>(&mut self, cond: &Cond, steps: &mut Steps<L>) -> Option<u64>
        requires { cond.now.kinds ≡ kinds_of self.old.state.columns }
        ensures oldest { result ≡ oldest_meeting self.old.state.rows cond.now.tree }
        ensures moved { self.new ≡ record self.old { kept = with_moved cond.now.tree (end_of_look self.old.state result) self.old.kept } }
        ensures asked { IsAsked self.old.state.rows (begin_of self.old.kept cond.now.tree) result steps.old steps.new }
    {
        let from = self.cursors.begin_of(cond);
        let found = self.rows.oldest(from, cond, steps);
        self.cursors.move_to(cond, found.unwrap_or(self.next));
        found
    }

    /// Makes a session the owner of a row that nobody owns.
    pub fn own(&mut self, number: u64, session: u64)
        requires { IsUnowned self.old.state.rows number }
        ensures { self.new ≡ record self.old { state = record self.old.state { rows = with_owner number (Some session) self.old.state.rows } } }
    {
        self.rows.set_owner(number, Some(session));
    }

    /// Takes the owner from a row, which has its old place again. Each cursor above its number is lowered to it.
    pub fn release(&mut self, number: u64)
        requires { IsOwned self.old.state.rows number }
        ensures { self.new ≡ record { state = record self.old.state { rows = with_owner number None self.old.state.rows }; kept = with_lowered number self.old.kept } }
    {
        self.rows.set_owner(number, None);
        self.cursors.lower(number);
    }

    /// Removes a row.
    pub fn end(&mut self, number: u64)
        requires { IsThere self.old.state.rows number }
        ensures { self.new ≡ record self.old { state = record self.old.state { rows = without_row number self.old.state.rows } } }
    {
        let stored = self.rows.remove(number);
        self.bytes -= row_size(&stored.row);
    }

    /// The least row number that is at least this one.
    pub fn live_from(&self, number: u64) -> Option<u64>
        ensures { result ≡ least_from self.now.state.rows number }
    {
        self.rows.least_from(number)
    }

    /// The values of the row with this number, if there is one.
    pub fn row(&self, number: u64) -> Option<&Row>
        ensures { option_copied result ≡ values_in self.now.state.rows number }
    {
        let stored = self.rows.get(number)?;
        Some(&stored.row)
    }

    /// The session that owns the row with this number, if there is such a row and it has an owner.
    pub fn owner(&self, number: u64) -> Option<u64>
        ensures { result ≡ owner_in self.now.state.rows number }
    {
        let stored = self.rows.get(number)?;
        stored.owner
    }

    /// The mark of a source, 0 where no row came from it. Sources are at most 63.
    pub fn mark(&self, source: u8) -> u64
        requires { source < source_limit }
        ensures { result ≡ mark_of self.now.state.marks source }
    {
        self.marks.of(source)
    }

    /// The number that the next row gets. Numbers start at 1, and at 2^62 they are used up.
    pub fn next(&self) -> u64
        ensures { result ≡ self.now.state.next }
    {
        self.next
    }

    /// How many rows there are.
    pub fn count(&self) -> u32
        ensures { result ≡ length self.now.state.rows }
    {
        self.rows.len() as u32
    }

    /// The sum of the rows' sizes in bytes.
    pub fn bytes(&self) -> u64
        ensures { result ≡ bytes_of self.now.state.rows }
    {
        self.bytes
    }

    /// The columns in order.
    pub fn columns(&self) -> &[Column]
        ensures { result.now ≡ self.now.state.columns }
    {
        self.columns.as_slice()
    }

    /// Sets the mark of a source, for a table that is read from a file. A refusal changes nothing.
    pub fn set_mark(&mut self, source: u8, number: u64) -> Result<(), NoMemory>
        requires source { source < source_limit }
        requires positive { 1 ≤ number }
        requires number { number < number_limit }
        ensures set { OnOk result (self.new ≡ record self.old { state = record self.old.state { marks = with_mark source number self.old.state.marks } }) }
        ensures kept { OnErr result (self.new ≡ self.old) }
    {
        self.marks.set(Mark { source, number })
    }

    /// Raises the number that the next row gets, for a table that is read from a file.
    pub fn set_next(&mut self, number: u64)
        requires rises { self.old.state.next ≤ number }
        requires limit { number ≤ number_limit }
        ensures { self.new ≡ record self.old { state = record self.old.state { next = number } } }
    {
        self.next = number;
    }

    /// Gives the table wider columns: those that take what its own take, and maybe null.
    pub fn widen(&mut self, columns: Columns)
        requires { AreWider columns self.old.state.columns }
        ensures { self.new ≡ record self.old { state = record self.old.state { columns = columns } } }
    {
        self.columns = columns;
    }

    /// The same table, in memory of its own.
    pub fn copy(&self, alloc: Global) -> Result<Table, NoMemory>
        ensures { IfOk result (λ table. table ≡ self.now) }
    {
        Ok(Table {
            columns: self.columns.copy(alloc)?,
            next: self.next,
            rows: self.rows.copy(alloc)?,
            marks: self.marks.copy(alloc)?,
            bytes: self.bytes,
            cursors: self.cursors.copy(alloc)?,
        })
    }
}
