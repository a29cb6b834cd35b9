ghost use Rattle.std.specs.Prelude.{◌≡◌, ◌==◌, ◌++◌, ◌∷◌, [], true, false, List, Some, map, take, filter, is_none, IfOk};
ghost use Rattle.q4_value.specs.declared.row.Value.{Value};
ghost use Rattle.q4_table.specs.Rows.{IsThere, owner_in, values_in};
ghost use Rattle.q4_table.specs.Valid.{IsValidTable};
ghost use Rattle.q4_machine.specs.Step.{numbered};

use crate::{NumberedRow, Rows};
use q4_table::Table;
use q4_value::NoMemory;
use std::alloc::Global;

// The first rows of the table, at most so many, that nobody owns.
pub(crate) fn unowned_rows(alloc: Global, table: &Table, most: u32) -> Result<Rows, NoMemory>
    requires { IsValidTable table.now.state }
    ensures { IfOk result (λ rows. rows ≡ map numbered (take most (filter (λ r. is_none r.owner) table.now.state.rows))) }
{
    let mut rows = Rows::new(alloc);
    let mut cursor = 1;
    while rows.len() < most {
        let Some(number) = table.live_from(cursor) else {
            return Ok(rows);
        };
        push_unowned(alloc, table, number, &mut rows)?;
        cursor = number + 1;
    }
    Ok(rows)
}

// The row with this number, or none where none is asked for.
pub(crate) fn shown_row(
    alloc: Global,
    table: &Table,
    number: u64,
    most: u32,
) -> Result<Rows, NoMemory>
    requires valid { IsValidTable table.now.state }
    requires there { IsThere table.now.state.rows number }
    ensures { IfOk result (λ rows. rows ≡ map numbered (take most (filter (λ r. r.number == number) table.now.state.rows))) }
{
    let mut rows = Rows::new(alloc);
    if most == 0 {
        return Ok(rows);
    }
    push_row(alloc, table, number, &mut rows)?;
    Ok(rows)
}

// Puts the row with this number at the end where nobody owns it.
fn push_unowned(alloc: Global, table: &Table, number: u64, rows: &mut Rows) -> Result<(), NoMemory>
    requires { IsThere table.now.state.rows number }
    ensures free { IfOk result (λ _. is_none (owner_in table.now.state.rows number) ≡ true → (row : List Value) × (values_in table.now.state.rows number ≡ Some row) × (rows.new ≡ rows.old ++ record { number = number; row = row } ∷ [])) }
    ensures owned { IfOk result (λ _. is_none (owner_in table.now.state.rows number) ≡ false → rows.new ≡ rows.old) }
{
    if table.owner(number).is_none() {
        push_row(alloc, table, number, rows)?;
    }
    Ok(())
}

// Puts the row with this number at the end.
fn push_row(alloc: Global, table: &Table, number: u64, rows: &mut Rows) -> Result<(), NoMemory>
    requires { IsThere table.now.state.rows number }
    ensures { IfOk result (λ _. (row : List Value) × (values_in table.now.state.rows number ≡ Some row) × (rows.new ≡ rows.old ++ record { number = number; row = row } ∷ [])) }
{
    let Some(row) = table.row(number) else {
        unreachable!()
    };
    let shown = NumberedRow {
        number,
        row: row.copy(alloc)?,
    };
    match rows.push(shown) {
        Ok(()) => Ok(()),
        Err((_, fault)) => Err(fault),
    }
}
