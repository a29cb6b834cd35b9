// How far a copy has come, and the ends that wait for it.

ghost use Rattle.std.specs.Prelude.{◌≡◌, ◌==◌, ◌+◌, ◌++◌, ◌≤◌, ◌↔◌, true, [], ◌∷◌, IfOk, OnOk, length, map, vec_capacity, if◌then◌else◌};
ghost use Rattle.q4_record.specs.Record.{records_bytes};
ghost use Rattle.q4_record.specs.Schema.{IsSchema, schema_bytes};
ghost use Rattle.q4_record.specs.Side.{base_at};
ghost use Rattle.q4_record.specs.Written.{row_record, mark_record};
ghost use Rattle.q4_store.specs.Copied.{cursor_after, rows_from, taken, piece_bytes, rest_records};
ghost use Rattle.q4_store.specs.Looking.{header_bytes};
ghost use Rattle.q4_store.specs.Store.{ends_with};

use crate::limit::BASE_AT;
use q4_record::{put_insert, put_mark, put_next, put_schema, spell_end};
use q4_table::{Table, tables_are_valid};
use q4_value::{Bytes, NoMemory};
use std::alloc::Global;

/// How far a copy of a table has come: the rows below the cursor are copied, and the next write goes to this place.
#[derive(Clone, Copy)]
pub(crate) struct Progress {
    pub cursor: u64,
    pub at: u64,
}

/// Puts the end of a row behind the others where a copy has the row.
pub(crate) fn put_waiting(ends: &mut Vec<u8>, copy: Option<Progress>, number: u64)
    requires { length ends.old.items + 9 ≤ vec_capacity ends.old }
    ensures items { ends.new.items ≡ ends_with copy ends.old.items number }
    ensures capacity { vec_capacity ends.old ≤ vec_capacity ends.new }
    ensures few { length ends.new.items ≤ length ends.old.items + 9 }
{
    match copy {
        Some(progress) if number < progress.cursor => spell_end(number, ends),
        _ => {}
    }
}

/// What a piece writes, and the cursor behind its rows.
#[derive(Drop)]
pub(crate) struct Piece {
    pub bytes: Bytes,
    pub cursor: u64,
}

/// Gathers a piece of a copy: the schema where it has none yet, the ends that wait, and the next rows, at most so many.
pub(crate) fn gather(
    alloc: Global,
    table: &Table,
    progress: Progress,
    most: u32,
    ends: &[u8],
) -> Result<Piece, NoMemory>
    requires schema { IsSchema table.now.state.columns }
    requires most { 1 ≤ most }
    ensures bytes { IfOk result (λ piece. piece.bytes ≡ piece_bytes (progress.at == base_at) table.now.state.columns ends.now (map (row_record table.now.state.columns) (taken most progress.cursor table.now.state))) }
    ensures cursor { IfOk result (λ piece. piece.cursor ≡ cursor_after progress.cursor (taken most progress.cursor table.now.state)) }
{
    let mut bytes = Bytes::new(alloc);
    if progress.at == BASE_AT && table.live_from(progress.cursor).is_some() {
        put_schema(table.columns(), &mut bytes)?;
    }
    bytes.push(ends)?;
    let cursor = put_rows(table, progress.cursor, most, &mut bytes)?;
    Ok(Piece { bytes, cursor })
}

// Puts the records of the next rows from the cursor on, at most so many, and gives the cursor behind them.
fn put_rows(table: &Table, cursor: u64, most: u32, out: &mut Bytes) -> Result<u64, NoMemory>
    ensures cursor { IfOk result (λ after. after ≡ cursor_after cursor (taken most cursor table.now.state)) }
    ensures put { OnOk result (out.new ≡ out.old ++ records_bytes (map (row_record table.now.state.columns) (taken most cursor table.now.state))) }
{
    tables_are_valid(table);
    let mut cursor = cursor;
    let mut left = most;
    while left > 0 {
        let Some(number) = table.live_from(cursor) else {
            return Ok(cursor);
        };
        let Some(row) = table.row(number) else {
            unreachable!()
        };
        put_insert(table.columns(), number, row, None, out)?;
        cursor = number + 1;
        left -= 1;
    }
    Ok(cursor)
}

/// Whether no row is left from a cursor on.
pub(crate) fn none_left(table: &Table, cursor: u64) -> bool
    ensures { (result ≡ true) ↔ (rows_from cursor table.now.state.rows ≡ []) }
{
    tables_are_valid(table);
    table.live_from(cursor).is_none()
}

/// Gathers what is left of a copy: the schema where it has none yet, the ends that wait, the rows from the cursor on, the
/// marks, the next number and a closed gate.
pub(crate) fn gather_rest(
    alloc: Global,
    table: &Table,
    progress: Progress,
    ends: &[u8],
) -> Result<Bytes, NoMemory>
    requires schema { IsSchema table.now.state.columns }
    ensures { IfOk result (λ bytes. bytes ≡ piece_bytes (progress.at == base_at) table.now.state.columns ends.now (rest_records progress.cursor table.now.state) ++ 0 ∷ []) }
{
    let mut bytes = begin(alloc, table, progress.at == BASE_AT)?;
    bytes.push(ends)?;
    put_rows(table, progress.cursor, table.count(), &mut bytes)?;
    put_marks(table, &mut bytes)?;
    put_next(table.next(), &mut bytes)?;
    bytes.push(&[0])?;
    Ok(bytes)
}

// The schema, where a copy has no record yet, and else nothing.
fn begin(alloc: Global, table: &Table, bare: bool) -> Result<Bytes, NoMemory>
    requires schema { IsSchema table.now.state.columns }
    ensures { IfOk result (λ bytes. bytes ≡ (if bare then schema_bytes table.now.state.columns else [])) }
{
    let mut bytes = Bytes::new(alloc);
    if bare {
        put_schema(table.columns(), &mut bytes)?;
    }
    Ok(bytes)
}

// Puts the records of the marks, by rising source.
fn put_marks(table: &Table, out: &mut Bytes) -> Result<(), NoMemory>
    ensures { OnOk result (out.new ≡ out.old ++ records_bytes (map mark_record table.now.state.marks)) }
{
    tables_are_valid(table);
    for source in 0..64u8 {
        let number = table.mark(source);
        if number > 0 {
            put_mark(source, number, out)?;
        }
    }
    Ok(())
}

/// The magic, a generation, and the length of a base.
pub(crate) fn header_of(generation: u64, length: u64) -> [u8; 20]
    ensures { result ≡ header_bytes generation length }
{
    let [i, j, k, l, m, n, o, p] = generation.to_be_bytes();
    let [a, b, c, d, e, f, g, h] = length.to_be_bytes();
    [
        b'Q', b'4', b'O', b'2', i, j, k, l, m, n, o, p, a, b, c, d, e, f, g, h,
    ]
}
