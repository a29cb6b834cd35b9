ghost use Rattle.std.specs.Prelude.{◌≡◌, ◌↔◌, ◌≤◌, ◌+◌, ◌∷◌, ◌++◌, ◌⊎◌, ℕ, Bool, false, List, [], Ok, Err, length, IsTrue, IfOk, IfErr, IfSome, IfNone};
ghost use Rattle.std.specs.Int.{w32, to_be_bytes};
ghost use Rattle.q4_table.specs.TableState.{TableState};
ghost use Rattle.q4_table.specs.Valid.{IsColumns};
ghost use Rattle.q4_record.specs.declared.side.SideFault.{SideFault as Fault};
ghost use Rattle.q4_record.specs.Schema.{IsSchema};
ghost use Rattle.q4_record.specs.Replay.{at_batches};
ghost use Rattle.q4_record.specs.Side.{side_limit, OwnSide, Side, IsNarrow};
ghost use Rattle.q4_record.specs.Faults.{EndsInBatch, SideFails};
ghost use Rattle.q4_record.specs.Parts.{IsReady};
ghost use Rattle.q4_record.specs.SideParts.{BaseRead, BaseFailed, BatchesRead, BatchesFailed};

use crate::fields::take_length;
use crate::header::{BASE_AT, Format, GENERATION_LIMIT, SIDE_LIMIT, read_header};
use crate::replay::{Replay, Stage};
use crate::schema::read_schema;
use q4_table::Table;
use q4_value::{Columns, NoMemory};
use std::alloc::Global;

/// Why the bytes of a side stand for no table. Places are counted from 0 in the side's bytes.
#[derive(Clone, Copy, Debug, PartialEq, Eq)]
pub enum SideFault {
    /// The gate, the first byte, is not 1, or there are fewer than 21 bytes.
    Closed,
    /// The part that begins at this place is no part of a side: the header at 0, a record, a batch at its gate, or,
    /// at the end of the base, its next record.
    Damaged(u64),
    /// The schema neither is that of the columns nor is narrower: at this column first, counted from 1, or behind the
    /// last one.
    Schema(u32),
    /// A limit is passed: 1 more than 250,000 rows, 2 more than 33,554,432 bytes of rows, 3 a next number over 2^62,
    /// 4 a text of more than 65,535 bytes, 5 a row of more than 1,048,576 bytes, 6 a side of more than 536,870,912
    /// bytes, 7 a generation over 2^62, or one of 2^62 where the schema is narrower, 8 no room for the end of each
    /// row within the bytes of a side.
    Large(u32),
    /// Memory was wanted and could not be had.
    Memory,
}

impl From<NoMemory> for SideFault {
    ghost use Rattle.std.specs.Prelude.{◌≡◌};
    ghost use Rattle.q4_record.specs.declared.side.SideFault.TheVariants.{Memory};

    ghost from_gives = { λ _ fault. fault ≡ Memory };

    fn from(_fault: NoMemory) -> SideFault {
        SideFault::Memory
    }
}

/// Reads a side: the table of these columns that its records lead to, which nobody owns a row of, its generation, the
/// length up to and with the closing gate, and whether its own schema is narrower than the columns. The bytes behind that
/// gate are ignored. Where the schema is narrower, columns that take null now took none when the side was written; its
/// rows stand as they are, and nothing may be appended to it.
pub fn read_side(
    alloc: Global,
    bytes: &[u8],
    columns: Columns,
) -> Result<(Table, u64, u64, bool), SideFault>
    requires columns { IsColumns columns }
    requires schema { IsSchema columns }

    // What is read is a side.
    ensures side { IfOk result (λ found. Side columns bytes.now found.0.state found.1 found.2) }
    // Where its schema is not narrower it is of these very columns.
    ensures own { IfOk result (λ found. (found.3 ≡ false) → OwnSide columns bytes.now found.0.state found.1 found.2) }
    ensures narrow { IfOk result (λ found. IsTrue found.3 ↔ IsNarrow columns bytes.now) }
    // The table keeps no condition.
    ensures kept { IfOk result (λ found. found.0.kept ≡ []) }
    // A side is read, unless memory runs out.
    ensures read { (table : TableState) (generation len : ℕ) → Side columns bytes.now table generation len
        → ((narrow : Bool) × (result ≡ Ok (record { state = table; kept = [] }, generation, len, narrow))) ⊎ (result ≡ Err SideFault.Memory) }
    // Else the first part from the front that does not stand is told.
    ensures fault { IfErr result (SideFails columns bytes.now) }
    // Where bytes are no side that is told, unless memory runs out.
    ensures told { (why : Fault) → SideFails columns bytes.now why → (result ≡ Err why) ⊎ (result ≡ Err SideFault.Memory) ⊎ (why ≡ SideFault.Memory) }
{
    read_parts(alloc, bytes, columns)
}

// The same, part by part.
fn read_parts(
    alloc: Global,
    bytes: &[u8],
    columns: Columns,
) -> Result<(Table, u64, u64, bool), SideFault>
    requires { IsColumns columns }
    ensures side { IfOk result (λ found. Side columns bytes.now found.0.state found.1 found.2) }
    ensures own { IfOk result (λ found. (found.3 ≡ false) → OwnSide columns bytes.now found.0.state found.1 found.2) }
    ensures narrow { IfOk result (λ found. IsTrue found.3 ↔ IsNarrow columns bytes.now) }
    ensures kept { IfOk result (λ found. found.0.kept ≡ []) }
    ensures fault { IfErr result (SideFails columns bytes.now) }
{
    let header = read_header(bytes)?;
    let (table, wider) = read_base(alloc, header.format, header.base, columns)?;
    let at = BASE_AT + header.base.len();
    let (mut table, len) = read_batches(alloc, table, header.behind, at)?;
    if len + 32 * u64::from(table.count()) > SIDE_LIMIT as u64 {
        return Err(SideFault::Large(8));
    }
    let Some(columns) = wider else {
        return Ok((table, header.generation, len, false));
    };
    if header.generation == GENERATION_LIMIT {
        return Err(SideFault::Large(7));
    }
    table.widen(columns);
    Ok((table, header.generation, len, true))
}

// The table of a side's own columns that a base leads to, and the columns given where they are wider than these.
fn read_base(
    alloc: Global,
    format: Format,
    base: &[u8],
    columns: Columns,
) -> Result<(Table, Option<Columns>), SideFault>
    requires columns { IsColumns columns }
    requires few { length base.now ≤ side_limit }
    ensures base { IfOk result (λ found. BaseRead format columns base.now found.0.state found.1) }
    ensures ready { IfOk result (λ found. IsReady (at_batches found.0.state)) }
    ensures kept { IfOk result (λ found. found.0.kept ≡ []) }
    ensures fault { IfErr result (BaseFailed format columns base.now) }
{
    let at = BASE_AT as u64;
    let schema = read_schema(alloc, format, columns, base, at)?;
    let begin = at + (base.len() - schema.records.len()) as u64;
    let mut replay = Replay {
        stage: Stage::Rows,
        table: Table::new(alloc, schema.own),
    };
    replay.read_section(alloc, schema.records, begin)?;
    match replay.stage {
        Stage::Whole => Ok((replay.table, schema.wider)),
        Stage::Rows | Stage::Marks(_) | Stage::Batch => {
            Err(SideFault::Damaged(at + base.len() as u64))
        }
    }
}

// The table that the batches behind a base lead to, and the length of the side. They begin at this place.
fn read_batches(
    alloc: Global,
    table: Table,
    bytes: &[u8],
    at: usize,
) -> Result<(Table, u64), SideFault>
    requires ready { IsReady (at_batches table.state) }
    requires few { at + length bytes.now ≤ side_limit }
    requires gate { 1 ≤ length bytes.now }
    ensures read { IfOk result (λ found. BatchesRead table.state bytes.now at found.0.state found.1) }
    ensures kept { IfOk result (λ found. found.0.kept ≡ table.kept) }
    ensures fault { IfErr result (BatchesFailed table.state bytes.now at) }
{
    let mut replay = Replay {
        stage: Stage::Batch,
        table,
    };
    let mut rest = bytes;
    while let Some(more) = behind_gate(rest) {
        let place = (at + (bytes.len() - rest.len())) as u64;
        let Some((records, after)) = split_batch(more) else {
            return Err(SideFault::Damaged(place));
        };
        replay.read_section(alloc, records, place + 5)?;
        rest = after;
    }
    let len = at + (bytes.len() - rest.len()) + 1;
    Ok((replay.table, len as u64))
}

// What is behind the gate at the front, if it is open.
fn behind_gate(bytes: &[u8]) -> Option<&[u8]>
    ensures is_open { IfSome result (λ more. bytes.now ≡ 1 ∷ more.now) }
    ensures closed { IfNone result ((more : List ℕ) → bytes.now ≡ 1 ∷ more → ⊥) }
{
    match bytes {
        [1, more @ ..] => Some(more),
        _ => None,
    }
}

// A batch's records, and what is behind them, which is at least one byte.
fn split_batch(bytes: &[u8]) -> Option<(&[u8], &[u8])>
    ensures read { IfSome result (λ found. bytes.now ≡ to_be_bytes w32 (length found.0.now) ++ found.0.now ++ found.1.now) }
    ensures more { IfSome result (λ found. 1 ≤ length found.1.now) }
    ensures ends { IfNone result (EndsInBatch bytes.now) }
{
    let (len, rest) = take_length(bytes)?;
    if rest.len() <= len {
        return None;
    }
    Some(rest.split_at(len))
}
