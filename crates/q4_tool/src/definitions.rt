ghost use Rattle.std.specs.Prelude.{◌≡◌, ◌≤◌, ◌<◌, ◌⊎◌, Err, IsTrue, IfOk, string_bytes};
ghost use Rattle.q4_flow.specs.Flow.{Rose};
ghost use Rattle.q4_tool.specs.declared.definitions.Undefined.TheVariants as undefined;
ghost use Rattle.q4_tool.specs.Definitions.{Comes, fault_line, placed_line};

use q4_def::{DefFault, Defs, read_defs};
use q4_flow::{AllFault, Source, read_all};
use std::alloc::{AllocError, Global};

/// The most bytes of a file of definitions.
const DEFINITIONS_LIMIT: u64 = 1_048_576;

/// Why there are no definitions.
#[derive(Clone, Copy, Debug, PartialEq, Eq)]
pub(crate) enum Undefined {
    /// The bytes have this fault.
    Faulty(DefFault),
    /// More than 1,048,576 bytes came.
    TooLong,
    ReadFault,
    Memory,
}

/// The definitions that all bytes of the source are.
pub(crate) fn read_definitions<F: Source>(alloc: Global, source: &mut F) -> Result<Defs, Undefined>
    ensures comes { Comes (F.left source.old) (F.left source.new) (IsTrue (F.ended source.new)) (Rose (F.faults source.old) (F.faults source.new)) result }
    ensures later { F.faults source.old ≤ F.faults source.new }
    ensures stayed { (F.faults source.new ≡ F.faults source.old) ⊎ (result ≡ Err undefined.ReadFault) }
{
    let bytes = match read_all(alloc, source, DEFINITIONS_LIMIT) {
        Ok(bytes) => bytes,
        Err(AllFault::TooLong) => return Err(Undefined::TooLong),
        Err(AllFault::ReadFault) => return Err(Undefined::ReadFault),
        Err(AllFault::Memory) => return Err(Undefined::Memory),
    };
    match read_defs(alloc, bytes.as_slice()) {
        Ok(defs) => Ok(defs),
        Err(DefFault::Memory) => Err(Undefined::Memory),
        Err(fault) => Err(Undefined::Faulty(fault)),
    }
}

/// The line of a fault.
pub(crate) fn fault_line(alloc: Global, fault: DefFault) -> Result<String, AllocError>
    ensures { IfOk result (λ line. string_bytes line ≡ fault_line fault) }
{
    match fault {
        DefFault::NotToml => String::from_str(alloc, "definitions: not toml\n"),
        DefFault::Shape(table) => format!(in alloc; "definitions: shape {table}\n"),
        DefFault::Count(table) => format!(in alloc; "definitions: count {table}\n"),
        DefFault::BadName(table, column) => placed_line(alloc, "bad name", table, column),
        DefFault::Twice(table, column) => placed_line(alloc, "twice", table, column),
        DefFault::BadKind(table, column) => placed_line(alloc, "bad kind", table, column),
        DefFault::Memory => String::from_str(alloc, "definitions: out of memory\n"),
    }
}

// The line of a fault at a column.
fn placed_line(alloc: Global, words: &str, table: u32, column: u32) -> Result<String, AllocError>
    ensures { IfOk result (λ line. string_bytes line ≡ placed_line words.now table column) }
{
    let mut line = format!(in alloc; "definitions: {words} {table}")?;
    write!(line, " {column}\n")?;
    Ok(line)
}
