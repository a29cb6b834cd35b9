ghost use Rattle.std.specs.Prelude.{◌<◌, ◌^◌, List, length};
ghost use Rattle.q4_def.specs.declared.table_def.TableDef.{TableDef};
ghost use Rattle.q4_proto.specs.declared.keyword.Keyword.TheVariants as word;
ghost use Rattle.q4_proto.specs.Commands.{Reads, ReadsFields};

use crate::fields::{Fields, split_line};
use crate::insert::read_insert;
use crate::keyword::{Keyword, keyword_of};
use crate::select::read_select;
use crate::wait::read_wait;
use q4_cond::CondFault;
use q4_def::Defs;
use q4_machine::Looks;
use q4_value::{NoMemory, Row};
use std::alloc::Global;

/// A command that a line spells. Tables go by their places, from 0.
#[derive(Drop)]
pub enum Command {
    /// A row for this table.
    Insert(u32, Row),
    /// A wait for a row of this list, and its seconds.
    Wait(Looks, u32),
    RowId,
    End,
    Abort,
    /// The rows of this table, and at most so many.
    Select(u32, u32),
    Quit,
}

/// Why a line spells no command: the first check that it does not pass, in the order of this list. Fields are counted
/// from 1 behind the command's word, so are the entries of a wait, and columns are counted from 1.
#[derive(Clone, Copy, Debug, PartialEq, Eq)]
pub enum CommandFault {
    /// The line is not UTF-8.
    NotText,
    /// Its first field is no command's word.
    Unknown,
    /// The command is not built.
    NotBuilt,
    /// The command has too few or too many fields.
    Fields,
    /// This field is no canonical number, or one that is too large: seconds over 3,600, rows over 1,000.
    Number(u32),
    /// This field is the escaped spelling of no text.
    Escape(u32),
    /// There are more than 16 entries.
    Entries,
    /// This field names no table.
    NoTable(u32),
    /// The condition of this entry is refused.
    Cond(u32, CondFault),
    /// There are more or fewer values than columns, which is told.
    Count(u32),
    /// The value of this column is no canonical number of 64 bits, or a text over 65,535 bytes.
    Value(u32),
    /// The row's size exceeds 1,048,576 bytes.
    Long,
    Memory,
}

impl From<NoMemory> for CommandFault {
    ghost use Rattle.std.specs.Prelude.{◌≡◌};
    ghost use Rattle.q4_proto.specs.declared.command.CommandFault.TheVariants.{Memory};

    ghost from_gives = { λ _ fault. fault ≡ Memory };

    fn from(_fault: NoMemory) -> CommandFault {
        CommandFault::Memory
    }
}

// Lines have fewer bytes, so that each place in one is a number of 32 bits.
const LINE_LIMIT: usize = 4_194_304;

/// Reads one line, without its newline, for tables of these definitions. It wants memory for one of 4,194,304 bytes or
/// more, which `Lines` never gives.
pub fn read_command(alloc: Global, line: &[u8], defs: &Defs) -> Result<Command, CommandFault>
    ensures { Reads defs.now line.now result }
{
    if line.len() >= LINE_LIMIT {
        return Err(CommandFault::Memory);
    }
    let Ok(text) = std::str::from_utf8(line) else {
        return Err(CommandFault::NotText);
    };
    let (word, args) = split_line(text);
    match keyword_of(word) {
        Some(keyword) => read_fields(alloc, keyword, &args, defs),
        None => Err(CommandFault::Unknown),
    }
}

// Reads the fields behind the word.
fn read_fields(
    alloc: Global,
    keyword: Keyword,
    args: &Fields,
    defs: &Defs,
) -> Result<Command, CommandFault>
    requires { length args.now < 2 ^ 32 }
    ensures { ReadsFields defs.now keyword args.now result }
{
    match keyword {
        Keyword::Insert => read_insert(alloc, args, defs),
        Keyword::Wait => read_wait(alloc, args, defs),
        Keyword::RowId => read_row_id(args),
        Keyword::End => read_end(args),
        Keyword::Abort => read_abort(args),
        Keyword::Select => read_select(args, defs),
        Keyword::Quit => read_quit(args),
        Keyword::Source | Keyword::Compact => Err(CommandFault::NotBuilt),
    }
}

fn read_row_id(args: &Fields) -> Result<Command, CommandFault>
    ensures { (defs : List TableDef) → ReadsFields defs word.RowId args.now result }
{
    match args.again().next() {
        Some(_) => Err(CommandFault::Fields),
        None => Ok(Command::RowId),
    }
}

fn read_end(args: &Fields) -> Result<Command, CommandFault>
    ensures { (defs : List TableDef) → ReadsFields defs word.End args.now result }
{
    match args.again().next() {
        Some(_) => Err(CommandFault::Fields),
        None => Ok(Command::End),
    }
}

fn read_abort(args: &Fields) -> Result<Command, CommandFault>
    ensures { (defs : List TableDef) → ReadsFields defs word.Abort args.now result }
{
    match args.again().next() {
        Some(_) => Err(CommandFault::Fields),
        None => Ok(Command::Abort),
    }
}

fn read_quit(args: &Fields) -> Result<Command, CommandFault>
    ensures { (defs : List TableDef) → ReadsFields defs word.Quit args.now result }
{
    match args.again().next() {
        Some(_) => Err(CommandFault::Fields),
        None => Ok(Command::Quit),
    }
}
