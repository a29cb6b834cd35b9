ghost use Rattle.std.specs.Prelude.{◌≡◌, ◌≢◌, ◌<◌, ◌≤◌, ◌^◌, ℕ, List, Some, length, All, IfSome, IfNone};
ghost use Rattle.std.specs.Option.{option_copied};
ghost use Rattle.std.specs.Bool.{OnTrue, OnFalse};
ghost use Rattle.q4_proto.specs.declared.keyword.Keyword.TheVariants as word;
ghost use Rattle.q4_proto.specs.Fields.{IsSpelled, IsFirst};
ghost use Rattle.q4_proto.specs.Commands.{ReadsFields, seconds_of, entries_of, IsSeconds, IsNoNumber, IsOfNoTable};
ghost use Rattle.q4_proto.specs.Inner.{IsCut, ReadsEntry, ReadsEntries};

use crate::fields::Fields;
use crate::number::number_up_to;
use crate::{Command, CommandFault};
use q4_cond::{CondFault, read};
use q4_def::Defs;
use q4_machine::{Listed, Looks};
use q4_value::{EscapeFault, unescape};
use std::alloc::Global;

// A wait has at most so many entries.
const MOST_ENTRIES: usize = 16;

// A wait lasts at most so many seconds.
const MOST_SECONDS: u32 = 3_600;

// How long a wait lasts whose line has no seconds.
const DEFAULT_SECONDS: u32 = 60;

// Reads the fields of a wait: the seconds first, then all escapes, the number of entries, all their tables, and each
// entry's condition.
pub(crate) fn read_wait(alloc: Global, args: &Fields, defs: &Defs) -> Result<Command, CommandFault>
    requires { length args.now < 2 ^ 32 }
    ensures { ReadsFields defs.now word.Wait args.now result }
{
    let (entries, digits) = split_seconds(args);
    let count = entries.count();
    if count == 0 {
        return Err(CommandFault::Fields);
    }
    let Some(seconds) = read_seconds(digits) else {
        return Err(CommandFault::Number(args.count() as u32));
    };
    if let Some(field) = entries.bad_escape() {
        return Err(CommandFault::Escape(field));
    }
    if count > MOST_ENTRIES {
        return Err(CommandFault::Entries);
    }
    if let Some(field) = unknown_table(&entries, defs) {
        return Err(CommandFault::NoTable(field));
    }
    match read_entries(alloc, &entries, defs) {
        Ok(list) => Ok(Command::Wait(list, seconds)),
        Err(fault) => Err(fault),
    }
}

// The entries, and what stands behind the `=` of a last field that begins with one.
fn split_seconds<'a>(args: &Fields<'a>) -> (Fields<'a>, Option<&'a str>)
    ensures entries { result.0 ≡ entries_of args.now }
    ensures seconds { option_copied result.1 ≡ seconds_of args.now }
{
    let Some((front, last)) = args.split_last() else {
        return (args.again(), None);
    };
    match last.strip_prefix('=') {
        Some(digits) => (front, Some(digits)),
        None => (args.again(), None),
    }
}

// The seconds that the digits spell, or the default where there are none.
fn read_seconds(digits: Option<&str>) -> Option<u32>
    ensures found { IfSome result (λ seconds. IsSeconds (option_copied digits.entry) seconds) }
    ensures none { IfNone result ((text : List ℕ) × (option_copied digits.entry ≡ Some text) × IsNoNumber 3600 text) }
{
    match digits {
        Some(digits) => number_up_to(digits, MOST_SECONDS),
        None => Some(DEFAULT_SECONDS),
    }
}

// The place, from 1, of the first entry whose table is not defined.
fn unknown_table(entries: &Fields, defs: &Defs) -> Option<u32>
    requires few { length entries.now < 2 ^ 32 }
    requires spelled { All IsSpelled entries.now }
    ensures some { IfSome result (λ place. IsFirst (IsOfNoTable defs.now word.Wait) entries.now place) }
    ensures none { IfNone result (All (λ f. IsOfNoTable defs.now word.Wait f → ⊥) entries.now) }
{
    let mut rest = entries.again();
    let mut place = 0;
    while let Some(field) = rest.next() {
        place += 1;
        if !names_table(field, defs) {
            return Some(place);
        }
    }
    None
}

// Whether the entry names a table. No name has an escape, so the field is not unescaped for this.
fn names_table(field: &str, defs: &Defs) -> bool
    requires { IsSpelled field.now }
    ensures named { OnTrue result (IsOfNoTable defs.now word.Wait field.now → ⊥) }
    ensures unknown { OnFalse result (IsOfNoTable defs.now word.Wait field.now) }
{
    let (name, _) = split_entry(field);
    defs.find(name).is_some()
}

// The name of an entry's table, and the text of its condition.
fn split_entry(entry: &str) -> (&str, &str)
    ensures { IsCut entry.now result.0.now result.1.now }
{
    match entry.split_once(':') {
        Some((name, text)) => (name, text),
        None => (entry, ""),
    }
}

// Reads the entries, each of which names a table.
fn read_entries(alloc: Global, entries: &Fields, defs: &Defs) -> Result<Looks, CommandFault>
    requires few { length entries.now ≤ 16 }
    requires spelled { All IsSpelled entries.now }
    requires named { All (λ f. IsOfNoTable defs.now word.Wait f → ⊥) entries.now }
    ensures { ReadsEntries defs.now entries.now result }
{
    let mut rest = entries.again();
    let mut list = Looks::new(alloc);
    let mut place = 0;
    while let Some(field) = rest.next() {
        place += 1;
        let listed = match read_entry(alloc, field, defs) {
            Ok(listed) => listed,
            Err(CondFault::Memory) => return Err(CommandFault::Memory),
            Err(fault) => return Err(CommandFault::Cond(place, fault)),
        };
        if list.push(listed.table, listed.cond).is_err() {
            return Err(CommandFault::Memory);
        }
    }
    Ok(list)
}

// Reads one entry, which names a table.
fn read_entry(alloc: Global, field: &str, defs: &Defs) -> Result<Listed, CondFault>
    requires spelled { IsSpelled field.now }
    requires named { IsOfNoTable defs.now word.Wait field.now → ⊥ }
    ensures { ReadsEntry defs.now field.now result }
{
    let entry = match unescape(alloc, field) {
        Ok(entry) => entry,
        Err(EscapeFault::BadEscape(_)) => unreachable!(),
        Err(EscapeFault::Memory) => return Err(CondFault::Memory),
    };
    let (name, text) = split_entry(entry.as_str());
    let Some(table) = defs.find(name) else {
        unreachable!()
    };
    let Some(def) = defs.table(table) else {
        unreachable!()
    };
    match read(alloc, text, def.columns.as_slice()) {
        Ok(cond) => Ok(Listed { table, cond }),
        Err(fault) => Err(fault),
    }
}
