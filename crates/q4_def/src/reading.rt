ghost use Rattle.std.specs.Prelude.{◌≡◌, ◌↔◌, ◌+◌, ◌<◌, ◌≤◌, [], ◌∷◌, ◌++◌, map, length, Contains, IfOk, IfErr, OnOk, IsTrue};
ghost use Rattle.std.specs.List.{AllZip};
ghost use Rattle.toml.specs.Data.{Members};
ghost use Rattle.toml.specs.View.{view, table_view};
ghost use Rattle.q4_value.specs.Names.{IsColumnName, AreNamed};
ghost use Rattle.q4_def.specs.Tables.{built_in as built_in_tables, IsTableDef, AreDistinct, AreDefs, names_of};
ghost use Rattle.q4_def.specs.Document.{IsToml, Defines, Reads, column_text};
ghost use Rattle.q4_def.specs.Faults.{OrMemory, PartFails, ColumnFails, FirstColumnFails, IsHead, HeadFails, TableFails, FirstTableFails, ReadFails};

use crate::document::{entries_of, strings_of, tables_of};
use crate::name::{is_column_name, is_name};
use crate::{DefFault, Defs, TableDef};
use q4_value::{Column, Columns, Kind, NoMemory, Words};
use std::alloc::Global;
use toml::{Table, Value};

/// The most tables of a file.
const TABLE_LIMIT: usize = 16;

/// The most columns of a table.
const COLUMN_LIMIT: usize = 32;

/// The definitions that the bytes have, read with `toml`. No byte at all is the built-in table
/// `jobs` of the columns `prio int` and `body text`.
pub fn read_defs(alloc: Global, bytes: &[u8]) -> Result<Defs, DefFault>
    ensures defs { IfOk result (Reads bytes.now) }
    ensures well_formed { IfOk result AreDefs }
    ensures cause { IfErr result (ReadFails bytes.now) }
{
    if bytes.is_empty() {
        return Ok(Defs::from_tables(built_in(alloc)?));
    }
    let document = read_toml(alloc, bytes)?;
    let Some(tables) = tables_of(&document) else {
        return Err(DefFault::Shape(0));
    };
    if tables.len() > TABLE_LIMIT {
        return Err(DefFault::Count(0));
    }
    Ok(Defs::from_tables(read_tables(alloc, tables)?))
}

fn built_in(alloc: Global) -> Result<Vec<TableDef>, NoMemory>
    ensures { IfOk result (λ tables. tables.items ≡ built_in_tables) }
{
    let mut columns = Columns::new(alloc);
    push_column(&mut columns, new_column(alloc, "prio", Kind::Int, false)?)?;
    push_column(&mut columns, new_column(alloc, "body", Kind::Words, false)?)?;
    let mut tables = Vec::new(alloc);
    let name = Words::new(alloc, "jobs")?;
    push_table(&mut tables, TableDef { name, columns })?;
    Ok(tables)
}

fn new_column(alloc: Global, name: &str, kind: Kind, optional: bool) -> Result<Column, NoMemory>
    ensures { IfOk result
        (λ column. column ≡ record { name = name.now; kind = kind; optional = optional }) }
{
    Ok(Column {
        name: Words::new(alloc, name)?,
        kind,
        optional,
    })
}

fn push_column(columns: &mut Columns, column: Column) -> Result<(), NoMemory>
    ensures { OnOk result (columns.new ≡ columns.old ++ column ∷ []) }
{
    match columns.push(column) {
        Ok(()) => Ok(()),
        Err((_, fault)) => Err(fault),
    }
}

fn push_table(tables: &mut Vec<TableDef>, def: TableDef) -> Result<(), NoMemory>
    ensures { OnOk result (tables.new.items ≡ tables.old.items ++ def ∷ []) }
{
    match tables.push(def) {
        Ok(()) => Ok(()),
        Err(_) => Err(NoMemory),
    }
}

fn read_toml(alloc: Global, bytes: &[u8]) -> Result<Table, DefFault>
    ensures document { IfOk result (λ document. IsToml bytes.now (table_view document)) }
    ensures cause { IfErr result (OrMemory (λ why. (why ≡ DefFault.NotToml) × ((document : Members) → IsToml bytes.now document → ⊥))) }
{
    match toml::table_from_slice(alloc, bytes) {
        Ok(document) => Ok(document),
        Err(fault) if fault.is_memory() => Err(DefFault::Memory),
        Err(_) => Err(DefFault::NotToml),
    }
}

fn read_tables(alloc: Global, members: &[Value]) -> Result<Vec<TableDef>, DefFault>
    requires { length members.now ≤ 16 }
    ensures defs { IfOk result (λ tables. AllZip Defines (map view members.now) tables.items) }
    ensures distinct { IfOk result (λ tables. AreDistinct tables.items) }
    ensures cause { IfErr result (OrMemory (FirstTableFails (map view members.now))) }
{
    let mut tables = Vec::new(alloc);
    for member in members {
        let def = read_table(alloc, member, &tables)?;
        push_table(&mut tables, def)?;
    }
    Ok(tables)
}

// The table behind the earlier ones.
fn read_table(alloc: Global, member: &Value, earlier: &[TableDef]) -> Result<TableDef, DefFault>
    requires { length earlier.now < 16 }
    ensures defines { IfOk result (Defines (view member.now)) }
    ensures def { IfOk result IsTableDef }
    ensures fresh { IfOk result (λ def. Contains (names_of earlier.now) def.name → ⊥) }
    ensures cause { IfErr result (OrMemory (TableFails (names_of earlier.now) (view member.now) (length earlier.now + 1))) }
{
    let table = earlier.len() as u32 + 1;
    let Some((name, columns)) = entries_of(member) else {
        return Err(DefFault::Shape(table));
    };
    let Some(texts) = strings_of(alloc, columns)? else {
        return Err(DefFault::Shape(table));
    };
    check_head(earlier, name, texts.len(), table)?;
    let name = Words::new(alloc, name)?;
    let columns = read_columns(alloc, &texts, table)?;
    Ok(TableDef { name, columns })
}

// What of a table is looked at before its columns.
fn check_head(earlier: &[TableDef], name: &str, columns: usize, table: u32) -> Result<(), DefFault>
    ensures head { OnOk result (IsHead (names_of earlier.now) name.now columns) }
    ensures cause { IfErr result (HeadFails (names_of earlier.now) name.now columns table) }
{
    if !is_name(name) {
        return Err(DefFault::BadName(table, 0));
    }
    if has_table(earlier, name) {
        return Err(DefFault::Twice(table, 0));
    }
    if columns == 0 || columns > COLUMN_LIMIT {
        return Err(DefFault::Count(table));
    }
    Ok(())
}

fn has_table(defs: &[TableDef], name: &str) -> bool
    ensures { IsTrue result ↔ Contains (names_of defs.now) name.now }
{
    defs.iter().any(|def| def.name.as_str() == name)
}

fn has_column(columns: &[Column], name: &str) -> bool
    ensures { IsTrue result ↔ Contains (map (λ column. column.name) columns.now) name.now }
{
    columns.iter().any(|column| column.name.as_str() == name)
}

fn read_columns(alloc: Global, texts: &[&str], table: u32) -> Result<Columns, DefFault>
    requires { length texts.now ≤ 32 }
    ensures columns { IfOk result (λ columns. map (λ text. text.now) texts.now ≡ map column_text columns) }
    ensures named { IfOk result AreNamed }
    ensures cause { IfErr result (OrMemory (FirstColumnFails (map (λ text. text.now) texts.now) table)) }
{
    let mut columns = Columns::new(alloc);
    for text in texts {
        let column = read_column(alloc, text, columns.as_slice(), table)?;
        push_column(&mut columns, column)?;
    }
    Ok(columns)
}

// The column behind the earlier ones of its table.
fn read_column(
    alloc: Global,
    text: &str,
    earlier: &[Column],
    table: u32,
) -> Result<Column, DefFault>
    requires { length earlier.now < 32 }
    ensures column { IfOk result (λ column. text.now ≡ column_text column) }
    ensures named { IfOk result (λ column. IsColumnName column.name) }
    ensures fresh { IfOk result (λ column. Contains (map (λ c. c.name) earlier.now) column.name → ⊥) }
    ensures cause { IfErr result (OrMemory (ColumnFails earlier.now text.now table (length earlier.now + 1))) }
{
    let place = earlier.len() as u32 + 1;
    let (name, kind, optional) = split_column(text, table, place)?;
    if has_column(earlier, name) {
        return Err(DefFault::Twice(table, place));
    }
    Ok(new_column(alloc, name, kind, optional)?)
}

// The name and the kind of a column, which has this place, and whether it is optional.
fn split_column(text: &str, table: u32, place: u32) -> Result<(&str, Kind, bool), DefFault>
    ensures column { IfOk result (λ parts. text.now
        ≡ column_text (record { name = parts.0.now; kind = parts.1; optional = parts.2 })) }
    ensures named { IfOk result (λ parts. IsColumnName parts.0.now) }
    ensures cause { IfErr result (PartFails text.now table place) }
{
    let (name, words) = match text.split_once(' ') {
        Some((name, words)) => (name, words),
        None => (text, ""),
    };
    if !is_column_name(name) {
        return Err(DefFault::BadName(table, place));
    }
    match words {
        "int" => Ok((name, Kind::Int, false)),
        "text" => Ok((name, Kind::Words, false)),
        "int null" => Ok((name, Kind::Int, true)),
        "text null" => Ok((name, Kind::Words, true)),
        _ => Err(DefFault::BadKind(table, place)),
    }
}
