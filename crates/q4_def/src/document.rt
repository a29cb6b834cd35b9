//! The form of a document of definitions.

ghost use Rattle.std.specs.Prelude.{◌≡◌, ◌↔◌, ℕ, List, map, IfOk, IfSome, IfNone, IsTrue, MatchOption};
ghost use Rattle.toml.specs.Data.{Data, string};
ghost use Rattle.toml.specs.View.{view, table_view};
ghost use Rattle.q4_def.specs.Document.{HasOnly, HasTables, HasEntries};

use q4_value::NoMemory;
use std::alloc::Global;
use toml::{Table, Value};

// The members of the array `table`, where that is the document's one key and the array is not empty.
pub(crate) fn tables_of(document: &Table) -> Option<&[Value]>
    ensures tables { IfSome result (λ tables. HasTables (table_view document.now) (map view tables.now)) }
    ensures none { IfNone result ((tables : List Data) → HasTables (table_view document.now) tables → ⊥) }
{
    if !has_only(document, &["table"]) {
        return None;
    }
    let tables = document.get("table")?.as_array()?;
    if tables.is_empty() {
        return None;
    }
    Some(tables.as_slice())
}

// The name and the columns of a table of the document, where these are its keys, a string and an array.
pub(crate) fn entries_of(member: &Value) -> Option<(&str, &[Value])>
    ensures entries { IfSome result (λ e. HasEntries (view member.now) e.0.now (map view e.1.now)) }
    ensures none { IfNone result ((name : List ℕ) (columns : List Data) → HasEntries (view member.now) name columns → ⊥) }
{
    let entries = member.as_table()?;
    if !has_only(entries, &["name", "columns"]) {
        return None;
    }
    let name = entries.get("name")?.as_str()?;
    let columns = entries.get("columns")?.as_array()?;
    Some((name, columns.as_slice()))
}

// Whether each key of the table is one of these.
fn has_only(table: &Table, keys: &[&str]) -> bool
    ensures { IsTrue result ↔ HasOnly (map (λ key. key.now) keys.now) (table_view table.now) }
{
    table.keys().all(|key| keys.contains(&key.as_str()))
}

// The strings that the values are, where each is one.
pub(crate) fn strings_of(alloc: Global, values: &[Value]) -> Result<Option<Vec<&str>>, NoMemory>
    ensures { IfOk result (λ found. MatchOption found ((texts : List (List ℕ)) → map view values.now ≡ map string texts → ⊥)
        (λ texts. map view values.now ≡ map string (map (λ text. text.now) texts.items))) }
{
    let mut strings = Vec::new(alloc);
    for value in values {
        let Some(text) = value.as_str() else {
            return Ok(None);
        };
        if strings.push(text).is_err() {
            return Err(NoMemory);
        }
    }
    Ok(Some(strings))
}
