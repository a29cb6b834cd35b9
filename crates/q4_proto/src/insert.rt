ghost use Rattle.std.specs.Prelude.{◌≡◌, ◌<◌, ◌≤◌, ◌^◌, length, All, IfOk, IfSome, IfNone};
ghost use Rattle.std.specs.Bool.{OnTrue, OnFalse};
ghost use Rattle.q4_proto.specs.declared.keyword.Keyword.TheVariants as word;
ghost use Rattle.q4_proto.specs.Fields.{IsSpelled, IsFirst};
ghost use Rattle.q4_proto.specs.Commands.{null_field, text_of_value, text_fields, ReadsFields};
ghost use Rattle.q4_proto.specs.Inner.{ReadsValues, ReadsValue};

use crate::fields::Fields;
use crate::{Command, CommandFault};
use q4_def::Defs;
use q4_value::{
    Column, EscapeFault, Kind, NoMemory, ROW_LIMIT, Row, TEXT_LIMIT, Value, is_escaped,
    parse_signed, row_size, unescape,
};
use std::alloc::Global;

// How null stands in the field of a value.
const NULL: &str = "\\N";

// Reads the fields of an insert: all their escapes first, then the table, the number of values, each value, and the
// row's size.
pub(crate) fn read_insert(
    alloc: Global,
    args: &Fields,
    defs: &Defs,
) -> Result<Command, CommandFault>
    requires { length args.now < 2 ^ 32 }
    ensures { ReadsFields defs.now word.Insert args.now result }
{
    let mut values = args.again();
    let Some(name) = values.next() else {
        return Err(CommandFault::Fields);
    };
    if let Some(field) = bad_escape(args) {
        return Err(CommandFault::Escape(field));
    }
    let Some(place) = defs.find(name) else {
        return Err(CommandFault::NoTable(1));
    };
    let Some(def) = defs.table(place) else {
        unreachable!()
    };
    let columns = def.columns.as_slice();
    if values.count() != columns.len() {
        return Err(CommandFault::Count(columns.len() as u32));
    }
    let row = match read_values(alloc, columns, &values) {
        Ok(row) => row,
        Err(fault) => return Err(fault),
    };
    if row_size(&row) > ROW_LIMIT {
        return Err(CommandFault::Long);
    }
    Ok(Command::Insert(place, row))
}

// The place, from 1, of the first field of an insert that has a bad escape. Null has none where it is a value.
fn bad_escape(args: &Fields) -> Option<u32>
    requires { length args.now < 2 ^ 32 }
    ensures some { IfSome result
        (λ place. IsFirst (λ f. IsSpelled f → ⊥) (text_fields word.Insert args.now) place) }
    ensures none { IfNone result (All IsSpelled (text_fields word.Insert args.now)) }
{
    let mut rest = args.again();
    let Some(name) = rest.next() else {
        return None;
    };
    if !is_escaped(name) {
        return Some(1);
    }
    let mut place = 1;
    while let Some(field) = rest.next() {
        place += 1;
        if !is_value_escaped(field) {
            return Some(place);
        }
    }
    None
}

// Whether the field of a value is null or the spelling of a text.
fn is_value_escaped(field: &str) -> bool
    ensures spelled { OnTrue result (IsSpelled (text_of_value field.now)) }
    ensures bad { OnFalse result (IsSpelled (text_of_value field.now) → ⊥) }
{
    if field == NULL {
        return true;
    }
    is_escaped(field)
}

// Reads a value for each column.
fn read_values(alloc: Global, columns: &[Column], values: &Fields) -> Result<Row, CommandFault>
    requires same { length values.now ≡ length columns.now }
    requires few { length columns.now ≤ 32 }
    ensures { ReadsValues columns.now values.now result }
{
    let mut rest = values.again();
    let mut row = Row::new(alloc);
    for (place, column) in columns.iter().enumerate() {
        let Some(field) = rest.next() else {
            unreachable!()
        };
        let Some(value) = read_value(alloc, column, field)? else {
            return Err(CommandFault::Value(place as u32 + 1));
        };
        match row.push(value) {
            Ok(()) => {}
            Err(_) => return Err(CommandFault::Memory),
        }
    }
    Ok(row)
}

// The value that the column takes and the field spells; none where it spells none.
fn read_value(alloc: Global, column: &Column, field: &str) -> Result<Option<Value>, NoMemory>
    ensures { IfOk result (ReadsValue column.now field.now) }
{
    if field == NULL {
        return Ok(null_of(column));
    }
    match column.kind {
        Kind::Int => match parse_signed(field.as_bytes()) {
            Some(number) => Ok(Some(Value::Int(number))),
            None => Ok(None),
        },
        Kind::Words => {
            let words = match unescape(alloc, field) {
                Ok(words) => words,
                Err(EscapeFault::BadEscape(_)) => return Ok(None),
                Err(EscapeFault::Memory) => return Err(NoMemory),
            };
            if words.as_str().len() > TEXT_LIMIT {
                return Ok(None);
            }
            Ok(Some(Value::Word(words)))
        }
    }
}

// Null, where the column takes it.
fn null_of(column: &Column) -> Option<Value>
    ensures { ReadsValue column.now null_field result }
{
    if column.optional {
        Some(Value::Null)
    } else {
        None
    }
}
