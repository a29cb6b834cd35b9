ghost use Rattle.std.specs.Prelude.{◌≡◌};
ghost use Rattle.q4_value.specs.Spelling.{optional_count as count_of_optional};
ghost use Rattle.q4_record.specs.Extents.{IsValueExtent, IsCellExtent, IsRowExtent};

use crate::fields::{take_length, take_signed};
use q4_value::{Column, Kind};

// The most bytes of a text in a row.
const TEXT_LIMIT: usize = 65_535;

/// What bytes hold in the place of a value or of a row.
#[derive(Clone, Copy)]
pub enum Extent {
    /// It is there, and takes so many bytes.
    Whole(usize),
    /// The bytes end within it.
    Cut,
    /// A flag in it is neither 0 nor 1, or a text in it is not UTF-8.
    Unreadable,
}

/// How many of the columns are optional. Each adds its flag to the bytes of a row, and nothing to the row's size.
pub fn optional_count(columns: &[Column]) -> usize
    ensures { result ≡ count_of_optional columns.now }
{
    let mut count = 0;
    for column in columns {
        if column.optional {
            count += 1;
        }
    }
    count
}

/// How far the row of these columns at the front goes whose texts may be of any length, and whether one of those that
/// begin there is told to be longer than a text may be.
pub fn row_extent(columns: &[Column], bytes: &[u8]) -> (Extent, bool)
    ensures { IsRowExtent columns.now bytes.now result.0 result.1 }
{
    let mut rest = bytes;
    let mut long = false;
    for column in columns {
        let (extent, cell_long) = cell_extent(column, rest);
        long = long || cell_long;
        match extent {
            Extent::Whole(len) => rest = rest.split_at(len).1,
            Extent::Cut => return (Extent::Cut, long),
            Extent::Unreadable => return (Extent::Unreadable, long),
        }
    }
    (Extent::Whole(bytes.len() - rest.len()), long)
}

// The same for the value of one column, with the flag in front of it where the column is optional.
fn cell_extent(column: &Column, bytes: &[u8]) -> (Extent, bool)
    ensures { IsCellExtent column.now bytes.now result.0 result.1 }
{
    if !column.optional {
        return value_extent(column.kind, bytes);
    }
    let [flag, rest @ ..] = bytes else {
        return (Extent::Cut, false);
    };
    match *flag {
        0 => (Extent::Whole(1), false),
        1 => {
            let (extent, long) = value_extent(column.kind, rest);
            match extent {
                Extent::Whole(len) => (Extent::Whole(1 + len), long),
                Extent::Cut => (Extent::Cut, long),
                Extent::Unreadable => (Extent::Unreadable, long),
            }
        }
        _ => (Extent::Unreadable, false),
    }
}

// The same for a number or a text.
fn value_extent(kind: Kind, bytes: &[u8]) -> (Extent, bool)
    ensures { IsValueExtent kind bytes.now result.0 result.1 }
{
    match kind {
        Kind::Int => match take_signed(bytes) {
            Some(_) => (Extent::Whole(8), false),
            None => (Extent::Cut, false),
        },
        Kind::Words => text_extent(bytes),
    }
}

fn text_extent(bytes: &[u8]) -> (Extent, bool)
    ensures { IsValueExtent Kind.Words bytes.now result.0 result.1 }
{
    let Some((len, rest)) = take_length(bytes) else {
        return (Extent::Cut, false);
    };
    let long = len > TEXT_LIMIT;
    if rest.len() < len {
        return (Extent::Cut, long);
    }
    let (text, _) = rest.split_at(len);
    match std::str::from_utf8(text) {
        Ok(_) => (Extent::Whole(4 + len), long),
        Err(_) => (Extent::Unreadable, long),
    }
}
