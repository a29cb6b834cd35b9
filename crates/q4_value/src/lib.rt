//! Values and rows of queue tables, as every other crate speaks of them.
#![tactic(auto)]

mod bytes;
mod column;
mod columns;
mod escaping;
mod fit;
mod laws;
mod number;
mod reading;
mod row;
mod words;
mod writing;

pub use bytes::Bytes;
pub use column::{Column, Kind};
pub use columns::Columns;
pub use escaping::{EscapeFault, escape, is_escaped, unescape};
pub use fit::{ROW_LIMIT, RowFault, fits, row_size};
pub use laws::{escape_laws, fit_laws, row_laws, wider_laws};
pub use number::{parse_signed, parse_unsigned};
pub use reading::{RowBytes, read_row};
pub use row::{Row, TEXT_LIMIT, Value};
pub use words::Words;
pub use writing::put_row;

/// Memory was wanted and could not be had.
#[derive(Clone, Copy, Debug, PartialEq, Eq)]
pub struct NoMemory;

#[cfg(test)]
mod tests;
