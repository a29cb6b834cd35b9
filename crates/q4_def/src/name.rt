//! Names of tables and columns.

ghost use Rattle.std.specs.Prelude.{◌↔◌, IsTrue};
ghost use Rattle.q4_value.specs.Names.{IsNameByte, IsName, IsColumnName};

// The most bytes of a name.
const NAME_LIMIT: usize = 64;

/// Whether the text is a table's name: 1 to 64 characters of a to z, 0 to 9 and `_`, the first a
/// letter.
pub fn is_name(text: &str) -> bool
    ensures { IsTrue result ↔ IsName text.now }
{
    let bytes = text.as_bytes();
    let Some(first) = bytes.first() else {
        return false;
    };
    first.is_ascii_lowercase()
        && bytes.len() <= NAME_LIMIT
        && bytes.iter().all(|byte| is_name_byte(*byte))
}

fn is_name_byte(byte: u8) -> bool
    ensures { IsTrue result ↔ IsNameByte byte }
{
    byte.is_ascii_lowercase() || byte.is_ascii_digit() || byte == b'_'
}

/// Whether the text is a column's name: one of a table, and none of the words `and`, `or` and
/// `not`, which conditions have.
pub fn is_column_name(text: &str) -> bool
    ensures { IsTrue result ↔ IsColumnName text.now }
{
    is_name(text) && !matches!(text, "and" | "or" | "not")
}
