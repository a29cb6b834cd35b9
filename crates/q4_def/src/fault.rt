ghost use Rattle.std.specs.Prelude.{◌≡◌};
ghost use Rattle.q4_def.specs.declared.fault.DefFault.TheVariants.{Memory};

use q4_value::NoMemory;
use thiserror::Error;

/// Why a file has no definitions. Tables and columns are counted from 1, and column 0 is the
/// table's own name. The first fault in the order of the file is told; of one table those of its
/// own go before those of its columns.
#[derive(Clone, Copy, Debug, Drop, PartialEq, Eq, Error)]
pub enum DefFault {
    /// The bytes are not UTF-8, or no TOML.
    #[error("not toml")]
    NotToml,
    /// The document has another form than one key `table`, an array of one or more tables, and then
    /// 0 is told; or this table has other keys than `name`, a string, and `columns`, an array of
    /// strings.
    #[error("shape {0}")]
    Shape(u32),
    /// There are more than 16 tables, and then 0 is told; or this table has no column, or more
    /// than 32.
    #[error("count {0}")]
    Count(u32),
    /// The name of this table's column is none: 1 to 64 characters of a to z, 0 to 9 and `_`, the
    /// first a letter; of a column also none of `and`, `or` and `not`.
    #[error("bad name {0} {1}")]
    BadName(u32, u32),
    /// An earlier table, or an earlier column of this table, has the name.
    #[error("twice {0} {1}")]
    Twice(u32, u32),
    /// Behind the column's name and one space there is none of `int`, `text`, `int null` and
    /// `text null`.
    #[error("bad kind {0} {1}")]
    BadKind(u32, u32),
    /// Memory was wanted and could not be had.
    #[error("out of memory")]
    Memory,
}

impl From<NoMemory> for DefFault {
    ghost from_gives = { λ _ fault. fault ≡ Memory };

    fn from(_fault: NoMemory) -> DefFault {
        DefFault::Memory
    }
}
