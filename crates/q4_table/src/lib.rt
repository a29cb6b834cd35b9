//! Tables of rows: who owns a row, which row is the oldest, and what was taken of each source.
#![tactic(auto)]

mod adding;
mod cursors;
mod laws;
mod marks;
mod origin;
mod rows;
mod table;

pub use adding::{AddFault, Added, Check};
pub use laws::{
    changes_keep_tables_valid, conditions_stay_kept, marks_are_set, oldest_is_taken,
    owners_make_no_difference,
};
pub use marks::Mark;
pub use origin::{Mode, Origin};
pub use rows::StoredRow;
pub use table::{Table, tables_are_valid};

#[cfg(test)]
mod tests;
