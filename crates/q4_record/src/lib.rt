//! Records and sides: how a table stands in a file, and which bytes stand for which table.
#![tactic(auto)]

mod extent;
mod fields;
mod head;
mod header;
mod laws;
mod replay;
mod reserved;
mod schema;
mod side;
mod writing;

pub use extent::optional_count;
pub use header::{BASE_AT, GENERATION_LIMIT, SIDE_LIMIT, has_magic, number_at};
pub use laws::{
    bases_have_their_order, changes_stand, narrow_laws, side_laws, sides_are_sound,
    written_sides_are_read,
};
pub use reserved::{spell_end, spell_insert};
pub use side::{SideFault, read_side};
pub use writing::{put_end, put_insert, put_mark, put_next, put_schema};

#[cfg(test)]
mod tests;
