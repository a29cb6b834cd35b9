//! Definitions of tables, and the file that has them.
#![tactic(auto)]

mod defs;
mod document;
mod fault;
mod laws;
mod name;
mod reading;
mod table_def;

pub use defs::Defs;
pub use fault::DefFault;
pub use laws::def_laws;
pub use name::{is_column_name, is_name};
pub use reading::read_defs;
pub use table_def::TableDef;

#[cfg(test)]
mod tests;
