//! The store of a table: two sides of a disk, of which at any moment a crash leaves what was committed.
#![tactic(auto)]

mod batch;
mod committing;
mod copying;
mod creating;
mod fault;
mod head;
mod holding;
mod laws;
mod limit;
mod loading;
mod migrating;
mod opening;
mod parts;
mod store;

pub use fault::{AppendFault, CopyFault, OpenFault};
pub use laws::{content_laws, copy_laws, length_laws, opening_laws};
pub use limit::room;
pub use store::Store;

#[cfg(test)]
mod tests;
