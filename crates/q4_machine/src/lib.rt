//! The machine of queue tables and sessions, its history, and the desk that a session speaks to.
#![tactic(auto)]

mod desk;
mod entry;
mod kept_tables;
mod laws;
mod looks;
mod machine;
mod one_desk;
mod patience;
mod recorded;
mod select;
mod session;
mod shown;
mod tables;

pub use desk::{Desk, DeskFault, InsertFault, ModeFault, Seats};
pub use entry::{Call, Entry, Refusal, Reply};
pub use laws::{definitions_stay, looks_take_the_oldest, reached_machines_are_valid};
pub use looks::{Listed, Looks};
pub use machine::Machine;
pub use one_desk::OneDesk;
pub use patience::{Never, Patience, Turns};
pub use session::{OpenSession, SessionMode};
pub use shown::{NumberedRow, Rows};
pub use tables::{Opening, Tables};

#[cfg(test)]
mod tests;
