//! Sessions over any desk: the answer to one line, and a whole session from its opening to its closing.
#![tactic(auto)]

mod answering;
mod laws;
mod outcomes;
mod sessions;

pub use answering::{Answered, answer, answer_behind};
pub use laws::granted_lines_are_done;
pub use outcomes::{desk_refusal, refused};
pub use sessions::{SessionEnd, session};

#[cfg(test)]
mod tests;
