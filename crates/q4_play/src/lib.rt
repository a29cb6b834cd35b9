//! Plays: many sessions on one thread, each behind a label, so that a whole scenario stands in one file.
#![tactic(auto)]

mod labels;
mod laws;
mod plays;
mod seating;
mod turns;

pub use laws::{
    closed_sessions_stay_closed, granted_commands_are_done, labels_have_whole_sessions,
};
pub use plays::{PlayEnd, play};

#[cfg(test)]
mod tests;
