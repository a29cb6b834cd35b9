//! The text protocol: commands from lines, and replies as lines.
#![tactic(auto)]

mod command;
mod fields;
mod insert;
mod keyword;
mod laws;
mod line_buffer;
mod number;
mod pieces;
mod reply;
mod rows;
mod select;
mod short_line;
mod wait;

pub use command::{Command, CommandFault, read_command};
pub use laws::{every_line_is_answered, one_command, one_fault, spelled_lines_are_not_refused};
pub use reply::{Code, Outcome, put_reply, put_reply_behind, refusal_of};

#[cfg(test)]
mod null_tests;
#[cfg(test)]
mod tests;
