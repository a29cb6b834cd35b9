//! The top call of the tool: all that `q4` does.
#![tactic(auto)]

mod definitions;
mod program;

pub use program::tool;

#[cfg(test)]
mod tests;
