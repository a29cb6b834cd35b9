//! A turn: threads hold one value in turn, and each knows the one history that the value stands for.
//!
//! A [`Turn`] keeps a value. A thread has a [`Pass`], takes the value by `enter`, changes it, and gives it back by `leave`, which names the entries that the change adds to the history. No history is stored: contracts alone speak of it.
#![tactic(auto)]

mod close;
mod enter_leave;
mod held_value;
mod kept;
mod new_turn;
mod rule;
mod split_join;
mod steps;
#[cfg(test)]
mod tests;
mod turn;
mod view;
mod words;

pub use kept::Kept;
pub use turn::{Held, Pass, Turn};
pub use view::{JoinedPass, View};
