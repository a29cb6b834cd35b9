//! Conditions on rows: read from a text, met by a row or not, and written again.
#![tactic(auto)]

mod cond;
mod fault;
mod frames;
mod kinds;
mod laws;
mod reader;
mod same;
mod scan;
mod steps;
mod token;
mod tree;
mod value;
mod writing;

pub use cond::{Cond, met, read, show};
pub use fault::CondFault;
pub use laws::{one_answer, one_tree};
pub use steps::{CondLedger, Steps, cond_steps};

#[cfg(test)]
mod tests;
