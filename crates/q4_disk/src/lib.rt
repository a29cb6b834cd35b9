//! Disks of two sides: what each call does to the bytes, and what a crash may leave of them.
#![tactic(auto)]

mod disk;
mod failing;
mod file;
mod file_maker;
#[cfg(test)]
mod file_tests;
mod history;
mod maker;
mod memory;
mod numbers;
mod pair;
#[cfg(test)]
mod pair_tests;
mod pick;
mod pieces;
mod stop;
#[cfg(test)]
mod stop_tests;
mod tally;
#[cfg(test)]
mod tests;

pub use disk::{Disk, DiskFailed, Side};
pub use failing::FailingDisk;
pub use file::FileDisk;
pub use file_maker::FileMaker;
pub use maker::{DiskMaker, FailingMaker, MakeFault, MemoryMaker};
pub use memory::MemoryDisk;
pub use numbers::Numbers;
pub use pick::Pick;
pub use stop::StopDisk;
