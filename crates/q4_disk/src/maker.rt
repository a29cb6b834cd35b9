ghost use Rattle.std.specs.Prelude.{◌≡◌, ◌≢◌, ℕ, Bool, true, List, IsTrue, IsOk, IfOk, IfErr};
ghost use Rattle.q4_disk.specs.Told.{Sides};
ghost use Rattle.q4_disk.specs.Memory.{told_of, new_memory};
ghost use Rattle.q4_disk.specs.Failing.{failing_told};
ghost use Rattle.q4_disk.specs.Makers.{IsMadeAs, StaysTold, CountsMake, IsEmpty};

use crate::{Disk, FailingDisk, MemoryDisk, Numbers};
use q4_value::NoMemory;
use std::alloc::Global;
use std::marker::Model;

/// Why a disk was not made.
#[derive(Clone, Copy, Debug, PartialEq, Eq)]
pub enum MakeFault {
    /// It could not be opened, and the maker's count of faults rose.
    Failed,
    /// Memory was wanted and could not be had.
    Memory,
}

/// What makes the disks of tables, by the tables' names.
pub trait DiskMaker {
    type Disk: Disk;

    /// Whether it tells what a disk made under a name has at first.
    ghost tells: { Self → List ℕ → Bool };

    /// The images that a disk made under a name has at first, where it tells them.
    ghost first: { Self → List ℕ → Sides → Type 0 };

    /// How often it has failed.
    ghost faults: { Self → ℕ };

    /// Makes the disk of a name. What is told of every other name stays, also where this fails.
    fn make(&mut self, alloc: Global, name: &str) -> Result<Self::Disk, MakeFault>
        ensures made { IfOk result (λ disk. IsTrue (tells self.old name.now) →
            IsMadeAs (Self.Disk.told disk) (first self.old name.now)) }
        ensures others { (n : List ℕ) → n ≢ name.now →
            StaysTold (tells self.old n) (tells self.new n) (first self.old n) (first self.new n) }
        ensures faults { CountsMake result (faults self.old) (faults self.new) };
}

/// Makes empty disks in memory. It never fails.
#[derive(Clone, Copy, Debug)]
pub struct MemoryMaker;

impl DiskMaker for MemoryMaker {
    type Disk = MemoryDisk;

    ghost tells = { λ m n. true };

    ghost first = { λ m n. IsEmpty };

    ghost faults = { λ m. 0 };

    fn make(&mut self, alloc: Global, name: &str) -> Result<MemoryDisk, MakeFault>
        ensures made { IfOk result (λ disk. IsMadeAs (told_of disk) IsEmpty) }
        ensures ok { IsOk result }
        ensures new { IfOk result (λ disk. disk ≡ new_memory) }
    {
        Ok(MemoryDisk::new(alloc))
    }
}

/// Makes empty disks in memory whose calls of given numbers fail, each disk's counted for itself.
#[derive(Drop)]
pub struct FailingMaker {
    failing: Numbers,
}

impl Model for FailingMaker {
    ghost use Rattle.std.specs.Prelude.{List, ℕ};

    ghost Value = { List ℕ };

    // the numbers of the calls that fail
    ghost view = { λ m. m.failing };
}

impl FailingMaker {
    pub fn new(failing: Numbers) -> FailingMaker
        ensures { result ≡ failing }
    {
        FailingMaker { failing }
    }
}

impl DiskMaker for FailingMaker {
    type Disk = FailingDisk;

    ghost tells = { λ m n. true };

    ghost first = { λ m n. IsEmpty };

    ghost faults = { λ m. 0 };

    /// It answers only want of memory, for the copy of the numbers.
    fn make(&mut self, alloc: Global, name: &str) -> Result<FailingDisk, MakeFault>
        ensures made { IfOk result (λ disk. IsMadeAs (failing_told disk) IsEmpty) }
        ensures memory { IfErr result (λ fault. fault ≡ MakeFault.Memory) }
        ensures new { IfOk result
            (λ disk. disk ≡ record { memory = new_memory; numbers = self.old; made = 0 }) }
        ensures same { self.new ≡ self.old }
    {
        match self.failing.copy(alloc) {
            Ok(failing) => Ok(FailingDisk::new(MemoryDisk::new(alloc), failing)),
            Err(NoMemory) => Err(MakeFault::Memory),
        }
    }
}
