ghost use Rattle.std.specs.Prelude.{◌≡◌};
ghost use Rattle.q4_disk.specs.Calls.{no_calls};
ghost use Rattle.q4_disk.specs.Untold.{untold};
ghost use Rattle.q4_disk.specs.inner.Laws.{untold_reads};

use crate::pair::PairDisk;
use crate::{Disk, DiskFailed, Side};
use std::fs::File;
use std::marker::Model;

/// A disk of two real files, which a `FileMaker` opens. It counts its calls and faults, and tells no
/// content.
#[derive(Drop)]
pub struct FileDisk {
    pair: PairDisk<File>,
}

impl Model for FileDisk {
    ghost use Rattle.q4_disk.specs.declared.tally.Tally.{Tally as Counts};

    ghost Value = { Counts };

    ghost view = { λ d. d.pair.tally };
}

impl FileDisk {
    pub(crate) fn new(a: File, b: File) -> FileDisk
        ensures { result ≡ no_calls }
    {
        FileDisk {
            pair: PairDisk::new(a, b),
        }
    }
}

impl Disk for FileDisk {
    ghost told = { untold };

    ghost counts_now = { λ d h t c le im. im };

    ghost only_now = { λ d h c im. im };

    ghost reads_image = { λ d h. untold_reads h };

    fn size(&mut self, side: Side) -> Result<u64, DiskFailed> {
        self.pair.size(side)
    }

    fn read(&mut self, side: Side, at: u64, into: &mut [u8]) -> Result<usize, DiskFailed> {
        self.pair.read(side, at, into)
    }

    fn write(&mut self, side: Side, at: u64, bytes: &[u8]) -> Result<(), DiskFailed> {
        self.pair.write(side, at, bytes)
    }

    fn cut(&mut self, side: Side, length: u64) -> Result<(), DiskFailed> {
        self.pair.cut(side, length)
    }

    /// It syncs the bytes and what is needed to find them, the length among it, and no times.
    fn sync(&mut self, side: Side) -> Result<(), DiskFailed> {
        self.pair.sync(side)
    }

    fn faults(&self) -> u64 {
        self.pair.faults()
    }
}
