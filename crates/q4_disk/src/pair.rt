ghost use Rattle.std.specs.Prelude.{◌≡◌, ◌≤◌, ◌^◌, ℕ, length, take, IsTrue, IfOk, OnOk, OnErr};
ghost use Rattle.q4_disk.specs.Calls.{no_calls, IsCall, IsWrite, IsSync};
ghost use Rattle.q4_disk.specs.Untold.{untold};
ghost use Rattle.q4_disk.specs.Pieces.{file_after_write, file_after_cut, file_after_sync, IsWholeRead};
ghost use Rattle.q4_disk.specs.Pairs.{file_of, with_file};

use crate::pieces::{Pieces, read_full, write_full};
use crate::tally::{DeviceCall, Tally};
use crate::{DiskFailed, Side};
use std::io;
use std::marker::Model;

/// The files of the two sides.
#[derive(Drop)]
pub(crate) struct Pair<F: Pieces> {
    a: F,
    b: F,
}

impl<F: Pieces> Model for Pair<F> {
    ghost use Rattle.q4_disk.specs.Pairs.{PairView};

    ghost Value = { PairView };

    ghost view = { λ p. record { a = F.holds p.a; b = F.holds p.b } };
}

impl<F: Pieces> Pair<F> {
    fn size(&self, side: Side) -> io::Result<u64>
        ensures { IsTrue F.tells → IfOk result (λ n. n ≡ length (file_of side self.now).bytes) }
    {
        match side {
            Side::A => self.a.size(),
            Side::B => self.b.size(),
        }
    }

    fn read(&self, side: Side, at: u64, into: &mut [u8]) -> io::Result<usize>
        requires { IsTrue F.tells → length (file_of side self.now).bytes ≤ 2 ^ 63 }
        ensures room { IfOk result (λ n. n ≤ length into.old) }
        ensures read { IsTrue F.tells →
            IfOk result (IsWholeRead (file_of side self.now).bytes at into.old into.new) }
    {
        match side {
            Side::A => read_full(&self.a, at, into),
            Side::B => read_full(&self.b, at, into),
        }
    }

    fn write(&mut self, side: Side, at: u64, bytes: &[u8]) -> io::Result<()>
        requires { IsTrue F.tells → at ≤ length (file_of side self.old).bytes }
        ensures wrote { IsTrue F.tells → OnOk result (self.new ≡
            with_file side (file_after_write (file_of side self.old) at bytes.now) self.old) }
        ensures front { IsTrue F.tells → OnErr result ((n : ℕ) × (self.new ≡
            with_file side (file_after_write (file_of side self.old) at (take n bytes.now)) self.old)) }
    {
        match side {
            Side::A => write_full(&mut self.a, at, bytes),
            Side::B => write_full(&mut self.b, at, bytes),
        }
    }

    fn cut(&mut self, side: Side, to: u64) -> io::Result<()>
        requires { IsTrue F.tells → to ≤ length (file_of side self.old).bytes }
        ensures cut { IsTrue F.tells → OnOk result (self.new ≡
            with_file side (file_after_cut (file_of side self.old) to) self.old) }
        ensures kept { IsTrue F.tells → OnErr result (self.new ≡ self.old) }
    {
        match side {
            Side::A => self.a.cut_to(to),
            Side::B => self.b.cut_to(to),
        }
    }

    fn sync(&mut self, side: Side) -> io::Result<()>
        ensures synced { IsTrue F.tells → OnOk result (self.new ≡
            with_file side (file_after_sync (file_of side self.old)) self.old) }
        ensures kept { IsTrue F.tells → OnErr result (self.new ≡ self.old) }
    {
        match side {
            Side::A => self.a.sync(),
            Side::B => self.b.sync(),
        }
    }
}

/// A disk of two files, whatever kind they are, which counts its calls and faults.
#[derive(Drop)]
pub(crate) struct PairDisk<F: Pieces> {
    files: Pair<F>,
    tally: Tally,
}

impl<F: Pieces> PairDisk<F> {
    pub fn new(a: F, b: F) -> PairDisk<F>
        ensures files { result.files ≡ record { a = F.holds a; b = F.holds b } }
        ensures tally { result.tally ≡ no_calls }
    {
        PairDisk {
            files: Pair { a, b },
            tally: Tally::new(),
        }
    }

    pub fn size(&mut self, side: Side) -> Result<u64, DiskFailed>
        ensures call { IsCall (DeviceCall.Size side) result
            (untold self.old.tally) (untold self.new.tally) }
        ensures size { IsTrue F.tells →
            IfOk result (λ n. n ≡ length (file_of side self.old.files).bytes) }
        ensures files { self.new.files ≡ self.old.files }
    {
        self.tally.count_call(DeviceCall::Size { side });
        match self.files.size(side) {
            Ok(size) => Ok(size),
            Err(_) => Err(self.tally.count_fault()),
        }
    }

    pub fn read(&mut self, side: Side, at: u64, into: &mut [u8]) -> Result<usize, DiskFailed>
        requires { IsTrue F.tells → length (file_of side self.old.files).bytes ≤ 2 ^ 63 }
        ensures call { IsCall (DeviceCall.Read side at (length into.old)) result
            (untold self.old.tally) (untold self.new.tally) }
        ensures room { IfOk result (λ n. n ≤ length into.old) }
        ensures read { IsTrue F.tells →
            IfOk result (IsWholeRead (file_of side self.old.files).bytes at into.old into.new) }
        ensures files { self.new.files ≡ self.old.files }
    {
        let count = into.len() as u64;
        self.tally.count_call(DeviceCall::Read { side, at, count });
        match self.files.read(side, at, into) {
            Ok(count) => Ok(count),
            Err(_) => Err(self.tally.count_fault()),
        }
    }

    /// Where it fails it has written a front.
    pub fn write(&mut self, side: Side, at: u64, bytes: &[u8]) -> Result<(), DiskFailed>
        requires { IsTrue F.tells → at ≤ length (file_of side self.old.files).bytes }
        ensures call { IsWrite side at (length bytes.now) result
            (untold self.old.tally) (untold self.new.tally) }
        ensures wrote { IsTrue F.tells → let old = self.old.files in OnOk result (self.new.files ≡
            with_file side (file_after_write (file_of side old) at bytes.now) old) }
        ensures front { IsTrue F.tells → let old = self.old.files in
            OnErr result ((n : ℕ) × (self.new.files ≡
            with_file side (file_after_write (file_of side old) at (take n bytes.now)) old)) }
    {
        self.tally.count_write(side, at, bytes.len() as u64);
        match self.files.write(side, at, bytes) {
            Ok(()) => Ok(()),
            Err(_) => Err(self.tally.count_fault()),
        }
    }

    pub fn cut(&mut self, side: Side, to: u64) -> Result<(), DiskFailed>
        requires { IsTrue F.tells → to ≤ length (file_of side self.old.files).bytes }
        ensures call { IsCall (DeviceCall.CutTo side to) result
            (untold self.old.tally) (untold self.new.tally) }
        ensures cut { IsTrue F.tells → let old = self.old.files in OnOk result (self.new.files ≡
            with_file side (file_after_cut (file_of side old) to) old) }
        ensures kept { IsTrue F.tells → OnErr result (self.new.files ≡ self.old.files) }
    {
        self.tally
            .count_call(DeviceCall::CutTo { side, length: to });
        match self.files.cut(side, to) {
            Ok(()) => Ok(()),
            Err(_) => Err(self.tally.count_fault()),
        }
    }

    pub fn sync(&mut self, side: Side) -> Result<(), DiskFailed>
        ensures call { IsSync side result (untold self.old.tally) (untold self.new.tally) }
        ensures synced { IsTrue F.tells → let old = self.old.files in OnOk result (self.new.files ≡
            with_file side (file_after_sync (file_of side old)) old) }
        ensures kept { IsTrue F.tells → OnErr result (self.new.files ≡ self.old.files) }
    {
        self.tally.count_sync(side);
        match self.files.sync(side) {
            Ok(()) => Ok(()),
            Err(_) => Err(self.tally.count_fault()),
        }
    }

    pub fn faults(&self) -> u64
        ensures { result ≡ self.now.tally.faults }
    {
        self.tally.faults
    }

    #[cfg(test)]
    pub fn file(&self, side: Side) -> &F {
        match side {
            Side::A => &self.files.a,
            Side::B => &self.files.b,
        }
    }
}
