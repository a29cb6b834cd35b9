ghost use Rattle.std.specs.Prelude.{◌≡◌, ◌≤◌, ◌↔◌, true, false, length, IsTrue, IsOk, IsErr, IfOk};
ghost use Rattle.q4_disk.specs.Images.{size};
ghost use Rattle.q4_disk.specs.Calls.{bump, IsCall, IsWrite, IsSync, Sized, Read, Wrote, DidCut, Synced};
ghost use Rattle.q4_disk.specs.Memory.{DoesBy, BreaksBy, DoesNothing, KeepsRead};
ghost use Rattle.q4_disk.specs.Failing.{failing_told, FailsNext, CountsOwn};
ghost use Rattle.q4_disk.specs.inner.Laws.{counts, only, reads_image};

use crate::history::Step;
use crate::tally::DeviceCall;
use crate::{Disk, DiskFailed, MemoryDisk, Numbers, Side};
use std::marker::Model;

/// A disk in memory whose calls of given numbers fail. The first call that is made of it is
/// number 1.
///
/// A write or a cut that fails here has begun: a crash may leave any of it. What is read stays.
/// Only where memory is refused for its record nothing has begun.
#[derive(Drop)]
pub struct FailingDisk {
    inner: MemoryDisk,
    failing: Numbers,
    made: u64,
}

impl Model for FailingDisk {
    ghost use Rattle.q4_disk.specs.Failing.{Failing};

    ghost Value = { Failing };

    ghost view = { λ d. record { memory = d.inner; numbers = d.failing; made = d.made } };
}

impl FailingDisk {
    pub fn new(inner: MemoryDisk, failing: Numbers) -> FailingDisk
        ensures { result ≡ record { memory = inner; numbers = failing; made = 0 } }
    {
        FailingDisk {
            inner,
            failing,
            made: 0,
        }
    }

    /// The disk below.
    pub fn inner(&self) -> &MemoryDisk
        ensures { result.now ≡ self.now.memory }
    {
        &self.inner
    }

    // Counts a call, and tells whether it is one that fails.
    fn fails(&mut self) -> bool
        ensures fails { IsTrue result ↔ FailsNext self.old }
        ensures made { self.new ≡ record self.old { made = bump self.old.made } }
    {
        self.made = self.made.saturating_add(1);
        self.failing.contains(self.made)
    }
}

impl Disk for FailingDisk {
    ghost told = { failing_told };

    ghost counts_now = { λ d h t c le now. counts d.memory.steps t c le now };

    ghost only_now = { λ d h c left. only d.memory.steps c left };

    ghost reads_image = { λ d h. reads_image d.memory.steps };

    /// It fails exactly where its number is listed.
    fn size(&mut self, side: Side) -> Result<u64, DiskFailed>
        ensures call { IsCall (DeviceCall.Size side) result
            (failing_told self.old) (failing_told self.new) }
        ensures size { Sized side result (failing_told self.old) (failing_told self.new) }
        ensures own { CountsOwn self.old self.new }
        ensures fails { FailsNext self.old → IsErr result }
        ensures passes { ¬ FailsNext self.old → IsOk result }
        ensures nothing { DoesNothing self.old.memory self.new.memory }
    {
        if self.fails() {
            return self.inner.refuse_call(DeviceCall::Size { side });
        }
        self.inner.size(side)
    }

    /// It fails exactly where its number is listed.
    fn read(&mut self, side: Side, at: u64, into: &mut [u8]) -> Result<usize, DiskFailed>
        ensures call { IsCall (DeviceCall.Read side at (length into.old)) result
            (failing_told self.old) (failing_told self.new) }
        ensures room { IfOk result (λ n. n ≤ length into.old) }
        ensures read { Read side at into.old into.new result
            (failing_told self.old) (failing_told self.new) }
        ensures own { CountsOwn self.old self.new }
        ensures fails { FailsNext self.old → IsErr result }
        ensures passes { ¬ FailsNext self.old → IsOk result }
        ensures nothing { DoesNothing self.old.memory self.new.memory }
    {
        if self.fails() {
            let count = into.len() as u64;
            return self.inner.refuse_call(DeviceCall::Read { side, at, count });
        }
        self.inner.read(side, at, into)
    }

    /// It fails where its number is listed, and else only where memory is refused.
    fn write(&mut self, side: Side, at: u64, bytes: &[u8]) -> Result<(), DiskFailed>
        requires { at ≤ size side (failing_told self.old).bytes }
        ensures call { IsWrite side at (length bytes.now) result
            (failing_told self.old) (failing_told self.new) }
        ensures write { Wrote side at bytes.now result
            (failing_told self.old) (failing_told self.new) }
        ensures own { CountsOwn self.old self.new }
        ensures fails { FailsNext self.old → IsErr result }
        ensures breaks { FailsNext self.old →
            BreaksBy (Step.Write side at bytes.now false) self.old.memory self.new.memory }
        ensures passes { ¬ FailsNext self.old →
            DoesBy (Step.Write side at bytes.now true) result self.old.memory self.new.memory }
        ensures kept { KeepsRead result self.old.memory self.new.memory }
    {
        if self.fails() {
            return self.inner.break_write(side, at, bytes);
        }
        self.inner.write(side, at, bytes)
    }

    /// It fails where its number is listed, and else only where memory is refused.
    fn cut(&mut self, side: Side, length: u64) -> Result<(), DiskFailed>
        requires { length ≤ size side (failing_told self.old).bytes }
        ensures call { IsCall (DeviceCall.CutTo side length) result
            (failing_told self.old) (failing_told self.new) }
        ensures cut { DidCut side length result (failing_told self.old) (failing_told self.new) }
        ensures own { CountsOwn self.old self.new }
        ensures fails { FailsNext self.old → IsErr result }
        ensures breaks { FailsNext self.old →
            BreaksBy (Step.CutTo side length false) self.old.memory self.new.memory }
        ensures passes { ¬ FailsNext self.old →
            DoesBy (Step.CutTo side length true) result self.old.memory self.new.memory }
        ensures kept { KeepsRead result self.old.memory self.new.memory }
    {
        if self.fails() {
            return self.inner.break_cut(side, length);
        }
        self.inner.cut(side, length)
    }

    /// It fails where its number is listed, and else only where memory is refused.
    fn sync(&mut self, side: Side) -> Result<(), DiskFailed>
        ensures call { IsSync side result (failing_told self.old) (failing_told self.new) }
        ensures sync { Synced side result (failing_told self.old) (failing_told self.new) }
        ensures own { CountsOwn self.old self.new }
        ensures fails { FailsNext self.old → IsErr result }
        ensures stays { FailsNext self.old → DoesNothing self.old.memory self.new.memory }
        ensures passes { ¬ FailsNext self.old →
            DoesBy (Step.Sync side) result self.old.memory self.new.memory }
    {
        if self.fails() {
            return self.inner.refuse_sync(side);
        }
        self.inner.sync(side)
    }

    fn faults(&self) -> u64 {
        self.inner.faults()
    }
}
