ghost use Rattle.std.specs.Prelude.{◌≡◌, ◌<◌, ◌≤◌, true, false, length, IsOk, IsErr, IfOk};
ghost use Rattle.q4_disk.specs.Images.{on, put, size};
ghost use Rattle.q4_disk.specs.Memory.{DoesBy, BreaksBy, DoesNothing, KeepsRead};
ghost use Rattle.q4_disk.specs.Picked.{picked};
ghost use Rattle.q4_disk.specs.Calls.{bump, IsCall, IsWrite, IsSync, Sized, Read, Wrote, DidCut, Synced};
ghost use Rattle.q4_disk.specs.Stopping.{stopping_told, CountsOwn, IsPhase, FailsNext};
ghost use Rattle.q4_disk.specs.inner.Laws.{counts, only, reads_image};

use crate::history::Step;
use crate::pick::image_of;
use crate::tally::DeviceCall;
use crate::{Disk, DiskFailed, MemoryDisk, Pick, Side};
use q4_value::{Bytes, NoMemory};
use std::alloc::Global;
use std::cmp::Ordering;
use std::marker::Model;

// Where a call stands.
enum Phase {
    Before,
    At,
    Past,
}

/// A disk in memory that stops in the middle of one call. That call and every later one fail.
/// The first call that is made of it is number 1.
#[derive(Drop)]
pub struct StopDisk {
    inner: MemoryDisk,
    stop: u64,
    made: u64,
}

impl Model for StopDisk {
    ghost use Rattle.q4_disk.specs.Stopping.{Stopping};

    ghost Value = { Stopping };

    ghost view = { λ d. record { memory = d.inner; stop = d.stop; made = d.made } };
}

impl StopDisk {
    /// Breaks call number `stop` in the middle.
    pub fn new(inner: MemoryDisk, stop: u64) -> StopDisk
        ensures { result ≡ record { memory = inner; stop = stop; made = 0 } }
    {
        StopDisk {
            inner,
            stop,
            made: 0,
        }
    }

    #[cfg(test)]
    pub(crate) fn inner(&self) -> &MemoryDisk
        ensures { result.now ≡ self.now.memory }
    {
        &self.inner
    }

    // Counts a call, and tells where it stands.
    fn phase(&mut self) -> Phase
        ensures phase { IsPhase result self.old }
        ensures made { self.new ≡ record self.old { made = bump self.old.made } }
    {
        self.made = self.made.saturating_add(1);
        match self.made.cmp(&self.stop) {
            Ordering::Less => Phase::Before,
            Ordering::Equal => Phase::At,
            Ordering::Greater => Phase::Past,
        }
    }

    /// What a crash now may leave of a side, by a pick for all that wasn't synced.
    ///
    /// Where a write behind a lost one is kept, the bytes between are 0.
    pub fn image(&self, alloc: Global, side: Side, pick: Pick) -> Result<Bytes, NoMemory>
        ensures image { IfOk result (λ bytes. bytes ≡ on side (picked pick self.now.memory.steps)) }
        // It is an image, whichever pick goes with it for the other side.
        ensures allowed { (there : Pick) → let steps = self.now.memory.steps in
            (stopping_told self.now).images
            (put side (on side (picked pick steps)) (picked there steps)) }
    {
        image_of(alloc, self.inner.steps(), side, pick)
    }
}

impl Disk for StopDisk {
    ghost told = { stopping_told };

    ghost counts_now = { λ d h t c le now. counts d.memory.steps t c le now };

    ghost only_now = { λ d h c left. only d.memory.steps c left };

    ghost reads_image = { λ d h. reads_image d.memory.steps };

    /// It fails exactly from the stop on.
    fn size(&mut self, side: Side) -> Result<u64, DiskFailed>
        ensures call { IsCall (DeviceCall.Size side) result
            (stopping_told self.old) (stopping_told self.new) }
        ensures size { Sized side result (stopping_told self.old) (stopping_told self.new) }
        ensures own { CountsOwn self.old self.new }
        ensures passes { bump self.old.made < self.old.stop → IsOk result }
        ensures fails { FailsNext self.old → IsErr result }
        ensures nothing { DoesNothing self.old.memory self.new.memory }
    {
        match self.phase() {
            Phase::Before => self.inner.size(side),
            Phase::At => self.inner.refuse_call(DeviceCall::Size { side }),
            Phase::Past => self.inner.refuse_call(DeviceCall::Size { side }),
        }
    }

    /// It fails exactly from the stop on.
    fn read(&mut self, side: Side, at: u64, into: &mut [u8]) -> Result<usize, DiskFailed>
        ensures call { IsCall (DeviceCall.Read side at (length into.old)) result
            (stopping_told self.old) (stopping_told self.new) }
        ensures room { IfOk result (λ n. n ≤ length into.old) }
        ensures read { Read side at into.old into.new result
            (stopping_told self.old) (stopping_told self.new) }
        ensures own { CountsOwn self.old self.new }
        ensures passes { bump self.old.made < self.old.stop → IsOk result }
        ensures fails { FailsNext self.old → IsErr result }
        ensures nothing { DoesNothing self.old.memory self.new.memory }
    {
        let count = into.len() as u64;
        match self.phase() {
            Phase::Before => self.inner.read(side, at, into),
            Phase::At => self.inner.refuse_call(DeviceCall::Read { side, at, count }),
            Phase::Past => self.inner.refuse_call(DeviceCall::Read { side, at, count }),
        }
    }

    /// It fails from the stop on, and before it only where memory is refused.
    fn write(&mut self, side: Side, at: u64, bytes: &[u8]) -> Result<(), DiskFailed>
        requires { at ≤ size side (stopping_told self.old).bytes }
        ensures call { IsWrite side at (length bytes.now) result
            (stopping_told self.old) (stopping_told self.new) }
        ensures write { Wrote side at bytes.now result
            (stopping_told self.old) (stopping_told self.new) }
        ensures own { CountsOwn self.old self.new }
        ensures passes { IsPhase Phase.Before self.old →
            DoesBy (Step.Write side at bytes.now true) result self.old.memory self.new.memory }
        ensures fails { FailsNext self.old → IsErr result }
        ensures breaks { IsPhase Phase.At self.old →
            BreaksBy (Step.Write side at bytes.now false) self.old.memory self.new.memory }
        ensures past { IsPhase Phase.Past self.old →
            DoesNothing self.old.memory self.new.memory }
        ensures kept { KeepsRead result self.old.memory self.new.memory }
    {
        match self.phase() {
            Phase::Before => self.inner.write(side, at, bytes),
            Phase::At => self.inner.break_write(side, at, bytes),
            Phase::Past => self.inner.refuse_write(side, at, bytes.len()),
        }
    }

    /// It fails from the stop on, and before it only where memory is refused.
    fn cut(&mut self, side: Side, length: u64) -> Result<(), DiskFailed>
        requires { length ≤ size side (stopping_told self.old).bytes }
        ensures call { IsCall (DeviceCall.CutTo side length) result
            (stopping_told self.old) (stopping_told self.new) }
        ensures cut { DidCut side length result (stopping_told self.old) (stopping_told self.new) }
        ensures own { CountsOwn self.old self.new }
        ensures passes { IsPhase Phase.Before self.old →
            DoesBy (Step.CutTo side length true) result self.old.memory self.new.memory }
        ensures fails { FailsNext self.old → IsErr result }
        ensures breaks { IsPhase Phase.At self.old →
            BreaksBy (Step.CutTo side length false) self.old.memory self.new.memory }
        ensures past { IsPhase Phase.Past self.old →
            DoesNothing self.old.memory self.new.memory }
        ensures kept { KeepsRead result self.old.memory self.new.memory }
    {
        match self.phase() {
            Phase::Before => self.inner.cut(side, length),
            Phase::At => self.inner.break_cut(side, length),
            Phase::Past => self.inner.refuse_call(DeviceCall::CutTo { side, length }),
        }
    }

    /// It fails from the stop on, and before it only where memory is refused. A sync that breaks leaves
    /// all as it was.
    fn sync(&mut self, side: Side) -> Result<(), DiskFailed>
        ensures call { IsSync side result (stopping_told self.old) (stopping_told self.new) }
        ensures sync { Synced side result (stopping_told self.old) (stopping_told self.new) }
        ensures own { CountsOwn self.old self.new }
        ensures passes { IsPhase Phase.Before self.old →
            DoesBy (Step.Sync side) result self.old.memory self.new.memory }
        ensures fails { FailsNext self.old → IsErr result }
        ensures stays { FailsNext self.old → DoesNothing self.old.memory self.new.memory }
    {
        match self.phase() {
            Phase::Before => self.inner.sync(side),
            Phase::At => self.inner.refuse_sync(side),
            Phase::Past => self.inner.refuse_sync(side),
        }
    }

    fn faults(&self) -> u64 {
        self.inner.faults()
    }
}
