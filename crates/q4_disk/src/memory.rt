ghost use Rattle.std.specs.Prelude.{◌≡◌, ◌-◌, ◌≤◌, min, true, false, ◌++◌, length, take, drop, reverse, IsOk, IsErr, IfOk};
ghost use Rattle.q4_disk.specs.Images.{on, size};
ghost use Rattle.q4_disk.specs.Calls.{IsCall, IsWrite, IsSync, Sized, Read, Wrote, DidCut, Synced};
ghost use Rattle.q4_disk.specs.Memory.{told_of, new_memory, DoesBy, BreaksBy, DoesNothing};
ghost use Rattle.q4_disk.specs.inner.Laws.{counts, only, reads_image};

use crate::history::{History, Step};
use crate::tally::{DeviceCall, Tally};
use crate::{Disk, DiskFailed, Side};
use q4_value::NoMemory;
use std::alloc::Global;
use std::marker::Model;

/// A disk in memory, which keeps a record of its calls.
#[derive(Drop)]
pub struct MemoryDisk {
    alloc: Global,
    history: History,
    tally: Tally,
}

impl Model for MemoryDisk {
    ghost use Rattle.q4_disk.specs.Memory.{Memory};

    ghost Value = { Memory };

    ghost view = { λ d. record { steps = d.history; tally = d.tally } };
}

impl MemoryDisk {
    /// An empty disk. It takes no memory.
    pub fn new(alloc: Global) -> MemoryDisk
        ensures { result ≡ new_memory }
    {
        MemoryDisk {
            alloc,
            history: History::new(alloc),
            tally: Tally::new(),
        }
    }

    /// The bytes of a side as they are read.
    pub fn bytes(&self, side: Side) -> &[u8]
        ensures { result.now ≡ on side (told_of self.now).bytes }
    {
        self.history.bytes(side)
    }

    /// The number of device calls, failed ones among them.
    pub fn calls(&self) -> u64
        ensures { result ≡ (told_of self.now).calls }
    {
        self.tally.calls
    }

    /// The number of writes, failed ones among them.
    pub fn writes(&self) -> u64
        ensures { result ≡ (told_of self.now).writes }
    {
        self.tally.writes
    }

    /// The number of syncs, failed ones among them.
    pub fn syncs(&self) -> u64
        ensures { result ≡ (told_of self.now).syncs }
    {
        self.tally.syncs
    }
}

// Calls that fail.
impl MemoryDisk {
    /// The calls that changed it, the oldest first.
    pub(crate) fn steps(&self) -> &[Step]
        ensures { reverse result.now ≡ self.now.steps }
    {
        self.history.steps()
    }

    /// A call of `size`, `read` or `cut` that fails and does nothing.
    pub(crate) fn refuse_call<T>(&mut self, call: DeviceCall) -> Result<T, DiskFailed>
        ensures failed { IsErr result }
        ensures call { IsCall call result (told_of self.old) (told_of self.new) }
        ensures nothing { DoesNothing self.old self.new }
    {
        self.tally.count_call(call);
        Err(self.tally.count_fault())
    }

    /// A write that fails and does nothing.
    pub(crate) fn refuse_write(
        &mut self,
        side: Side,
        at: u64,
        count: usize,
    ) -> Result<(), DiskFailed>
        ensures failed { IsErr result }
        ensures call { IsWrite side at count result (told_of self.old) (told_of self.new) }
        ensures nothing { DoesNothing self.old self.new }
    {
        self.tally.count_write(side, at, count as u64);
        Err(self.tally.count_fault())
    }

    /// A sync that fails and does nothing.
    pub(crate) fn refuse_sync(&mut self, side: Side) -> Result<(), DiskFailed>
        ensures failed { IsErr result }
        ensures call { IsSync side result (told_of self.old) (told_of self.new) }
        ensures nothing { DoesNothing self.old self.new }
    {
        self.tally.count_sync(side);
        Err(self.tally.count_fault())
    }

    /// A write that fails in the middle: what is read stays, and a crash may leave any of it. Where
    /// memory is refused for the record it leaves nothing.
    pub(crate) fn break_write(
        &mut self,
        side: Side,
        at: u64,
        bytes: &[u8],
    ) -> Result<(), DiskFailed>
        requires { at ≤ size side (told_of self.old).bytes }
        ensures failed { IsErr result }
        ensures call { IsWrite side at (length bytes.now) result
            (told_of self.old) (told_of self.new) }
        ensures write { Wrote side at bytes.now result (told_of self.old) (told_of self.new) }
        ensures breaks { BreaksBy (Step.Write side at bytes.now false) self.old self.new }
    {
        self.tally.count_write(side, at, bytes.len() as u64);
        match self
            .history
            .begin_write(self.alloc, side, at as usize, bytes)
        {
            Ok(()) => Err(self.tally.count_fault()),
            Err(NoMemory) => Err(self.tally.count_refused()),
        }
    }

    /// A cut that fails in the middle, likewise.
    pub(crate) fn break_cut(&mut self, side: Side, length: u64) -> Result<(), DiskFailed>
        ensures failed { IsErr result }
        ensures call { IsCall (DeviceCall.CutTo side length) result
            (told_of self.old) (told_of self.new) }
        ensures cut { DidCut side length result (told_of self.old) (told_of self.new) }
        ensures breaks { BreaksBy (Step.CutTo side length false) self.old self.new }
    {
        self.tally.count_call(DeviceCall::CutTo { side, length });
        match self.history.begin_cut(side, length as usize) {
            Ok(()) => Err(self.tally.count_fault()),
            Err(NoMemory) => Err(self.tally.count_refused()),
        }
    }
}

impl Disk for MemoryDisk {
    ghost told = { told_of };

    ghost counts_now = { λ d h t c le now. counts d.steps t c le now };

    ghost only_now = { λ d h c left. only d.steps c left };

    ghost reads_image = { λ d h. reads_image d.steps };

    /// It never fails.
    fn size(&mut self, side: Side) -> Result<u64, DiskFailed>
        ensures call { IsCall (DeviceCall.Size side) result (told_of self.old) (told_of self.new) }
        ensures size { Sized side result (told_of self.old) (told_of self.new) }
        ensures ok { IsOk result }
        ensures nothing { DoesNothing self.old self.new }
    {
        self.tally.count_call(DeviceCall::Size { side });
        Ok(self.history.bytes(side).len() as u64)
    }

    /// It never fails.
    fn read(&mut self, side: Side, at: u64, into: &mut [u8]) -> Result<usize, DiskFailed>
        ensures call { IsCall (DeviceCall.Read side at (length into.old)) result
            (told_of self.old) (told_of self.new) }
        ensures room { IfOk result (λ n. n ≤ length into.old) }
        ensures read { Read side at into.old into.new result (told_of self.old) (told_of self.new) }
        ensures ok { IsOk result }
        ensures nothing { DoesNothing self.old self.new }
    {
        let count = into.len() as u64;
        self.tally.count_call(DeviceCall::Read { side, at, count });
        Ok(read_from(self.history.bytes(side), at, into))
    }

    /// It fails only where memory is refused, and then does nothing.
    fn write(&mut self, side: Side, at: u64, bytes: &[u8]) -> Result<(), DiskFailed>
        requires { at ≤ size side (told_of self.old).bytes }
        ensures call { IsWrite side at (length bytes.now) result
            (told_of self.old) (told_of self.new) }
        ensures write { Wrote side at bytes.now result (told_of self.old) (told_of self.new) }
        ensures does { DoesBy (Step.Write side at bytes.now true) result self.old self.new }
    {
        self.tally.count_write(side, at, bytes.len() as u64);
        match self.history.write(self.alloc, side, at as usize, bytes) {
            Ok(()) => Ok(()),
            Err(NoMemory) => Err(self.tally.count_refused()),
        }
    }

    /// It fails only where memory is refused, and then does nothing.
    fn cut(&mut self, side: Side, length: u64) -> Result<(), DiskFailed>
        requires { length ≤ size side (told_of self.old).bytes }
        ensures call { IsCall (DeviceCall.CutTo side length) result
            (told_of self.old) (told_of self.new) }
        ensures cut { DidCut side length result (told_of self.old) (told_of self.new) }
        ensures does { DoesBy (Step.CutTo side length true) result self.old self.new }
    {
        self.tally.count_call(DeviceCall::CutTo { side, length });
        match self.history.cut(side, length as usize) {
            Ok(()) => Ok(()),
            Err(NoMemory) => Err(self.tally.count_refused()),
        }
    }

    /// It fails only where memory is refused, and then does nothing.
    fn sync(&mut self, side: Side) -> Result<(), DiskFailed>
        ensures call { IsSync side result (told_of self.old) (told_of self.new) }
        ensures sync { Synced side result (told_of self.old) (told_of self.new) }
        ensures does { DoesBy (Step.Sync side) result self.old self.new }
    {
        self.tally.count_sync(side);
        match self.history.sync(side) {
            Ok(()) => Ok(()),
            Err(NoMemory) => Err(self.tally.count_refused()),
        }
    }

    fn faults(&self) -> u64 {
        self.tally.faults
    }
}

// Copies what stands after an offset, as far as the slice goes, and tells how much it is.
fn read_from(bytes: &[u8], at: u64, into: &mut [u8]) -> usize
    ensures count { result ≡ min (length into.old) (length bytes.now - at) }
    ensures into { into.new ≡ take result (drop at bytes.now) ++ drop result into.old }
{
    if at >= bytes.len() as u64 {
        return 0;
    }
    let rest = &bytes[at as usize..];
    let count = into.len().min(rest.len());
    into[..count].copy_from_slice(&rest[..count]);
    count
}
