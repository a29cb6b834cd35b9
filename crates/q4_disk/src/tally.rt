ghost use Rattle.std.specs.Prelude.{◌≡◌, ◌≤◌, Some};
ghost use Rattle.q4_disk.specs.Calls.{bump, no_calls};

use crate::{DiskFailed, Side};

/// A device call: of which side, and at which place and of how many bytes.
#[derive(Clone, Copy)]
pub(crate) enum DeviceCall {
    Size { side: Side },
    Read { side: Side, at: u64, count: u64 },
    Write { side: Side, at: u64, count: u64 },
    CutTo { side: Side, length: u64 },
    Sync { side: Side },
}

/// The last of a disk's calls, and the numbers of its calls, failed ones among them, of its faults
/// and of those for which memory was wanted. Each number stops at the end of its type.
#[derive(Clone, Copy)]
pub(crate) struct Tally {
    pub last: Option<DeviceCall>,
    pub faults: u64,
    pub refused: u64,
    pub calls: u64,
    pub writes: u64,
    pub syncs: u64,
}

impl Tally {
    pub fn new() -> Tally
        ensures { result ≡ no_calls }
    {
        Tally {
            last: None,
            faults: 0,
            refused: 0,
            calls: 0,
            writes: 0,
            syncs: 0,
        }
    }

    /// A call of `size`, `read` or `cut`.
    pub fn count_call(&mut self, call: DeviceCall)
        ensures { self.new ≡ record self.old { last = Some call; calls = bump self.old.calls } }
    {
        self.last = Some(call);
        self.calls = self.calls.saturating_add(1);
    }

    pub fn count_write(&mut self, side: Side, at: u64, count: u64)
        ensures { self.new ≡ record self.old {
          last = Some (DeviceCall.Write side at count);
          calls = bump self.old.calls;
          writes = bump self.old.writes;
        } }
    {
        self.last = Some(DeviceCall::Write { side, at, count });
        self.calls = self.calls.saturating_add(1);
        self.writes = self.writes.saturating_add(1);
    }

    pub fn count_sync(&mut self, side: Side)
        ensures { self.new ≡ record self.old {
          last = Some (DeviceCall.Sync side);
          calls = bump self.old.calls;
          syncs = bump self.old.syncs;
        } }
    {
        self.last = Some(DeviceCall::Sync { side });
        self.calls = self.calls.saturating_add(1);
        self.syncs = self.syncs.saturating_add(1);
    }

    /// The call that was counted last has failed.
    pub fn count_fault(&mut self) -> DiskFailed
        ensures counted { self.new ≡ record self.old { faults = bump self.old.faults } }
        ensures later { self.old.faults ≤ self.new.faults }
    {
        self.faults = self.faults.saturating_add(1);
        DiskFailed
    }

    /// The call that was counted last has failed, since memory was wanted and refused. Nothing else
    /// raises `refused`.
    pub fn count_refused(&mut self) -> DiskFailed
        ensures counted { self.new ≡ record self.old {
          faults = bump self.old.faults;
          refused = bump self.old.refused;
        } }
        ensures later { self.old.faults ≤ self.new.faults }
    {
        self.refused = self.refused.saturating_add(1);
        self.count_fault()
    }
}
