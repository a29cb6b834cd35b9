ghost use Rattle.std.specs.Prelude.{ℕ, List, Option, OnOk, OnErr};
ghost use Rattle.q4_flow.specs.Flow.{Took, TookFront, Counts};

/// A write failed. A front of its bytes may have been written.
#[derive(Clone, Copy, Debug, PartialEq, Eq)]
pub struct WriteFailed;

/// Where bytes go.
pub trait Sink {
    /// What was written, where the sink tells it.
    ghost written: { Self → Option (List ℕ) };

    /// How often a write failed. The count stops at 2^64 - 1.
    ghost faults: { Self → ℕ };

    /// Appends all bytes, or after a failure a front of them.
    fn write(&mut self, bytes: &[u8]) -> Result<(), WriteFailed>
        ensures all { OnOk result (Took (written self.old) (written self.new) bytes.now) }
        ensures front { OnErr result (TookFront (written self.old) (written self.new) bytes.now) }
        ensures cause { Counts (faults self.old) (faults self.new) result };
}
