ghost use Rattle.std.specs.Prelude.{ℕ, List, Option, Bool, ◌≤◌, ◌<◌, ◌≡◌, length, take, IfOk, OnErr, IsTrue};
ghost use Rattle.q4_flow.specs.Flow.{Gave, Counts, EndsOnce};

/// A read failed. The bytes that it would have given are still left.
#[derive(Clone, Copy, Debug, PartialEq, Eq)]
pub struct ReadFailed;

/// Where bytes come from.
pub trait Source {
    /// What reads may still give, where the source tells it.
    ghost left: { Self → Option (List ℕ) };

    /// Whether a read told the end of the input.
    ghost ended: { Self → Bool };

    /// How often a read failed. The count stops at 2^64 - 1.
    ghost faults: { Self → ℕ };

    /// How many reads may still give bytes.
    ghost reads: { Self → ℕ };

    /// Takes bytes from the front of what is left. 0 with room is the end of the input.
    fn read(&mut self, into: &mut [u8]) -> Result<usize, ReadFailed>
        ensures within { IfOk result (λ count. count ≤ length into.new) }
        ensures gave { IfOk result (λ count. Gave (left self.old) (left self.new) (take count into.new)) }
        ensures kept { OnErr result (left self.new ≡ left self.old) }
        ensures ends { EndsOnce (ended self.old) (ended self.new) (length into.old) (left self.new) result }

        // Each read that gives bytes costs one.
        ensures costs { IfOk result (λ count. 0 < count → reads self.new < reads self.old) }
        ensures measure { reads self.new ≤ reads self.old }

        ensures cause { Counts (faults self.old) (faults self.new) result };
}
