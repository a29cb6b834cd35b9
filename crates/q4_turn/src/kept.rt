//! What a turn keeps.
ghost use Rattle.std.specs.Prelude.{ℕ, List};

/// A value that stands for a list of entries, which is its history. No entry is stored.
pub trait Kept {
    /// What one change adds to the history.
    type Entry;

    /// The value stands for these entries.
    ghost stands: { Self → List Self.Entry → Type 0 };

    /// An entry's mark: the number of the pass that added it.
    ghost mark: { Self.Entry → ℕ };
}
