//! `value` stands alone: its clause names the row of `Held`, which the file that declares `Held` can't import.
ghost use Rattle.std.specs.Prelude.{◌≡◌};
ghost use Rattle.std.specs.Borrow.{sem};
ghost use Rattle.q4_turn.specs.Lending.{LendsValue};
ghost use Rattle.q4_turn.specs.Turns.{value_of};

use crate::kept::Kept;
use crate::turn::Held;

impl<'t, V: Kept> Held<'t, V> {
    /// The value. When the borrow ends, the hold has what was written through it.
    pub fn value(&mut self) -> &mut V
        ensures* writes_back { sem 𝓛 (LendsValue V.row V.Entry.row self.entry result) }
        ensures value { result.now ≡ value_of self.old }
    {
        &mut self.value
    }
}
