//! How a turn ends.
ghost use Rattle.std.specs.Prelude.{◌≡◌};
ghost use Rattle.q4_turn.specs.Passes.{seat_view, Rests, Ended};
ghost use Rattle.q4_turn.specs.Turns.{turn_parts, view, parts, IsFree};

use crate::kept::Kept;
use crate::steps::{After, Close};
use crate::turn::{Pass, Turn};
use crate::view::View;
use crate::words::{TICKET, VALUE};
use atomic_table::Seat;

impl<V: Kept> Turn<V> {
    /// Takes the turn apart. The pass has all parts, so every other one was joined into it.
    ///
    /// The value stands for the pass's `seen`, which is the whole history. The pass comes back as it was, but is none of a turn any more.
    pub fn close(self, pass: Pass<V>) -> (V, Pass<V>)
        requires free { IsFree self pass }
        requires parts { parts pass ≡ turn_parts self }
        ensures { Ended V.stands V.mark (view pass) result.0 (view result.1) }
    {
        let (value, seat) = self.close_seat(pass.into_seat());
        (value, Pass { seat })
    }

    // Ends the history, keeps a copy of the view, and takes the table apart.
    fn close_seat(
        self,
        mut seat: Seat<Option<V>, View<V::Entry>>,
    ) -> (V, Seat<Option<V>, View<V::Entry>>)
        requires free { Rests self.table.shared.table_id seat }
        requires parts { (seat_view seat).parts ≡ self.table.shared.key }
        ensures { Ended V.stands V.mark (seat_view seat) result.0 (seat_view result.1) }
    {
        self.table.shared.load::<Close<V>>(&mut seat, TICKET);
        let left = self.table.shared.split_seat::<After>(&mut seat);
        let Turn { table } = self;
        let mut closed = table.close_with(seat);
        let value = closed.take(VALUE);
        closed.free();
        match value {
            Some(value) => (value, left),
            None => unreachable!(),
        }
    }
}
