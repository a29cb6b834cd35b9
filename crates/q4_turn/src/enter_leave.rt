//! A hold of the turn: `enter`, what it gives, and `leave`.
ghost use Rattle.std.specs.Prelude.{◌≡◌, ◌+◌, ◌^◌, ◌≤◌, List, length};
ghost use Rattle.q4_turn.specs.Views.{with_ticket, without_turn, extended};
ghost use Rattle.q4_turn.specs.Steps.{IsExact, Takes};
ghost use Rattle.q4_turn.specs.Passes.{Holds, Waits, Entered, MayAdd};
ghost use Rattle.q4_turn.specs.Turns.{view, seen, IsFree, HasTurn, value_of, count_of};

use crate::kept::Kept;
use crate::steps::{Count, Draw, End, Look, Measure, NamedEntries, Ring};
use crate::turn::{Held, Pass, Turn};
use crate::words::{LENGTH, MOST, SERVING, TICKET, VALUE, bell, low_half};
use std::hint;
use std::marker::{Brand, PhantomData};
use std::snapshot::Snapshot;
use std::sync::Wait;

// How often a thread looks before it sleeps: a hold is often shorter than a sleep.
const LOOKS: u8 = 64;

impl<V: Kept> Turn<V> {
    /// Waits for the turn. Then `seen` is the whole history, and the value stands for it.
    ///
    /// A thread that waits sleeps, but for a few looks first. Where 2^62 tickets were drawn it does not return.
    pub fn enter<'t, R: Wait>(&'t self, rt: &R, pass: &mut Pass<V>) -> Held<'t, V>
        requires { IsFree self.now pass.old }
        ensures turn { HasTurn self.now pass.new result }
        ensures entered { Entered V.stands V.mark (view pass.old) (value_of result) (view pass.new) }
        ensures count { (count_of result ≡ length (seen pass.new)) × (count_of result ≤ 2 ^ 62) }
    {
        let ticket = self.draw_ticket(rt, pass);
        self.wait_for(rt, pass, ticket);
        let words = &self.table.shared;
        let count = words.load::<Measure>(&mut pass.seat, LENGTH);
        let Some(value) = words.exchange(&mut pass.seat, VALUE, None) else {
            unreachable!()
        };
        Held {
            of: Snapshot::of(&pass.seat),
            count,
            value,
            turn: PhantomData,
        }
    }

    // Tries until it has a ticket.
    fn draw_ticket<R: Wait>(&self, rt: &R, pass: &mut Pass<V>) -> u64
        requires { IsFree self.now pass.old }
        ensures ticket { Waits self.now.table.shared.table_id result pass.new.seat }
        ensures view { view pass.new ≡ with_ticket (view pass.old) result }
    {
        let words = &self.table.shared;
        for _ in rt.forever() {
            let next = words.peek(TICKET);
            if next < MOST {
                let found = words.compare_exchange::<Draw>(&mut pass.seat, TICKET, next, next + 1);
                if found == next {
                    return next;
                }
            } else {
                words.park(rt, TICKET, low_half(next));
            }
        }
        unreachable!()
    }

    // Looks until its ticket is served.
    fn wait_for<R: Wait>(&self, rt: &R, pass: &mut Pass<V>, ticket: u64)
        requires { Waits self.now.table.shared.table_id ticket pass.old.seat }
        ensures turn { pass.new.seat.table_id ≡ self.now.table.shared.table_id }
        ensures takes { Takes V.stands V.mark (view pass.old) pass.new.seat.me }
    {
        let words = &self.table.shared;
        let bell = bell(ticket);
        let mut looks = 0u8;
        for _ in rt.forever() {
            // Read before the look below. Whoever serves this ticket changes `SERVING`, then the bell, then wakes. Where the look came too early for `SERVING`, the bell changes after this read, so either it no longer is what the sleep compares, or the wake comes after the sleep began.
            let rung = words.peek(bell);
            let serving = words.load::<Look<V>>(&mut pass.seat, SERVING);
            if serving == ticket {
                return;
            }
            if looks < LOOKS {
                looks += 1;
                hint::spin_loop();
            } else {
                words.park(rt, bell, low_half(rung));
            }
        }
        unreachable!()
    }

    /// Gives the value back, which stands for the history and then the entries `es` of this pass, so many as `added` says.
    ///
    /// It wakes the thread that has the next ticket, if it sleeps.
    pub fn leave(&self, pass: &mut Pass<V>, held: Held<V>, added: u64)
        ghost es: { List V.Entry }
        requires turn { HasTurn self.now pass.old held }
        requires adds { MayAdd V.stands V.mark (view pass.old) (value_of held) added es }
        requires room { length (seen pass.old) + added ≤ 2 ^ 62 }
        ensures free { IsFree self.now pass.new }
        ensures view { (view pass.new ≡ without_turn (extended (view pass.old) es)) × IsExact V.mark (view pass.new) }
    {
        self.leave_named::<Brand>(pass, held, added);
    }

    // `leave`, by entries that the caller's proof names.
    fn leave_named<N: NamedEntries<V::Entry>>(&self, pass: &mut Pass<V>, held: Held<V>, added: u64)
        requires turn { Holds self.now.table.shared.table_id pass.old.seat }
        requires adds { MayAdd V.stands V.mark (view pass.old) (value_of held) added N.entries }
        requires room { length (seen pass.old) + added ≤ 2 ^ 62 }
        ensures free { IsFree self.now pass.new }
        ensures view { (view pass.new ≡ without_turn (extended (view pass.old) N.entries)) × IsExact V.mark (view pass.new) }
    {
        let Held {
            of: _,
            count: _,
            value,
            turn: _,
        } = held;
        let words = &self.table.shared;
        words.fetch_add::<Count<V, N>>(&mut pass.seat, LENGTH, added);
        match words.exchange(&mut pass.seat, VALUE, Some(value)) {
            None => {}
            Some(_) => unreachable!(),
        }
        let served = words.fetch_add::<End>(&mut pass.seat, SERVING, 1);
        let next = served.wrapping_add(1);
        // Whoever draws this ticket after this look finds it served at once, so it need not be woken.
        if words.peek(TICKET) != next {
            self.ring(pass, next);
        }
    }

    // Wakes the thread that sleeps with this ticket, if one does.
    fn ring(&self, pass: &mut Pass<V>, ticket: u64)
        requires { IsFree self.now pass.old }
        ensures free { IsFree self.now pass.new }
        ensures view { view pass.new ≡ view pass.old }
    {
        let words = &self.table.shared;
        let bell = bell(ticket);
        words.fetch_add::<Ring>(&mut pass.seat, bell, 1);
        // Wakes all that sleep there, since a thread with a ticket 64 greater may be the first among them.
        words.wake_all(bell);
    }
}

impl<'t, V: Kept> Held<'t, V> {
    /// The length of the history.
    pub fn count(&self) -> u64
        ensures { result ≡ count_of self.now }
    {
        self.count
    }
}
