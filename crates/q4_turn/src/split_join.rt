//! How passes are split and joined.
ghost use Rattle.std.specs.Prelude.{◌≡◌, ◌^◌, ◌<◌, IfOk, IsOk, []};
ghost use Rattle.q4_turn.specs.Lists.{StartsWith};
ghost use Rattle.q4_turn.specs.Views.{claims, times, with_number, after_split, split_by_hand, joined};
ghost use Rattle.q4_turn.specs.Steps.{IsExact};
ghost use Rattle.q4_turn.specs.Passes.{seat_view, Rests, HasNumber, IsSplitOff};
ghost use Rattle.q4_turn.specs.Turns.{view, seen, IsFree};

use crate::kept::Kept;
use crate::steps::{Both, Compare, Cut, Know, NamedParts, Number};
use crate::turn::{Pass, Turn};
use crate::view::View;
use crate::words::{MADE, MOST, TICKET, low_half};
use atomic_table::Seat;
use q4_value::NoMemory;
use std::alloc::Global;
use std::marker::Brand;
use std::sync::Wait;

impl<V: Kept> Turn<V> {
    /// A new pass of so many parts, which the old one loses. It has a number of its own, and has seen as much.
    ///
    /// It takes no memory, and its answer is always `Ok`. Where 2^62 numbers were drawn it does not return.
    pub fn split<R: Wait>(
        &self,
        rt: &R,
        alloc: Global,
        pass: &mut Pass<V>,
        parts: u64,
    ) -> Result<Pass<V>, NoMemory>
        requires turn { IsFree self.now pass.old }
        requires parts { (0 < parts) × (parts < (view pass.old).parts) }
        ensures ok { IsOk result }
        ensures old { IsFree self.now pass.new × (view pass.new ≡ after_split parts (view pass.old)) × IsExact V.mark (view pass.new) }
        ensures new { IfOk result (λ p. IsFree self.now p × IsSplitOff parts (view pass.old) (view p) × IsExact V.mark (view p)) }
    {
        let number = self.draw_number(rt, pass);
        Ok(self.split_named::<Brand>(pass, number, parts))
    }

    // Tries until it has a number.
    fn draw_number<R: Wait>(&self, rt: &R, pass: &mut Pass<V>) -> u64
        requires { IsFree self.now pass.old }
        ensures turn { pass.new.seat.table_id ≡ self.now.table.shared.table_id }
        ensures view { pass.new.seat.me ≡ (with_number (view pass.old) result, []) }
        ensures new { times result (claims (view pass.old)) ≡ 0 }
        ensures few { result < 2 ^ 62 }
    {
        let words = &self.table.shared;
        for _ in rt.forever() {
            let next = words.peek(MADE);
            if next < MOST {
                let found = words.compare_exchange::<Number>(&mut pass.seat, MADE, next, next + 1);
                if found == next {
                    return next;
                }
            } else {
                words.park(rt, MADE, low_half(next));
            }
        }
        unreachable!()
    }

    // Splits a pass that has a number in hand, by parts that the caller's proof names. Then each of the two looks, and learns what the rule says of it.
    fn split_named<N: NamedParts>(&self, pass: &mut Pass<V>, number: u64, parts: u64) -> Pass<V>
        requires turn { pass.old.seat.table_id ≡ self.now.table.shared.table_id }
        requires hand { HasNumber number pass.old.seat.me }
        requires named { parts ≡ N.parts }
        requires parts { (0 < N.parts) × (N.parts < (view pass.old).parts) }
        ensures old { IsFree self.now pass.new × (view pass.new ≡ after_split N.parts (view pass.old)) }
        ensures new { IsFree self.now result × (view result ≡ split_by_hand N.parts (view pass.old)) }
        ensures exact { IsExact V.mark (view pass.new) × IsExact V.mark (view result) }
    {
        let words = &self.table.shared;
        let seat = words.split_seat::<Cut<N>>(&mut pass.seat);
        let mut new = Pass { seat };
        words.load::<Know<V>>(&mut pass.seat, TICKET);
        words.load::<Know<V>>(&mut new.seat, TICKET);
        new
    }

    /// Makes one pass of two, which keeps the first one's number and holds.
    ///
    /// Its `seen` is the longer of both. Its `olds` are those of the first, then the second's own number and entries, then those of the second.
    pub fn join(&self, first: Pass<V>, second: Pass<V>) -> Pass<V>
        requires first { IsFree self.now first }
        requires second { IsFree self.now second }
        ensures free { IsFree self.now result }
        ensures view { view result ≡ joined (view first) (view second) }
        ensures seen { StartsWith (seen result) (seen first) × StartsWith (seen result) (seen second) }
        ensures exact { IsExact V.mark (view result) }
    {
        let seat = self.join_seats(first.into_seat(), second.into_seat());
        Pass { seat }
    }

    // Joins the views. Then the pass looks, and learns what the rule says of it.
    fn join_seats(
        &self,
        mut first: Seat<Option<V>, View<V::Entry>>,
        second: Seat<Option<V>, View<V::Entry>>,
    ) -> Seat<Option<V>, View<V::Entry>>
        requires first { Rests self.now.table.shared.table_id first }
        requires second { Rests self.now.table.shared.table_id second }
        ensures free { Rests self.now.table.shared.table_id result }
        ensures view { seat_view result ≡ joined (seat_view first) (seat_view second) }
        ensures seen { StartsWith (seat_view result).seen (seat_view first).seen × StartsWith (seat_view result).seen (seat_view second).seen }
        ensures exact { IsExact V.mark (seat_view result) }
    {
        self.table.shared.join_seat::<Both>(&mut first, second);
        self.table.shared.load::<Compare<V>>(&mut first, TICKET);
        first
    }
}
