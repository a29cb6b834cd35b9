//! A caller that is generic in the value: a desk keeps a pass, and makes holds that add no entry, one, or two.
ghost use Rattle.std.specs.Prelude.{◌≡◌, ◌+◌, ◌^◌, ◌<◌, ◌≤◌, ◌++◌, ◌∷◌, [], ℕ, List, length, IfSome, IfNone};
ghost use Rattle.q4_turn.specs.Views.{without_turn, extended};
ghost use Rattle.q4_turn.specs.Steps.{IsExact};
ghost use Rattle.q4_turn.specs.Passes.{MayAdd};
ghost use Rattle.q4_turn.specs.Turns.{view, number, parts, mine, seen, IsFree, HasTurn, value_of};
ghost use Rattle.q4_turn.specs.Props.{IsFree-prop};

use crate::kept::Kept;
use crate::turn::{Held, Pass, Turn};
use std::alloc::Global;
use std::sync::Wait;
use std::test::Fail;
use std::thread::{Threads, join};

/// A value whose calls are entries, with their caller, their argument and their reply. No call is told its caller.
trait Office: Kept {
    ghost entry: { ℕ → ℕ → ℕ → Self.Entry };

    fn act(&mut self, x: u64) -> u64
        ensures { (es : List Self.Entry) (caller : ℕ) → Self.stands self.old es → Self.stands self.new (es ++ entry caller x result ∷ []) };

    ghost marked: { (caller x reply : ℕ) → Self.mark (entry caller x reply) ≡ caller };
}

// Ends a hold that adds one entry, which the caller's proof names by the last two arguments.
fn leave_one<V: Office>(turn: &Turn<V>, pass: &mut Pass<V>, held: Held<V>, _x: u64, _reply: u64)
    ghost es: { List V.Entry }
    requires turn { HasTurn turn.now pass.old held }
    requires adds { MayAdd V.stands V.mark (view pass.old) (value_of held) 1 es }
    requires room { length (seen pass.old) + 1 ≤ 2 ^ 62 }
    ensures free { IsFree turn.now pass.new }
    ensures view { (view pass.new ≡ without_turn (extended (view pass.old) es)) × IsExact V.mark (view pass.new) }
{
    turn.leave(pass, held, 1);
}

// The same with two entries.
fn leave_two<V: Office>(
    turn: &Turn<V>,
    pass: &mut Pass<V>,
    held: Held<V>,
    _x: u64,
    _replies: (u64, u64),
)
    ghost es: { List V.Entry }
    requires turn { HasTurn turn.now pass.old held }
    requires adds { MayAdd V.stands V.mark (view pass.old) (value_of held) 2 es }
    requires room { length (seen pass.old) + 2 ≤ 2 ^ 62 }
    ensures free { IsFree turn.now pass.new }
    ensures view { (view pass.new ≡ without_turn (extended (view pass.old) es)) × IsExact V.mark (view pass.new) }
{
    turn.leave(pass, held, 2);
}

// One call in one hold, where there is room.
fn call<V: Office, R: Wait>(rt: &R, turn: &Turn<V>, pass: &mut Pass<V>, x: u64) -> Option<u64>
    requires { IsFree turn.now pass.old }
    ensures free { IsFree turn.now pass.new }
    ensures parts { parts pass.new ≡ parts pass.old }
    ensures some { IfSome result (λ r. mine pass.new ≡ mine pass.old ++ V.entry (number pass.old) x r ∷ []) }
    ensures none { IfNone result (mine pass.new ≡ mine pass.old) }
{
    let mut held = turn.enter(rt, pass);
    if held.count() < 1 << 61 {
        let reply = held.value().act(x);
        leave_one(turn, pass, held, x, reply);
        Some(reply)
    } else {
        turn.leave(pass, held, 0);
        None
    }
}

// Two calls in one hold.
fn call_twice<V: Office, R: Wait>(
    rt: &R,
    turn: &Turn<V>,
    pass: &mut Pass<V>,
    x: u64,
) -> Option<(u64, u64)>
    requires { IsFree turn.now pass.old }
    ensures free { IsFree turn.now pass.new }
    ensures parts { parts pass.new ≡ parts pass.old }
    ensures some { IfSome result (λ r. mine pass.new ≡ mine pass.old ++ (V.entry (number pass.old) x r.0 ∷ V.entry (number pass.old) x r.1 ∷ [])) }
    ensures none { IfNone result (mine pass.new ≡ mine pass.old) }
{
    let mut held = turn.enter(rt, pass);
    if held.count() < 1 << 61 {
        let first = held.value().act(x);
        let second = held.value().act(x);
        leave_two(turn, pass, held, x, (first, second));
        Some((first, second))
    } else {
        turn.leave(pass, held, 0);
        None
    }
}

/// Keeps a pass of the turn, which is free between any two calls.
struct Desk<'s, V: Kept> {
    turn: &'s Turn<V>,
    pass: Pass<V>,
    ghost free: { IsFree turn.now pass } by { IsFree-prop turn.now pass },
}

impl<'s, V: Office> Desk<'s, V> {
    fn new(turn: &'s Turn<V>, pass: Pass<V>) -> Desk<'s, V>
        requires { IsFree turn.now pass }
        ensures pass { result.pass ≡ pass }
        ensures turn { result.turn.now ≡ turn.now }
    {
        Desk { turn, pass }
    }

    fn act<R: Wait>(&mut self, rt: &R, x: u64) -> Option<u64>
        ensures same { (self.new.turn ≡ self.old.turn) × (parts self.new.pass ≡ parts self.old.pass) }
        ensures some { IfSome result (λ r. mine self.new.pass ≡ mine self.old.pass ++ V.entry (number self.old.pass) x r ∷ []) }
        ensures none { IfNone result (mine self.new.pass ≡ mine self.old.pass) }
    {
        call(rt, self.turn, &mut self.pass, x)
    }

    fn act_twice<R: Wait>(&mut self, rt: &R, x: u64) -> Option<(u64, u64)>
        ensures same { (self.new.turn ≡ self.old.turn) × (parts self.new.pass ≡ parts self.old.pass) }
        ensures some { IfSome result (λ r. mine self.new.pass ≡ mine self.old.pass ++ (V.entry (number self.old.pass) x r.0 ∷ V.entry (number self.old.pass) x r.1 ∷ [])) }
        ensures none { IfNone result (mine self.new.pass ≡ mine self.old.pass) }
    {
        call_twice(rt, self.turn, &mut self.pass, x)
    }

    fn give_back(self) -> Pass<V>
        ensures pass { result ≡ self.entry.pass }
        ensures free { IsFree self.entry.turn.now result }
    {
        let Desk { turn: _, pass } = self;
        pass
    }
}

// Calls once, and then twice in one hold.
fn serve<V: Office, R: Wait>(rt: &R, turn: &Turn<V>, pass: Pass<V>, x: u64) -> Pass<V>
    requires { IsFree turn.now pass }
    ensures free { IsFree turn.now result }
    ensures parts { parts result ≡ parts pass }
{
    let mut desk = Desk::new(turn, pass);
    let _ = desk.act(rt, x);
    let _ = desk.act_twice(rt, x);
    desk.give_back()
}

// Two threads serve, each by a pass of its own.
fn both<V: Office + Send, R: Threads + Wait + Sync>(
    rt: &R,
    turn: &Turn<V>,
    first: Pass<V>,
    second: Pass<V>,
) -> Pass<V>
    requires { IsFree turn.now first × IsFree turn.now second }
    ensures free { IsFree turn.now result }
    ensures parts { parts result ≡ parts first + parts second }
    ensures exact { IsExact V.mark (view result) }
{
    let (first, second) = join(
        rt,
        move || -> Pass<V>
            requires { IsFree turn.now first }
            ensures { IsFree turn.entry.now result × (parts result ≡ parts first) }
        { serve(rt, turn, first, 5) },
        move || -> Pass<V>
            requires { IsFree turn.now second }
            ensures { IsFree turn.entry.now result × (parts result ≡ parts second) }
        { serve(rt, turn, second, 7) },
    );
    turn.join(first, second)
}

/// Adds up what it is told.
#[derive(Drop)]
struct Adder {
    sum: u64,
}

impl Kept for Adder {
    ghost use Rattle.std.specs.Prelude.{◌≡◌, ◌%◌, ◌^◌, sum_by};

    type Entry = (u64, u64, u64);

    ghost stands = { λ c es. c.sum ≡ sum_by (λ e. e.1) es % 2 ^ 64 };

    ghost mark = { λ e. e.0 };
}

impl Office for Adder {
    ghost use Rattle.std.specs.Prelude.{refl};

    ghost entry = { λ caller x reply. (caller, x, reply) };

    fn act(&mut self, x: u64) -> u64 {
        self.sum = self.sum.wrapping_add(x);
        self.sum
    }

    ghost marked = { λ caller x reply. refl };
}

// Two desks on two threads, from the making of the turn to its end.
fn add_by_two<R: Threads + Wait + Sync>(rt: &R, alloc: Global) -> Option<Adder> {
    let (turn, mut first) = Turn::new(alloc, Adder { sum: 0 }, 5).ok()?;
    let second = turn.split(rt, alloc, &mut first, 2).ok()?;
    let pass = both(rt, &turn, first, second);
    let (value, _pass) = turn.close(pass);
    Some(value)
}

#[test]
fn desks_on_two_threads_share_a_value(rt: HostRuntime) -> Result<(), Fail> {
    let Some(value) = add_by_two(&rt, rt.alloc()) else {
        panic!(rt; "no memory")
    };
    // Three times 5, and three times 7.
    assert!(rt; value.sum == 36);
    Ok(())
}
