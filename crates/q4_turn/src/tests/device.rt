//! A value over a device, as an office stands over disks: the value is generic, and its entries are not.
ghost use Rattle.std.specs.Prelude.{◌≡◌, ◌+◌, ◌^◌, ◌<◌, ◌≤◌, ◌++◌, ◌∷◌, [], ℕ, List, length, IsTrue};
ghost use Rattle.q4_turn.specs.Views.{without_turn, extended};
ghost use Rattle.q4_turn.specs.Passes.{MayAdd};
ghost use Rattle.q4_turn.specs.Turns.{view, number, parts, mine, seen, IsFree, HasTurn, value_of};

use crate::kept::Kept;
use crate::turn::{Held, Pass, Turn};
use std::alloc::Global;
use std::sync::Wait;
use std::test::Fail;

trait Device {
    ghost has: { Self → ℕ → Type 0 };

    fn append(&mut self)
        ensures { (n : ℕ) → Self.has self.old n → Self.has self.new (n + 1) };
}

struct Line {
    caller: u64,
    what: u64,
}

#[derive(Drop)]
struct Journal<D: Device> {
    device: D,
}

impl<D: Device> Kept for Journal<D> {
    ghost use Rattle.std.specs.Prelude.{length};

    type Entry = Line;

    ghost stands = { λ c es. D.has c.device (length es) };

    ghost mark = { λ e. e.caller };
}

// Ends a hold that adds one line, which the caller's proof names by the last argument.
fn leave_line<D: Device>(
    turn: &Turn<Journal<D>>,
    pass: &mut Pass<Journal<D>>,
    held: Held<Journal<D>>,
    _what: u64,
)
    ghost es: { List Line }
    requires turn { HasTurn turn.now pass.old held }
    requires adds { MayAdd ⟦<Journal<D> as Kept>⟧.stands ⟦<Journal<D> as Kept>⟧.mark (view pass.old) (value_of held) 1 es }
    requires room { length (seen pass.old) + 1 ≤ 2 ^ 62 }
    ensures free { IsFree turn.now pass.new }
    ensures view { view pass.new ≡ without_turn (extended (view pass.old) es) }
{
    turn.leave(pass, held, 1);
}

// Appends a line in one hold, where there is room.
fn append<D: Device, R: Wait>(
    rt: &R,
    turn: &Turn<Journal<D>>,
    pass: &mut Pass<Journal<D>>,
    what: u64,
) -> bool
    requires { IsFree turn.now pass.old }
    ensures free { IsFree turn.now pass.new }
    ensures parts { parts pass.new ≡ parts pass.old }
    ensures mine { IsTrue result → mine pass.new ≡ mine pass.old ++ record { caller = number pass.old; what = what } ∷ [] }
{
    let mut held = turn.enter(rt, pass);
    if held.count() < 1 << 61 {
        let value = held.value();
        value.device.append();
        leave_line(turn, pass, held, what);
        true
    } else {
        turn.leave(pass, held, 0);
        false
    }
}

/// Counts its lines.
#[derive(Drop)]
struct Tape {
    lines: u64,
}

impl Device for Tape {
    ghost use Rattle.std.specs.Prelude.{◌≡◌, ◌%◌, ◌^◌};

    ghost has = { λ d n. d.lines ≡ n % 2 ^ 64 };

    fn append(&mut self) {
        self.lines = self.lines.wrapping_add(1);
    }
}

// Appends so many lines.
fn write<R: Wait>(rt: &R, alloc: Global, lines: u64) -> Option<Journal<Tape>> {
    let device = Tape { lines: 1 };
    let (turn, mut pass) = Turn::new(alloc, Journal { device }, 1).ok()?;
    for what in 0..lines {
        append(rt, &turn, &mut pass, what);
    }
    let (journal, _pass) = turn.close(pass);
    Some(journal)
}

#[test]
fn a_journal_has_a_line_for_each_entry(rt: HostRuntime) -> Result<(), Fail> {
    let Some(journal) = write(&rt, rt.alloc(), 3) else {
        panic!(rt; "no memory")
    };
    assert!(rt; journal.device.lines == 4);
    Ok(())
}
