//! A value that counts its entries.
ghost use Rattle.std.specs.Prelude.{◌≡◌, ◌+◌, ◌^◌, ◌<◌, ◌≤◌, length, IfSome, []};
ghost use Rattle.q4_turn.specs.Turns.{view, IsFree};
ghost use Rattle.q4_turn.specs.Counted.{Grew, Joined};

use crate::kept::Kept;
use crate::turn::{Pass, Turn};
use std::alloc::Global;
use std::hint;
use std::sync::Wait;
use std::test::Fail;
use std::thread::{Threads, join};

#[derive(Drop)]
pub(super) struct Counter {
    pub(super) count: u64,
}

impl Kept for Counter {
    ghost use Rattle.std.specs.Prelude.{◌≡◌, length};

    type Entry = u64;

    ghost stands = { λ c es. c.count ≡ length es };

    ghost mark = { λ e. e };
}

fn linger(spins: u32) {
    for _ in 0..spins {
        hint::spin_loop();
    }
}

// Enters once, lingers, and adds so many entries of this pass, where there is room. Answers the length that it found, and how many it added.
fn add<R: Wait>(
    rt: &R,
    turn: &Turn<Counter>,
    pass: &mut Pass<Counter>,
    more: u64,
    spins: u32,
) -> (u64, u64)
    requires free { IsFree turn.now pass.old }
    requires few { more ≤ 2 }
    ensures free { IsFree turn.now pass.new }
    ensures grew { Grew (view pass.old) result.1 (view pass.new) }
    ensures few { result.1 ≤ more }
{
    let mut held = turn.enter(rt, pass);
    linger(spins);
    let count = held.count();
    if count < 1 << 61 {
        let value = held.value();
        value.count += more;
        turn.leave(pass, held, more);
        (count, more)
    } else {
        turn.leave(pass, held, 0);
        (count, 0)
    }
}

/// What a thread does: how often it enters, and how long it lingers in each hold.
#[derive(Clone, Copy)]
pub(super) struct Load {
    pub(super) holds: u32,
    pub(super) spins: u32,
}

pub(super) fn work<R: Wait>(
    rt: &R,
    turn: &Turn<Counter>,
    mut pass: Pass<Counter>,
    load: Load,
) -> (Pass<Counter>, u64)
    requires { IsFree turn.now pass }
    ensures free { IsFree turn.now result.0 }
    ensures grew { Grew (view pass) result.1 (view result.0) }
{
    let mut added = 0;
    for i in 0..load.holds {
        let _ = i;
        let (_, more) = add(rt, turn, &mut pass, 1, load.spins);
        added += more;
    }
    (pass, added)
}

// Two threads enter so many times each. What they added is in the history, in which nothing else is but the first entry.
fn two<R: Threads + Wait + Sync>(
    rt: &R,
    alloc: Global,
    holds: u32,
) -> Option<(Counter, Pass<Counter>, u64, u64)>
    ensures value { IfSome result (λ r. r.0.count ≡ length (view r.1).seen) }
    ensures passes { IfSome result (λ r. Joined r.2 r.3 (view r.1)) }
{
    let (turn, mut first) = Turn::new(alloc, Counter { count: 1 }, 2).ok()?;
    let second = turn.split(rt, alloc, &mut first, 1).ok()?;
    let shared = &turn;
    let load = Load { holds, spins: 0 };
    let (a, b) = join(
        rt,
        move || -> (Pass<Counter>, u64)
            requires { IsFree shared.now first }
            ensures { IsFree shared.entry.now result.0 × Grew (view first) result.1 (view result.0) }
        { work(rt, shared, first, load) },
        move || -> (Pass<Counter>, u64)
            requires { IsFree shared.now second }
            ensures { IsFree shared.entry.now result.0 × Grew (view second) result.1 (view result.0) }
        { work(rt, shared, second, load) },
    );
    let (first, m) = a;
    let (second, n) = b;
    let all = turn.join(first, second);
    let (value, pass) = turn.close(all);
    Some((value, pass, m, n))
}

#[test]
fn two_threads_add_a_thousand_entries_each(rt: HostRuntime) -> Result<(), Fail> {
    let Some((value, _pass, m, n)) = two(&rt, rt.alloc(), 1000) else {
        panic!(rt; "no memory")
    };
    assert!(rt; value.count == 2001 && m == 1000 && n == 1000);
    Ok(())
}

// Each row: how many entries a hold adds, and the length that it finds.
const HOLDS: [(u64, u64); 6] = [(0, 1), (1, 1), (2, 2), (0, 4), (2, 4), (1, 6)];

// Makes these holds by one pass. Answers in how many of them the length was the one of the row and all entries were added, and the value.
fn alone<R: Wait>(rt: &R, alloc: Global, holds: &[(u64, u64)]) -> Option<(u64, Counter)> {
    let (turn, mut pass) = Turn::new(alloc, Counter { count: 1 }, 1).ok()?;
    let mut right = 0u64;
    for &(more, length) in holds {
        let more = more.min(2);
        let (count, added) = add(rt, &turn, &mut pass, more, 0);
        if count == length && added == more {
            right = right.saturating_add(1);
        }
    }
    let (value, _pass) = turn.close(pass);
    Some((right, value))
}

#[test]
fn a_hold_finds_what_was_added_before(rt: HostRuntime) -> Result<(), Fail> {
    let Some((right, value)) = alone(&rt, rt.alloc(), &HOLDS) else {
        panic!(rt; "no memory")
    };
    assert!(rt; right == 6 && value.count == 7);
    Ok(())
}
