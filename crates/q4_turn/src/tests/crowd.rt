//! Many threads that hold one turn: so long that the others have to sleep, and so many that some share the word on which they sleep.
ghost use Rattle.std.specs.Prelude.{◌≡◌, ◌-◌, ◌<◌, IfSome};
ghost use Rattle.q4_turn.specs.Turns.{parts, IsFree};
ghost use denote.Param.Send.{IsSync};

use super::counter::{Counter, Load, work};
use crate::turn::{Pass, Turn};
use std::alloc::Global;
use std::sync::Wait;
use std::test::Fail;
use std::thread::{Threads, join};

// So many threads as the pass has parts work at once, each by a pass of its own, and then the passes are one again. The first thread lingers in each hold.
fn crowd<R: Threads + Wait + Sync>(
    rt: &R,
    alloc: Global,
    turn: &Turn<Counter>,
    mut pass: Pass<Counter>,
    threads: u64,
    load: Load,
) -> Option<Pass<Counter>>
    requires free { IsFree turn.now pass }
    requires parts { (parts pass ≡ threads) × (0 < threads) }
    ensures { IfSome result (λ p. IsFree turn.now p × (parts p ≡ threads)) }
{
    if threads == 1 {
        let (pass, _) = work(rt, turn, pass, load);
        return Some(pass);
    }
    let half = threads / 2;
    let rest = threads - half;
    let other = turn.split(rt, alloc, &mut pass, half).ok()?;
    let swift = Load { spins: 0, ..load };
    let (first, second) = join(
        rt,
        move || -> Option<Pass<Counter>>
            requires { IsSync R.row × IsFree turn.now pass × (parts pass ≡ rest) × (0 < rest) }
            ensures { IfSome result (λ p. IsFree turn.entry.now p × (parts p ≡ rest)) }
        { crowd(rt, alloc, turn, pass, rest, load) },
        move || -> Option<Pass<Counter>>
            requires { IsSync R.row × IsFree turn.now other × (parts other ≡ half) × (0 < half) }
            ensures { IfSome result (λ p. IsFree turn.entry.now p × (parts p ≡ half)) }
        { crowd(rt, alloc, turn, other, half, swift) },
    );
    Some(turn.join(first?, second?))
}

// A counter that so many threads have added to.
fn counted<R: Threads + Wait + Sync>(
    rt: &R,
    alloc: Global,
    threads: u64,
    load: Load,
) -> Option<Counter>
    requires { 0 < threads }
{
    let (turn, pass) = Turn::new(alloc, Counter { count: 1 }, threads).ok()?;
    let pass = crowd(rt, alloc, &turn, pass, threads, load)?;
    let (value, _pass) = turn.close(pass);
    Some(value)
}

#[test]
fn threads_that_sleep_for_the_turn_are_woken(rt: HostRuntime) -> Result<(), Fail> {
    // A hold of the first thread is some ten times as long as the others look before they sleep.
    let load = Load {
        holds: 25_000,
        spins: 1_000,
    };
    let Some(value) = counted(&rt, rt.alloc(), 4, load) else {
        panic!(rt; "no memory")
    };
    assert!(rt; value.count == 100_001);
    Ok(())
}

#[test]
fn threads_that_sleep_on_one_word_are_woken(rt: HostRuntime) -> Result<(), Fail> {
    // Of 100 threads that wait, some have tickets that are 64 apart.
    let load = Load {
        holds: 100,
        spins: 1_000,
    };
    let Some(value) = counted(&rt, rt.alloc(), 100, load) else {
        panic!(rt; "no memory")
    };
    assert!(rt; value.count == 10_001);
    Ok(())
}
