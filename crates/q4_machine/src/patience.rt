ghost use Rattle.std.specs.Prelude.{◌≡◌, Some};
ghost use Rattle.q4_machine.specs.Patience.{PatienceState, Starts, Asked};

use std::marker::Model;

/// How long a wait goes on: it is started once, and asked before each look whether the time is over.
pub trait Patience {
    /// The counts of its calls, the seconds of the last `start`, and its turns.
    ghost state: { Self → PatienceState };

    /// Begins a wait of so many seconds.
    fn start(&mut self, seconds: u32)
        ensures { Starts (state self.old) (state self.new) seconds };

    /// Whether the time is over.
    fn over(&mut self) -> bool
        ensures { Asked (state self.old) (state self.new) result };
}

// Counts of calls, which stop at 2^64 - 1.
#[derive(Clone, Copy, Debug, PartialEq, Eq)]
struct Counts {
    starts: u64,
    limit: u32,
    spent: u64,
    asks: u64,
}

const NO_CALL: Counts = Counts {
    starts: 0,
    limit: 0,
    spent: 0,
    asks: 0,
};

/// A patience whose time is always over.
#[derive(Drop)]
pub struct Never {
    counts: Counts,
}

impl Model for Never {
    ghost Value = { PatienceState };

    ghost view = { λ p. record { starts = p.counts.starts; limit = p.counts.limit; spent = p.counts.spent; asks = p.counts.asks; turns = 0; given = Some 0 } };
}

impl Never {
    pub fn new() -> Never
        ensures { result ≡ record { starts = 0; limit = 0; spent = 0; asks = 0; turns = 0; given = Some 0 } }
    {
        Never { counts: NO_CALL }
    }
}

impl Patience for Never {
    ghost state = { λ p. p };

    fn start(&mut self, seconds: u32) {
        self.counts.starts = self.counts.starts.saturating_add(1);
        self.counts.limit = seconds;
    }

    fn over(&mut self) -> bool {
        self.counts.asks = self.counts.asks.saturating_add(1);
        self.counts.spent = self.counts.spent.saturating_add(1);
        true
    }
}

/// A patience that is asked this often in vain before the time of a wait is over, whatever its seconds.
#[derive(Drop)]
pub struct Turns {
    counts: Counts,
    turns: u64,
    left: u64,
}

impl Model for Turns {
    ghost Value = { PatienceState };

    ghost view = { λ p. record { starts = p.counts.starts; limit = p.counts.limit; spent = p.counts.spent; asks = p.counts.asks; turns = p.left; given = Some p.turns } };
}

impl Turns {
    pub fn new(turns: u64) -> Turns
        ensures { result ≡ record { starts = 0; limit = 0; spent = 0; asks = 0; turns = turns; given = Some turns } }
    {
        Turns {
            counts: NO_CALL,
            turns,
            left: turns,
        }
    }
}

impl Patience for Turns {
    ghost state = { λ p. p };

    fn start(&mut self, seconds: u32) {
        self.counts.starts = self.counts.starts.saturating_add(1);
        self.counts.limit = seconds;
        self.left = self.turns;
    }

    fn over(&mut self) -> bool {
        self.counts.asks = self.counts.asks.saturating_add(1);
        if self.left == 0 {
            self.counts.spent = self.counts.spent.saturating_add(1);
            true
        } else {
            self.left -= 1;
            false
        }
    }
}
