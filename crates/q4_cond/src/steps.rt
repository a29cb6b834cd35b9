//! How often conditions were asked of rows: a count that contracts see, and that takes no bytes.
ghost use Rattle.std.specs.Prelude.{◌≡◌, ◌+◌, ℕ};
ghost use Rattle.std.specs.Borrow.{ftrue};

use std::marker::{Model, PhantomData};
use std::sync::ledger::Ledger;

// A number that contracts alone see.
#[derive(Drop)]
struct Count {
    ghost number: { ℕ },
}

impl Model for Count {
    ghost also_owns = { λ _. ftrue };
}

impl Count {
    fn zero() -> Count
        ensures { result.number ≡ 0 }
    {
        Count {}
    }

    fn after(_before: &Count) -> Count
        ensures { result.number ≡ _before.now.number + 1 }
    {
        Count {}
    }
}

/// How often `met` was asked, on the ledger L. A contract sees the number. Only `met` raises it, and code that is
/// generic in L cannot make one.
#[derive(Drop)]
pub struct Steps<L: Ledger> {
    ledger: PhantomData<L>,
    count: Count,
}

impl<L: Ledger> Model for Steps<L> {
    ghost Value = { ℕ };

    ghost view = { λ s. s.count.number };
}

impl<L: Ledger> Steps<L> {
    // One step more.
    pub(crate) fn count_one(&mut self)
        ensures { self.new ≡ self.old + 1 }
    {
        self.count = Count::after(&self.count);
    }
}

/// The ledger of the steps that `cond_steps` makes.
pub struct CondLedger;

impl Ledger for CondLedger {
    ghost name = { 0 };

    ghost parts = { 0 };
}

/// No steps yet.
pub fn cond_steps() -> Steps<CondLedger>
    ensures { result ≡ 0 }
{
    Steps {
        ledger: PhantomData,
        count: Count::zero(),
    }
}
