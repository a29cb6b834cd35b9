ghost use Rattle.std.specs.Prelude.{◌≡◌, ◌↔◌, [], ◌∷◌, ◌++◌, length, slice_get, IsTrue, Contains, IfOk, IfErr, OnOk, OnErr};

use q4_value::NoMemory;
use std::alloc::Global;
use std::marker::Model;

/// A list of numbers.
#[derive(Drop)]
pub struct Numbers {
    numbers: Vec<u64>,
}

impl Model for Numbers {
    ghost use Rattle.std.specs.Prelude.{List, ℕ};

    ghost Value = { List ℕ };

    ghost view = { λ n. n.numbers.items };
}

impl Numbers {
    /// No numbers. It takes no memory.
    pub fn new(alloc: Global) -> Numbers
        ensures { result ≡ [] }
    {
        Numbers {
            numbers: Vec::new(alloc),
        }
    }

    /// Puts a number at the end. A refusal gives it back, and leaves the list.
    pub fn push(&mut self, number: u64) -> Result<(), (u64, NoMemory)>
        ensures pushed { OnOk result (self.new ≡ self.old ++ number ∷ []) }
        ensures kept { OnErr result (self.new ≡ self.old) }
        ensures given_back { IfErr result (λ fault. fault.0 ≡ number) }
    {
        match self.numbers.push(number) {
            Ok(()) => Ok(()),
            Err(refused) => Err((refused.value, NoMemory)),
        }
    }

    pub fn len(&self) -> usize
        ensures { result ≡ length self.now }
    {
        self.numbers.len()
    }

    /// The number at this place, counted from 0.
    pub fn at(&self, place: usize) -> Option<u64>
        ensures { result ≡ slice_get self.now place }
    {
        self.numbers.get(place).copied()
    }

    pub fn contains(&self, number: u64) -> bool
        ensures { IsTrue result ↔ Contains self.now number }
    {
        self.numbers.contains(&number)
    }

    pub fn copy(&self, alloc: Global) -> Result<Numbers, NoMemory>
        ensures { IfOk result (λ numbers. numbers ≡ self.now) }
    {
        match self.numbers.to_vec(alloc) {
            Ok(numbers) => Ok(Numbers { numbers }),
            Err(_) => Err(NoMemory),
        }
    }
}
