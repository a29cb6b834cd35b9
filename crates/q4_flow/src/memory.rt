ghost use Rattle.std.specs.Prelude.{◌≡◌, ◌≤◌, ◌<◌, ◌↔◌, [], ◌++◌, ℕ, List, Some, Bool, true, false, length, take, min, IfOk, OnOk, OnErr, IsErr, IsTrue, Contains};
ghost use Rattle.q4_flow.specs.Flow.{Gave, Counts, EndsOnce, Took, TookFront};
ghost use Rattle.q4_flow.specs.Memory.{next_call};

use crate::{ReadFailed, Sink, Source, WriteFailed};
use q4_value::NoMemory;
use std::alloc::Global;
use std::marker::Model;

fn copy_of<T: Copy>(alloc: Global, items: &[T]) -> Result<Vec<T>, NoMemory>
    ensures { IfOk result (λ copy. copy.items ≡ items.now) }
{
    match Vec::from_slice(alloc, items) {
        Ok(copy) => Ok(copy),
        Err(_) => Err(NoMemory),
    }
}

/// A source that gives bytes from memory. It tells what is left.
#[derive(Drop)]
pub struct MemorySource {
    bytes: Vec<u8>,
    at: usize,
    failing: Vec<u64>,
    calls: u64,
    faults: u64,
    ended: bool,
}

impl Model for MemorySource {
    ghost use Rattle.std.specs.Prelude.{◌≤◌, ◌≡◌, length, drop, IsTrue};
    ghost use Rattle.q4_flow.specs.Memory.{Input};

    ghost Value = { Input };

    ghost view = { λ s. record { left = drop s.at s.bytes.items; failing = s.failing.items; calls = s.calls; faults = s.faults; ended = s.ended } };

    ghost invariant = { λ s. record { within : s.at ≤ length s.bytes.items; at_end : IsTrue s.ended → s.at ≡ length s.bytes.items } };
}

impl MemorySource {
    /// Copies the bytes. The reads with the numbers of `failing`, counted from 1, fail.
    pub fn new(alloc: Global, bytes: &[u8], failing: &[u64]) -> Result<MemorySource, NoMemory>
        ensures { IfOk result (λ source. source ≡ record { left = bytes.now; failing = failing.now; calls = 0; faults = 0; ended = false }) }
    {
        Ok(MemorySource {
            bytes: copy_of(alloc, bytes)?,
            at: 0,
            failing: copy_of(alloc, failing)?,
            calls: 0,
            faults: 0,
            ended: false,
        })
    }
}

impl Source for MemorySource {
    ghost left = { λ s. Some s.left };

    ghost ended = { λ s. s.ended };

    ghost faults = { λ s. s.faults };

    ghost reads = { λ s. length s.left };

    fn read(&mut self, into: &mut [u8]) -> Result<usize, ReadFailed>
        ensures within { IfOk result (λ count. count ≤ length into.new) }
        ensures gave { IfOk result (λ count. Gave (Some self.old.left) (Some self.new.left) (take count into.new)) }
        ensures kept { OnErr result (Some self.new.left ≡ Some self.old.left) }
        ensures ends { EndsOnce self.old.ended self.new.ended (length into.old) (Some self.new.left) result }
        ensures costs { IfOk result (λ count. 0 < count → length self.new.left < length self.old.left) }
        ensures measure { length self.new.left ≤ length self.old.left }
        ensures cause { Counts self.old.faults self.new.faults result }

        // It fails by the list of numbers alone.
        ensures fails { IsErr result ↔ Contains self.old.failing (next_call self.old.calls) }
        ensures calls { self.new.calls ≡ next_call self.old.calls }
        ensures failing { self.new.failing ≡ self.old.failing }
    {
        self.calls = self.calls.saturating_add(1);
        if self.failing.contains(&self.calls) {
            self.faults = self.faults.saturating_add(1);
            return Err(ReadFailed);
        }
        if into.is_empty() {
            return Ok(0);
        }
        let count = copy_front(&self.bytes[self.at..], into);
        self.at += count;
        if count == 0 {
            self.ended = true;
            return Ok(0);
        }
        Ok(count)
    }
}

// Copies as many bytes from the front as there are and fit.
fn copy_front(bytes: &[u8], into: &mut [u8]) -> usize
    ensures count { result ≡ min (length bytes.now) (length into.old) }
    ensures front { take result into.new ≡ take result bytes.now }
{
    let count = bytes.len().min(into.len());
    into[..count].copy_from_slice(&bytes[..count]);
    count
}

/// A sink that keeps what was written. It tells it.
#[derive(Drop)]
pub struct MemorySink {
    bytes: Vec<u8>,
    failing: Vec<u64>,
    calls: u64,
    faults: u64,
}

impl Model for MemorySink {
    ghost use Rattle.q4_flow.specs.Memory.{Output};

    ghost Value = { Output };

    ghost view = { λ s. record { written = s.bytes.items; failing = s.failing.items; calls = s.calls; faults = s.faults } };
}

impl MemorySink {
    /// The writes with the numbers of `failing`, counted from 1, fail.
    pub fn new(alloc: Global, failing: &[u64]) -> Result<MemorySink, NoMemory>
        ensures { IfOk result (λ sink. sink ≡ record { written = []; failing = failing.now; calls = 0; faults = 0 }) }
    {
        Ok(MemorySink {
            bytes: Vec::new(alloc),
            failing: copy_of(alloc, failing)?,
            calls: 0,
            faults: 0,
        })
    }

    pub fn bytes(&self) -> &[u8]
        ensures { result.now ≡ self.now.written }
    {
        self.bytes.as_slice()
    }
}

impl Sink for MemorySink {
    ghost written = { λ s. Some s.written };

    ghost faults = { λ s. s.faults };

    /// Want of memory is a failure too.
    fn write(&mut self, bytes: &[u8]) -> Result<(), WriteFailed>
        ensures all { OnOk result (Took (Some self.old.written) (Some self.new.written) bytes.now) }
        ensures front { OnErr result (TookFront (Some self.old.written) (Some self.new.written) bytes.now) }
        ensures cause { Counts self.old.faults self.new.faults result }

        ensures fails { Contains self.old.failing (next_call self.old.calls) → IsErr result }
        ensures kept { OnErr result (self.new.written ≡ self.old.written) }
        ensures calls { self.new.calls ≡ next_call self.old.calls }
        ensures failing { self.new.failing ≡ self.old.failing }
    {
        self.calls = self.calls.saturating_add(1);
        if !self.failing.contains(&self.calls) && self.bytes.extend_from_slice(bytes).is_ok() {
            return Ok(());
        }
        self.faults = self.faults.saturating_add(1);
        Err(WriteFailed)
    }
}
