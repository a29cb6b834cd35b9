ghost use Rattle.std.specs.Prelude.{◌≡◌, ◌+◌, ◌-◌, ◌≤◌, ◌<◌, ◌^◌, ◌++◌, ◌↔◌, [], ◌∷◌, ℕ, List, IsTrue, IfOk, OnOk, length, take, drop, vec_len, vec_capacity};
ghost use Rattle.std.specs.Int.{w32, to_be_bytes};
ghost use Rattle.q4_value.specs.Row.{IsRowOf};
ghost use Rattle.q4_record.specs.Record.{record_bytes};
ghost use Rattle.q4_store.specs.Commit.{sealed};
ghost use Rattle.q4_store.specs.Content.{row_added, row_ended};

use q4_record::{spell_end, spell_insert};
use q4_table::Origin;
use q4_value::{Column, NoMemory, Row};
use std::alloc::Global;
use std::marker::Model;

// What is written besides the records: their length and the gate behind them.
const SEAL: usize = 5;

/// The records that wait for a commit, as it writes them: their length, the records, and a closed gate.
#[derive(Drop)]
pub(crate) struct Batch {
    bytes: Vec<u8>,
}

impl Model for Batch {
    ghost use Rattle.std.specs.Prelude.{◌-◌, length, vec_capacity};
    ghost use Rattle.q4_store.specs.Waiting.{Waiting, unsealed, IsSealed};

    ghost Value = { Waiting };

    ghost view = { λ b. record { records = unsealed b.bytes.items; room = vec_capacity b.bytes - length b.bytes.items } };

    ghost invariant = { λ b. IsSealed b.bytes.items };
}

impl Batch {
    /// No records, and memory for so many bytes of them.
    pub fn new(alloc: Global, room: usize) -> Result<Batch, NoMemory>
        requires { room < 2 ^ 62 }
        ensures records { IfOk result (λ batch. batch.records ≡ []) }
        ensures room { IfOk result (λ batch. room ≤ batch.room) }
    {
        let Ok(mut bytes) = Vec::with_capacity(alloc, room + SEAL) else {
            return Err(NoMemory);
        };
        put(&mut bytes, &[0; 5]);
        Ok(Batch { bytes })
    }

    /// What a commit writes.
    pub fn as_slice(&self) -> &[u8]
        ensures { result.now ≡ sealed self.now.records }
    {
        &self.bytes
    }

    /// The length of the records.
    pub fn len(&self) -> usize
        ensures { result ≡ length self.now.records }
    {
        self.bytes.len() - SEAL
    }

    /// Whether there are no records.
    pub fn is_empty(&self) -> bool
        ensures { IsTrue result ↔ (self.now.records ≡ []) }
    {
        self.len() == 0
    }

    /// Takes memory for so many bytes more. A refusal changes nothing.
    pub fn reserve(&mut self, additional: usize) -> Result<(), NoMemory>
        ensures records { self.new.records ≡ self.old.records }
        ensures room { OnOk result (additional ≤ self.new.room) }
        ensures kept { self.old.room ≤ self.new.room }
    {
        match self.bytes.reserve(additional) {
            Ok(()) => Ok(()),
            Err(_) => Err(NoMemory),
        }
    }

    /// Puts the record of a row of these columns that was added behind the others.
    pub fn put_row(&mut self, columns: &[Column], number: u64, row: &Row, origin: Option<Origin>)
        requires row { IsRowOf columns.now row.now }
        requires room { length (record_bytes (row_added columns.now number row.now origin)) ≤ self.old.room }
        requires few { length self.old.records + length (record_bytes (row_added columns.now number row.now origin)) < 2 ^ 32 }
        ensures records { self.new.records ≡ self.old.records ++ record_bytes (row_added columns.now number row.now origin) }
        ensures room { self.old.room ≤ self.new.room + length (record_bytes (row_added columns.now number row.now origin)) }
    {
        unseal(&mut self.bytes);
        spell_insert(columns, number, row, origin, &mut self.bytes);
        seal(&mut self.bytes);
    }

    /// Puts the record of a row that was removed behind the others.
    pub fn put_end(&mut self, number: u64)
        requires room { 9 ≤ self.old.room }
        requires few { length self.old.records + 9 < 2 ^ 32 }
        ensures records { self.new.records ≡ self.old.records ++ record_bytes (row_ended number) }
        ensures room { self.old.room ≤ self.new.room + 9 }
    {
        unseal(&mut self.bytes);
        spell_end(number, &mut self.bytes);
        seal(&mut self.bytes);
    }

    /// Lets the records go, and keeps their memory.
    pub fn clear(&mut self)
        ensures records { self.new.records ≡ [] }
        ensures room { self.old.room ≤ self.new.room }
    {
        self.bytes.truncate(4);
        seal(&mut self.bytes);
    }
}

// Puts these bytes behind what is there.
fn put(out: &mut Vec<u8>, bytes: &[u8])
    requires { length out.old.items + length bytes.now ≤ vec_capacity out.old }
    ensures items { out.new.items ≡ out.old.items ++ bytes.now }
    ensures capacity { vec_capacity out.old ≤ vec_capacity out.new }
{
    let Ok(()) = out.extend_from_slice(bytes) else {
        unreachable!()
    };
}

// Takes the closed gate away.
fn unseal(bytes: &mut Vec<u8>)
    requires { 1 ≤ length bytes.old.items }
    ensures items { bytes.new.items ≡ take (length bytes.old.items - 1) bytes.old.items }
    ensures capacity { vec_capacity bytes.old ≤ vec_capacity bytes.new }
{
    bytes.truncate(bytes.len() - 1);
}

// Puts the closed gate, and the length of the records in front.
fn seal(bytes: &mut Vec<u8>)
    requires long { 4 ≤ length bytes.old.items }
    requires few { length bytes.old.items < 2 ^ 32 + 4 }
    requires room { length bytes.old.items + 1 ≤ vec_capacity bytes.old }
    ensures items { bytes.new.items ≡ to_be_bytes w32 (length bytes.old.items - 4) ++ (drop 4 bytes.old.items ++ 0 ∷ []) }
    ensures capacity { vec_capacity bytes.old ≤ vec_capacity bytes.new }
{
    let len = (bytes.len() - 4) as u32;
    put(bytes, &[0]);
    put_over(bytes, &len.to_be_bytes());
}

// Puts these bytes in front, over what is there.
fn put_over(bytes: &mut [u8], front: &[u8])
    requires { length front.now ≤ length bytes.old }
    ensures { bytes.new ≡ front.now ++ drop (length front.now) bytes.old }
{
    bytes[..front.len()].copy_from_slice(front);
}
