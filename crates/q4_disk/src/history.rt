ghost use Rattle.std.specs.Prelude.{◌≡◌, ℕ, ◌<◌, ◌≤◌, List, [], ◌∷◌, ◌++◌, true, false, length, reverse, take, vec_len, vec_capacity, OnOk, OnErr};
ghost use Rattle.q4_disk.specs.Images.{on, size, written};
ghost use Rattle.q4_disk.specs.Replay.{reads, read_after};

use crate::Side;
use q4_value::{Bytes, NoMemory};
use std::alloc::Global;
use std::marker::Model;

/// A call that changed what is read or what a crash may leave. One that isn't `done` was cut off in
/// the middle.
#[derive(Drop)]
pub(crate) enum Step {
    Write {
        side: Side,
        at: usize,
        bytes: Bytes,
        done: bool,
    },
    CutTo {
        side: Side,
        to: usize,
        done: bool,
    },
    Sync {
        side: Side,
    },
}

/// The calls of a disk, and the bytes that they give when they are read. A contract sees the calls,
/// the newest first.
#[derive(Drop)]
pub(crate) struct History {
    a: Vec<u8>,
    b: Vec<u8>,
    steps: Vec<Step>,
}

impl Model for History {
    ghost use Rattle.std.specs.Prelude.{◌≡◌, List, reverse};
    ghost use Rattle.q4_disk.specs.declared.history.Step.{Step as Call};

    ghost Value = { List Call };

    ghost use Rattle.q4_disk.specs.Images.{both};
    ghost use Rattle.q4_disk.specs.Replay.{read_after};

    ghost view = { λ h. reverse h.steps.items };

    ghost invariant = { λ h. read_after (reverse h.steps.items) ≡ both h.a.items h.b.items };
}

impl Step {
    ghost use Rattle.q4_disk.specs.Replay.{side_of};

    pub fn side(&self) -> Side
        ensures { result ≡ side_of self.now }
    {
        match self {
            Step::Write { side, .. } => *side,
            Step::CutTo { side, .. } => *side,
            Step::Sync { side } => *side,
        }
    }
}

impl History {
    pub fn new(alloc: Global) -> History
        ensures { result ≡ [] }
    {
        History {
            a: Vec::new(alloc),
            b: Vec::new(alloc),
            steps: Vec::new(alloc),
        }
    }

    /// The bytes of a side as they are read.
    pub fn bytes(&self, side: Side) -> &[u8]
        ensures { result.now ≡ on side (read_after self.now) }
    {
        match side {
            Side::A => &self.a,
            Side::B => &self.b,
        }
    }

    /// The calls, the oldest first.
    pub fn steps(&self) -> &[Step]
        ensures { reverse result.now ≡ self.now }
    {
        &self.steps
    }

    /// Writes over what is there, and past the end. A refusal changes nothing.
    pub fn write(
        &mut self,
        alloc: Global,
        side: Side,
        at: usize,
        bytes: &[u8],
    ) -> Result<(), NoMemory>
        requires { at ≤ size side (read_after self.old) }
        ensures done { OnOk result (self.new ≡ Step.Write side at bytes.now true ∷ self.old) }
        ensures kept { OnErr result (self.new ≡ self.old) }
    {
        let mut copy = Bytes::new(alloc);
        copy.push(bytes)?;
        let step = Step::Write {
            side,
            at,
            bytes: copy,
            done: true,
        };
        match side {
            Side::A => write_side(&mut self.a, &mut self.steps, step, at, bytes),
            Side::B => write_side(&mut self.b, &mut self.steps, step, at, bytes),
        }
    }

    /// Cuts a side to a length. A refusal changes nothing.
    pub fn cut(&mut self, side: Side, to: usize) -> Result<(), NoMemory>
        ensures done { OnOk result (self.new ≡ Step.CutTo side to true ∷ self.old) }
        ensures kept { OnErr result (self.new ≡ self.old) }
    {
        let step = Step::CutTo {
            side,
            to,
            done: true,
        };
        match side {
            Side::A => cut_side(&mut self.a, &mut self.steps, step, to),
            Side::B => cut_side(&mut self.b, &mut self.steps, step, to),
        }
    }

    /// Makes a side durable. A refusal changes nothing.
    pub fn sync(&mut self, side: Side) -> Result<(), NoMemory>
        ensures done { OnOk result (self.new ≡ Step.Sync side ∷ self.old) }
        ensures kept { OnErr result (self.new ≡ self.old) }
    {
        self.note(Step::Sync { side })
    }

    /// Begins a write that isn't done: what is read stays, and a crash may leave any of it.
    /// A refusal changes nothing.
    pub fn begin_write(
        &mut self,
        alloc: Global,
        side: Side,
        at: usize,
        bytes: &[u8],
    ) -> Result<(), NoMemory>
        ensures begun { OnOk result (self.new ≡ Step.Write side at bytes.now false ∷ self.old) }
        ensures kept { OnErr result (self.new ≡ self.old) }
    {
        let mut copy = Bytes::new(alloc);
        copy.push(bytes)?;
        self.note(Step::Write {
            side,
            at,
            bytes: copy,
            done: false,
        })
    }

    /// Begins a cut that isn't done. A refusal changes nothing.
    pub fn begin_cut(&mut self, side: Side, to: usize) -> Result<(), NoMemory>
        ensures begun { OnOk result (self.new ≡ Step.CutTo side to false ∷ self.old) }
        ensures kept { OnErr result (self.new ≡ self.old) }
    {
        self.note(Step::CutTo {
            side,
            to,
            done: false,
        })
    }

    // Keeps a call that changes nothing that is read.
    fn note(&mut self, step: Step) -> Result<(), NoMemory>
        requires { (seen : List ℕ) → reads step seen ≡ seen }
        ensures noted { OnOk result (self.new ≡ step ∷ self.old) }
        ensures kept { OnErr result (self.new ≡ self.old) }
    {
        keep(&mut self.steps, step)
    }
}

fn keep(steps: &mut Vec<Step>, step: Step) -> Result<(), NoMemory>
    ensures kept { OnOk result (steps.new.items ≡ steps.old.items ++ step ∷ []) }
    ensures same { OnErr result (steps.new.items ≡ steps.old.items) }
{
    match steps.push(step) {
        Ok(()) => Ok(()),
        Err(_) => Err(NoMemory),
    }
}

// Writes into one side and keeps the step, or changes nothing. What may be refused comes first.
fn write_side(
    file: &mut Vec<u8>,
    steps: &mut Vec<Step>,
    step: Step,
    at: usize,
    bytes: &[u8],
) -> Result<(), NoMemory>
    requires { at ≤ length file.old.items }
    ensures file { OnOk result (file.new.items ≡ written file.old.items at bytes.now) }
    ensures step { OnOk result (steps.new.items ≡ steps.old.items ++ step ∷ []) }
    ensures same_file { OnErr result (file.new.items ≡ file.old.items) }
    ensures same_steps { OnErr result (steps.new.items ≡ steps.old.items) }
{
    if steps.reserve(1).is_err() {
        return Err(NoMemory);
    }
    write_bytes(file, at, bytes)?;
    push_reserved(steps, step);
    Ok(())
}

/// Writes over what is there, and past the end. A refusal changes nothing.
pub(crate) fn write_bytes(file: &mut Vec<u8>, at: usize, bytes: &[u8]) -> Result<(), NoMemory>
    requires { at ≤ length file.old.items }
    ensures written { OnOk result (file.new.items ≡ written file.old.items at bytes.now) }
    ensures same { OnErr result (file.new.items ≡ file.old.items) }
{
    let over = bytes.len().min(file.len() - at);
    if file.extend_from_slice(&bytes[over..]).is_err() {
        return Err(NoMemory);
    }
    file[at..at + over].copy_from_slice(&bytes[..over]);
    Ok(())
}

fn push_reserved(steps: &mut Vec<Step>, step: Step)
    requires { vec_len steps.old < vec_capacity steps.old }
    ensures { steps.new.items ≡ steps.old.items ++ step ∷ [] }
{
    let Ok(()) = steps.push(step) else {
        unreachable!()
    };
}

// Cuts one side and keeps the step, or changes nothing.
fn cut_side(
    file: &mut Vec<u8>,
    steps: &mut Vec<Step>,
    step: Step,
    to: usize,
) -> Result<(), NoMemory>
    ensures file { OnOk result (file.new.items ≡ take to file.old.items) }
    ensures step { OnOk result (steps.new.items ≡ steps.old.items ++ step ∷ []) }
    ensures same_file { OnErr result (file.new.items ≡ file.old.items) }
    ensures same_steps { OnErr result (steps.new.items ≡ steps.old.items) }
{
    keep(steps, step)?;
    file.truncate(to);
    Ok(())
}
