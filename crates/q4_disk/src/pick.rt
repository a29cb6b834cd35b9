ghost use Rattle.std.specs.Prelude.{◌≡◌, [], replicate, reverse, IfOk, OnOk};
ghost use Rattle.q4_disk.specs.Told.{Sides};
ghost use Rattle.q4_disk.specs.Images.{on};
ghost use Rattle.q4_disk.specs.Replay.{reads, after};
ghost use Rattle.q4_disk.specs.Picked.{over, of_write, of_cut, picks, pick_after, picked};

use crate::Side;
use crate::history::{Step, write_bytes};
use q4_value::{Bytes, NoMemory};
use std::alloc::Global;

/// Which crash image is wanted: what is kept of each range that was written and not synced.
#[derive(Clone, Copy, Debug, PartialEq, Eq)]
pub enum Pick {
    /// All of it.
    Kept,
    /// Nothing.
    Lost,
    /// Its first half, rounded down.
    Half,
    /// All of it, filled with byte 1.
    Ones,
}

/// What a crash may leave of a side after these calls, the oldest first, by a pick for all that
/// wasn't synced.
pub(crate) fn image_of(
    alloc: Global,
    steps: &[Step],
    side: Side,
    pick: Pick,
) -> Result<Bytes, NoMemory>
    ensures { IfOk result (λ bytes. bytes ≡ on side (picked pick (reverse steps.now))) }
{
    let mut replay = Replay::new(alloc);
    for step in steps {
        replay.add(side, pick, step)?;
    }
    let mut image = Bytes::new(alloc);
    image.push(&replay.left)?;
    Ok(image)
}

// One side while its calls are made again.
#[derive(Drop)]
struct Replay {
    alloc: Global,
    // as it is read
    seen: Vec<u8>,
    // what a crash leaves of it
    left: Vec<u8>,
}

impl Replay {
    fn new(alloc: Global) -> Replay
        ensures seen { result.seen.items ≡ [] }
        ensures left { result.left.items ≡ [] }
    {
        Replay {
            alloc,
            seen: Vec::new(alloc),
            left: Vec::new(alloc),
        }
    }

    // One call more, which may be one of the other side.
    fn add(&mut self, side: Side, pick: Pick, step: &Step) -> Result<(), NoMemory>
        ensures seen { OnOk result ((s : Sides) → on side s ≡ self.old.seen.items →
            on side (after step.now s) ≡ self.new.seen.items) }
        ensures left { OnOk result ((s c : Sides) → on side s ≡ self.old.seen.items →
            on side c ≡ self.old.left.items →
            on side (pick_after pick step.now s c) ≡ self.new.left.items) }
    {
        if step.side() != side {
            return Ok(());
        }
        self.make(pick, step)
    }

    fn make(&mut self, pick: Pick, step: &Step) -> Result<(), NoMemory>
        ensures seen { OnOk result (self.new.seen.items ≡ reads step.now self.old.seen.items) }
        ensures left { OnOk result
            (self.new.left.items ≡ picks pick step.now self.old.seen.items self.old.left.items) }
    {
        match step {
            Step::Write {
                at,
                bytes,
                done,
                ..
            } => {
                let place = (*at).min(self.seen.len());
                pick_write(self.alloc, &mut self.left, pick, place, bytes.as_slice())?;
                if *done {
                    write_bytes(&mut self.seen, place, bytes.as_slice())?;
                }
                Ok(())
            }
            Step::CutTo { to, done, .. } => {
                pick_cut(self.alloc, &mut self.left, pick, *to)?;
                if *done {
                    self.seen.truncate(*to);
                }
                Ok(())
            }
            Step::Sync { .. } => copy_from(self.alloc, &self.seen, &mut self.left),
        }
    }
}

fn copy_from(alloc: Global, from: &[u8], into: &mut Vec<u8>) -> Result<(), NoMemory>
    ensures { OnOk result (into.new.items ≡ from.now) }
{
    match from.to_vec(alloc) {
        Ok(copy) => {
            *into = copy;
            Ok(())
        }
        Err(_) => Err(NoMemory),
    }
}

// What a pick makes of a write.
fn pick_write(
    alloc: Global,
    left: &mut Vec<u8>,
    pick: Pick,
    at: usize,
    bytes: &[u8],
) -> Result<(), NoMemory>
    ensures { OnOk result (left.new.items ≡ of_write pick left.old.items at bytes.now) }
{
    match pick {
        Pick::Kept => write_over(alloc, left, at, bytes),
        Pick::Lost => Ok(()),
        Pick::Half => {
            let half = &bytes[..bytes.len() / 2];
            if half.is_empty() {
                return Ok(());
            }
            write_over(alloc, left, at, half)
        }
        Pick::Ones => {
            let ones = copies(alloc, 1, bytes.len())?;
            write_over(alloc, left, at, &ones)
        }
    }
}

// What a pick makes of a cut.
fn pick_cut(alloc: Global, left: &mut Vec<u8>, pick: Pick, to: usize) -> Result<(), NoMemory>
    ensures { OnOk result (left.new.items ≡ of_cut pick left.old.items to) }
{
    match pick {
        Pick::Kept => {
            left.truncate(to);
            Ok(())
        }
        Pick::Lost => Ok(()),
        Pick::Half => {
            left.truncate(to);
            Ok(())
        }
        Pick::Ones => {
            let ones = copies(alloc, 1, left.len().saturating_sub(to))?;
            left.truncate(to);
            match left.extend_from_slice(&ones) {
                Ok(()) => Ok(()),
                Err(_) => Err(NoMemory),
            }
        }
    }
}

// Writes at an offset, behind zeros where the end lies before it.
fn write_over(alloc: Global, left: &mut Vec<u8>, at: usize, bytes: &[u8]) -> Result<(), NoMemory>
    ensures { OnOk result (left.new.items ≡ over left.old.items at bytes.now) }
{
    let zeros = copies(alloc, 0, at.saturating_sub(left.len()))?;
    if left.extend_from_slice(&zeros).is_err() {
        return Err(NoMemory);
    }
    write_bytes(left, at, bytes)
}

fn copies(alloc: Global, byte: u8, count: usize) -> Result<Vec<u8>, NoMemory>
    ensures { IfOk result (λ bytes. bytes.items ≡ replicate count byte) }
{
    match vec![in alloc; byte; count] {
        Ok(bytes) => Ok(bytes),
        Err(_) => Err(NoMemory),
    }
}
