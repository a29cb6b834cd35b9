ghost use Rattle.std.specs.Prelude.{◌≡◌, ◌≢◌, ◌+◌, ◌≤◌, ◌↔◌, ◌∷◌, [], ℕ, List, IsTrue, IfOk, IfErr, OnOk, OnErr, length, take, codes};
ghost use Rattle.q4_record.specs.Side.{base_at, told_at};
ghost use Rattle.q4_disk.specs.Told.{Sides, Told};
ghost use Rattle.q4_disk.specs.Images.{on};
ghost use Rattle.q4_disk.specs.Calls.{CountsFault};
ghost use Rattle.q4_store.specs.Looking.{AddsNone, IsHead, IsChoice, IsNoChoice};
ghost use Rattle.q4_store.specs.Device.{DeviceCall, Read, Makes};

use crate::fault::OpenFault;
use q4_disk::{Disk, DiskFailed, Side};
use q4_record::{BASE_AT, has_magic, number_at};
use std::cmp::Ordering;

/// What the first bytes of a side tell.
#[derive(Clone, Copy)]
pub(crate) enum Head {
    /// The gate is open: whether the magic follows, and the generation.
    Open { magic: bool, generation: u64 },
    /// The gate is there and closed.
    Shut,
    /// There are fewer bytes than a head has.
    Short,
}

/// Reads the first bytes of a side.
pub(crate) fn read_head<D: Disk>(disk: &mut D, side: Side) -> Result<Head, DiskFailed>
    ensures honest { (D.told disk.new).honest ≡ (D.told disk.old).honest }
    ensures faults { CountsFault result (D.told disk.old).faults (D.told disk.new).faults }
    ensures rests { IsTrue (D.told disk.old).honest → AddsNone (D.told disk.old) (D.told disk.new) }
    ensures writes { (D.told disk.new).writes ≡ (D.told disk.old).writes }
    ensures device { Makes D.told (Read side 0 base_at ∷ []) result disk.old disk.new }
    ensures head { IfOk result (λ head. IsTrue (D.told disk.old).honest → IsHead (on side (D.told disk.old).bytes) head) }
{
    let mut bytes = [0; BASE_AT];
    let count = disk.read(side, 0, &mut bytes)?;
    Ok(head_of(&bytes[..count]))
}

// What a side's bytes tell, of which these are all or at least as many as a head has.
fn head_of(bytes: &[u8]) -> Head
    ensures { IsHead bytes.now result }
{
    let Some(gate) = bytes.first() else {
        return Head::Short;
    };
    if *gate != 1 {
        return Head::Shut;
    }
    if bytes.len() < BASE_AT {
        return Head::Short;
    }
    Head::Open {
        magic: has_magic(bytes),
        generation: number_at(bytes, 5),
    }
}

/// Which side counts, and which other gates are known to be there and closed.
#[derive(Clone, Copy)]
pub(crate) enum Choice {
    /// This side. The gate of the other one is known to be closed, or isn't.
    Current { side: Side, known: bool },
    /// Neither. The same of the gates of sides A and B.
    Neither { a: bool, b: bool },
}

/// Chooses the side that counts: of two open ones that of greater generation.
pub(crate) fn choose(a: Head, b: Head) -> Result<Choice, OpenFault>
    ensures choice { IfOk result (λ choice. (sides : Sides) → IsHead sides.a a → IsHead sides.b b → IsChoice sides choice) }
    ensures no_disk { IfErr result (λ fault. fault ≢ OpenFault.Disk) }
    ensures unclear { IfErr result (λ fault. (sides : Sides) → IsHead sides.a a → IsHead sides.b b → IsNoChoice sides fault) }
{
    match (a, b) {
        (Head::Open { magic: false, .. }, _) => Err(OpenFault::Damaged(Side::A, 0)),
        (_, Head::Open { magic: false, .. }) => Err(OpenFault::Damaged(Side::B, 0)),
        (Head::Open { generation: x, .. }, Head::Open { generation: y, .. }) => match x.cmp(&y) {
            Ordering::Greater => Ok(current(Side::A, false)),
            Ordering::Less => Ok(current(Side::B, false)),
            Ordering::Equal => Err(OpenFault::Damaged(Side::B, 5)),
        },
        (Head::Open { .. }, Head::Shut) => Ok(current(Side::A, true)),
        (Head::Open { .. }, Head::Short) => Ok(current(Side::A, false)),
        (Head::Shut, Head::Open { .. }) => Ok(current(Side::B, true)),
        (Head::Short, Head::Open { .. }) => Ok(current(Side::B, false)),
        (Head::Shut, Head::Shut) => Ok(Choice::Neither { a: true, b: true }),
        (Head::Shut, Head::Short) => Ok(Choice::Neither { a: true, b: false }),
        (Head::Short, Head::Shut) => Ok(Choice::Neither { a: false, b: true }),
        (Head::Short, Head::Short) => Ok(Choice::Neither { a: false, b: false }),
    }
}

fn current(side: Side, known: bool) -> Choice
    ensures { result ≡ Choice.Current side known }
{
    Choice::Current { side, known }
}
