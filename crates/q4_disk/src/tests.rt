ghost use Rattle.std.specs.Prelude.{◌≡◌, length, IsTrue, OnOk};
ghost use Rattle.q4_disk.specs.Told.{Sides};
ghost use Rattle.q4_disk.specs.Images.{on, written, Torn, Sided};
ghost use Rattle.q4_disk.specs.Time.{LeavesOnly};
ghost use Rattle.q4_disk.specs.Calls.{CountsFault};

use crate::pick::image_of;
use crate::{
    Disk, DiskFailed, DiskMaker, FailingMaker, FileMaker, MemoryDisk, MemoryMaker, Numbers, Pick,
    Side, StopDisk,
};
use q4_value::NoMemory;
use std::alloc::Global;
use std::test::Fail;

// Writes at the front of a side, and syncs. At each moment within it a crash leaves an image of
// before, or one with any bytes in the range; after success it leaves what is read.
pub(crate) fn store<D: Disk>(disk: &mut D, side: Side, bytes: &[u8]) -> Result<(), DiskFailed>
    ensures honest { (D.told disk.new).honest ≡ (D.told disk.old).honest }
    ensures faults { CountsFault result (D.told disk.old).faults (D.told disk.new).faults }
    ensures moments { IsTrue (D.told disk.old).honest →
        LeavesOnly (D.told disk.old) (D.told disk.new)
        (λ c. (d : Sides) × (D.told disk.old).images d × Sided side (Torn 0 (length bytes.now)) d c) }
    ensures read { OnOk result (IsTrue (D.told disk.old).honest →
        on side (D.told disk.new).bytes ≡ written (on side (D.told disk.old).bytes) 0 bytes.now) }
    ensures durable { OnOk result (IsTrue (D.told disk.old).honest → (c : Sides) →
        (D.told disk.new).images c → on side c ≡ on side (D.told disk.new).bytes) }
{
    disk.write(side, 0, bytes)?;
    disk.sync(side)
}

// A call that every disk allows at any time.
#[derive(Clone, Copy)]
pub(crate) enum Call {
    Size(Side),
    // at most two bytes
    Read(Side, u64),
    // a write at the front
    Put(Side, &'static [u8]),
    // a cut to nothing
    Clear(Side),
    Sync(Side),
}

#[derive(Clone, Copy, Debug, PartialEq, Eq)]
pub(crate) enum Answer {
    Done,
    Size(u64),
    Read(usize, [u8; 2]),
    Failed,
}

fn answer_of<D: Disk>(disk: &mut D, call: Call) -> Answer {
    match call {
        Call::Size(side) => disk.size(side).map_or(Answer::Failed, Answer::Size),
        Call::Read(side, at) => {
            let mut into = [0; 2];
            match disk.read(side, at, &mut into) {
                Ok(count) => Answer::Read(count, into),
                Err(DiskFailed) => Answer::Failed,
            }
        }
        Call::Put(side, bytes) => done(disk.write(side, 0, bytes)),
        Call::Clear(side) => done(disk.cut(side, 0)),
        Call::Sync(side) => done(disk.sync(side)),
    }
}

fn done(outcome: Result<(), DiskFailed>) -> Answer {
    outcome.map_or(Answer::Failed, |()| Answer::Done)
}

// The first call, counted from 1, that isn't answered so.
pub(crate) fn first_wrong<D: Disk>(disk: &mut D, rows: &[(Call, Answer)]) -> Option<usize> {
    for (index, (call, want)) in rows.iter().enumerate() {
        if answer_of(disk, *call) != *want {
            return Some(index + 1);
        }
    }
    None
}

pub(crate) fn counts(disk: &MemoryDisk) -> [u64; 4] {
    [disk.calls(), disk.writes(), disk.syncs(), disk.faults()]
}

pub(crate) static PLAIN: [(Call, Answer); 21] = [
    (Call::Put(Side::A, &[1, 2, 3]), Answer::Done),
    (Call::Sync(Side::A), Answer::Done),
    (Call::Put(Side::A, &[9]), Answer::Done),
    (Call::Size(Side::A), Answer::Size(3)),
    (Call::Read(Side::A, 0), Answer::Read(2, [9, 2])),
    (Call::Read(Side::A, 2), Answer::Read(1, [3, 0])),
    (Call::Read(Side::A, u64::MAX), Answer::Read(0, [0, 0])),
    (Call::Size(Side::B), Answer::Size(0)),
    // a put and a cut of B leave A
    (Call::Put(Side::B, &[6, 7]), Answer::Done),
    (Call::Size(Side::B), Answer::Size(2)),
    (Call::Size(Side::A), Answer::Size(3)),
    (Call::Clear(Side::B), Answer::Done),
    (Call::Size(Side::B), Answer::Size(0)),
    (Call::Size(Side::A), Answer::Size(3)),
    (Call::Read(Side::A, 1), Answer::Read(2, [2, 3])),
    (Call::Put(Side::B, &[5]), Answer::Done),
    (Call::Sync(Side::B), Answer::Done),
    // and a cut of A leaves B
    (Call::Clear(Side::A), Answer::Done),
    (Call::Size(Side::A), Answer::Size(0)),
    (Call::Size(Side::B), Answer::Size(1)),
    (Call::Read(Side::B, 0), Answer::Read(1, [5, 0])),
];

#[test]
fn answers_in_memory(rt: HostRuntime) -> Result<(), Fail> {
    let mut disk = MemoryMaker.make(rt.alloc(), "jobs")?;
    assert_eq!(rt; first_wrong(&mut disk, &PLAIN), None);
    assert_eq!(rt; counts(&disk), [21, 4, 2, 0]);
    assert_eq!(rt; disk.bytes(Side::B), [5].as_slice());
    Ok(())
}

static FAILING: [(Call, Answer); 9] = [
    (Call::Put(Side::A, &[1, 2]), Answer::Done),
    (Call::Sync(Side::A), Answer::Failed),
    (Call::Put(Side::A, &[3]), Answer::Done),
    (Call::Sync(Side::A), Answer::Done),
    (Call::Size(Side::A), Answer::Failed),
    (Call::Read(Side::A, 0), Answer::Failed),
    (Call::Put(Side::A, &[9]), Answer::Failed),
    (Call::Clear(Side::A), Answer::Failed),
    (Call::Read(Side::A, 0), Answer::Read(2, [3, 2])),
];

#[test]
fn fails_the_listed_calls(rt: HostRuntime) -> Result<(), Fail> {
    let mut maker = FailingMaker::new(numbers(rt.alloc(), &[2, 5, 6, 7, 8])?);
    let mut disk = maker.make(rt.alloc(), "jobs")?;
    assert_eq!(rt; first_wrong(&mut disk, &FAILING), None);
    assert_eq!(rt; counts(disk.inner()), [9, 3, 2, 5]);
    // the write and the cut that failed have begun
    assert_eq!(rt;
        wrong_pick(
            rt.alloc(),
            disk.inner(),
            Side::A,
            &[&[], &[3, 2], &[], &[1, 1]]
        )?,
        None
    );
    // each disk counts for itself
    let mut other = maker.make(rt.alloc(), "hot")?;
    assert_eq!(rt; first_wrong(&mut other, &FAILING[..7]), None);
    assert_eq!(rt;
        wrong_pick(
            rt.alloc(),
            other.inner(),
            Side::A,
            &[&[9, 2], &[3, 2], &[3, 2], &[1, 2]]
        )?,
        None
    );
    Ok(())
}

fn numbers(alloc: Global, list: &[u64]) -> Result<Numbers, NoMemory> {
    let mut numbers = Numbers::new(alloc);
    for number in list {
        if let Err((_, fault)) = numbers.push(*number) {
            return Err(fault);
        }
    }
    Ok(numbers)
}

#[test]
fn lists_numbers(rt: HostRuntime) -> Result<(), Fail> {
    let list = numbers(rt.alloc(), &[7, 9])?;
    assert_eq!(rt; (list.len(), list.at(1), list.at(2)), (2, Some(9), None));
    Ok(())
}

static PICKS: [Pick; 4] = [Pick::Kept, Pick::Lost, Pick::Half, Pick::Ones];

// The first pick whose image is another.
pub(crate) fn wrong_pick(
    alloc: Global,
    disk: &MemoryDisk,
    side: Side,
    want: &[&[u8]; 4],
) -> Result<Option<Pick>, NoMemory> {
    for (pick, want) in PICKS.iter().zip(want.iter()) {
        if image_of(alloc, disk.steps(), side, *pick)?.as_slice() != *want {
            return Ok(Some(*pick));
        }
    }
    Ok(None)
}

// Each kind may go to another thread.
fn can_cross<D: Disk + Send>(_disk: D) {}

#[test]
fn crosses_threads(rt: HostRuntime) -> Result<(), Fail> {
    can_cross(MemoryDisk::new(rt.alloc()));
    let failing = Numbers::new(rt.alloc());
    can_cross(FailingMaker::new(failing).make(rt.alloc(), "jobs")?);
    can_cross(StopDisk::new(MemoryDisk::new(rt.alloc()), 1));
    can_cross(FileMaker::new(&rt).make(rt.alloc(), "jobs")?);
    Ok(())
}
