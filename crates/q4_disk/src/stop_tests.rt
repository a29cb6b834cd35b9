use crate::tests::{Answer, Call, counts, first_wrong, store, wrong_pick};
use crate::{Disk, DiskFailed, MemoryDisk, Side, StopDisk};
use std::alloc::Global;
use std::test::Fail;

static STOPPED: [(Call, Answer); 7] = [
    (Call::Put(Side::A, &[1]), Answer::Done),
    (Call::Sync(Side::A), Answer::Done),
    (Call::Size(Side::A), Answer::Failed),
    (Call::Read(Side::A, 0), Answer::Failed),
    (Call::Put(Side::A, &[2]), Answer::Failed),
    (Call::Clear(Side::A), Answer::Failed),
    (Call::Sync(Side::A), Answer::Failed),
];

#[test]
fn stops_at_a_call(rt: HostRuntime) -> Result<(), Fail> {
    let mut disk = StopDisk::new(MemoryDisk::new(rt.alloc()), 3);
    assert_eq!(rt; first_wrong(&mut disk, &STOPPED), None);
    assert_eq!(rt; counts(disk.inner()), [7, 2, 2, 5]);
    assert_eq!(rt;
        wrong_pick(rt.alloc(), disk.inner(), Side::A, &[&[1], &[1], &[1], &[1]])?,
        None
    );
    Ok(())
}

// A call at any offset.
#[derive(Clone, Copy)]
enum Change {
    Write(Side, u64, &'static [u8]),
    Cut(Side, u64),
    Sync(Side),
}

// Makes a call, or tells that the side's size doesn't allow it.
fn make_change(disk: &mut StopDisk, change: Change) -> Option<Result<(), DiskFailed>> {
    match change {
        Change::Write(side, at, bytes) => {
            if at > disk.inner().bytes(side).len() as u64 {
                return None;
            }
            Some(disk.write(side, at, bytes))
        }
        Change::Cut(side, to) => {
            if to > disk.inner().bytes(side).len() as u64 {
                return None;
            }
            Some(disk.cut(side, to))
        }
        Change::Sync(side) => Some(disk.sync(side)),
    }
}

#[derive(Clone, Copy)]
struct Stop {
    name: &'static str,
    // the sides as they were synced
    a: &'static [u8],
    b: &'static [u8],
    stop: u64,
    changes: &'static [Change],
    // the images of the sides, kept, lost, half and ones
    images_a: [&'static [u8]; 4],
    images_b: [&'static [u8]; 4],
}

static STOPS: [Stop; 9] = [
    Stop {
        name: "a write over the end",
        a: &[1, 2],
        b: &[],
        stop: 1,
        changes: &[Change::Write(Side::A, 1, &[7, 8])],
        images_a: [&[1, 7, 8], &[1, 2], &[1, 7], &[1, 1, 1]],
        images_b: [&[], &[], &[], &[]],
    },
    Stop {
        name: "a cut, and a stop in the sync",
        a: &[5, 6, 7, 8],
        b: &[],
        stop: 2,
        changes: &[Change::Cut(Side::A, 1), Change::Sync(Side::A)],
        images_a: [&[5], &[5, 6, 7, 8], &[5], &[5, 1, 1, 1]],
        images_b: [&[], &[], &[], &[]],
    },
    Stop {
        name: "a stop in the cut",
        a: &[5, 6, 7, 8],
        b: &[],
        stop: 1,
        changes: &[Change::Cut(Side::A, 2)],
        images_a: [&[5, 6], &[5, 6, 7, 8], &[5, 6], &[5, 6, 1, 1]],
        images_b: [&[], &[], &[], &[]],
    },
    Stop {
        name: "two writes over each other",
        a: &[9, 2, 3, 4, 5, 6],
        b: &[],
        stop: 3,
        changes: &[
            Change::Write(Side::A, 1, &[10, 11, 12]),
            Change::Write(Side::A, 2, &[20, 21, 22, 23]),
            Change::Sync(Side::A),
        ],
        images_a: [
            &[9, 10, 20, 21, 22, 23],
            &[9, 2, 3, 4, 5, 6],
            &[9, 10, 20, 21, 5, 6],
            &[9, 1, 1, 1, 1, 1],
        ],
        images_b: [&[], &[], &[], &[]],
    },
    Stop {
        name: "past the end of B, with A unsynced",
        a: &[1, 2],
        b: &[3],
        stop: 2,
        changes: &[
            Change::Write(Side::A, 0, &[7, 8]),
            Change::Write(Side::B, 1, &[4, 5, 6]),
        ],
        images_a: [&[7, 8], &[1, 2], &[7, 2], &[1, 1]],
        images_b: [&[3, 4, 5, 6], &[3], &[3, 4], &[3, 1, 1, 1]],
    },
    Stop {
        name: "a side that was synced",
        a: &[1, 2],
        b: &[],
        stop: 3,
        changes: &[
            Change::Write(Side::A, 1, &[7, 8]),
            Change::Sync(Side::A),
            Change::Write(Side::B, 0, &[9]),
        ],
        images_a: [&[1, 7, 8], &[1, 7, 8], &[1, 7, 8], &[1, 7, 8]],
        images_b: [&[9], &[], &[], &[1]],
    },
    Stop {
        name: "a hole where a write was lost",
        a: &[1],
        b: &[],
        stop: 3,
        changes: &[
            Change::Write(Side::A, 1, &[5]),
            Change::Write(Side::A, 2, &[6, 7]),
            Change::Sync(Side::A),
        ],
        images_a: [&[1, 5, 6, 7], &[1], &[1, 0, 6], &[1, 1, 1, 1]],
        images_b: [&[], &[], &[], &[]],
    },
    Stop {
        name: "calls after the stop",
        a: &[2, 3],
        b: &[],
        stop: 1,
        changes: &[
            Change::Write(Side::A, 0, &[7]),
            Change::Write(Side::A, 1, &[8]),
            Change::Cut(Side::A, 0),
            Change::Sync(Side::A),
            Change::Write(Side::B, 0, &[4]),
        ],
        images_a: [&[7, 3], &[2, 3], &[2, 3], &[1, 3]],
        images_b: [&[], &[], &[], &[]],
    },
    Stop {
        name: "a write of some hundred bytes",
        a: &[1, 2],
        b: &[3],
        stop: 1,
        changes: &[Change::Write(Side::A, 0, &[9; 300])],
        images_a: [&[9; 300], &[1, 2], &[9; 150], &[1; 300]],
        images_b: [&[3], &[3], &[3], &[3]],
    },
];

// A disk whose sides hold these bytes, synced.
fn seeded(alloc: Global, a: &[u8], b: &[u8]) -> Result<MemoryDisk, DiskFailed> {
    let mut disk = MemoryDisk::new(alloc);
    store(&mut disk, Side::A, a)?;
    store(&mut disk, Side::B, b)?;
    Ok(disk)
}

// The first call, counted from 1, that doesn't fail exactly from the stop on.
fn wrong_change(disk: &mut StopDisk, row: &Stop) -> Option<u64> {
    let mut number = 0u64;
    for next in row.changes {
        number = number.saturating_add(1);
        match make_change(disk, *next) {
            Some(outcome) if outcome.is_err() == (number >= row.stop) => {}
            _ => return Some(number),
        }
    }
    None
}

#[test]
fn gives_the_picked_images(rt: HostRuntime) -> Result<(), Fail> {
    for row in &STOPS {
        let mut disk = StopDisk::new(seeded(rt.alloc(), row.a, row.b)?, row.stop);
        assert_eq!(rt; wrong_change(&mut disk, row), None, "{}", row.name);
        let a = wrong_pick(rt.alloc(), disk.inner(), Side::A, &row.images_a)?;
        assert_eq!(rt; a, None, "{} A", row.name);
        let b = wrong_pick(rt.alloc(), disk.inner(), Side::B, &row.images_b)?;
        assert_eq!(rt; b, None, "{} B", row.name);
    }
    Ok(())
}
