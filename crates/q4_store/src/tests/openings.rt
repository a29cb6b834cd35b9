use super::{Given, PICKS, WORKED, given, left, open, seeded};
use crate::OpenFault;
use crate::OpenFault::{Damaged, Large, Schema};
use q4_disk::{Side, StopDisk};
use std::alloc::Global;
use std::process::Abort;
use std::test::*;

// Opens a disk that stops at this call, and tells whether the opening came to its end.
fn stopped(rt: &impl Abort, alloc: Global, a: &[u8], stop: u64) -> (bool, StopDisk) {
    let disk = StopDisk::new(seeded(rt, alloc, a, &[]), stop);
    match open(rt, alloc, disk) {
        Ok((store, _table)) => (true, store.give_back()),
        Err((fault, disk)) => {
            assert_eq!(rt; fault, OpenFault::Disk);
            (false, disk)
        }
    }
}

#[test]
fn an_opening_that_stops_leaves_a_new_table(rt: HostRuntime) {
    let alloc = rt.alloc();
    // side A without a byte, with a closed gate, and with an open one that is cut short: so many calls are made
    let cases: [(&[u8], u64); 3] = [(&[], 13), (&[0, 1, 1], 11), (&[1, 1, 1], 13)];
    for (a, calls) in cases {
        for stop in 1..=14 {
            let (done, disk) = stopped(&rt, alloc, a, stop);
            assert_eq!(rt; done, stop > calls, "{stop}");
            for pick in PICKS {
                let left = left(&rt, alloc, &disk, pick);
                assert_eq!(rt; given(&rt, alloc, left), Ok((1, 0, 1, 45)), "{stop}");
            }
        }
    }
}

// The first bytes of the worked side, with one byte changed.
fn changed(rt: &impl Abort, alloc: Global, len: usize, at: usize, byte: u8) -> Vec<u8> {
    let mut bytes = Vec::new(alloc);
    for (place, was) in WORKED.iter().enumerate() {
        if place < len {
            let now = if place == at { byte } else { *was };
            assert!(rt; bytes.push(now).is_ok());
        }
    }
    bytes
}

// The length that is kept of the worked side, the byte that is changed, what it becomes, and what opening gives.
static DAMAGED: [(usize, usize, u8, Given); 26] = [
    (83, 83, 0, Ok((1, 1, 2, 83))),
    (60, 83, 0, Err(Damaged(Side::A, 44))),
    (50, 44, 0, Ok((1, 0, 1, 45))),
    (83, 1, 0x50, Err(Damaged(Side::A, 0))),
    (83, 12, 0x00, Err(Damaged(Side::A, 0))),
    (83, 20, 0xff, Err(Damaged(Side::A, 0))),
    (83, 5, 0x40, Err(Large(7))),
    (83, 23, 0x02, Err(Schema(1))),
    (83, 31, 0x63, Err(Schema(2))),
    (83, 23, 0x07, Err(Damaged(Side::A, 21))),
    (83, 35, 0x02, Err(Damaged(Side::A, 35))),
    (83, 35, 0x07, Err(Damaged(Side::A, 35))),
    (83, 35, 0x09, Err(Damaged(Side::A, 35))),
    (83, 43, 0x00, Err(Damaged(Side::A, 35))),
    (83, 36, 0x40, Err(Large(3))),
    (83, 43, 0x05, Err(Damaged(Side::A, 49))),
    (83, 57, 0x02, Err(Damaged(Side::A, 49))),
    (83, 49, 0x03, Err(Damaged(Side::A, 49))),
    (83, 48, 0x22, Err(Damaged(Side::A, 44))),
    (83, 48, 0x20, Err(Damaged(Side::A, 49))),
    (83, 69, 0x0d, Err(Damaged(Side::A, 49))),
    (83, 70, 0xff, Err(Damaged(Side::A, 49))),
    (83, 67, 0x01, Err(Large(4))),
    (83, 82, 0x01, Err(Damaged(Side::A, 82))),
    (83, 0, 0x00, Ok((1, 0, 1, 45))),
    (20, 83, 0, Ok((1, 0, 1, 45))),
];

#[test]
fn damaged_sides(rt: HostRuntime) {
    let alloc = rt.alloc();
    for (len, at, byte, want) in &DAMAGED {
        let a = changed(&rt, alloc, *len, *at, *byte);
        assert_eq!(rt;
            given(&rt, alloc, seeded(&rt, alloc, &a, &[])),
            *want,
            "{len} {at} {byte}"
        );
    }
}

// A side of generation 2 without a row, with this gate.
fn of_generation_two(rt: &impl Abort, alloc: Global, gate: u8) -> Vec<u8> {
    let mut bytes = Vec::new(alloc);
    for (place, was) in WORKED[..45].iter().enumerate() {
        let now = match place {
            0 => gate,
            12 => 2,
            44 => 0,
            _ => *was,
        };
        assert!(rt; bytes.push(now).is_ok());
    }
    bytes
}

#[test]
fn two_open_sides(rt: HostRuntime) {
    let alloc = rt.alloc();
    let worked = WORKED.as_slice();
    let bad = changed(&rt, alloc, 83, 1, 0x50);
    let newer = of_generation_two(&rt, alloc, 1);
    let closed = of_generation_two(&rt, alloc, 0);
    assert_eq!(rt;
        given(&rt, alloc, seeded(&rt, alloc, worked, worked)),
        Err(Damaged(Side::B, 5))
    );
    assert_eq!(rt;
        given(&rt, alloc, seeded(&rt, alloc, &bad, worked)),
        Err(Damaged(Side::A, 0))
    );
    assert_eq!(rt;
        given(&rt, alloc, seeded(&rt, alloc, worked, &bad)),
        Err(Damaged(Side::B, 0))
    );
    assert_eq!(rt;
        given(&rt, alloc, seeded(&rt, alloc, worked, &newer)),
        Ok((2, 0, 1, 45))
    );
    assert_eq!(rt;
        given(&rt, alloc, seeded(&rt, alloc, &newer, worked)),
        Ok((2, 0, 1, 45))
    );
    assert_eq!(rt;
        given(&rt, alloc, seeded(&rt, alloc, &closed, worked)),
        Ok((1, 1, 2, 83))
    );
}
