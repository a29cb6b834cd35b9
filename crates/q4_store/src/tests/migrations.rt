use super::acts::Act::{Add, Commit, End, Forward};
use super::acts::Answer::{self, Done};
use super::acts::{Act, Want};
use super::twin::Twin;
use super::{Given, PICKS, WORKED, added, counts, given_as, left, open_as, opened_as, seeded};
use crate::OpenFault;
use crate::OpenFault::{Damaged, Large, Schema};
use q4_disk::{FailingDisk, MemoryDisk, Numbers, Pick, Side, StopDisk};
use q4_table::Mode;
use q4_value::Value;
use std::alloc::Global;
use std::process::Abort;
use std::test::*;

// The columns of the worked side, and with a first column that takes null.
const OLD: &str = "";

const NEW: &str = "[[table]]\nname = \"jobs\"\ncolumns = [\"prio int null\", \"body text\"]\n";

// What the worked side is rewritten to, on side B.
static REWRITTEN: [u8; 79] = [
    0x01, 0x51, 0x34, 0x4f, 0x32, // the open gate and the second magic
    0x00, 0x00, 0x00, 0x00, 0x00, 0x00, 0x00, 0x02, // 5: the generation
    0x00, 0x00, 0x00, 0x00, 0x00, 0x00, 0x00, 0x39, // 13: the length of the base
    0x07, 0x02, 0x03, 0x04, 0x70, 0x72, 0x69, 0x6f, 0x02, 0x04, 0x62, 0x6f, 0x64, 0x79, // 21: the schema
    0x01, 0x00, 0x00, 0x00, 0x00, 0x00, 0x00, 0x00, 0x01, // 35: an insert of row 1
    0x01, 0x00, 0x00, 0x00, 0x00, 0x00, 0x00, 0x00, 0x07, // 44
    0x00, 0x00, 0x00, 0x0c, 0x72, 0x65, 0x73, 0x69, 0x7a, 0x65, 0x20, 0x61, 0x2e, 0x70, 0x6e, 0x67, // 53
    0x06, 0x00, 0x00, 0x00, 0x00, 0x00, 0x00, 0x00, 0x02, // 69: next
    0x00, // 78: the closing gate
];

// What opening gives of the worked side, and of what it is rewritten to.
const WORKED_GIVES: Given = Ok((1, 1, 2, 83));

const REWRITTEN_GIVES: Given = Ok((2, 1, 2, 79));

// The other side, and how many calls opening makes: a gate that is there and closed is not written again.
static OTHERS: [(&'static [u8], u64); 2] = [(&[], 15), (&[0, 1, 1], 13)];

#[test]
fn a_narrower_side_is_rewritten(rt: HostRuntime) {
    let alloc = rt.alloc();
    for (b, calls) in &OTHERS {
        let disk = seeded(&rt, alloc, &WORKED, b);
        let before = counts(&disk);
        let (store, table) = opened_as(&rt, alloc, disk, NEW);
        assert_eq!(rt; (store.generation(), store.length()), (2, 79));
        let row = table.row(1).expect(&rt, "the row");
        assert!(rt; matches!(row.at(0), Some(Value::Int(7))));
        let disk = store.give_back();
        assert_eq!(rt; added(before, counts(&disk))[0], *calls);
        assert_eq!(rt; disk.bytes(Side::A), WORKED.as_slice());
        assert_eq!(rt; disk.bytes(Side::B), REWRITTEN.as_slice());
        // once
        let before = counts(&disk);
        let (store, _) = opened_as(&rt, alloc, disk, NEW);
        let disk = store.give_back();
        assert_eq!(rt; added(before, counts(&disk)), [6, 0, 2, 0]);
        assert_eq!(rt; given_as(&rt, alloc, disk, OLD), Err(Schema(1)));
    }
}

// Opens a disk that stops at this call, and tells whether the opening came to its end.
fn stopped(rt: &impl Abort, alloc: Global, b: &[u8], stop: u64) -> (bool, StopDisk) {
    let disk = StopDisk::new(seeded(rt, alloc, &WORKED, b), stop);
    match open_as(rt, alloc, disk, NEW) {
        Ok((store, _table)) => (true, store.give_back()),
        Err((fault, disk)) => {
            assert_eq!(rt; fault, OpenFault::Disk);
            (false, disk)
        }
    }
}

#[test]
fn a_rewrite_that_stops_leaves_the_row(rt: HostRuntime) {
    let alloc = rt.alloc();
    for (b, calls) in &OTHERS {
        for stop in 1..=16u64 {
            let (done, disk) = stopped(&rt, alloc, b, stop);
            assert_eq!(rt; done, stop > *calls, "{stop}");
            for pick in PICKS {
                // the gate is written by the last call but one
                let is_kept = matches!(pick, Pick::Kept | Pick::Ones);
                let is_open = done || (is_kept && stop.saturating_add(1) >= *calls);
                let want = if is_open {
                    Err(Schema(1))
                } else {
                    WORKED_GIVES
                };
                let image = left(&rt, alloc, &disk, pick);
                assert_eq!(rt; given_as(&rt, alloc, image, OLD), want, "{stop}");
                let image = left(&rt, alloc, &disk, pick);
                assert_eq!(rt; given_as(&rt, alloc, image, NEW), REWRITTEN_GIVES, "{stop}");
            }
        }
    }
}

#[test]
fn a_rewrite_that_fails_is_made_again(rt: HostRuntime) {
    let alloc = rt.alloc();
    for call in 1..=15 {
        let mut numbers = Numbers::new(alloc);
        assert!(rt; numbers.push(call).is_ok());
        let disk = FailingDisk::new(seeded(&rt, alloc, &WORKED, &[]), numbers);
        match open_as(&rt, alloc, disk, NEW) {
            Ok((_store, _table)) => panic!(rt; "call {call} did not fail"),
            Err((fault, disk)) => {
                assert_eq!(rt; fault, OpenFault::Disk, "{call}");
                assert_eq!(rt; given_as(&rt, alloc, disk, NEW), REWRITTEN_GIVES, "{call}");
            }
        }
    }
}

// The worked side, with this generation and this byte in place of its closing gate.
fn worked_of(generation: u64, closing: u8) -> [u8; 83] {
    let [a, b, c, d, e, f, g, h] = generation.to_be_bytes();
    let mut bytes = WORKED;
    bytes[5] = a;
    bytes[6] = b;
    bytes[7] = c;
    bytes[8] = d;
    bytes[9] = e;
    bytes[10] = f;
    bytes[11] = g;
    bytes[12] = h;
    bytes[82] = closing;
    bytes
}

// The generation, the closing gate, the columns, and what opening gives. Another damage goes before a generation that
// is the greatest.
static GREATEST: [(u64, u8, &'static str, Given); 4] = [
    (
        0x3fff_ffff_ffff_ffff,
        0,
        NEW,
        Ok((0x4000_0000_0000_0000, 1, 2, 79)),
    ),
    (0x4000_0000_0000_0000, 0, NEW, Err(Large(7))),
    (0x4000_0000_0000_0000, 1, NEW, Err(Damaged(Side::A, 82))),
    (
        0x4000_0000_0000_0000,
        0,
        OLD,
        Ok((0x4000_0000_0000_0000, 1, 2, 83)),
    ),
];

#[test]
fn a_rewrite_has_a_greater_generation(rt: HostRuntime) {
    let alloc = rt.alloc();
    for (generation, closing, text, want) in &GREATEST {
        let bytes = worked_of(*generation, *closing);
        let disk = seeded(&rt, alloc, &bytes, &[]);
        assert_eq!(rt;
            given_as(&rt, alloc, disk, text),
            *want,
            "{generation} {closing}"
        );
    }
}

// Calls on a new table of some columns, and what opening it gives with wider ones.
struct Widening {
    name: &'static str,
    old: &'static str,
    new: &'static str,
    acts: &'static [(Act, Answer)],
    want: Want,
}

static WIDENINGS: [Widening; 2] = [
    // 31, a schema of 5 bytes, a mark of 10, and three rows of 9 bytes, a flag and a number
    Widening {
        name: "batches, an end and a mark",
        old: "[[table]]\nname = \"t\"\ncolumns = [\"n int\"]\n",
        new: "[[table]]\nname = \"t\"\ncolumns = [\"n int null\"]\n",
        acts: &[
            (Add(3), Done),
            (Forward(4, Mode::A, 9), Done),
            (Commit, Done),
            (End(2, 2), Done),
            (Commit, Done),
        ],
        want: Want {
            generation: 2,
            rows: &[(1, 1), (3, 4)],
            next: 5,
            marks: &[(4, 9)],
            length: 100,
        },
    },
    // 31, a schema of 8 bytes, and four rows of 9 bytes, two flags and a number, of which two have another number
    Widening {
        name: "nulls beside a column that takes them from now on",
        old: "[[table]]\nname = \"t\"\ncolumns = [\"n int\", \"m int null\"]\n",
        new: "[[table]]\nname = \"t\"\ncolumns = [\"n int null\", \"m int null\"]\n",
        acts: &[(Add(4), Done), (Commit, Done)],
        want: Want {
            generation: 2,
            rows: &[(1, 4)],
            next: 5,
            marks: &[],
            length: 131,
        },
    },
];

#[test]
fn tables_are_read_with_wider_columns(rt: HostRuntime) {
    let alloc = rt.alloc();
    for case in &WIDENINGS {
        let mut twin = Twin::open(&rt, alloc, MemoryDisk::new(alloc), case.old);
        twin.play(&rt, case.acts, case.name);
        let twin = Twin::open(&rt, alloc, twin.give_back(), case.new);
        twin.assert_is(&rt, &case.want, case.name);
        // it takes changes, and is not rewritten again
        let mut twin = Twin::open(&rt, alloc, twin.give_back(), case.new);
        twin.assert_is(&rt, &case.want, case.name);
        twin.play(&rt, &[(Add(1), Done), (Commit, Done)], case.name);
    }
}
