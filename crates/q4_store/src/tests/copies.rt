use super::acts::Act::{Add, Begin, Commit, End, Finish, Forward, Piece};
use super::acts::Answer::{self, Done, Generation, Last, More};
use super::acts::{Act, Want};
use super::twin::Twin;
use super::{WORKED, added, counts, given, seeded};
use q4_disk::{MemoryDisk, Side};
use q4_table::Mode;
use std::test::*;

// A table of one number.
const NUMBERED: &str = "[[table]]\nname = \"t\"\ncolumns = [\"n int\"]\n";

// A table of two numbers, the second of them optional.
const OPTIONAL: &str = "[[table]]\nname = \"t\"\ncolumns = [\"n int\", \"m int null\"]\n";

// Calls on a new table, and what opening gives after them. The record of a row has 9 bytes and the row: of a number
// 17 in all, of a number and a text of one byte 22. A side without a row or a mark has 36 bytes with the one schema,
// and 45 with the other. With an optional number behind a number it has 39 bytes, and a record has 26 bytes or, with a
// null, 18.
struct Copy {
    name: &'static str,
    text: &'static str,
    acts: &'static [(Act, Answer)],
    want: Want,
}

static COPIES: [Copy; 9] = [
    Copy {
        name: "no row",
        text: "",
        acts: &[(Begin, Done), (Finish, Generation(2))],
        want: Want {
            generation: 2,
            rows: &[],
            next: 1,
            marks: &[],
            length: 45,
        },
    },
    Copy {
        name: "one of many rows is left",
        text: NUMBERED,
        acts: &[
            (Add(3000), Done),
            (Commit, Done),
            (End(1, 2999), Done),
            (Commit, Done),
            (Begin, Done),
            (Finish, Generation(2)),
        ],
        want: Want {
            generation: 2,
            rows: &[(3000, 3000)],
            next: 3001,
            marks: &[],
            length: 53,
        },
    },
    Copy {
        name: "three pieces",
        text: NUMBERED,
        acts: &[
            (Add(3000), Done),
            (Commit, Done),
            (Begin, Done),
            (Piece(1024), More),
            (Piece(1024), More),
            (Piece(1024), Last),
            (Finish, Generation(2)),
        ],
        want: Want {
            generation: 2,
            rows: &[(1, 3000)],
            next: 3001,
            marks: &[],
            length: 51_036,
        },
    },
    Copy {
        name: "two full pieces",
        text: NUMBERED,
        acts: &[
            (Add(2048), Done),
            (Commit, Done),
            (Begin, Done),
            (Piece(1024), More),
            (Piece(1024), Last),
            (Finish, Generation(2)),
        ],
        want: Want {
            generation: 2,
            rows: &[(1, 2048)],
            next: 2049,
            marks: &[],
            length: 34_852,
        },
    },
    Copy {
        name: "changes beside a piece of many rows",
        text: "",
        acts: &[
            (Add(3000), Done),
            (Commit, Done),
            (Begin, Done),
            (Piece(1024), More),
            (End(5, 5), Done),
            (Add(10), Done),
            (Finish, Generation(2)),
        ],
        // row 5 is copied, and ended in the copy
        want: Want {
            generation: 2,
            rows: &[(1, 4), (6, 3010)],
            next: 3011,
            marks: &[],
            length: 66_274,
        },
    },
    Copy {
        name: "ends on both sides of the cursor",
        text: "",
        acts: &[
            (Add(10), Done),
            (Commit, Done),
            (Begin, Done),
            (Piece(4), More),
            (End(2, 2), Done),
            (End(7, 7), Done),
            (Add(1), Done),
            (Commit, Done),
            (Piece(4), More),
            (End(5, 5), Done),
            (Finish, Generation(2)),
            (Add(1), Done),
            (Commit, Done),
        ],
        // rows 2 and 5 are copied, row 7 is not
        want: Want {
            generation: 2,
            rows: &[(1, 1), (3, 4), (6, 6), (8, 12)],
            next: 13,
            marks: &[],
            length: 310,
        },
    },
    Copy {
        name: "marks",
        text: "",
        acts: &[
            (Forward(4, Mode::A, 9), Done),
            (Forward(63, Mode::W, 4_611_686_018_427_387_903), Done),
            (Add(1), Done),
            (Commit, Done),
            (Begin, Done),
            (Piece(2), More),
            (Forward(4, Mode::A, 12), Done),
            (End(1, 1), Done),
            (Forward(0, Mode::A, 1), Done),
            (Finish, Generation(2)),
        ],
        want: Want {
            generation: 2,
            rows: &[(2, 5)],
            next: 6,
            marks: &[(0, 1), (4, 12), (63, 4_611_686_018_427_387_903)],
            length: 194,
        },
    },
    // rows 2 and 4 have a null; row 1 is copied, and ended in the copy
    Copy {
        name: "nulls",
        text: OPTIONAL,
        acts: &[
            (Add(4), Done),
            (Commit, Done),
            (Begin, Done),
            (Piece(2), More),
            (End(1, 1), Done),
            (Finish, Generation(2)),
        ],
        want: Want {
            generation: 2,
            rows: &[(2, 4)],
            next: 5,
            marks: &[],
            length: 136,
        },
    },
    Copy {
        name: "two copies",
        text: "",
        acts: &[
            (Add(6), Done),
            (Commit, Done),
            (Begin, Done),
            (Piece(3), More),
            (Finish, Generation(2)),
            (Add(1), Done),
            (End(2, 2), Done),
            (Commit, Done),
            (Begin, Done),
            (Piece(3), More),
            (End(1, 1), Done),
            (Add(1), Done),
            (Finish, Generation(3)),
        ],
        want: Want {
            generation: 3,
            rows: &[(3, 8)],
            next: 9,
            marks: &[],
            length: 208,
        },
    },
];

#[test]
fn copies_are_read_again(rt: HostRuntime) {
    let alloc = rt.alloc();
    for copy in &COPIES {
        let mut twin = Twin::open(&rt, alloc, MemoryDisk::new(alloc), copy.text);
        twin.play(&rt, copy.acts, copy.name);
        twin.assert_is(&rt, &copy.want, copy.name);
        assert!(rt; !twin.store().pending(), "{}", copy.name);
        let twin = Twin::open(&rt, alloc, twin.give_back(), copy.text);
        twin.assert_is(&rt, &copy.want, copy.name);
    }
}

// A side of the first format stays current and takes batches. Its copy is of the second format.
#[test]
fn a_side_of_the_first_format_is_copied(rt: HostRuntime) {
    let alloc = rt.alloc();
    let mut twin = Twin::open(&rt, alloc, seeded(&rt, alloc, &WORKED, &[]), "");
    twin.play(&rt, &[(Add(1), Done), (Commit, Done)], "a batch");
    // 83, then 5 and a record of 22 bytes
    assert_eq!(rt; twin.store().length(), 110);
    let old = twin.store().disk().bytes(Side::A);
    assert!(rt; old.starts_with(&WORKED[..5]));
    twin.play(&rt, &[(Begin, Done), (Finish, Generation(2))], "a copy");
    let disk = twin.give_back();
    let copy = disk.bytes(Side::B);
    assert!(rt; copy.starts_with(&[0x01, 0x51, 0x34, 0x4f, 0x32]));
    // 45, and records of 33 and 22 bytes
    assert_eq!(rt; given(&rt, alloc, disk), Ok((2, 2, 3, 100)));
}

// Calls on a new table, and how many device calls, writes, syncs and faults each of them makes.
static CALLS: [(Act, Answer, [u64; 4]); 12] = [
    (Begin, Done, [4, 2, 1, 0]),
    // no row, and no end that waits
    (Piece(5), Last, [0, 0, 0, 0]),
    (Add(3), Done, [0, 0, 0, 0]),
    (Piece(2), More, [1, 1, 0, 0]),
    (Piece(2), Last, [1, 1, 0, 0]),
    (Piece(2), Last, [0, 0, 0, 0]),
    (End(1, 1), Done, [0, 0, 0, 0]),
    // the end alone
    (Piece(2), Last, [1, 1, 0, 0]),
    (Finish, Generation(2), [5, 3, 2, 0]),
    (Commit, Done, [0, 0, 0, 0]),
    // the gate of the old side is open
    (Begin, Done, [4, 2, 1, 0]),
    (Finish, Generation(3), [5, 3, 2, 0]),
];

#[test]
fn copies_make_few_device_calls(rt: HostRuntime) {
    let alloc = rt.alloc();
    let mut twin = Twin::open(&rt, alloc, MemoryDisk::new(alloc), "");
    for (place, (act, want, calls)) in CALLS.iter().enumerate() {
        let before = counts(twin.store().disk());
        assert_eq!(rt; twin.make(&rt, *act), *want, "{place}");
        assert_eq!(rt;
            added(before, counts(twin.store().disk())),
            *calls,
            "{place}"
        );
    }
}
