use super::acts::Act::{Add, Begin, Commit, End, Finish, Piece};
use super::acts::Answer::{self, Done, Failed, Fault, Generation, More};
use super::acts::{Act, Want};
use super::twin::Twin;
use super::{PICKS, left, seeded};
use crate::CopyFault::{Abandoned, Unsure};
use q4_disk::{MemoryDisk, Pick, Side, StopDisk};
use std::alloc::Global;
use std::process::Abort;
use std::test::*;

// Calls on a table, on a disk that stops, and what is left.
struct Stops {
    name: &'static str,
    // on a new table, on a disk that does not stop
    before: &'static [(Act, Answer)],
    acts: &'static [(Act, Answer)],
    device: &'static [Device],
    // What opening may give.
    wants: &'static [Want],
}

// So many device calls one after the other. Where one of them stops, the call of the store at this place is answered so,
// and opening gives the one table where what was not synced is kept or filled with ones, and the other where it is lost
// or halved.
type Device = (u64, usize, Answer, usize, usize);

// Opening a table makes so many calls.
const OPENING: u64 = 6;

static STOPS: [Stops; 3] = [
    Stops {
        name: "changes beside a piece of many rows",
        before: &[(Add(3000), Done), (Commit, Done)],
        acts: &[
            (Begin, Done),
            (Piece(1024), More),
            (End(5, 5), Done),
            (Add(10), Done),
            (Finish, Generation(2)),
        ],
        device: &[
            (4, 0, Fault(Abandoned), 0, 0),
            (1, 1, Fault(Abandoned), 0, 0),
            (3, 4, Fault(Abandoned), 0, 0),
            (2, 4, Fault(Unsure), 1, 0),
        ],
        wants: &[
            Want {
                generation: 1,
                rows: &[(1, 3000)],
                next: 3001,
                marks: &[],
                length: 66_050,
            },
            Want {
                generation: 2,
                rows: &[(1, 4), (6, 3010)],
                next: 3011,
                marks: &[],
                length: 66_274,
            },
        ],
    },
    Stops {
        name: "a commit beside a copy",
        before: &[(Add(10), Done), (Commit, Done)],
        acts: &[
            (Begin, Done),
            (Piece(4), More),
            (Piece(4), More),
            (Add(1), Done),
            (End(5, 5), Done),
            (Commit, Done),
            (Finish, Generation(2)),
        ],
        // the commit leaves both changes or none
        device: &[
            (4, 0, Fault(Abandoned), 0, 0),
            (1, 1, Fault(Abandoned), 0, 0),
            (1, 2, Fault(Abandoned), 0, 0),
            (2, 5, Failed, 0, 0),
            (2, 5, Failed, 1, 0),
            (3, 6, Fault(Abandoned), 1, 1),
            (2, 6, Fault(Unsure), 2, 1),
        ],
        wants: &[
            Want {
                generation: 1,
                rows: &[(1, 10)],
                next: 11,
                marks: &[],
                length: 270,
            },
            Want {
                generation: 1,
                rows: &[(1, 4), (6, 11)],
                next: 12,
                marks: &[],
                length: 306,
            },
            Want {
                generation: 2,
                rows: &[(1, 4), (6, 11)],
                next: 12,
                marks: &[],
                length: 296,
            },
        ],
    },
    Stops {
        name: "two copies",
        before: &[(Add(6), Done), (Commit, Done)],
        acts: &[
            (Begin, Done),
            (Piece(3), More),
            (Finish, Generation(2)),
            (Add(1), Done),
            (End(2, 2), Done),
            (Commit, Done),
            (Begin, Done),
            (Piece(3), More),
            (End(1, 1), Done),
            (Add(1), Done),
            (Finish, Generation(3)),
        ],
        device: &[
            (4, 0, Fault(Abandoned), 0, 0),
            (1, 1, Fault(Abandoned), 0, 0),
            (3, 2, Fault(Abandoned), 0, 0),
            (2, 2, Fault(Unsure), 1, 0),
            (2, 5, Failed, 1, 1),
            (2, 5, Failed, 2, 1),
            (4, 6, Fault(Abandoned), 2, 2),
            (1, 7, Fault(Abandoned), 2, 2),
            (3, 10, Fault(Abandoned), 2, 2),
            (2, 10, Fault(Unsure), 3, 2),
        ],
        wants: &[
            Want {
                generation: 1,
                rows: &[(1, 6)],
                next: 7,
                marks: &[],
                length: 182,
            },
            Want {
                generation: 2,
                rows: &[(1, 6)],
                next: 7,
                marks: &[],
                length: 177,
            },
            Want {
                generation: 2,
                rows: &[(1, 1), (3, 7)],
                next: 8,
                marks: &[],
                length: 213,
            },
            Want {
                generation: 3,
                rows: &[(3, 8)],
                next: 9,
                marks: &[],
                length: 208,
            },
        ],
    },
];

#[test]
fn a_copy_that_stops_leaves_a_table(rt: HostRuntime) {
    let alloc = rt.alloc();
    for case in &STOPS {
        let mut twin = Twin::open(&rt, alloc, MemoryDisk::new(alloc), "");
        twin.play(&rt, case.before, case.name);
        let disk = twin.give_back();
        let mut call = OPENING;
        for (calls, place, answer, kept, lost) in case.device {
            for _ in 0..*calls {
                call = call.saturating_add(1);
                let disk = stopping(&rt, alloc, &disk, call);
                let fault = Some((*place, *answer));
                stop(&rt, alloc, disk, case, fault, (*kept, *lost));
            }
        }
        // none is left
        let stopping = stopping(&rt, alloc, &disk, call.saturating_add(1));
        let mut twin = Twin::open(&rt, alloc, stopping, "");
        twin.play(&rt, case.acts, case.name);
    }
}

// The same bytes, on a disk that stops at this call.
fn stopping(rt: &impl Abort, alloc: Global, disk: &MemoryDisk, call: u64) -> StopDisk {
    let copy = seeded(rt, alloc, disk.bytes(Side::A), disk.bytes(Side::B));
    StopDisk::new(copy, call)
}

// Makes the calls on a disk that stops, and compares which fails, and what each image gives.
fn stop(
    rt: &impl Abort,
    alloc: Global,
    disk: StopDisk,
    case: &Stops,
    fault: Option<(usize, Answer)>,
    left_of: (usize, usize),
) {
    let mut twin = Twin::open(rt, alloc, disk, "");
    assert_eq!(rt; twin.play_to_fault(rt, case.acts), fault, "{}", case.name);
    let disk = twin.give_back();
    for pick in PICKS {
        let place = match pick {
            Pick::Kept | Pick::Ones => left_of.0,
            Pick::Lost | Pick::Half => left_of.1,
        };
        let Some(want) = case.wants.get(place) else {
            panic!(rt; "no table")
        };
        let image = left(rt, alloc, &disk, pick);
        Twin::open(rt, alloc, image, "").assert_is(rt, want, case.name);
    }
}
