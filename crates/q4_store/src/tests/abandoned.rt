use super::acts::Act::{Add, Begin, Commit, End, Finish, Piece};
use super::acts::Answer::{self, Done, Fault, Generation, More};
use super::acts::{Act, Want};
use super::twin::Twin;
use crate::CopyFault::Abandoned;
use q4_disk::{FailingDisk, MemoryDisk, Numbers};
use std::test::*;

// What is done until a copy is abandoned. The first four calls of the disk are those of the beginning, then each piece
// makes one, and the finish three before the gate's write.
static ABANDONED: [(Act, Answer); 5] = [
    (Begin, Done),
    (Piece(4), More),
    (End(2, 2), Done),
    (Piece(4), More),
    (Finish, Generation(2)),
];

// What is done then.
static BEGUN_AGAIN: [(Act, Answer); 7] = [
    (Piece(2), More),
    (Add(1), Done),
    (End(1, 1), Done),
    (Commit, Done),
    (Finish, Generation(2)),
    (Add(1), Done),
    (Commit, Done),
];

const BEGUN_AGAIN_GIVES: Want = Want {
    generation: 2,
    rows: &[(3, 12)],
    next: 13,
    marks: &[],
    length: 301,
};

// The call of the disk that fails, which of the calls above it is in, and how many device calls the next beginning
// makes: byte 0 is not written again once a write of it was synced.
static AGAIN: [(u64, usize, u64); 9] = [
    (1, 0, 4),
    (2, 0, 4),
    (3, 0, 2),
    (4, 0, 2),
    (5, 1, 2),
    (6, 3, 2),
    (7, 4, 2),
    (8, 4, 2),
    (9, 4, 2),
];

#[test]
fn a_copy_that_was_abandoned_is_begun_again(rt: HostRuntime) {
    let alloc = rt.alloc();
    for (call, place, calls) in &AGAIN {
        // opening makes 13 calls, and the commit 4
        let mut numbers = Numbers::new(alloc);
        assert!(rt; numbers.push(call.saturating_add(17)).is_ok());
        let disk = FailingDisk::new(MemoryDisk::new(alloc), numbers);
        let mut twin = Twin::open(&rt, alloc, disk, "");
        let name = "begun again";
        twin.play(&rt, &[(Add(10), Done), (Commit, Done)], name);
        let fault = twin.play_to_fault(&rt, &ABANDONED);
        assert_eq!(rt; fault, Some((*place, Fault(Abandoned))), "{call}");
        assert_eq!(rt; twin.store().copying(), None, "{call}");
        if *place < 2 {
            assert_eq!(rt; twin.make(&rt, End(2, 2)), Done);
        }
        let before = twin.store().disk().inner().calls();
        assert_eq!(rt; twin.make(&rt, Begin), Done, "{call}");
        let after = twin.store().disk().inner().calls();
        assert_eq!(rt; after.saturating_sub(before), *calls, "{call}");
        twin.play(&rt, &BEGUN_AGAIN, name);
        let twin = Twin::open(&rt, alloc, twin.give_back(), "");
        twin.assert_is(&rt, &BEGUN_AGAIN_GIVES, name);
    }
}
