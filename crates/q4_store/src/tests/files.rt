use super::acts::Act::{Add, Begin, Commit, End, Finish, Piece};
use super::acts::Answer::{self, Done, Generation, Last, More};
use super::acts::{Act, Want};
use super::twin::Twin;
use super::{append, given, job, opened};
use q4_disk::{DiskMaker, FileDisk, FileMaker};
use std::alloc::Global;
use std::process::Abort;
use std::test::*;

// The tests run in one folder, so each has a table of its own.
fn made(
    rt: &impl Abort,
    alloc: Global,
    maker: &mut impl DiskMaker<Disk = FileDisk>,
    table: &str,
) -> FileDisk {
    match maker.make(alloc, table) {
        Ok(disk) => disk,
        Err(_) => panic!(rt; "no files"),
    }
}

#[test]
fn a_store_in_files(rt: HostRuntime) {
    let alloc = rt.alloc();
    let mut maker = FileMaker::new(&rt);
    let (mut store, _) = opened(&rt, alloc, made(&rt, alloc, &mut maker, "jobs"));
    append(
        &rt,
        &mut store,
        1,
        &job(&rt, alloc, 7, "resize a.png"),
        None,
    );
    assert_eq!(rt; store.commit(), Ok(()));
    drop(store);
    let disk = made(&rt, alloc, &mut maker, "jobs");
    assert_eq!(rt; given(&rt, alloc, disk), Ok((1, 1, 2, 83)));
}

// Two copies, one onto each side, with changes beside and behind them.
static TWO_COPIES: [(Act, Answer); 17] = [
    (Add(10), Done),
    (Commit, Done),
    (Begin, Done),
    (Piece(4), More),
    (End(2, 2), Done),
    (Add(2), Done),
    (Finish, Generation(2)),
    (End(5, 8), Done),
    (Commit, Done),
    (Begin, Done),
    (Piece(3), More),
    (Add(1), Done),
    (Commit, Done),
    (Piece(8), Last),
    (Finish, Generation(3)),
    (Add(1), Done),
    (Commit, Done),
];

// Rows 1, 3, 4 and 9 to 13 stand in the base, 22 bytes each, and row 14 in a batch.
const TWO_COPIES_GIVE: Want = Want {
    generation: 3,
    rows: &[(1, 1), (3, 4), (9, 14)],
    next: 15,
    marks: &[],
    length: 248,
};

#[test]
fn two_copies_in_files(rt: HostRuntime) {
    let alloc = rt.alloc();
    let mut maker = FileMaker::new(&rt);
    let disk = made(&rt, alloc, &mut maker, "copies");
    let mut twin = Twin::open(&rt, alloc, disk, "");
    twin.play(&rt, &TWO_COPIES, "in files");
    twin.assert_is(&rt, &TWO_COPIES_GIVE, "in files");
    drop(twin.give_back());
    let disk = made(&rt, alloc, &mut maker, "copies");
    let twin = Twin::open(&rt, alloc, disk, "");
    twin.assert_is(&rt, &TWO_COPIES_GIVE, "opened again");
}
