use super::{PICKS, WORKED, added, append, counts, given, job, left, opened, seeded};
use q4_disk::{DiskFailed, FailingDisk, MemoryDisk, Numbers, Pick, StopDisk};
use std::test::*;

#[test]
fn three_appends_make_one_commit(rt: HostRuntime) {
    let alloc = rt.alloc();
    let (mut store, _) = opened(&rt, alloc, MemoryDisk::new(alloc));
    let row = job(&rt, alloc, 7, "a");
    append(&rt, &mut store, 1, &row, None);
    append(&rt, &mut store, 2, &row, None);
    append(&rt, &mut store, 3, &row, None);
    let before = counts(store.disk());
    assert_eq!(rt; store.commit(), Ok(()));
    assert_eq!(rt; added(before, counts(store.disk())), [4, 2, 2, 0]);
    let before = counts(store.disk());
    assert_eq!(rt; store.commit(), Ok(()));
    assert_eq!(rt; added(before, counts(store.disk())), [0, 0, 0, 0]);
}

#[test]
fn a_store_that_failed_makes_no_call(rt: HostRuntime) {
    let alloc = rt.alloc();
    let mut numbers = Numbers::new(alloc);
    // opening makes 13 calls, the first commit 4, and the second commit's last sync is the 21st
    assert!(rt; numbers.push(21).is_ok());
    let disk = FailingDisk::new(MemoryDisk::new(alloc), numbers);
    let (mut store, _) = opened(&rt, alloc, disk);
    let row = job(&rt, alloc, 7, "a");
    append(&rt, &mut store, 1, &row, None);
    assert_eq!(rt; store.commit(), Ok(()));
    append(&rt, &mut store, 2, &row, None);
    assert_eq!(rt; store.commit(), Err(DiskFailed));
    let before = counts(store.disk().inner());
    assert_eq!(rt; store.commit(), Err(DiskFailed));
    assert_eq!(rt; added(before, counts(store.disk().inner())), [0, 0, 0, 0]);
}

#[test]
fn a_commit_that_stops_leaves_all_or_nothing(rt: HostRuntime) {
    let alloc = rt.alloc();
    let row = job(&rt, alloc, 8, "b");
    // opening makes 6 calls where there is a table
    for stop in 7..=10 {
        let disk = StopDisk::new(seeded(&rt, alloc, &WORKED, &[]), stop);
        let (mut store, table) = opened(&rt, alloc, disk);
        assert_eq!(rt; table.count(), 1);
        append(&rt, &mut store, 2, &row, None);
        assert_eq!(rt; store.commit(), Err(DiskFailed));
        let disk = store.give_back();
        for pick in PICKS {
            // the gate is written by the third call
            let kept = stop >= 9 && matches!(pick, Pick::Kept | Pick::Ones);
            let want = if kept { (1, 2, 3, 110) } else { (1, 1, 2, 83) };
            assert_eq!(rt;
                given(&rt, alloc, left(&rt, alloc, &disk, pick)),
                Ok(want),
                "{stop}"
            );
        }
    }
}
