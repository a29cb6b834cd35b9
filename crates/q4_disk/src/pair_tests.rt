ghost use Rattle.std.specs.Prelude.{◌≡◌, ◌≤◌, ◌-◌, ◌++◌, [], length, min, take, drop, IsTrue, IfOk, OnOk};
ghost use Rattle.q4_disk.specs.Images.{written};
ghost use Rattle.q4_disk.specs.Calls.{bump};
ghost use Rattle.q4_disk.specs.Pieces.{IsWholeRead};
ghost use Rattle.q4_disk.specs.Pairs.{file_of, with_file};

use crate::pair::PairDisk;
use crate::pieces::{Pieces, read_full, write_full};
use crate::{DiskFailed, Side};
use std::alloc::{AllocError, Global};
use std::cell::Cell;
use std::io;
use std::test::Fail;

// Bytes of which each call reads or writes two at most, and which every other call interrupts. No
// byte is taken behind their end.
#[derive(Drop)]
struct Slow {
    bytes: Vec<u8>,
    synced: u64,
    turns: Cell<u64>,
}

impl Slow {
    fn new(alloc: Global, bytes: &[u8]) -> Result<Slow, AllocError> {
        Ok(Slow {
            bytes: bytes.to_vec(alloc)?,
            synced: 0,
            turns: Cell::new(0),
        })
    }

    fn interrupted(&self) -> bool {
        let turn = self.turns.get();
        self.turns.set(turn.wrapping_add(1));
        turn % 2 == 0
    }
}

impl Pieces for Slow {
    ghost use Rattle.std.specs.Prelude.{true};

    ghost tells = { true };

    ghost holds = { λ slow. record { bytes = slow.bytes.items; synced = slow.synced } };

    fn size(&self) -> io::Result<u64> {
        Ok(self.bytes.as_slice().len() as u64)
    }

    fn read_piece(&self, at: u64, into: &mut [u8]) -> io::Result<usize> {
        if self.interrupted() {
            return Err(io::ErrorKind::Interrupted.into());
        }
        Ok(read_two(&self.bytes, at, into))
    }

    fn write_piece(&mut self, at: u64, new: &[u8]) -> io::Result<usize> {
        if self.interrupted() {
            return Err(io::ErrorKind::Interrupted.into());
        }
        Ok(write_two(&mut self.bytes, at as usize, new))
    }

    fn cut_to(&mut self, to: u64) -> io::Result<()> {
        self.bytes.truncate(to as usize);
        Ok(())
    }

    fn sync(&mut self) -> io::Result<()> {
        self.synced = self.synced.saturating_add(1);
        Ok(())
    }
}

// Reads two bytes at most.
fn read_two(file: &Vec<u8>, at: u64, into: &mut [u8]) -> usize
    ensures count { result ≡ min (min (length into.old) (length file.now.items - at)) 2 }
    ensures into { into.new ≡ take result (drop at file.now.items) ++ drop result into.old }
{
    if at >= file.len() as u64 {
        return 0;
    }
    let rest = &file[at as usize..];
    let count = into.len().min(rest.len()).min(2);
    into[..count].copy_from_slice(&rest[..count]);
    count
}

// Writes two bytes at most.
fn write_two(file: &mut Vec<u8>, at: usize, new: &[u8]) -> usize
    requires { at ≤ length file.old.items }
    ensures room { result ≤ length new.now }
    ensures wrote { file.new.items ≡ written file.old.items at (take result new.now) }
{
    let count = new.len().min(file.len() - at).min(2);
    file[at..at + count].copy_from_slice(&new[..count]);
    count
}

// Reads of bytes of which there are not many.
fn read_slow(slow: &Slow, at: u64, into: &mut [u8]) -> io::Result<usize>
    ensures { IfOk result (IsWholeRead slow.now.bytes.items at into.old into.new) }
{
    if slow.bytes.as_slice().len() > 1_000 {
        return Err(io::ErrorKind::FileTooLarge.into());
    }
    read_full(slow, at, into)
}

#[test]
fn follows_short_reads_and_writes_through(rt: HostRuntime) -> Result<(), Fail> {
    let mut slow = Slow::new(rt.alloc(), &[1, 2, 3, 4, 5, 6, 7])?;
    let mut into = [0; 5];
    assert_eq!(rt; read_slow(&slow, 1, &mut into)?, 5);
    assert_eq!(rt; into, [2, 3, 4, 5, 6]);
    assert_eq!(rt; read_slow(&slow, 4, &mut into)?, 3);
    assert_eq!(rt; into, [5, 6, 7, 5, 6]);
    write_full(&mut slow, 0, &[20, 21, 22, 23, 24])?;
    assert_eq!(rt;
        slow.bytes.as_slice(),
        [20, 21, 22, 23, 24, 6, 7].as_slice()
    );
    // it takes no byte behind its end
    let full = write_full(&mut slow, 0, &[31, 32, 33, 34, 35, 36, 37, 38]).err();
    assert_eq!(rt;
        full.map(|fault| fault.kind()),
        Some(io::ErrorKind::WriteZero)
    );
    assert_eq!(rt;
        slow.bytes.as_slice(),
        [31, 32, 33, 34, 35, 36, 37].as_slice()
    );
    Ok(())
}

// Empties a side, and syncs it.
fn empty<F: Pieces>(disk: &mut PairDisk<F>, side: Side) -> Result<(), DiskFailed>
    ensures { IsTrue F.tells → let old = disk.old.files in OnOk result (disk.new.files ≡
        with_file side (record { bytes = []; synced = bump (file_of side old).synced }) old) }
{
    disk.cut(side, 0)?;
    disk.sync(side)
}

#[test]
fn changes_the_file_of_the_side(rt: HostRuntime) -> Result<(), Fail> {
    let a = Slow::new(rt.alloc(), &[1, 2, 3, 4, 5])?;
    let b = Slow::new(rt.alloc(), &[6, 7, 8, 9])?;
    let mut disk = PairDisk::new(a, b);
    disk.write(Side::B, 0, &[21, 22, 23])?;
    assert_eq!(rt; disk.size(Side::A), Ok(5));
    assert_eq!(rt; disk.size(Side::B), Ok(4));
    assert_eq!(rt;
        disk.file(Side::A).bytes.as_slice(),
        [1, 2, 3, 4, 5].as_slice()
    );
    assert_eq!(rt;
        disk.file(Side::B).bytes.as_slice(),
        [21, 22, 23, 9].as_slice()
    );
    empty(&mut disk, Side::B)?;
    assert_eq!(rt; disk.size(Side::A), Ok(5));
    assert_eq!(rt; disk.size(Side::B), Ok(0));
    assert_eq!(rt;
        (disk.file(Side::A).synced, disk.file(Side::B).synced),
        (0, 1)
    );
    // nothing can be written behind the end
    assert_eq!(rt; disk.write(Side::B, 0, &[1]), Err(DiskFailed));
    assert_eq!(rt; disk.faults(), 1);
    Ok(())
}
