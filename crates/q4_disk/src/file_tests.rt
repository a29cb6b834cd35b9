use crate::tests::{Answer, Call, PLAIN, first_wrong};
use crate::{Disk, DiskFailed, DiskMaker, FileDisk, FileMaker, MakeFault, Side};
use std::alloc::{Allocator, Global};
use std::fs::{self, File, Files, Metadata, OpenOptions};
use std::io;
use std::test::Fail;

// Writes within and over what was written, cuts, and syncs.
fn edit(disk: &mut FileDisk, long: &[u8]) -> Result<(), DiskFailed> {
    disk.write(Side::A, 0, long)?;
    disk.write(Side::A, 1, &[1, 2])?;
    disk.cut(Side::A, 69_999)?;
    disk.sync(Side::A)?;
    disk.write(Side::B, 0, &[5, 6])?;
    disk.sync(Side::B)
}

// How many bytes one read of side A gives, and how many of them are 7.
fn sevens(alloc: Global, disk: &mut FileDisk) -> Result<(usize, usize), Fail> {
    let mut all = vec![in alloc; 0u8; 80_000]?;
    let count = disk.read(Side::A, 0, &mut all)?;
    Ok((count, all.iter().filter(|byte| **byte == 7).count()))
}

static REOPENED: [(Call, Answer); 6] = [
    (Call::Size(Side::A), Answer::Size(69_999)),
    (Call::Read(Side::A, 0), Answer::Read(2, [7, 1])),
    (Call::Read(Side::A, 2), Answer::Read(2, [2, 7])),
    (Call::Read(Side::A, 69_998), Answer::Read(1, [7, 0])),
    (Call::Size(Side::B), Answer::Size(2)),
    (Call::Read(Side::B, 0), Answer::Read(2, [5, 6])),
];

#[test]
fn keeps_bytes_in_files(rt: HostRuntime) -> Result<(), Fail> {
    let long = vec![in rt.alloc(); 7u8; 70_000]?;
    let mut maker = FileMaker::new(&rt);
    let mut disk = maker.make(rt.alloc(), "jobs")?;
    edit(&mut disk, &long)?;
    // another user is kept out as long as this one has the files
    let locked = maker.make(rt.alloc(), "jobs").err();
    assert_eq!(rt; locked, Some(MakeFault::Failed));
    drop(disk);
    let mut disk = maker.make(rt.alloc(), "jobs")?;
    assert_eq!(rt; first_wrong(&mut disk, &REOPENED), None);
    assert_eq!(rt; sevens(rt.alloc(), &mut disk)?, (69_999, 69_997));
    Ok(())
}

#[test]
fn answers_in_files(rt: HostRuntime) -> Result<(), Fail> {
    let mut disk = FileMaker::new(&rt).make(rt.alloc(), "jobs")?;
    assert_eq!(rt; first_wrong(&mut disk, &PLAIN), None);
    // past what a file can hold
    assert_eq!(rt; disk.write(Side::B, u64::MAX, &[1]), Err(DiskFailed));
    assert_eq!(rt; disk.cut(Side::B, u64::MAX), Err(DiskFailed));
    assert_eq!(rt; disk.faults(), 2);
    assert_eq!(rt; fs::read(&rt, "jobs.b")?.as_slice(), [5].as_slice());
    Ok(())
}

#[test]
fn refuses_names_that_cannot_be_opened(rt: HostRuntime) -> Result<(), Fail> {
    fs::create_dir(&rt, "folder.b")?;
    let mut maker = FileMaker::new(&rt);
    for name in ["missing/jobs", "folder", "a\0b"] {
        let fault = maker.make(rt.alloc(), name).err();
        assert_eq!(rt; fault, Some(MakeFault::Failed), "{name}");
    }
    Ok(())
}

// Side A is opened for writing alone, and side B takes no byte.
static REFUSED: [(Call, Answer); 6] = [
    (Call::Put(Side::A, &[1]), Answer::Done),
    (Call::Size(Side::A), Answer::Size(1)),
    (Call::Read(Side::A, 0), Answer::Failed),
    (Call::Put(Side::B, &[1]), Answer::Failed),
    (Call::Clear(Side::B), Answer::Failed),
    (Call::Sync(Side::B), Answer::Failed),
];

#[test]
fn tells_each_fault_of_a_file(rt: HostRuntime) -> Result<(), Fail> {
    let mut how = OpenOptions::new();
    how.write(true).create(true);
    let blind = how.open(&rt, "blind")?;
    let full = how.open(&rt, "/dev/full")?;
    let mut disk = FileDisk::new(blind, full);
    assert_eq!(rt; first_wrong(&mut disk, &REFUSED), None);
    assert_eq!(rt; disk.faults(), 4);
    Ok(())
}

/// Files in whose place a device is opened for the folder, which cannot be synced.
#[derive(Drop)]
struct NoFolder<R: Files<File = File>> {
    files: R,
}

impl<R: Files<File = File>> Files for NoFolder<R> {
    type File = File;

    type Dir = R::Dir;

    fn open_file(&self, how: &OpenOptions, path: &str) -> io::Result<File> {
        let path = if path == "." { "/dev/null" } else { path };
        self.files.open_file(how, path)
    }

    fn open_dir(&self, path: &str) -> io::Result<R::Dir> {
        self.files.open_dir(path)
    }

    fn metadata(&self, path: &str) -> io::Result<Metadata> {
        self.files.metadata(path)
    }

    fn symlink_metadata(&self, path: &str) -> io::Result<Metadata> {
        self.files.symlink_metadata(path)
    }

    fn copy(&self, from: &str, to: &str) -> io::Result<u64> {
        self.files.copy(from, to)
    }

    fn rename(&self, from: &str, to: &str) -> io::Result<()> {
        self.files.rename(from, to)
    }

    fn remove_file(&self, path: &str) -> io::Result<()> {
        self.files.remove_file(path)
    }

    fn create_dir(&self, path: &str) -> io::Result<()> {
        self.files.create_dir(path)
    }

    fn remove_dir(&self, path: &str) -> io::Result<()> {
        self.files.remove_dir(path)
    }

    fn remove_dir_all<B: Allocator>(&self, alloc: B, path: &str) -> io::Result<()> {
        self.files.remove_dir_all(alloc, path)
    }
}

#[test]
fn syncs_the_folder_at_each_opening(rt: HostRuntime) -> Result<(), Fail> {
    // the files are there, and still their folder has to be synced
    drop(FileMaker::new(&rt).make(rt.alloc(), "jobs")?);
    let mut maker = FileMaker::new(NoFolder { files: &rt });
    let fault = maker.make(rt.alloc(), "jobs").err();
    assert_eq!(rt; fault, Some(MakeFault::Failed));
    Ok(())
}
