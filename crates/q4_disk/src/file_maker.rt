ghost use Rattle.std.specs.Prelude.{◌≡◌, false};
ghost use Rattle.q4_disk.specs.Untold.{no_image};

use crate::{DiskMaker, FileDisk, MakeFault};
use std::alloc::Global;
use std::fs::{File, Files, OpenOptions};
use std::io;
use std::marker::Model;
use std::path::Path;

/// Opens disks of real files: `NAME.a` and `NAME.b`, made empty where they aren't there
/// (`docs/FORMATS.md`, "Files of a table"), and syncs their folder each time. Both are locked until
/// the disk is dropped, against others that ask for a lock.
#[derive(Drop)]
pub struct FileMaker<R: Files<File = File>> {
    files: R,
    faults: u64,
}

impl<R: Files<File = File>> Model for FileMaker<R> {
    ghost use Rattle.std.specs.Prelude.{ℕ};

    ghost Value = { ℕ };

    // its count of faults
    ghost view = { λ m. m.faults };
}

impl<R: Files<File = File>> FileMaker<R> {
    pub fn new(files: R) -> FileMaker<R>
        ensures { result ≡ 0 }
    {
        FileMaker { files, faults: 0 }
    }
}

impl<R: Files<File = File>> DiskMaker for FileMaker<R> {
    type Disk = FileDisk;

    ghost tells = { λ m n. false };

    ghost first = { λ m n c. no_image c };

    ghost faults = { λ m. m };

    /// `Failed` where a file or its folder cannot be opened, where what has the name is no regular
    /// file, or where another has it locked.
    fn make(&mut self, alloc: Global, name: &str) -> Result<FileDisk, MakeFault> {
        let Ok(a) = format!(in alloc; "{name}.a") else {
            return Err(MakeFault::Memory);
        };
        let Ok(b) = format!(in alloc; "{name}.b") else {
            return Err(MakeFault::Memory);
        };
        match open_pair(&self.files, a.as_str(), b.as_str()) {
            Ok(disk) => Ok(disk),
            Err(_) => {
                self.faults = self.faults.saturating_add(1);
                Err(MakeFault::Failed)
            }
        }
    }
}

fn open_pair<R: Files<File = File>>(files: &R, a: &str, b: &str) -> io::Result<FileDisk> {
    let first = open_locked(files, a)?;
    let second = open_locked(files, b)?;
    sync_folder(files, a)?;
    Ok(FileDisk::new(first, second))
}

// Opens a regular file for this user alone, or makes it empty where it isn't there.
fn open_locked<R: Files<File = File>>(files: &R, path: &str) -> io::Result<File> {
    let file = OpenOptions::new()
        .read(true)
        .write(true)
        .create(true)
        .truncate(false)
        .open(files, path)?;
    if !file.metadata()?.is_file() {
        return Err(io::ErrorKind::Unsupported.into());
    }
    file.try_lock()?;
    Ok(file)
}

// A file's name is durable once its folder is. A file that is there already may have been made by a
// run that ended before it synced the folder.
fn sync_folder<R: Files<File = File>>(files: &R, path: &str) -> io::Result<()> {
    let folder = match Path::new(path).parent() {
        Some(folder) if !folder.as_str().is_empty() => folder.as_str(),
        _ => ".",
    };
    File::open(files, folder)?.sync_all()
}
