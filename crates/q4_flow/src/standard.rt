ghost use Rattle.std.specs.Prelude.{◌≡◌, ◌≤◌, ◌^◌, ℕ, None, length, IfSome, false};

use crate::{ReadFailed, Sink, Source, WriteFailed};
use std::io::{Error, ErrorKind, Read, Write};
use std::rt::Files;
use std::{fs, io};

/// How many reads of a standard stream may give bytes: more than any process makes.
const MOST_READS: u64 = 1 << 62;

// One read that no signal cut short.
fn read_through<R: Read>(inner: &mut R, into: &mut [u8]) -> Option<usize>
    ensures { IfSome result (λ count. count ≤ length into.new) }
{
    for _ in 0..u64::MAX {
        match inner.read(into) {
            Ok(count) => return Some(count),
            Err(fault) if fault.kind() == ErrorKind::Interrupted => {}
            Err(_) => return None,
        }
    }
    None
}

/// A source over a reader of std, as the standard input. It doesn't tell what is left.
#[derive(Drop)]
pub struct StdSource<R: Read> {
    inner: R,
    reads: u64,
    faults: u64,
    ended: bool,
}

impl<R: Read> StdSource<R> {
    pub fn new(inner: R) -> StdSource<R>
        ensures reads { result.reads ≡ 2 ^ 62 }
        ensures faults { result.faults ≡ 0 }
        ensures ended { result.ended ≡ false }
    {
        StdSource {
            inner,
            reads: MOST_READS,
            faults: 0,
            ended: false,
        }
    }
}

impl<R: Read> Source for StdSource<R> {
    ghost left = { λ _. None };

    ghost ended = { λ s. s.ended };

    ghost faults = { λ s. s.faults };

    ghost reads = { λ s. s.reads };

    fn read(&mut self, into: &mut [u8]) -> Result<usize, ReadFailed> {
        if self.ended {
            return Ok(0);
        }
        if self.reads > 0 {
            if let Some(count) = read_through(&mut self.inner, into) {
                if count > 0 {
                    self.reads -= 1;
                } else if !into.is_empty() {
                    self.ended = true;
                }
                return Ok(count);
            }
        }
        self.faults = self.faults.saturating_add(1);
        Err(ReadFailed)
    }
}

// What stands at a path, as it was opened.
#[derive(Drop)]
enum Opened<F: Read> {
    File(F),
    Missing,
    Unreadable,
}

impl<F: Read> Read for Opened<F> {
    fn read(&mut self, buf: &mut [u8]) -> io::Result<usize> {
        match self {
            Opened::File(file) => file.read(buf),
            Opened::Missing => Ok(0),
            Opened::Unreadable => Err(Error::from(ErrorKind::Other)),
        }
    }
}

// Opens the file. No signal cuts it short.
fn open_through<R: Files>(files: &R, path: &str) -> Opened<R::File> {
    for _ in 0..u64::MAX {
        match fs::open(files, path) {
            Ok(file) => return Opened::File(file),
            Err(fault) => match fault.kind() {
                ErrorKind::Interrupted => {}
                ErrorKind::NotFound => return Opened::Missing,
                _ => return Opened::Unreadable,
            },
        }
    }
    Opened::Unreadable
}

/// A source over a file. One that isn't there is an empty source, and each read of one that cannot
/// be opened fails. It doesn't tell what is left.
#[derive(Drop)]
pub struct FileSource<F: Read> {
    inner: StdSource<Opened<F>>,
}

impl<F: Read> FileSource<F> {
    /// Opens the file at this path.
    pub fn open<R: Files<File = F>>(files: &R, path: &str) -> FileSource<F>
        ensures reads { result.inner.reads ≡ 2 ^ 62 }
        ensures faults { result.inner.faults ≡ 0 }
        ensures ended { result.inner.ended ≡ false }
    {
        FileSource {
            inner: StdSource::new(open_through(files, path)),
        }
    }
}

impl<F: Read> Source for FileSource<F> {
    ghost left = { λ _. None };

    ghost ended = { λ s. s.inner.ended };

    ghost faults = { λ s. s.inner.faults };

    ghost reads = { λ s. s.inner.reads };

    fn read(&mut self, into: &mut [u8]) -> Result<usize, ReadFailed> {
        self.inner.read(into)
    }
}

/// A sink over a writer of std, as the standard output. It doesn't tell what was written.
#[derive(Drop)]
pub struct StdSink<W: Write> {
    inner: W,
    faults: u64,
}

impl<W: Write> StdSink<W> {
    pub fn new(inner: W) -> StdSink<W>
        ensures { result.faults ≡ 0 }
    {
        StdSink { inner, faults: 0 }
    }
}

impl<W: Write> Sink for StdSink<W> {
    ghost written = { λ _. None };

    ghost faults = { λ s. s.faults };

    /// Each write is handed on at once, so that a peer that waits for it is served.
    fn write(&mut self, bytes: &[u8]) -> Result<(), WriteFailed> {
        if self.inner.write_all(bytes).is_ok() && self.inner.flush().is_ok() {
            return Ok(());
        }
        self.faults = self.faults.saturating_add(1);
        Err(WriteFailed)
    }
}
