ghost use Rattle.std.specs.Prelude.{Some, length};

use super::*;
use std::alloc::Global;
use std::io::{Error, ErrorKind, Read, Write};
use std::process::Abort;
use std::test::*;
use std::{fs, io};

// Hands on what a source in memory gives, at most so many bytes by one read.
#[derive(Drop)]
struct Pieces {
    inner: MemorySource,
    most: usize,
}

impl Source for Pieces {
    ghost left = { λ p. Some p.inner.left };

    ghost ended = { λ p. p.inner.ended };

    ghost faults = { λ p. p.inner.faults };

    ghost reads = { λ p. length p.inner.left };

    fn read(&mut self, into: &mut [u8]) -> Result<usize, ReadFailed> {
        let room = into.len().min(self.most.max(1));
        self.inner.read(&mut into[..room])
    }
}

fn in_pieces(rt: &impl Abort, alloc: Global, bytes: &[u8], failing: &[u64], most: usize) -> Pieces {
    let inner = MemorySource::new(alloc, bytes, failing).expect(rt, "memory");
    Pieces { inner, most }
}

// Each line in brackets, and what came behind the last, which a further call has to repeat.
fn read_lines<S: Source>(rt: &impl Abort, alloc: Global, source: &mut S) -> (Vec<u8>, LineEnd) {
    let mut lines = Lines::new(alloc).expect(rt, "memory");
    let mut all = Vec::new(alloc);
    for _ in 0..9 {
        let end = lines.next(source);
        if end != LineEnd::Line {
            assert_eq!(rt; lines.next(source), end);
            return (all, end);
        }
        assert!(rt; all.push(b'[').is_ok());
        assert!(rt; all.extend_from_slice(lines.line()).is_ok());
        assert!(rt; all.push(b']').is_ok());
    }
    panic!(rt; "too many lines")
}

#[test]
fn lines_over_pieces(rt: HostRuntime) {
    let cases: [(&[u8], &[u8], LineEnd); 7] = [
        (b"", b"", LineEnd::End),
        (b"\n", b"[]", LineEnd::End),
        (b"a\nbc\n", b"[a][bc]", LineEnd::End),
        (b"a\n\nb\r\n", b"[a][][b\r]", LineEnd::End),
        (b"a\nbc", b"[a]", LineEnd::Partial(2)),
        (b"a", b"", LineEnd::Partial(1)),
        (b"\xff\0\n\t", b"[\xff\0]", LineEnd::Partial(1)),
    ];
    for (bytes, wanted, wanted_end) in cases {
        for most in [1, 2, 3, 4096] {
            let mut source = in_pieces(&rt, rt.alloc(), bytes, &[], most);
            let (all, end) = read_lines(&rt, rt.alloc(), &mut source);
            assert_eq!(rt; all.as_slice(), wanted);
            assert_eq!(rt; end, wanted_end);
        }
    }
}

#[test]
fn faults_between_lines(rt: HostRuntime) {
    let cases: [(usize, &[u64], &[u8]); 5] = [
        (2, &[1], b""),
        (2, &[2], b"[a]"),
        (2, &[3], b"[a]"),
        (9, &[2], b"[a][bc]"),
        (1, &[6], b"[a][bc]"),
    ];
    for (most, failing, wanted) in cases {
        let mut source = in_pieces(&rt, rt.alloc(), b"a\nbc\n", failing, most);
        let (all, end) = read_lines(&rt, rt.alloc(), &mut source);
        assert_eq!(rt; all.as_slice(), wanted);
        assert_eq!(rt; end, LineEnd::ReadFault);
    }
}

// A line across several chunks.
#[test]
fn long_lines(rt: HostRuntime) -> Result<(), Fail> {
    let long = Vec::from_elem(rt.alloc(), b'x', 200_000)?;
    let mut bytes = Vec::from_slice(rt.alloc(), &long)?;
    bytes.extend_from_slice(b"\ny\n")?;
    let mut source = MemorySource::new(rt.alloc(), &bytes, &[])?;
    let mut lines = Lines::new(rt.alloc())?;
    assert_eq!(rt; lines.next(&mut source), LineEnd::Line);
    assert_eq!(rt; lines.line(), long.as_slice());
    assert_eq!(rt; lines.next(&mut source), LineEnd::Line);
    assert_eq!(rt; lines.line(), b"y".as_slice());
    assert_eq!(rt; lines.next(&mut source), LineEnd::End);
    Ok(())
}

// All bytes of a source that gives so many by one read, where some reads fail.
fn read_whole(
    rt: &impl Abort,
    alloc: Global,
    bytes: &[u8],
    failing: &[u64],
    piece: usize,
    most: u64,
) -> Result<Vec<u8>, AllFault> {
    let mut source = in_pieces(rt, alloc, bytes, failing, piece);
    let all = read_all(alloc, &mut source, most)?;
    match Vec::from_slice(alloc, all.as_slice()) {
        Ok(all) => Ok(all),
        Err(_) => Err(AllFault::Memory),
    }
}

#[test]
fn all_bytes(rt: HostRuntime) -> Result<(), Fail> {
    let cases: [(&[u8], u64, Option<AllFault>); 7] = [
        (b"", 0, None),
        (b"a", 0, Some(AllFault::TooLong)),
        (b"abc", 2, Some(AllFault::TooLong)),
        (b"abc", 3, None),
        (b"abc", 4, None),
        (b"abc\n\0\xff", u64::MAX, None),
        (b"abcdefg", 6, Some(AllFault::TooLong)),
    ];
    for (bytes, most, fault) in cases {
        for piece in [1, 2, 3, 4096] {
            match (read_whole(&rt, rt.alloc(), bytes, &[], piece, most), fault) {
                (Ok(all), None) => assert_eq!(rt; all.as_slice(), bytes),
                (Err(found), Some(fault)) => assert_eq!(rt; found, fault),
                _ => panic!(rt; "{bytes:?} with {most}"),
            }
        }
    }
    let long = Vec::from_elem(rt.alloc(), b'x', 200_000)?;
    let all = read_whole(&rt, rt.alloc(), &long, &[], 200_000, 200_000)
        .ok()
        .ok_or("long")?;
    assert_eq!(rt; all.as_slice(), long.as_slice());
    let fault = read_whole(&rt, rt.alloc(), &long, &[], 200_000, 199_999).err();
    assert_eq!(rt; fault, Some(AllFault::TooLong));
    Ok(())
}

#[test]
fn faults_before_the_end(rt: HostRuntime) {
    // Of reads of two bytes the third tells the end.
    for failing in [1, 2, 3] {
        let fault = read_whole(&rt, rt.alloc(), b"abc", &[failing], 2, 3).err();
        assert_eq!(rt; fault, Some(AllFault::ReadFault));
    }
    assert!(rt; read_whole(&rt, rt.alloc(), b"abc", &[4], 2, 3).is_ok());
    // What came is too long before a later read fails.
    let fault = read_whole(&rt, rt.alloc(), b"abc", &[3], 2, 2).err();
    assert_eq!(rt; fault, Some(AllFault::TooLong));
}

// One read into two bytes, which stay as they were where nothing is read.
fn read_two<S: Source>(source: &mut S) -> (Result<usize, ReadFailed>, [u8; 2]) {
    let mut into = *b"..";
    let count = source.read(&mut into);
    (count, into)
}

#[test]
fn bytes_from_memory(rt: HostRuntime) -> Result<(), Fail> {
    let mut source = MemorySource::new(rt.alloc(), b"abc", &[2, 5])?;
    assert_eq!(rt; source.read(&mut []), Ok(0));
    assert_eq!(rt; read_two(&mut source), (Err(ReadFailed), *b".."));
    assert_eq!(rt; read_two(&mut source), (Ok(2), *b"ab"));
    assert_eq!(rt; read_two(&mut source), (Ok(1), *b"c."));
    assert_eq!(rt; read_two(&mut source), (Err(ReadFailed), *b".."));
    assert_eq!(rt; read_two(&mut source), (Ok(0), *b".."));
    assert_eq!(rt; read_two(&mut source), (Ok(0), *b".."));
    Ok(())
}

fn put<W: Sink>(sink: &mut W, bytes: &[u8]) -> Result<(), WriteFailed> {
    sink.write(bytes)
}

#[test]
fn bytes_to_memory(rt: HostRuntime) -> Result<(), Fail> {
    let mut sink = MemorySink::new(rt.alloc(), &[2, 4])?;
    assert_eq!(rt; put(&mut sink, b"ab"), Ok(()));
    assert_eq!(rt; put(&mut sink, b"cd"), Err(WriteFailed));
    assert_eq!(rt; put(&mut sink, b""), Ok(()));
    assert_eq!(rt; put(&mut sink, b"e"), Err(WriteFailed));
    assert_eq!(rt; put(&mut sink, b"fg"), Ok(()));
    assert_eq!(rt; sink.bytes(), b"abfg".as_slice());
    Ok(())
}

// A reader of std: by turns it gives the letter a, is cut short by a signal, fails, tells an end, and gives again.
#[derive(Drop)]
struct Turns {
    turn: u8,
}

impl Read for Turns {
    fn read(&mut self, buf: &mut [u8]) -> io::Result<usize> {
        self.turn = self.turn.saturating_add(1);
        match self.turn {
            2 => return Err(Error::from(ErrorKind::Interrupted)),
            4 => return Err(Error::from(ErrorKind::BrokenPipe)),
            6 => return Ok(0),
            _ => {}
        }
        if buf.is_empty() {
            return Ok(0);
        }
        buf[0] = b'a';
        Ok(1)
    }
}

#[test]
fn standard_streams(rt: HostRuntime) {
    let mut source = StdSource::new(Turns { turn: 0 });
    assert_eq!(rt; read_two(&mut source), (Ok(1), *b"a."));
    assert_eq!(rt; read_two(&mut source), (Ok(1), *b"a."));
    assert_eq!(rt; read_two(&mut source), (Err(ReadFailed), *b".."));
    assert_eq!(rt; read_two(&mut source), (Ok(1), *b"a."));
    assert_eq!(rt; read_two(&mut source), (Ok(0), *b".."));
    assert_eq!(rt; read_two(&mut source), (Ok(0), *b".."));

    let mut written = Vec::new(rt.alloc());
    let mut sink = StdSink::new(&mut written);
    assert_eq!(rt; put(&mut sink, b"ab"), Ok(()));
    assert_eq!(rt; put(&mut sink, b"c"), Ok(()));
    assert_eq!(rt; written.as_slice(), b"abc".as_slice());

    let mut room = [0; 2];
    let mut sink = StdSink::new(room.as_mut_slice());
    assert_eq!(rt; put(&mut sink, b"ab"), Ok(()));
    assert_eq!(rt; put(&mut sink, b"c"), Err(WriteFailed));
}

// A writer of std that hands nothing on before it is flushed, and whose second flush fails.
#[derive(Drop)]
struct Holding {
    holds: bool,
    flushes: u8,
}

impl Write for Holding {
    fn write(&mut self, buf: &[u8]) -> io::Result<usize> {
        self.holds = true;
        Ok(buf.len())
    }

    fn flush(&mut self) -> io::Result<()> {
        self.flushes = self.flushes.saturating_add(1);
        if self.flushes == 2 {
            return Err(Error::from(ErrorKind::BrokenPipe));
        }
        self.holds = false;
        Ok(())
    }
}

#[test]
fn each_write_is_flushed(rt: HostRuntime) {
    let mut holding = Holding {
        holds: false,
        flushes: 0,
    };
    let mut sink = StdSink::new(&mut holding);
    assert_eq!(rt; put(&mut sink, b"ab"), Ok(()));
    assert!(rt; !holding.holds && holding.flushes == 1);

    let mut sink = StdSink::new(&mut holding);
    assert_eq!(rt; put(&mut sink, b"c"), Err(WriteFailed));
    assert!(rt; holding.holds);
}

#[test]
fn files(rt: HostRuntime) -> Result<(), Fail> {
    fs::write(&rt, "letters", b"abc")?;
    let mut source = FileSource::open(&rt, "letters");
    assert_eq!(rt; read_two(&mut source), (Ok(2), *b"ab"));
    assert_eq!(rt; read_two(&mut source), (Ok(1), *b"c."));
    assert_eq!(rt; read_two(&mut source), (Ok(0), *b".."));
    assert_eq!(rt; read_two(&mut source), (Ok(0), *b".."));

    let mut source = FileSource::open(&rt, "missing");
    assert_eq!(rt; source.read(&mut []), Ok(0));
    assert_eq!(rt; read_two(&mut source), (Ok(0), *b".."));

    // A folder opens and cannot be read, and a name with a NUL cannot be opened.
    fs::create_dir(&rt, "folder")?;
    for path in ["folder", "a\0b"] {
        let mut source = FileSource::open(&rt, path);
        assert_eq!(rt; read_two(&mut source), (Err(ReadFailed), *b".."));
        assert_eq!(rt; read_two(&mut source), (Err(ReadFailed), *b".."));
    }
    Ok(())
}
