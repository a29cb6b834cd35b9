ghost use Rattle.std.specs.Prelude.{◌≡◌, ◌≢◌, ◌≤◌, ◌<◌, ◌++◌, ◌⊎◌, ◌+◌, [], None, Some, false, length, vec_capacity, IfOk, IsTrue};
ghost use Rattle.q4_flow.specs.Flow.{Rose};
ghost use Rattle.q4_flow.specs.Lines.{Next, Takes, Cuts, Appended, NewlineAt, IsOneLine, fuel};

use crate::{ReadFailed, Source};
use memchr::memchr;
use q4_value::NoMemory;
use std::alloc::Global;
use std::marker::Model;

/// A line has fewer bytes, its newline not counted: 4 MiB.
const LINE_LIMIT: usize = 4_194_304;

/// The bytes of one read at most.
const CHUNK_SIZE: usize = 65_536;

/// What `Lines::next` answers.
#[derive(Clone, Copy, Debug, PartialEq, Eq)]
pub enum LineEnd {
    /// There is a line.
    Line,
    /// The source ended, and no byte is over.
    End,
    /// The source ended this many bytes after the last newline.
    Partial(u64),
    /// 4,194,304 bytes came without a newline.
    TooLong,
    /// The source failed.
    ReadFault,
    /// There was no memory for one more read. The bytes that were taken have no newline.
    Memory,
}

/// Reads a source line by line. It keeps one chunk, and what of a line lies before it.
#[derive(Drop)]
pub struct Lines {
    chunk: Vec<u8>,
    from: usize,
    until: usize,
    carried: Vec<u8>,
    line_from: usize,
    line_until: usize,
    stopped: Option<LineEnd>,
}

impl Model for Lines {
    ghost use Rattle.std.specs.Prelude.{◌≡◌, ◌≤◌, ◌<◌, ◌++◌, length, slice_range, Some};
    ghost use Rattle.q4_flow.specs.declared.lines.LineEnd.TheVariants.{Line};
    ghost use Rattle.q4_flow.specs.Reading.{Reading};

    ghost Value = { Reading };

    ghost view = { λ l. record { pending = slice_range l.chunk.items l.from l.until; line = l.carried.items ++ slice_range l.chunk.items l.line_from l.line_until; stopped = l.stopped } };

    ghost invariant = { λ l. record {
      inside : l.from ≤ l.until;
      within : l.until ≤ length l.chunk.items;
      size : length l.chunk.items ≡ 65536;
      line_inside : l.line_from ≤ l.line_until;
      line_within : l.line_until ≤ length l.chunk.items;
      one_place : 0 < length l.carried.items → l.line_until ≡ 0;
      not_line : l.stopped ≡ Some Line → ⊥;
    } };
}

impl Lines {
    pub fn new(alloc: Global) -> Result<Lines, NoMemory>
        ensures { IfOk result (λ lines. lines ≡ record { pending = []; line = []; stopped = None }) }
    {
        match Vec::from_elem(alloc, 0, CHUNK_SIZE) {
            Ok(chunk) => Ok(Lines {
                chunk,
                from: 0,
                until: 0,
                carried: Vec::new(alloc),
                line_from: 0,
                line_until: 0,
                stopped: None,
            }),
            Err(_) => Err(NoMemory),
        }
    }

    /// The line that the last call of `next` found.
    pub fn line(&self) -> &[u8]
        ensures { result.now ≡ self.now.line }
    {
        if self.carried.is_empty() {
            &self.chunk[self.line_from..self.line_until]
        } else {
            self.carried.as_slice()
        }
    }

    /// The bytes before the next newline are the line. After another answer each further call repeats it.
    pub fn next<S: Source>(&mut self, source: &mut S) -> LineEnd
        ensures cut { Next self.old self.new (S.left source.old) (S.left source.new) (IsTrue (S.ended source.new)) result }
        ensures going { result ≡ LineEnd.Line → self.new.stopped ≡ None }
        ensures stops { result ≢ LineEnd.Line → self.new.stopped ≡ Some result }

        // Each line costs some of what bounds the lines that may come.
        ensures measure { result ≡ LineEnd.Line → fuel (S.reads source.new) self.new.pending < fuel (S.reads source.old) self.old.pending }

        ensures later { S.faults source.old ≤ S.faults source.new }
        ensures cause { self.old.stopped ≡ None → result ≡ LineEnd.ReadFault → Rose (S.faults source.old) (S.faults source.new) }
        ensures stayed { S.faults source.new ≡ S.faults source.old ⊎ (result ≡ LineEnd.ReadFault) }

        // It reads only where it must: not after it stopped, and not for a line that is there.
        ensures halted { self.old.stopped ≢ None → source.new ≡ source.old }
        ensures lent { (IsOneLine self.old.pending → ⊥) → source.new ≡ source.old }
    {
        match self.stopped {
            Some(end) => end,
            None => self.advance(source),
        }
    }

    fn advance<S: Source>(&mut self, source: &mut S) -> LineEnd
        requires { self.old.stopped ≡ None }
        ensures cut { Takes (S.left source.old) (S.left source.new) (λ taken. Cuts (self.old.pending ++ taken) (IsTrue (S.ended source.new)) self.new result) }
        ensures going { result ≡ LineEnd.Line → self.new.stopped ≡ None }
        ensures stops { result ≢ LineEnd.Line → self.new.stopped ≡ Some result }
        ensures measure { result ≡ LineEnd.Line → fuel (S.reads source.new) self.new.pending < fuel (S.reads source.old) self.old.pending }
        ensures later { S.faults source.old ≤ S.faults source.new }
        ensures cause { result ≡ LineEnd.ReadFault → Rose (S.faults source.old) (S.faults source.new) }
        ensures stayed { S.faults source.new ≡ S.faults source.old ⊎ (result ≡ LineEnd.ReadFault) }
        ensures lent { (IsOneLine self.old.pending → ⊥) → source.new ≡ source.old }
    {
        if self.cut() {
            return LineEnd::Line;
        }
        let end = self.gather(source);
        if end == LineEnd::Line {
            return LineEnd::Line;
        }
        self.stop(end);
        end
    }

    // Keeps the answer that all further calls repeat.
    fn stop(&mut self, end: LineEnd)
        requires { end ≢ LineEnd.Line }
        ensures { self.new ≡ record { pending = self.old.pending; line = self.old.line; stopped = Some end } }
    {
        self.stopped = Some(end);
    }

    // A newline among the pending bytes ends the line before it, which stays where it lies.
    fn cut(&mut self) -> bool
        ensures line { IsTrue result → Cuts self.old.pending ⊥ self.new LineEnd.Line }
        ensures shorter { IsTrue result → length self.new.pending < length self.old.pending }
        ensures none { result ≡ false → self.new.pending ≡ self.old.pending }
        ensures unended { result ≡ false → IsOneLine self.old.pending }
        ensures stopped { self.new.stopped ≡ self.old.stopped }
    {
        let Some(at) = find_newline(&self.chunk[self.from..self.until]) else {
            return false;
        };
        self.carried.clear();
        self.line_from = self.from;
        self.line_until = self.from + at;
        self.from += at + 1;
        true
    }

    // Carries the pending bytes over, and reads until there is a newline. Before each read there is memory for all that it
    // may give, so that no line is lost that was read.
    fn gather<S: Source>(&mut self, source: &mut S) -> LineEnd
        requires { IsOneLine self.old.pending }
        ensures cut { Takes (S.left source.old) (S.left source.new) (λ taken. Cuts (self.old.pending ++ taken) (IsTrue (S.ended source.new)) self.new result) }
        ensures stopped { self.new.stopped ≡ self.old.stopped }
        ensures measure { result ≡ LineEnd.Line → fuel (S.reads source.new) self.new.pending < fuel (S.reads source.old) self.old.pending }
        ensures later { S.faults source.old ≤ S.faults source.new }
        ensures cause { result ≡ LineEnd.ReadFault → Rose (S.faults source.old) (S.faults source.new) }
        ensures stayed { S.faults source.new ≡ S.faults source.old ⊎ (result ≡ LineEnd.ReadFault) }
    {
        self.carried.clear();
        self.line_from = 0;
        self.line_until = 0;
        if !has_room(&mut self.carried) {
            return LineEnd::Memory;
        }
        loop {
            match append_line(&mut self.carried, &self.chunk[self.from..self.until]) {
                Some(at) => {
                    self.from += at + 1;
                    if self.carried.len() < LINE_LIMIT {
                        return LineEnd::Line;
                    }
                    return LineEnd::TooLong;
                }
                None => self.from = self.until,
            }
            if self.carried.len() >= LINE_LIMIT {
                return LineEnd::TooLong;
            }
            if !has_room(&mut self.carried) {
                return LineEnd::Memory;
            }
            match source.read(&mut self.chunk) {
                Err(ReadFailed) => return LineEnd::ReadFault,
                Ok(0) => {
                    if self.carried.is_empty() {
                        return LineEnd::End;
                    }
                    return LineEnd::Partial(self.carried.len() as u64);
                }
                Ok(count) => {
                    self.from = 0;
                    self.until = count;
                }
            }
        }
    }
}

// Sees to it that there is memory for a chunk behind the line, where it can be had.
fn has_room(line: &mut Vec<u8>) -> bool
    ensures items { line.new.items ≡ line.old.items }
    ensures room { IsTrue result → length line.old.items + 65536 ≤ vec_capacity line.new }
{
    line.reserve(CHUNK_SIZE).is_ok()
}

// Where the first newline is.
fn find_newline(bytes: &[u8]) -> Option<usize>
    ensures { NewlineAt bytes.now result }
{
    memchr(b'\n', bytes)
}

// Puts the bytes up to the first newline behind the line, or all of them, and says where the newline is.
fn append_line(line: &mut Vec<u8>, pending: &[u8]) -> Option<usize>
    requires { length line.old.items + length pending.now ≤ vec_capacity line.old }
    ensures { Appended line.old.items line.new.items pending.now result }
{
    let at = find_newline(pending);
    let end = match at {
        Some(at) => at,
        None => pending.len(),
    };
    let Ok(()) = line.extend_from_slice(&pending[..end]) else {
        unreachable!()
    };
    at
}
