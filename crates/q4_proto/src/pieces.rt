ghost use Rattle.std.specs.Prelude.{◌≡◌, ◌≤◌, [], false, length, OnOk, OnErr};
ghost use Rattle.q4_flow.specs.Flow.{Took, TookFront, Counts};
ghost use Rattle.q4_proto.specs.Pieces.{writing, Puts, Finishes};

use crate::line_buffer::LineBuffer;
use q4_flow::{Sink, WriteFailed};

/// A reply that may be longer than the buffer: full buffers go out as it is put together. Nothing is done after a write
/// that failed, so only the end needs to be looked at.
#[derive(Drop)]
pub struct Pieces {
    pub waiting: LineBuffer,
    pub failed: bool,
}

impl Pieces {
    /// Nothing was written yet, and the line waits.
    pub fn new(line: &[u8]) -> Pieces
        requires { length line.now ≤ 4096 }
        ensures { result ≡ record { waiting = line.now; failed = false } }
    {
        let mut pieces = Pieces {
            waiting: LineBuffer::new(),
            failed: false,
        };
        pieces.waiting.put(line);
        pieces
    }

    /// Puts the piece behind what was put.
    pub fn put<W: Sink>(&mut self, sink: &mut W, piece: &[u8])
        ensures { Puts (writing (W.written sink.old) (W.faults sink.old) self.old) (writing (W.written sink.new) (W.faults sink.new) self.new) piece.now }
    {
        let mut rest = piece;
        while rest.len() > self.waiting.room() {
            if self.failed {
                return;
            }
            let (front, back) = rest.split_at(self.waiting.room());
            self.waiting.put(front);
            self.send(sink);
            rest = back;
        }
        self.waiting.put(rest);
    }

    // Writes what waits.
    fn send<W: Sink>(&mut self, sink: &mut W)
        requires { self.old.failed ≡ false }
        ensures puts { Puts (writing (W.written sink.old) (W.faults sink.old) self.old) (writing (W.written sink.new) (W.faults sink.new) self.new) [] }
        ensures empty { self.new.waiting ≡ [] }
    {
        self.failed = sink.write(self.waiting.as_slice()).is_err();
        self.waiting.clear();
    }

    /// Writes what still waits.
    pub fn finish<W: Sink>(&self, sink: &mut W) -> Result<(), WriteFailed>
        ensures { Finishes (writing (W.written sink.old) (W.faults sink.old) self.now) (W.written sink.new) (W.faults sink.new) result }
    {
        if self.failed {
            return Err(WriteFailed);
        }
        sink.write(self.waiting.as_slice())
    }
}
