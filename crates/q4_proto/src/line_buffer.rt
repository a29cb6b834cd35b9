ghost use Rattle.std.specs.Prelude.{◌≡◌, ◌+◌, ◌≤◌, [], ◌++◌, length};

use std::marker::Model;

/// The lines of a reply are put together here, so that up to this many bytes go out by one write.
const SIZE: usize = 4_096;

/// The bytes of a reply of several lines, or of a part of a long one.
#[derive(Drop)]
pub struct LineBuffer {
    bytes: [u8; 4096],
    filled: usize,
}

impl Model for LineBuffer {
    ghost use Rattle.std.specs.Prelude.{◌≤◌, ℕ, List, take};

    ghost Value = { List ℕ };

    ghost view = { λ b. take b.filled b.bytes };

    ghost invariant = { λ b. b.filled ≤ 4096 };
}

impl LineBuffer {
    pub fn new() -> LineBuffer
        ensures { result ≡ [] }
    {
        LineBuffer {
            bytes: [0; SIZE],
            filled: 0,
        }
    }

    /// How many bytes more it takes.
    pub fn room(&self) -> usize
        ensures { result + length self.now ≡ 4096 }
    {
        SIZE - self.filled
    }

    /// Puts the piece behind what is there.
    pub fn put(&mut self, piece: &[u8])
        requires { length self.old + length piece.now ≤ 4096 }
        ensures { self.new ≡ self.old ++ piece.now }
    {
        let end = self.filled + piece.len();
        self.bytes[self.filled..end].copy_from_slice(piece);
        self.filled = end;
    }

    pub fn clear(&mut self)
        ensures { self.new ≡ [] }
    {
        self.filled = 0;
    }

    pub fn as_slice(&self) -> &[u8]
        ensures { result.now ≡ self.now }
    {
        &self.bytes[..self.filled]
    }
}
