ghost use Rattle.std.specs.Prelude.{◌≡◌, ◌+◌, ◌≤◌, [], ◌++◌, length};

use std::marker::Model;

/// A line of bounded length takes at most 111 bytes: a refusal behind a label, with two numbers.
const SIZE: usize = 128;

/// A line that is put together, so that it goes out by one write. It is small, since each reply makes one: a `LineBuffer`
/// would cost more to fill with zeros than the reply itself.
#[derive(Drop)]
pub struct ShortLine {
    bytes: [u8; 128],
    filled: usize,
}

impl Model for ShortLine {
    ghost use Rattle.std.specs.Prelude.{◌≤◌, ℕ, List, take};

    ghost Value = { List ℕ };

    ghost view = { λ l. take l.filled l.bytes };

    ghost invariant = { λ l. l.filled ≤ 128 };
}

impl ShortLine {
    pub fn new() -> ShortLine
        ensures { result ≡ [] }
    {
        ShortLine {
            bytes: [0; SIZE],
            filled: 0,
        }
    }

    /// Puts the piece behind what is there.
    pub fn put(&mut self, piece: &[u8])
        requires { length self.old + length piece.now ≤ 128 }
        ensures { self.new ≡ self.old ++ piece.now }
    {
        let end = self.filled + piece.len();
        self.bytes[self.filled..end].copy_from_slice(piece);
        self.filled = end;
    }

    pub fn as_slice(&self) -> &[u8]
        ensures bytes { result.now ≡ self.now }
        ensures short { length result.now ≤ 128 }
    {
        &self.bytes[..self.filled]
    }
}
