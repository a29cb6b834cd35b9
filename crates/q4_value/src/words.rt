ghost use Rattle.std.specs.Prelude.{◌≡◌, string_bytes, IfOk};

use crate::NoMemory;
use std::alloc::Global;
use std::marker::Model;

/// A text, always UTF-8. A contract sees the list of its bytes.
#[derive(Drop)]
pub struct Words {
    text: String,
}

impl Model for Words {
    ghost use Rattle.std.specs.Prelude.{List, ℕ, string_bytes};

    ghost Value = { List ℕ };

    ghost view = { λ words. string_bytes words.text };
}

impl Words {
    /// Copies the text.
    pub fn new(alloc: Global, text: &str) -> Result<Words, NoMemory>
        ensures { IfOk result (λ words. words ≡ text.now) }
    {
        match String::from_str(alloc, text) {
            Ok(text) => Ok(Words { text }),
            Err(_) => Err(NoMemory),
        }
    }

    // The text as it is, without a copy.
    pub(crate) fn from_string(text: String) -> Words
        ensures { result ≡ string_bytes text }
    {
        Words { text }
    }

    /// The text.
    pub fn as_str(&self) -> &str
        ensures { result.now ≡ self.now }
    {
        self.text.as_str()
    }

    /// The same text, in memory of its own.
    pub fn copy(&self, alloc: Global) -> Result<Words, NoMemory>
        ensures { IfOk result (λ words. words ≡ self.now) }
    {
        Words::new(alloc, self.as_str())
    }
}
