ghost use Rattle.std.specs.Prelude.{◌≡◌, ◌∷◌, ◌++◌, ℕ, List, IfSome, IfNone};
ghost use Rattle.q4_table.specs.declared.origin.Mode.{Mode as RowMode};
ghost use Rattle.q4_record.specs.declared.head.Head.{Head as Told};
ghost use Rattle.q4_record.specs.Record.{mode_byte, head_bytes, IsHead};

use crate::fields::take_number;
use q4_table::{Mode, Origin};

/// What a record tells first.
#[derive(Clone, Copy)]
pub enum Head {
    /// A row was added with this number, and came from there. The row follows.
    Insert(u64, Option<Origin>),
    /// The row with this number was removed.
    End(u64),
    /// The mark of a source is this number.
    Mark(u8, u64),
    /// The next row gets this number.
    Next(u64),
}

// The head of the record at the front, and what follows it.
pub fn read_head(bytes: &[u8]) -> Option<(Head, &[u8])>
    ensures head { IfSome result (λ found. IsHead found.0 × (bytes.now ≡ head_bytes found.0 ++ found.1.now)) }
    ensures none { IfNone result ((head : Told) (rest : List ℕ) → IsHead head → bytes.now ≡ head_bytes head ++ rest → ⊥) }
{
    match bytes {
        [1, rest @ ..] => {
            let (number, rest) = take_number(rest)?;
            Some((Head::Insert(number, None), rest))
        }
        [2, rest @ ..] => read_forwarded(rest),
        [3, rest @ ..] => {
            let (number, rest) = take_number(rest)?;
            Some((Head::End(number), rest))
        }
        [5, source, rest @ ..] => {
            let (number, rest) = take_number(rest)?;
            Some((Head::Mark(*source, number), rest))
        }
        [6, rest @ ..] => {
            let (number, rest) = take_number(rest)?;
            Some((Head::Next(number), rest))
        }
        _ => None,
    }
}

// The head of a forwarded insert, behind its first byte.
fn read_forwarded(bytes: &[u8]) -> Option<(Head, &[u8])>
    ensures head { IfSome result (λ found. IsHead found.0 × (2 ∷ bytes.now ≡ head_bytes found.0 ++ found.1.now)) }
    ensures none { IfNone result ((head : Told) (rest : List ℕ) → IsHead head → 2 ∷ bytes.now ≡ head_bytes head ++ rest → ⊥) }
{
    let [source, mode, rest @ ..] = bytes else {
        return None;
    };
    let mode = read_mode(*mode)?;
    let (told, rest) = take_number(rest)?;
    let (number, rest) = take_number(rest)?;
    let origin = Origin {
        source: *source,
        mode,
        number: told,
    };
    Some((Head::Insert(number, Some(origin)), rest))
}

fn read_mode(byte: u8) -> Option<Mode>
    ensures mode { IfSome result (λ mode. byte ≡ mode_byte mode) }
    ensures none { IfNone result ((mode : RowMode) → byte ≡ mode_byte mode → ⊥) }
{
    match byte {
        1 => Some(Mode::A),
        2 => Some(Mode::W),
        _ => None,
    }
}
