ghost use Rattle.std.specs.Prelude.{◌≡◌, ◌≢◌, ◌++◌, ◌∷◌, ℕ, All, IfSome, IfNone, decimal};
ghost use Rattle.q4_play.specs.Labels.{IsLabel, Addresses};

use memchr::memchr;
use q4_value::parse_unsigned;

/// The largest label.
pub(crate) const LAST_LABEL: u8 = 64;

/// Which form a line has.
#[derive(Clone, Copy)]
pub(crate) enum Addressed<'a> {
    /// It has no label, or something else than a space behind it.
    Bad,
    /// A label alone.
    Alone(u8),
    /// A label, a space and a command.
    Command(u8, &'a [u8]),
}

/// Reads the label of a line. Labels are canonical: `01` is none.
pub(crate) fn address(line: &[u8]) -> Addressed<'_>
    ensures { Addresses line.now result }
{
    match memchr(b' ', line) {
        Some(at) => command_behind(&line[..at], &line[at + 1..]),
        None => alone(line),
    }
}

// A line that has its first space behind these digits.
fn command_behind<'a>(digits: &[u8], command: &'a [u8]) -> Addressed<'a>
    requires no_space { All (λ byte. byte ≢ 32) digits.now }
    ensures { Addresses (digits.now ++ 32 ∷ command.now) result }
{
    match label_of(digits) {
        Some(label) => Addressed::Command(label, command),
        None => Addressed::Bad,
    }
}

// A line without a space.
fn alone(line: &[u8]) -> Addressed<'static>
    requires no_space { All (λ byte. byte ≢ 32) line.now }
    ensures { Addresses line.now result }
{
    match label_of(line) {
        Some(label) => Addressed::Alone(label),
        None => Addressed::Bad,
    }
}

fn label_of(digits: &[u8]) -> Option<u8>
    ensures found { IfSome result (λ label. IsLabel label × (digits.now ≡ decimal label)) }
    ensures none { IfNone result ((label : ℕ) → IsLabel label → digits.now ≡ decimal label → ⊥) }
{
    let number = parse_unsigned(digits)?;
    if 1 <= number && number <= u64::from(LAST_LABEL) {
        Some(number as u8)
    } else {
        None
    }
}
