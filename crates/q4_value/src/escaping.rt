ghost use Rattle.std.specs.Prelude.{◌≡◌, ◌<◌, ◌≤◌, ◌⊎◌, [], ◌∷◌, ◌++◌, ℕ, List, length, take, slice_get, slice_index, string_bytes, Some, All, OnOk, OnErr, IfOk, IfErr, IfSome, IfNone};
ghost use Rattle.std.specs.Bool.{OnTrue, OnFalse};
ghost use Rattle.q4_value.specs.Escape.{escaped_byte, escaped, IsFieldByte, IsBadStart, UnescapeFails};

use crate::NoMemory;
use crate::bytes::Bytes;
use crate::words::Words;
use memchr::{memchr, memchr3};
use std::alloc::Global;

/// Why a text is not the escaped spelling of any.
#[derive(Clone, Copy, Debug, PartialEq, Eq)]
pub enum EscapeFault {
    /// The offset of the first backslash that begins no escape, or of the first raw TAB, newline or
    /// byte 13.
    BadEscape(u64),
    /// Memory was wanted and could not be had.
    Memory,
}

/// Puts the escaped spelling of the text behind what is there: `\t`, `\n`, `\r` and `\\` stand for
/// TAB, newline, byte 13 and backslash. A refusal leaves what was there.
pub fn escape(text: &str, out: &mut Bytes) -> Result<(), NoMemory>
    ensures put { OnOk result (out.new ≡ out.old ++ escaped text.now) }
    ensures kept { OnErr result (out.new ≡ out.old) }
{
    out.reserve(text.len())?;
    let before = out.len();
    let put = put_escaped(text.as_bytes(), out);
    if put.is_err() {
        out.cut(before);
    }
    put
}

// Puts run by run. A refusal may leave more behind what was there.
fn put_escaped(text: &[u8], out: &mut Bytes) -> Result<(), NoMemory>
    ensures put { OnOk result (out.new ≡ out.old ++ escaped text.now) }
    ensures begins { OnErr result ((more : List ℕ) × (out.new ≡ out.old ++ more)) }
{
    let mut rest = text;
    while let Some(at) = memchr3(b'\t', b'\n', b'\r', rest) {
        put_run(&rest[..at], out)?;
        out.push(escape_of(rest[at]))?;
        rest = &rest[at + 1..];
    }
    put_run(rest, out)
}

// Puts a run without TAB, newline and byte 13, so that its backslashes are all that is escaped.
fn put_run(run: &[u8], out: &mut Bytes) -> Result<(), NoMemory>
    requires { All IsFieldByte run.now }
    ensures put { OnOk result (out.new ≡ out.old ++ escaped run.now) }
    ensures begins { OnErr result ((more : List ℕ) × (out.new ≡ out.old ++ more)) }
{
    let mut rest = run;
    while let Some(at) = memchr(b'\\', rest) {
        out.push(&rest[..at])?;
        out.push(escape_of(b'\\'))?;
        rest = &rest[at + 1..];
    }
    out.push(rest)
}

// The escape of a TAB, newline, byte 13 or backslash.
fn escape_of(byte: u8) -> &'static [u8]
    requires { ((byte ≡ 9) ⊎ (byte ≡ 10)) ⊎ ((byte ≡ 13) ⊎ (byte ≡ 92)) }
    ensures { result.now ≡ escaped_byte byte }
{
    match byte {
        b'\t' => b"\\t",
        b'\n' => b"\\n",
        b'\r' => b"\\r",
        _ => b"\\\\",
    }
}

/// The text that this one is the escaped spelling of.
pub fn unescape(alloc: Global, text: &str) -> Result<Words, EscapeFault>
    // What is made is spelled so.
    ensures read { IfOk result (λ words. text.now ≡ escaped words) }
    // What is spelled so is made, unless memory runs out.
    ensures spelled { (words : List ℕ) → text.now ≡ escaped words → (result ≡ Ok words) ⊎ (result ≡ Err EscapeFault.Memory) }
    // Else the first byte that spells nothing is told.
    ensures fault { IfErr result (UnescapeFails text.now) }
{
    unescape_first(alloc, text)
}

// The same, run by run.
fn unescape_first(alloc: Global, text: &str) -> Result<Words, EscapeFault>
    ensures read { IfOk result (λ words. text.now ≡ escaped words) }
    ensures fault { IfErr result (UnescapeFails text.now) }
{
    let Some(at) = memchr3(b'\t', b'\n', b'\r', text.as_bytes()) else {
        return unescape_run(alloc, text);
    };
    let (run, _) = text.split_at(at);
    unescape_run(alloc, run)?;
    Err(EscapeFault::BadEscape(at as u64))
}

// The same of a text without TAB, newline and byte 13.
fn unescape_run(alloc: Global, run: &str) -> Result<Words, EscapeFault>
    requires { All IsFieldByte run.now }
    ensures read { IfOk result (λ words. run.now ≡ escaped words) }
    ensures fault { IfErr result (UnescapeFails run.now) }
{
    let Ok(mut made) = String::with_capacity(alloc, run.len()) else {
        return Err(EscapeFault::Memory);
    };
    let mut rest = run;
    while let Some(at) = memchr(b'\\', rest.as_bytes()) {
        let (plain, escape) = rest.split_at(at);
        let Some(character) = escaped_character(escape.as_bytes()) else {
            return Err(EscapeFault::BadEscape((run.len() - escape.len()) as u64));
        };
        put_character(&mut made, plain, character)?;
        rest = escape.split_at(2).1;
    }
    match made.push_str(rest) {
        Ok(()) => Ok(Words::from_string(made)),
        Err(_) => Err(EscapeFault::Memory),
    }
}

// Puts a run and the character behind it.
fn put_character(made: &mut String, plain: &str, character: char) -> Result<(), EscapeFault>
    requires { character < 128 }
    ensures put { OnOk result (string_bytes made.new ≡ (string_bytes made.old ++ plain.now) ++ character ∷ []) }
    ensures memory { IfErr result (λ fault. fault ≡ EscapeFault.Memory) }
{
    if made.push_str(plain).is_err() || made.push(character).is_err() {
        return Err(EscapeFault::Memory);
    }
    Ok(())
}

/// Whether the text is the escaped spelling of any. It takes no memory.
pub fn is_escaped(text: &str) -> bool
    ensures spelled { OnTrue result ((words : List ℕ) × (text.now ≡ escaped words)) }
    ensures bad { OnFalse result ((words : List ℕ) → text.now ≡ escaped words → ⊥) }
{
    let bytes = text.as_bytes();
    match memchr3(b'\t', b'\n', b'\r', bytes) {
        Some(_) => false,
        None => is_escaped_run(bytes),
    }
}

// The same of a text without TAB, newline and byte 13.
fn is_escaped_run(run: &[u8]) -> bool
    requires { All IsFieldByte run.now }
    ensures spelled { OnTrue result ((words : List ℕ) × (run.now ≡ escaped words)) }
    ensures bad { OnFalse result ((words : List ℕ) → run.now ≡ escaped words → ⊥) }
{
    let mut rest = run;
    while let Some(at) = memchr(b'\\', rest) {
        let escape = &rest[at..];
        let Some(_character) = escaped_character(escape) else {
            return false;
        };
        rest = &escape[2..];
    }
    true
}

// What the escape at the front stands for.
fn escaped_character(escape: &[u8]) -> Option<char>
    requires { slice_get escape.now 0 ≡ Some 92 }
    ensures ascii { IfSome result (λ c. (c < 128) × (slice_index escape.now 1 < 128)) }
    ensures stands { IfSome result (λ c. (2 ≤ length escape.now) × (take 2 escape.now ≡ escaped_byte c)) }
    ensures none { IfNone result (IsBadStart escape.now) }
{
    match escape {
        [_, b't', ..] => Some('\t'),
        [_, b'n', ..] => Some('\n'),
        [_, b'r', ..] => Some('\r'),
        [_, b'\\', ..] => Some('\\'),
        _ => None,
    }
}
