ghost use Rattle.std.specs.Prelude.{◌≡◌, ◌↔◌, ◌≤◌, ◌+◌, IsTrue, length, IfOk, IfErr, OnOk};
ghost use Rattle.q4_record.specs.Side.{generation_of, told_at, HasMagic, format_of as told_format, base_of, behind_base, Begins};
ghost use Rattle.q4_record.specs.SideParts.{HeaderFailed};

use crate::side::SideFault;

/// The most bytes of a side.
pub const SIDE_LIMIT: usize = 536_870_912;

/// The greatest generation.
pub const GENERATION_LIMIT: u64 = 1 << 62;

/// Where the base of a side begins, behind the gate, the magic, the generation and the length of the base.
pub const BASE_AT: usize = 21;

/// How a side is spelled, which its magic tells.
#[derive(Clone, Copy)]
pub enum Format {
    /// The magic is `Q4O1`: no column is optional.
    First,
    /// The magic is `Q4O2`: columns may be optional.
    Second,
}

/// What stands before a side's base, the base, and what is behind it.
#[derive(Drop)]
pub struct Header<'a> {
    pub format: Format,
    pub generation: u64,
    pub base: &'a [u8],
    pub behind: &'a [u8],
}

// The header, the base and what is behind it. At least the closing gate is.
pub fn read_header(bytes: &[u8]) -> Result<Header<'_>, SideFault>
    ensures begins { OnOk result (Begins bytes.now) }
    ensures format { IfOk result (λ header. header.format ≡ told_format bytes.now) }
    ensures parts { IfOk result (λ header. (header.generation ≡ generation_of bytes.now)
        × (header.base.now ≡ base_of bytes.now) × (header.behind.now ≡ behind_base bytes.now)) }
    ensures fault { IfErr result (HeaderFailed bytes.now) }
{
    if bytes.len() < BASE_AT || bytes[0] != 1 {
        return Err(SideFault::Closed);
    }
    if bytes.len() > SIDE_LIMIT {
        return Err(SideFault::Large(6));
    }
    let generation = number_at(bytes, 5);
    let len = number_at(bytes, 13);
    let (_, parts) = bytes.split_at(BASE_AT);
    if !has_magic(bytes) || generation == 0 || len >= parts.len() as u64 {
        return Err(SideFault::Damaged(0));
    }
    if generation > GENERATION_LIMIT {
        return Err(SideFault::Large(7));
    }
    let (base, behind) = parts.split_at(len as usize);
    Ok(Header {
        format: format_of(bytes),
        generation,
        base,
        behind,
    })
}

/// Whether `Q4O1` or `Q4O2` stands behind the gate of a side.
pub fn has_magic(bytes: &[u8]) -> bool
    requires { 5 ≤ length bytes.now }
    ensures { IsTrue result ↔ HasMagic bytes.now }
{
    let (_, behind) = bytes.split_at(1);
    let (magic, _) = behind.split_at(4);
    magic == b"Q4O1".as_slice() || magic == b"Q4O2".as_slice()
}

// The format that a magic tells by its last byte.
fn format_of(bytes: &[u8]) -> Format
    requires { 5 ≤ length bytes.now }
    ensures { result ≡ told_format bytes.now }
{
    if bytes[4] == b'1' {
        Format::First
    } else {
        Format::Second
    }
}

/// The number of 64 bits that a side tells at this place: its generation at 5, the length of its base at 13.
#[tactic(auto, unfolding(crate::specs::Side::told_at))]
pub fn number_at(bytes: &[u8], at: usize) -> u64
    requires { at + 8 ≤ length bytes.now }
    ensures { result ≡ told_at at bytes.now }
{
    let (_, rest) = bytes.split_at(at);
    let (front, _) = rest.split_at(8);
    u64::from_be_bytes([
        front[0], front[1], front[2], front[3], front[4], front[5], front[6], front[7],
    ])
}
