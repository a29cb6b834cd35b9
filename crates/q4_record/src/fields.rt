ghost use Rattle.std.specs.Prelude.{◌≡◌, ◌≤◌, ◌<◌, ◌^◌, ◌++◌, length, drop, FitsSigned, IfSome, IfNone};
ghost use Rattle.q4_value.specs.declared.row.Value.TheVariants.{Int};
ghost use Rattle.q4_value.specs.Spelling.{value_bytes};
ghost use Rattle.std.specs.Int.{w32, w64, to_be_bytes};
ghost use Rattle.q4_value.specs.Reading.{told_length};

// The number of 64 bits at the front, the highest byte first, and what follows it, unless there are fewer than 8 bytes.
pub fn take_number(bytes: &[u8]) -> Option<(u64, &[u8])>
    ensures fits { IfSome result (λ found. found.0 < 2 ^ 64) }
    ensures read { IfSome result (λ found. bytes.now ≡ to_be_bytes w64 found.0 ++ found.1.now) }
    ensures short { IfNone result (length bytes.now < 8) }
{
    if bytes.len() < 8 {
        return None;
    }
    let (front, rest) = bytes.split_at(8);
    let number = u64::from_be_bytes([
        front[0], front[1], front[2], front[3], front[4], front[5], front[6], front[7],
    ]);
    Some((number, rest))
}

// The number of 64 bits with a sign at the front, and what follows it, unless there are fewer than 8 bytes.
pub fn take_signed(bytes: &[u8]) -> Option<(i64, &[u8])>
    ensures fits { IfSome result (λ found. FitsSigned w64 found.0) }
    ensures read { IfSome result (λ found. bytes.now ≡ value_bytes (Int found.0) ++ found.1.now) }
    ensures short { IfNone result (length bytes.now < 8) }
{
    if bytes.len() < 8 {
        return None;
    }
    let (front, rest) = bytes.split_at(8);
    let number = i64::from_be_bytes([
        front[0], front[1], front[2], front[3], front[4], front[5], front[6], front[7],
    ]);
    Some((number, rest))
}

// The length in the first 4 bytes, and what follows it, unless there are fewer.
pub fn take_length(bytes: &[u8]) -> Option<(usize, &[u8])>
    ensures fits { IfSome result (λ found. found.0 < 2 ^ 32) }
    ensures read { IfSome result (λ found. bytes.now ≡ to_be_bytes w32 found.0 ++ found.1.now) }
    ensures told { IfSome result (λ found. (found.0 ≡ told_length bytes.now) × (4 ≤ length bytes.now)) }
    ensures rest { IfSome result (λ found. found.1.now ≡ drop 4 bytes.now) }
    ensures short { IfNone result (length bytes.now < 4) }
{
    if bytes.len() < 4 {
        return None;
    }
    let (front, rest) = bytes.split_at(4);
    let len = u32::from_be_bytes([front[0], front[1], front[2], front[3]]);
    Some((len as usize, rest))
}
