//! Canonical numbers: each number has one spelling in decimal digits, with no sign but a `-` before
//! a negative one and with no leading zero.

ghost use Rattle.std.specs.Prelude.{◌≡◌, ℕ, ℤ, ◌<◌, ◌^◌, decimal, FitsSigned, IfSome, IfNone};
ghost use Rattle.std.specs.Fmt.{signed_decimal};
ghost use Rattle.std.specs.Int.{w64};

use itoa::Buffer;

/// The number of 64 bits that the text is the one spelling of.
pub fn parse_signed(text: &[u8]) -> Option<i64>
    ensures found { IfSome result (λ z. text.now ≡ signed_decimal z) }
    ensures none { IfNone result ((z : ℤ) → FitsSigned w64 z → text.now ≡ signed_decimal z → ⊥) }
{
    let Ok(digits) = std::str::from_utf8(text) else {
        return None;
    };
    let Ok(number) = digits.parse::<i64>() else {
        return None;
    };
    let mut buffer = Buffer::new();
    if text == buffer.format(number).as_bytes() {
        Some(number)
    } else {
        None
    }
}

/// The number of 64 bits without a sign that the text is the one spelling of.
pub fn parse_unsigned(text: &[u8]) -> Option<u64>
    ensures found { IfSome result (λ n. text.now ≡ decimal n) }
    ensures none { IfNone result ((n : ℕ) → n < 2 ^ 64 → text.now ≡ decimal n → ⊥) }
{
    let Ok(digits) = std::str::from_utf8(text) else {
        return None;
    };
    let Ok(number) = digits.parse::<u64>() else {
        return None;
    };
    let mut buffer = Buffer::new();
    if text == buffer.format(number).as_bytes() {
        Some(number)
    } else {
        None
    }
}
