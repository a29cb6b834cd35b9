ghost use Rattle.std.specs.Prelude.{◌≡◌, ◌≤◌, decimal, IfSome, IfNone};
ghost use Rattle.q4_proto.specs.Commands.{IsNoNumber};

use q4_value::parse_unsigned;

// The number, up to the most, that the digits are the one spelling of.
pub(crate) fn number_up_to(digits: &str, most: u32) -> Option<u32>
    ensures found { IfSome result (λ number. (digits.now ≡ decimal number) × (number ≤ most)) }
    ensures none { IfNone result (IsNoNumber most digits.now) }
{
    let number = parse_unsigned(digits.as_bytes())?;
    if number <= u64::from(most) {
        Some(number as u32)
    } else {
        None
    }
}
