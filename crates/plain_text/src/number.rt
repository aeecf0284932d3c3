//! Numbers in decimal digits.

ghost use Rattle.std.specs.Prelude.{◌≡◌, ◌↔◌, ◌≤◌, ◌&&◌, IfSome, IsTrue, nat_le, if◌then◌else◌};
ghost use Rattle.std.specs.Int.{IsInRange};
ghost use Rattle.plain_text.specs.Number.{NumbersAreDecimal, is_padded, number};

/// The number that the text writes in decimal digits without a leading zero, where it is from `least` to `most`.
pub fn parse_number(text: &[u8], least: u32, most: u32) -> Option<u32>
    ensures value { result ≡ number least most text.now }
    ensures range { IfSome result (λ value. (least ≤ value) × (value ≤ most)) }
{
    if text.is_empty() || has_padding(text) {
        return None;
    }
    let mut value = 0u64;
    for digit in text {
        if !is_digit(*digit) {
            return None;
        }
        value = value * 10 + u64::from(*digit - b'0');
        if value > u64::from(most) {
            return None;
        }
    }
    kept(value as u32, least, most)
}

/// Whether the byte is one of the ten digits.
pub fn is_digit(byte: u8) -> bool
    ensures { IsTrue result ↔ IsInRange 48 57 byte }
{
    b'0' <= byte && byte <= b'9'
}

fn kept(value: u32, least: u32, most: u32) -> Option<u32>
    ensures range { IfSome result (λ value. (least ≤ value) × (value ≤ most)) }
    ensures value { result ≡ (if nat_le least value && nat_le value most then Some value else None) }
{
    if least <= value && value <= most {
        Some(value)
    } else {
        None
    }
}

/// Whether a zero stands in front of other digits.
pub fn has_padding(text: &[u8]) -> bool
    ensures { result ≡ is_padded text.now }
{
    text.len() > 1 && text[0] == b'0'
}

/// A text writes a number exactly where it is the number's own decimal text.
pub fn numbers_are_decimal()
    ensures { NumbersAreDecimal }
{}
