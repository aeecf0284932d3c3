//! The number of 64 bits that a word writes.

ghost use Rattle.std.specs.Prelude.{◌≡◌};
ghost use Rattle.tool_core.specs.Words as spec;

use plain_text::{has_padding, is_digit};

/// The seed that a word writes in decimal digits without a leading zero, where it fits 64 bits.
pub(crate) fn seed_of(text: &[u8]) -> Option<u64>
    ensures { result ≡ spec.seed_of text.now }
{
    if text.is_empty() || has_padding(text) {
        return None;
    }
    let mut value = 0u128;
    for digit in text {
        if !is_digit(*digit) {
            return None;
        }
        value = value * 10 + u128::from(*digit - b'0');
        if value > u128::from(u64::MAX) {
            return None;
        }
    }
    Some(value as u64)
}
