//! Words of a line, and the numbers that they write.

ghost use Rattle.std.specs.Prelude.{◌≡◌, ◌≤◌, ◌&&◌, [], ◌∷◌, IfNone, IfSome, length, nat_le, if◌then◌else◌, Some, None};
ghost use Rattle.script_read.specs.Words.{number_to, text_after, words_of};

use plain_text::{is_digit, split_once};

/// The most digits of a number, zeros in front among them.
const DIGITS: usize = 10;

/// The first word of a line and what stands after it and one space, where there is a word.
#[tactic(auto, unfolding(crate::specs::Words::words_of))]
pub(crate) fn next_word(line: &[u8]) -> Option<(&[u8], &[u8])>
    ensures none { IfNone result (words_of line.now ≡ []) }
    ensures some { IfSome result (λ r. words_of line.now ≡ r.0.now ∷ words_of r.1.now) }
    ensures after { IfSome result (λ r. text_after line.now ≡ r.1.now) }
{
    let mut rest = line;
    while let Some((word, after)) = split_once(rest, b' ') {
        if !word.is_empty() {
            return Some((word, after));
        }
        rest = after;
    }
    if rest.is_empty() {
        None
    } else {
        Some((rest, &rest[rest.len()..]))
    }
}

/// The number that a word writes in 1 to 10 digits, where it is at most `most`.
pub(crate) fn read_number(word: &[u8], most: u32) -> Option<u32>
    ensures value { result ≡ number_to most word.now }
    ensures range { IfSome result (λ value. value ≤ most) }
{
    if word.is_empty() || word.len() > DIGITS {
        return None;
    }
    let mut value = 0u64;
    for digit in word {
        if !is_digit(*digit) {
            return None;
        }
        value = value * 10 + u64::from(*digit - b'0');
        if value > u64::from(most) {
            return None;
        }
    }
    Some(value as u32)
}
