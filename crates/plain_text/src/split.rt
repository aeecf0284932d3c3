//! Texts split at single bytes, and words.

ghost use Rattle.std.specs.Prelude.{◌≡◌, ◌==◌, ◌<◌, [], ◌∷◌, bytes_eq, length, IfNone, IfSome};
ghost use Rattle.std.specs.List.{position};
ghost use Rattle.plain_text.specs.Split.{split};

/// What stands before the first byte of this code, and what stands after it.
pub fn split_once(text: &[u8], code: u8) -> Option<(&[u8], &[u8])>
    ensures whole { IfNone result (split code text.now ≡ text.now ∷ []) }
    ensures cut { IfSome result (λ r. split code text.now ≡ r.0.now ∷ split code r.1.now) }
    ensures shorter { IfSome result (λ r. length r.1.now < length text.now) }
{
    match find_byte(text, code) {
        Some(at) => Some((&text[..at], &text[at + 1..])),
        None => None,
    }
}

fn find_byte(text: &[u8], code: u8) -> Option<usize>
    ensures { result ≡ position (λ byte. byte == code) text.now }
{
    text.iter().position(|byte| *byte == code)
}

/// Whether the text is this word.
pub fn is_word(text: &[u8], word: &[u8]) -> bool
    ensures { result ≡ bytes_eq text.now word.now }
{
    text == word
}
