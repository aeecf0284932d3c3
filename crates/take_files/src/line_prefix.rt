//! Prefixes of a line: a text, or a number with a space after it.

ghost use Rattle.std.specs.Prelude.{ℕ, List, ◌≡◌, ◌≢◌, ◌≤◌, ◌∷◌, ◌++◌, IfNone, IfSome, decimal};

use plain_text::{parse_number, split_once};

/// What stands after this prefix.
pub(crate) fn after_prefix<'a>(text: &'a [u8], prefix: &[u8]) -> Option<&'a [u8]>
    ensures found { IfSome result (λ rest. text.now ≡ prefix.now ++ rest.now) }
    ensures none { IfNone result ((rest : List ℕ) → text.now ≢ prefix.now ++ rest) }
{
    text.strip_prefix(prefix)
}

/// The number before the first space, from `least` to `most`, and what stands after the space.
pub(crate) fn number_before(text: &[u8], least: u32, most: u32) -> Option<(u32, &[u8])>
    ensures found { IfSome result (λ r. text.now ≡ decimal r.0 ++ 32 ∷ r.1.now) }
    ensures range { IfSome result (λ r. (least ≤ r.0) × (r.0 ≤ most)) }
    ensures none { IfNone result ((n : ℕ) (rest : List ℕ) → least ≤ n → n ≤ most → text.now ≢ decimal n ++ 32 ∷ rest) }
{
    let (word, rest) = split_once(text, b' ')?;
    let number = parse_number(word, least, most)?;
    Some((number, rest))
}
