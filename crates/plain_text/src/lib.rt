//! Lines of plain text: words parted by single spaces, and numbers in decimal digits.
#![tactic(auto)]

mod line_text;
mod number;
mod split;

pub use line_text::{LineText, push_number, push_one, push_text, push_two};
pub use number::{has_padding, is_digit, numbers_are_decimal, parse_number};
pub use split::{is_word, split_once};

#[cfg(test)]
mod tests;
