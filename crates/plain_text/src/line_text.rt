//! Lines of text that are written.

ghost use Rattle.std.specs.Prelude.{◌≡◌, ◌+◌, ◌≤◌, ◌++◌, decimal, length};

use arrayvec::ArrayVec;
use itoa::Buffer;

/// A line of text. The longest is an order line with a whole cartridge.
pub type LineText = ArrayVec<u8, 8256>;

/// Adds a text to a line that has room for it.
pub fn push_text<const N: usize>(into: &mut ArrayVec<u8, N>, text: &[u8])
    requires { length into.old.items + length text.now ≤ N }
    ensures { into.new.items ≡ into.old.items ++ text.now }
{
    let _ = into.try_extend_from_slice(text);
}

/// Adds the decimal digits of a number, ten at most, to a line that has room for them.
pub fn push_number<const N: usize>(into: &mut ArrayVec<u8, N>, number: u32)
    requires { length into.old.items + 10 ≤ N }
    ensures text { into.new.items ≡ into.old.items ++ decimal number }
    ensures room { length into.new.items ≤ length into.old.items + 10 }
{
    let mut buffer = Buffer::new();
    push_text(into, buffer.format(number).as_bytes());
}

/// Adds a text and a number after it to a line that has room for them.
pub fn push_one<const N: usize>(into: &mut ArrayVec<u8, N>, word: &[u8], number: u32)
    requires { length into.old.items + length word.now + 10 ≤ N }
    ensures text { into.new.items ≡ into.old.items ++ (word.now ++ decimal number) }
    ensures room { length into.new.items ≤ length into.old.items + length word.now + 10 }
{
    push_text(into, word);
    push_number(into, number);
}

/// Adds two numbers, with texts before and between them, to a line that has room for them.
pub fn push_two<const N: usize>(
    into: &mut ArrayVec<u8, N>,
    word: &[u8],
    first: u32,
    between: &[u8],
    second: u32,
)
    requires { length into.old.items + length word.now + length between.now + 20 ≤ N }
    ensures text { into.new.items ≡ into.old.items ++ (word.now ++ (decimal first ++ (between.now ++ decimal second))) }
    ensures room { length into.new.items ≤ length into.old.items + length word.now + length between.now + 20 }
{
    push_one(into, word, first);
    push_one(into, between, second);
}
