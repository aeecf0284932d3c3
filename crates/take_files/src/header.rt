//! The first line of an order.

ghost use Rattle.std.specs.Prelude.{ℕ, IfNone, IfSome};
ghost use Rattle.take_files.specs.OrderSoFar.{IsHeader};

use crate::line_prefix::{after_prefix, number_before};
use instrument::BLOCK_LIMIT;
use plain_text::parse_number;

/// How many blocks and scripts an order has by its first line, which is given without its line feed.
pub(crate) fn read_header(line: &[u8]) -> Option<(u32, u32)>
    ensures read { IfSome result (λ n. IsHeader n.0 n.1 line.now) }
    ensures none { IfNone result ((blocks scripts : ℕ) → ¬ IsHeader blocks scripts line.now) }
{
    let line = after_prefix(line, b"order engine 1 blocks ")?;
    let (block_count, line) = number_before(line, 1, BLOCK_LIMIT)?;
    let line = after_prefix(line, b"scripts ")?;
    let script_count = parse_number(line, 1, 256)?;
    Some((block_count, script_count))
}
