//! The order that a command reads.

ghost use Rattle.std.specs.Prelude.{ℕ, List, ◌≡◌, ◌≤◌, [], Some, IfOk, IfErr, IfSome, IsSomeAnd, OnOk, length};
ghost use Rattle.std.specs.FinMap.{get};
ghost use Rattle.take_files.specs.Orders as orders;
ghost use Rattle.take_files.specs.Orders.{IsOrder};
ghost use Rattle.take_files.specs.Chunks.{HasFed};
ghost use Rattle.tool_core.specs.Endings.{IsOfBytes, IsReadFailure};
ghost use Rattle.tool_core.specs.Failures.{IsFault, IsReason};
ghost use Rattle.tool_core.specs.Inputs.{AnOrder};
ghost use Rattle.tool_core.specs.Orders.{order_limit, IsNoOrder};
ghost use Rattle.tool_core.specs.Reads.{GaveAll};

use crate::failure::Failure;
use crate::refusal::Refusal;
use outside::Shelf;
use std::alloc::Global;
use take_files::{Order, OrderFault, OrderKind, OrderReader};

/// The most bytes of an order.
const ORDER_LIMIT: u64 = 536_870_912;

/// The order that a file holds.
pub(crate) fn read_order_file<S: Shelf>(
    alloc: Global,
    shelf: &mut S,
    name: &str,
) -> Result<Order, Failure>
    ensures good { IfOk result (λ o. IfSome (S.files shelf.old) (λ told.
        IsSomeAnd (get told name.now) (λ file. (length file ≤ order_limit) × IsOrder file o))) }
    ensures kept { OnOk result (S.reading shelf.new ≡ S.reading shelf.old) }
    ensures refused { IfErr result (λ why. IsReason why AnOrder (S.files shelf.old) name.now (S.reading shelf.old) (S.reading shelf.new)) }
    ensures given { OnOk result (GaveAll (S.files shelf.old) name.now (S.given shelf.old) (S.given shelf.new)) }
    ensures files { S.files shelf.new ≡ S.files shelf.old }
    ensures writing { S.writing shelf.new ≡ S.writing shelf.old }
{
    let mut reader = OrderReader::new(alloc)?;
    match feed_file(alloc, shelf, name, &mut reader) {
        Ok(()) => judge_order(reader),
        Err(why) => Err(why),
    }
}

/// Feeds a file of at most 536,870,912 bytes to a reader, in chunks of 65,536 bytes. What the reader answers to a chunk it
/// answers at the end too, so the file is read to its end, whatever is wrong with a line: a later read that fails is told.
fn feed_file<S: Shelf>(
    alloc: Global,
    shelf: &mut S,
    name: &str,
    reader: &mut OrderReader,
) -> Result<(), Failure>
    requires { HasFed reader.old [] }
    ensures fed { OnOk result (IfSome (S.files shelf.old) (λ told. IsSomeAnd (get told name.now) (λ file. (length file ≤ order_limit)
        × HasFed reader.new file))) }
    ensures kept { OnOk result (S.reading shelf.new ≡ S.reading shelf.old) }
    ensures refused { IfErr result (λ why. IsReadFailure why order_limit (S.files shelf.old) name.now (S.reading shelf.old) (S.reading shelf.new)) }
    ensures given { OnOk result (GaveAll (S.files shelf.old) name.now (S.given shelf.old) (S.given shelf.new)) }
    ensures files { S.files shelf.new ≡ S.files shelf.old }
    ensures writing { S.writing shelf.new ≡ S.writing shelf.old }
{
    let mut chunk = [0u8; 65536];
    let mut at = 0u64;
    'feeding: loop {
        let count = match shelf.read_at(name, at, &mut chunk) {
            Ok(count) => count,
            Err(_) => return Err(Failure::Unread),
        };
        if count == 0 {
            return Ok(());
        }
        if count as u64 > ORDER_LIMIT - at {
            return Err(Failure::TooLarge);
        }
        let _ = reader.feed(alloc, &chunk[..count]);
        at += count as u64;
    }
}

/// The order of a file that was read.
fn judge_order(reader: OrderReader) -> Result<Order, Failure>
    ensures order { IfOk result (λ o. (file : List ℕ) → HasFed reader file → IsOrder file o) }
    ensures refused { IfErr result (λ why. (file : List ℕ) → HasFed reader file → length file ≤ order_limit → IsFault why AnOrder (Some file)) }
    ensures read { IfErr result IsOfBytes }
{
    match reader.finish() {
        Ok(order) => Ok(order),
        Err(OrderFault::Refused { line, kind }) => Err(failure_of(line, kind)),
        Err(OrderFault::Memory) => Err(Failure::Memory),
    }
}

/// Why a command refuses an order with this fault.
fn failure_of(line: u32, kind: OrderKind) -> Failure
    ensures fault { (file : List ℕ) → orders.IsRefused file line kind → IsNoOrder file → length file ≤ order_limit
        → IsFault result AnOrder (Some file) }
    ensures bytes { IsOfBytes result }
{
    match kind {
        OrderKind::Many => Failure::TooMany,
        OrderKind::Line | OrderKind::Block | OrderKind::Script | OrderKind::Sequence => {
            Failure::Refused(Refusal::Order { line, kind })
        }
    }
}
