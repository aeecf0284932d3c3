//! An order, read from its bytes, and why bytes are none.

ghost use Rattle.std.specs.Prelude.{ℕ, ◌≡◌, ◌≤◌, Err, IfOk, MatchResult, length};
ghost use Rattle.dx_tables.specs.declared.engine.Engine.TheVariants.{One};
ghost use Rattle.command_set.specs.Entries.{journal_data};
ghost use Rattle.instrument.specs.Limits.{block_limit};
ghost use Rattle.take_files.specs.declared.read.OrderKind.{OrderKind};
ghost use Rattle.take_files.specs.declared.read.OrderFault.TheVariants.{Refused, Memory};
ghost use Rattle.take_files.specs.Files.{AreOrdered};
ghost use Rattle.take_files.specs.Orders.{IsOrder, IsRefused, OrderData, OrdersAreUnique};
ghost use Rattle.take_files.specs.OrderSoFar.{IsListing, listed};

use crate::listing::Listing;
use crate::reader::OrderReader;
use command_set::Logged;
use instrument::Engine;
use std::alloc::Global;
use std::marker::Model;
use thiserror::Error;

/// What is wrong with a line of an order, in the order in which one line's faults are answered.
#[derive(Clone, Copy, Debug, PartialEq, Eq)]
pub enum OrderKind {
    /// It isn't of the form of its line.
    Line,
    /// Its block is below that of the line before, below the block at which the command was due, or not one of the sound's.
    Block,
    /// Its script is not one of the run's.
    Script,
    /// Its number isn't that of the script's lines before.
    Sequence,
    /// It is the 1,000,001st entry.
    Many,
}

/// Why bytes are no order.
#[derive(Clone, Copy, Debug, PartialEq, Eq, Error)]
pub enum OrderFault {
    /// The first line with a fault, counted from 1, and its first fault.
    #[error("line {line} of the order is refused")]
    Refused { line: u32, kind: OrderKind },
    /// There was no memory.
    #[error("out of memory")]
    Memory,
}

/// An order: the commands of a run, with the blocks at which they were taken. Contracts see its journal, its blocks and its scripts.
#[derive(Drop)]
pub struct Order {
    blocks: u32,
    scripts: u32,
    entries: Vec<Logged>,
}

impl Model for Order {
    ghost use Rattle.command_set.specs.Entries.{journal_data};
    ghost use Rattle.take_files.specs.Orders.{IsOrdered, OrderData};

    ghost Value = { OrderData };

    ghost view = { λ o. record { journal = journal_data o.entries.items; blocks = o.blocks; scripts = o.scripts } };

    ghost invariant = { λ o. IsOrdered (journal_data o.entries.items) o.blocks o.scripts };
}

impl Order {
    /// The order that lists these entries.
    pub(crate) fn from_listing(listing: Listing) -> Order
        requires { IsListing listing }
        ensures { result ≡ listed listing }
    {
        Order {
            blocks: listing.blocks,
            scripts: listing.scripts,
            entries: listing.entries,
        }
    }

    /// The engine that renders it.
    pub fn engine(&self) -> Engine
        ensures { result ≡ One }
    {
        Engine::One
    }

    /// How many blocks its sound has, 1 to 1048576.
    pub fn blocks(&self) -> u32
        ensures blocks { result ≡ self.now.blocks }
        ensures few { result ≤ block_limit }
    {
        self.blocks
    }

    /// How many scripts it has, 1 to 256.
    pub fn scripts(&self) -> u32
        ensures { result ≡ self.now.scripts }
    {
        self.scripts
    }

    /// Its entries, in the order in which they were taken.
    pub fn entries(&self) -> &[Logged]
        ensures journal { journal_data result.now ≡ self.now.journal }
        ensures ordered { AreOrdered 0 (journal_data result.now) }
    {
        &self.entries
    }
}

/// Reads an order, at most 536,870,912 bytes: its entries where the bytes are the one text of an order, else its first fault.
pub fn read_order(alloc: Global, bytes: &[u8]) -> Result<Order, OrderFault>
    requires { length bytes.now ≤ 536870912 }
    ensures order { IfOk result (λ o. IsOrder bytes.now o) }
    ensures refused { (line : ℕ) (kind : OrderKind) → result ≡ Err (Refused line kind) → IsRefused bytes.now line kind }
    ensures exact { (o : OrderData) → IsOrder bytes.now o → MatchResult result (λ r. r ≡ o) (λ why. why ≡ Memory) }
{
    let Ok(mut reader) = OrderReader::new(alloc) else {
        return Err(OrderFault::Memory);
    };
    // A fault stays: `finish` answers it too.
    let _ = reader.feed(alloc, bytes);
    reader.finish()
}

/// A text is the order of one journal at most, and has one first fault at most.
pub fn orders_are_unique()
    ensures { OrdersAreUnique }
{}
