//! The entries of an order, as they are read.

ghost use Rattle.std.specs.Prelude.{ℕ, List, ◌≡◌, ◌≤◌, ◌+◌, ◌↔◌, [], IfOk, OnOk, IfNone, IsTrue, Some, length};
ghost use Rattle.command_set.specs.Entries.{logged_data};
ghost use Rattle.instrument.specs.Limits.{block_limit};
ghost use Rattle.take_files.specs.declared.read.OrderKind.{OrderKind};
ghost use Rattle.take_files.specs.Orders.{BeginsWith, HasBlock, HasFault, IsWritable};
ghost use Rattle.take_files.specs.OrderSoFar.{CanFollow, HasRoom, IsListing, listed, with_entry};

use crate::read::OrderKind;
use command_set::Logged;
use std::alloc::{AllocError, Global};

/// The most entries of an order.
const ENTRY_LIMIT: usize = 1_000_000;

/// The entries that were read, the block of the last one, and how many of them each script has.
#[derive(Drop)]
pub(crate) struct Listing {
    pub(crate) blocks: u32,
    pub(crate) scripts: u32,
    pub(crate) last: u32,
    pub(crate) counts: Vec<u32>,
    pub(crate) entries: Vec<Logged>,
}

impl Listing {
    /// No entries yet.
    pub(crate) fn new(alloc: Global, blocks: u32, scripts: u32) -> Result<Listing, AllocError>
        requires blocks { (1 ≤ blocks) × (blocks ≤ block_limit) }
        requires scripts { (1 ≤ scripts) × (scripts ≤ 256) }
        ensures listing { IfOk result (λ l. IsListing l) }
        ensures listed { IfOk result (λ l. listed l ≡ record { journal = []; blocks = blocks; scripts = scripts }) }
    {
        let counts = vec![in alloc; 0; scripts as usize]?;
        Ok(Listing {
            blocks,
            scripts,
            last: 0,
            counts,
            entries: Vec::new(alloc),
        })
    }

    /// The number of the line after these, counted from 1.
    pub(crate) fn next_line(&self) -> u32
        requires { IsListing self.now }
        ensures { result ≡ length (listed self.now).journal + 2 }
    {
        self.entries.len() as u32 + 2
    }

    /// What is wrong with an entry after these.
    pub(crate) fn fault(&self, logged: &Logged) -> Option<OrderKind>
        requires { IsListing self.now }
        ensures none { IfNone result (IsWritable (logged_data logged.now) → CanFollow self.now (logged_data logged.now)) }
        ensures room { IfNone result (HasRoom self.now) }
        ensures some { (kind : OrderKind) (text : List ℕ) → result ≡ Some kind → BeginsWith text (logged_data logged.now)
            → HasFault kind (listed self.now).journal self.now.blocks self.now.scripts text }
    {
        let script = logged.entry.script as usize;
        if !self.has_block(logged) {
            Some(OrderKind::Block)
        } else if script >= self.counts.len() {
            Some(OrderKind::Script)
        } else if self.counts[script] != logged.entry.seq {
            Some(OrderKind::Sequence)
        } else if self.entries.len() >= ENTRY_LIMIT {
            Some(OrderKind::Many)
        } else {
            None
        }
    }

    /// Whether the block of an entry may stand after these.
    fn has_block(&self, logged: &Logged) -> bool
        requires { IsListing self.now }
        ensures { IsTrue result ↔ HasBlock (listed self.now).journal self.now.blocks (logged_data logged.now) }
    {
        let block = logged.block;
        self.last <= block && logged.entry.sent_at <= block && block < self.blocks
    }

    /// Adds an entry that may stand after these.
    pub(crate) fn push(&mut self, logged: Logged) -> Result<(), AllocError>
        requires listing { IsListing self.old }
        requires follows { CanFollow self.old (logged_data logged) }
        requires room { HasRoom self.old }
        ensures listing { OnOk result (IsListing self.new) }
        ensures listed { OnOk result (listed self.new ≡ with_entry (listed self.old) (logged_data logged)) }
    {
        let block = logged.block;
        let script = logged.entry.script as usize;
        self.entries.push(logged)?;
        self.last = block;
        self.counts[script] += 1;
        Ok(())
    }
}
