//! The ends of a line.
ghost use Rattle.std.specs.Prelude.{◌≡◌, ◌<◌, ◌↔◌, IsTrue, length};
ghost use Rattle.command_queue.specs.Ends.{quota_of, others_of, total_of};

use crate::rule::Seat;
use command_set::Command;
use std::marker::Model;

/// An end that sends. Contracts see its line, its number, all entries that were accepted of it, and how often it was refused.
#[derive(Drop)]
pub struct SendEnd {
    pub(crate) number: u32,
    pub(crate) quota: u32,
    pub(crate) others: u64,
    pub(crate) count: u32,
    pub(crate) refusals: u64,
    pub(crate) pass: Seat,
}

impl Model for SendEnd {
    ghost use Rattle.std.specs.Prelude.{◌≡◌, ◌<◌, ◌≤◌, true, false, [], length};
    ghost use Rattle.command_queue.specs.Entries.{quota_at, others_at};
    ghost use Rattle.command_queue.specs.Rule.{role_of, sender};
    ghost use Rattle.command_queue.specs.Ends.{LineView, SendView};

    ghost Value = { SendView };

    ghost view = { λ s. record {
      line = record { table = s.pass.table_id; places = (role_of s.pass).places; quotas = (role_of s.pass).quotas };
      number = s.number;
      list = (role_of s.pass).sent;
      refusals = s.refusals;
    } };

    ghost invariant = { λ s. (s.pass.me.1 ≡ [])
        × (role_of s.pass ≡ sender (role_of s.pass).places (role_of s.pass).quotas s.number (role_of s.pass).sent)
        × (s.count ≡ length (role_of s.pass).sent)
        × (s.number < length (role_of s.pass).quotas)
        × (s.quota ≡ quota_at (role_of s.pass).quotas s.number)
        × (s.others ≡ others_at (role_of s.pass).quotas s.number) };
}

/// No place was left.
#[derive(Drop)]
pub struct Full {
    /// The command that was to be sent.
    pub command: Command,
}

impl SendEnd {
    /// Its number, from 0 on: the script of its entries.
    pub fn number(&self) -> u32
        ensures { result ≡ self.now.number }
    {
        self.number
    }

    /// The greatest number of entries that it may send.
    pub fn quota(&self) -> u32
        ensures { result ≡ quota_of self.now }
    {
        self.quota
    }

    /// The sum of the quotas of all other ends.
    pub fn others(&self) -> u64
        ensures { result ≡ others_of self.now }
    {
        self.others
    }

    /// How many entries were accepted of it.
    pub fn count(&self) -> u32
        ensures { result ≡ length self.now.list }
    {
        self.count
    }

    /// Whether a `send` by it ever answered `Full`.
    pub fn was_refused(&self) -> bool
        ensures { IsTrue result ↔ 0 < self.now.refusals }
    {
        self.refusals > 0
    }
}

/// The end that takes. Contracts see its line, all entries that it took, and how often it found nothing.
#[derive(Drop)]
pub struct TakeEnd {
    pub(crate) total: u64,
    pub(crate) empties: u64,
    pub(crate) pass: Seat,
}

impl Model for TakeEnd {
    ghost use Rattle.std.specs.Prelude.{◌≡◌, ◌<◌, ◌≤◌, true, false, [], length, sum};
    ghost use Rattle.command_queue.specs.Rule.{role_of, taker, with_list};
    ghost use Rattle.command_queue.specs.Ends.{LineView, TakeView};

    ghost Value = { TakeView };

    ghost view = { λ s. record {
      line = record { table = s.pass.table_id; places = (role_of s.pass).places; quotas = (role_of s.pass).quotas };
      list = (role_of s.pass).taken;
      empties = s.empties;
    } };

    ghost invariant = { λ s. (s.pass.me.1 ≡ [])
        × (role_of s.pass ≡ with_list (taker (role_of s.pass).places (role_of s.pass).quotas (length (role_of s.pass).quotas)) (role_of s.pass).taken)
        × (s.total ≡ sum (role_of s.pass).quotas) × (length (role_of s.pass).taken ≤ sum (role_of s.pass).quotas) };
}

impl TakeEnd {
    /// The sum of all quotas, the greatest number of entries that it ever takes.
    pub fn total(&self) -> u64
        ensures { result ≡ total_of self.now }
    {
        self.total
    }
}
