//! The rule of the queue that a line is made of, and what each step lets the pass know that makes it.
ghost use Rattle.std.specs.Prelude.{ℕ, List};

use command_set::Entry;
use crossbeam_queue::protocol::{Join, Lesson, Outcome, Protocol, Split};
use crossbeam_queue::{Pass, RuledArrayQueue};
use std::collections::LinkedList;
use std::marker::{Brand, Model, PhantomData};

/// An entry as it stands in a role. Contracts see its plain data. No value of it is made.
pub(crate) struct QueuedEntry {
    entry: Entry,
}

impl Model for QueuedEntry {
    ghost use Rattle.command_set.specs.Entries.{EntryData, entry_data};

    ghost Value = { EntryData };

    ghost view = { λ n. entry_data n.entry };
}

/// What a pass knows. No value of it is made. The taker's pass has number 0, and the end n's has number n + 2.
pub(crate) struct Role {
    /// Whether the pass takes entries.
    pub takes: bool,
    /// Whether it sends them.
    pub sends: bool,
    /// How many entries may wait.
    pub places: usize,
    /// The quotas of all ends.
    pub quotas: LinkedList<u32>,
    /// Of an end: its number.
    pub number: u32,
    /// Of an end: the entries that were accepted of it.
    pub sent: LinkedList<QueuedEntry>,
    /// Of the taker: whether the quotas are fixed, 0 or 1.
    pub opened: u32,
    /// Of the taker: how many ends were made.
    pub made: u32,
    /// Of the taker: what it took.
    pub taken: LinkedList<QueuedEntry>,
    /// Of the taker: what the ends that it joined had sent.
    pub known: LinkedList<LinkedList<QueuedEntry>>,
}

/// The rule of a line's queue.
pub(crate) struct InTurn;

impl Protocol<Entry, Role> for InTurn {
    ghost use Rattle.command_queue.specs.Rule.{Holds, root};

    ghost holds = { Holds };

    ghost first = { root };
}

/// The places and the quotas of a line, picked where it is made.
pub(crate) trait Plan {
    ghost places: { ℕ };

    ghost quotas: { List ℕ };
}

impl Plan for Brand {
    ghost use Rattle.std.specs.Prelude.{[]};

    ghost places = { 0 };

    ghost quotas = { [] };
}

/// Fixes the places and the quotas. The second pass is of no use.
pub(crate) struct Opening<K: Plan> {
    plan: PhantomData<K>,
}

impl<K: Plan> Split<Role> for Opening<K> {
    ghost use Rattle.command_queue.specs.Rule.{taker, nobody};

    ghost left = { λ v. taker K.places K.quotas 0 };

    ghost right = { λ v. nobody };
}

/// Makes the next end, and later takes it in again.
pub(crate) struct Ends;

impl Split<Role> for Ends {
    ghost use Rattle.command_queue.specs.Rule.{one_more, next_end};

    ghost left = { one_more };

    ghost right = { next_end };
}

impl Join<Role> for Ends {
    ghost use Rattle.command_queue.specs.Rule.{joined, nobody};

    ghost both = { joined };

    ghost spent = { nobody };
}

/// What a push lets its end know, accepted or refused.
pub(crate) struct Sends;

impl Outcome<Entry, Role> for Sends {
    ghost use Rattle.command_set.specs.Entries.{entry_data};
    ghost use Rattle.command_queue.specs.Rule.{Sent};

    ghost then = { λ v x. Sent v (entry_data x) };
}

impl Lesson<Entry, Role> for Sends {
    ghost use Rattle.command_queue.specs.Rule.{plain, SenderSees};

    ghost fact = { λ v items. SenderSees v (plain items) };
}

/// What a pop lets the taker know, with an entry or without.
pub(crate) struct Takes;

impl Outcome<Entry, Role> for Takes {
    ghost use Rattle.command_set.specs.Entries.{entry_data};
    ghost use Rattle.command_queue.specs.Rule.{Took};

    ghost then = { λ v x. Took v (entry_data x) };
}

impl Lesson<Entry, Role> for Takes {
    ghost use Rattle.command_queue.specs.Rule.{plain, TakerSees};

    ghost fact = { λ v items. TakerSees v (plain items) };
}

/// The queue of a line.
pub(crate) type Queue = RuledArrayQueue<Entry, Role, InTurn>;

/// A pass of it.
pub(crate) type Seat = Pass<Entry, Role>;
