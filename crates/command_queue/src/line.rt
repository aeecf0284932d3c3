//! The bounded line that all ends share: it is made with its ends, and entries are sent into it and taken out of it.
ghost use Rattle.std.specs.Prelude.{sum, ◌≡◌, ◌+◌, ◌<◌, ◌≤◌, true, false, [], length, IfOk, IfErr, IfSome, IfNone};
ghost use Rattle.crossbeam_queue.specs.Passes.{IsPassOf, IsSamePass};
ghost use Rattle.command_set.specs.Command.{content, IsInRange};
ghost use Rattle.command_set.specs.Entries.{entry_data};
ghost use Rattle.command_queue.specs.Entries.{quota_at, IsNextOf};
ghost use Rattle.command_queue.specs.Rule.{role_of, root, taker, Took, TakerSees};
ghost use Rattle.command_queue.specs.Ends.{line_at, new_end, new_taker, AreNewEnds, quota_of, others_of, total_of, entry_of};
ghost use Rattle.command_queue.specs.Ends.{accepted, refused, took, found_empty, WasFull, WasEmpty};

use crate::ends::{Full, SendEnd, TakeEnd};
use crate::rule::{Ends, Opening, Plan, Queue, Seat, Sends, Takes};
use command_set::{Command, Entry};
use std::alloc::{AllocError, Global};
use std::marker::{Brand, Model};
use std::sync::Wait;

/// A bounded line of entries, shared by reference among threads. Contracts see which line it is, its places and the quotas of its ends.
#[derive(Drop)]
pub struct Line {
    pub(crate) queue: Queue,
    pub(crate) quotas: Vec<u32>,
}

impl Model for Line {
    ghost use Rattle.std.specs.Prelude.{◌≤◌, length};
    ghost use Rattle.command_queue.specs.Ends.{LineView};

    ghost Value = { LineView };

    ghost view = { λ s. record { table = s.queue.table.shared.table_id; places = s.queue.cap; quotas = s.quotas.items } };

    ghost invariant = { λ s. length s.quotas.items ≤ 256 };
}

// Fixes the places and the quotas in the taker's role.
fn open<K: Plan>(queue: &Queue, pass: &mut Seat, places: usize, quotas: &[u32])
    requires plan { (places ≡ K.places) × (quotas.now ≡ K.quotas) }
    requires pass { IsPassOf queue.now pass.old × (role_of pass.old ≡ root) }
    ensures { IsPassOf queue.now pass.new × (role_of pass.new ≡ taker places quotas.now 0) }
{
    queue.another::<Opening<K>>(pass);
}

// The sum of all quotas.
fn sum_of(quotas: &[u32]) -> u64
    requires { length quotas.now ≤ 256 }
    ensures { result ≡ sum quotas.now }
{
    quotas.iter().map(|q| *q as u64).sum()
}

// Makes the end with the next number.
fn make_end(queue: &Queue, pass: &mut Seat, number: u32, quota: u32, total: u64) -> SendEnd
    requires pass { IsPassOf queue.now pass.old × (role_of pass.old ≡ taker queue.now.cap (role_of pass.old).quotas number) }
    requires number { number < length (role_of pass.old).quotas }
    requires quota { (quota ≡ quota_at (role_of pass.old).quotas number) × (total ≡ sum (role_of pass.old).quotas) }
    ensures pass { IsPassOf queue.now pass.new × (role_of pass.new ≡ taker queue.now.cap (role_of pass.old).quotas (number + 1)) }
    ensures end { result ≡ new_end (line_at queue.now.table.shared.table_id queue.now.cap (role_of pass.old).quotas) number }
{
    let pass = queue.another::<Ends>(pass);
    SendEnd {
        number,
        quota,
        others: total - quota as u64,
        count: 0,
        refusals: 0,
        pass,
    }
}

// Takes the front out of the queue, by a pass that takes.
pub(crate) fn pop<R: Wait>(queue: &Queue, rt: &R, pass: &mut Seat) -> Option<Entry>
    requires pass { IsPassOf queue.now pass.old }
    requires taker { ((role_of pass.old).takes ≡ true) × ((role_of pass.old).sends ≡ false) }
    ensures pass { IsSamePass pass.old pass.new }
    ensures some { IfSome result (λ x. Took (role_of pass.old) (entry_data x) (role_of pass.new)) }
    ensures none { IfNone result ((role_of pass.new ≡ role_of pass.old) × TakerSees (role_of pass.old) []) }
{
    queue.pop_as::<Takes, R>(rt, pass)
}

impl Line {
    /// A line with 1 to 1,000,000 places and one end for each of 1 to 256 quotas, in order of number. `AllocError` is want of memory.
    pub fn new(
        alloc: Global,
        places: usize,
        quotas: &[u32],
    ) -> Result<(Line, TakeEnd, Vec<SendEnd>), AllocError>
        requires places { (1 ≤ places) × (places ≤ 1000000) }
        requires quotas { (1 ≤ length quotas.now) × (length quotas.now ≤ 256) }
        ensures line { IfOk result (λ r. (r.0.places ≡ places) × (r.0.quotas ≡ quotas.now)) }
        ensures taker { IfOk result (λ r. r.1 ≡ new_taker r.0) }
        ensures ends { IfOk result (λ r. AreNewEnds r.0 r.2.items) }
    {
        let kept = quotas.to_vec(alloc)?;
        let (queue, mut pass) = Queue::ruled(alloc, places)?;
        open::<Brand>(&queue, &mut pass, places, quotas);
        let total = sum_of(quotas);
        let mut ends = Vec::new(alloc);
        for (k, quota) in quotas.iter().enumerate() {
            let end = make_end(&queue, &mut pass, k as u32, *quota, total);
            ends.push(end)?;
        }
        let line = Line {
            queue,
            quotas: kept,
        };
        let taker = TakeEnd {
            total,
            empties: 0,
            pass,
        };
        Ok((line, taker, ends))
    }

    /// How many entries may wait in it. It has at most 256 ends.
    pub fn places(&self) -> usize
        ensures places { result ≡ self.now.places }
        ensures few { length self.now.quotas ≤ 256 }
    {
        self.queue.capacity()
    }

    /// The entry goes to the back, and its number among the end's is answered; or no place was left at a moment of this call, and the command is
    /// given back.
    pub fn send<R: Wait>(
        &self,
        rt: &R,
        end: &mut SendEnd,
        sent_at: u32,
        command: Command,
    ) -> Result<u32, Full>
        requires line { end.old.line ≡ self.now }
        requires quota { length end.old.list < quota_of end.old }
        requires command { IsInRange (content command) }
        ensures same { (end.new.line ≡ end.old.line) × (end.new.number ≡ end.old.number) }
        ensures sent { IfOk result (λ q. (q ≡ length end.old.list) × (end.new ≡ accepted end.old (entry_of end.old sent_at (content command)))) }
        ensures back { IfErr result (λ f. (f.command ≡ command) × (end.new ≡ refused end.old)) }
        ensures full { IfErr result (λ _. WasFull end.old) }
        ensures room { IfErr result (λ _. self.now.places ≤ length end.old.list + others_of end.old) }
    {
        let seq = end.count;
        let entry = Entry {
            script: end.number,
            seq,
            sent_at,
            command,
        };
        match self.queue.push_as::<Sends, R>(rt, &mut end.pass, entry) {
            Ok(()) => {
                end.count += 1;
                Ok(seq)
            }
            Err(back) => {
                end.refusals = end.refusals.saturating_add(1);
                Err(Full {
                    command: back.command,
                })
            }
        }
    }

    /// The entry at the front, which is the next of its end; or nothing waited at a moment of this call.
    pub fn take<R: Wait>(&self, rt: &R, end: &mut TakeEnd) -> Option<Entry>
        requires { end.old.line ≡ self.now }
        ensures same { end.new.line ≡ end.old.line }
        ensures some { IfSome result (λ x. (end.new ≡ took end.old (entry_data x)) × (x.script < length self.now.quotas)
            × IsInRange (content x.command) × (length end.new.list ≤ total_of end.old)) }
        ensures next { IfSome result (λ x. IsNextOf self.now.quotas end.old.list (entry_data x)) }
        ensures none { IfNone result ((end.new ≡ found_empty end.old) × WasEmpty end.old) }
    {
        match pop(&self.queue, rt, &mut end.pass) {
            Some(entry) => Some(entry),
            None => {
                end.empties = end.empties.saturating_add(1);
                None
            }
        }
    }
}
