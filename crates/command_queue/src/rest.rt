//! What rests in a line once all ends have sent.
ghost use Rattle.std.specs.Prelude.{◌≡◌, ◌<◌, ◌≤◌, [], ◌∷◌, ◌++◌, List, length, sum, IfSome, IfNone};
ghost use Rattle.crossbeam_queue.specs.Passes.{IsPassOf};
ghost use Rattle.command_set.specs.Command.{content, IsInRange};
ghost use Rattle.command_set.specs.Entries.{EntryData, entry_data};
ghost use Rattle.command_queue.specs.Entries.{IsNextOf};
ghost use Rattle.command_queue.specs.Rule.{role_of, settler};
ghost use Rattle.command_queue.specs.Ends.{AreEnds, rest_of, rest_took, HoldsAll, IsSettled};

use crate::ends::{SendEnd, TakeEnd};
use crate::line::{Line, pop};
use crate::rule::{Ends, Queue, Seat, Takes};
use command_set::Entry;
use std::marker::Model;
use std::sync::Wait;

/// What waits in a line whose ends were joined. Contracts see the line, all entries that were taken so far, and of each end all that were accepted.
#[derive(Drop)]
pub struct Rest {
    queue: Queue,
    pass: Seat,
}

impl Model for Rest {
    ghost use Rattle.std.specs.Prelude.{◌≡◌, [], length};
    ghost use Rattle.crossbeam_queue.specs.Passes.{IsPassOf};
    ghost use Rattle.command_queue.specs.Rule.{role_of, settler};
    ghost use Rattle.command_queue.specs.Ends.{RestView};

    ghost Value = { RestView };

    ghost view = { λ s. record {
      line = record { table = s.queue.table.shared.table_id; places = s.queue.cap; quotas = (role_of s.pass).quotas };
      list = (role_of s.pass).taken;
      sent = (role_of s.pass).known;
    } };

    ghost invariant = { λ s. IsPassOf s.queue s.pass
        × (role_of s.pass ≡ settler s.queue.cap (role_of s.pass).quotas (role_of s.pass).taken (role_of s.pass).known)
        × (length (role_of s.pass).known ≡ length (role_of s.pass).quotas) };
}

// The taker's pass takes in an end's.
fn join_end(queue: &Queue, pass: &mut Seat, end: SendEnd)
    requires pass { IsPassOf queue.now pass.old
        × (role_of pass.old ≡ settler queue.now.cap (role_of pass.old).quotas (role_of pass.old).taken (role_of pass.old).known) }
    requires end { (end.line.table ≡ queue.now.table.shared.table_id) × (end.number ≡ length (role_of pass.old).known) }
    ensures { IsPassOf queue.now pass.new
        × (role_of pass.new ≡ settler queue.now.cap (role_of pass.old).quotas (role_of pass.old).taken ((role_of pass.old).known ++ end.list ∷ [])) }
{
    queue.absorb::<Ends>(pass, end.pass);
}

impl Line {
    /// Joins all ends, given in order of number. What waits can then be taken out.
    pub fn finish<R: Wait>(self, rt: &R, taker: TakeEnd, ends: Vec<SendEnd>) -> Rest
        requires taker { taker.line ≡ self }
        requires ends { AreEnds self ends.items }
        ensures rest { result ≡ rest_of self taker.list ends.items }
        ensures settled { (waiting : List EntryData) × IsSettled result waiting }
    {
        let _ = rt;
        let queue = self.queue;
        let mut pass = taker.pass;
        for end in ends {
            join_end(&queue, &mut pass, end);
        }
        queue.learn_as::<Takes>(&mut pass);
        Rest { queue, pass }
    }
}

impl Rest {
    /// The entry at the front of what waits; `None` exactly where nothing does.
    pub fn next<R: Wait>(&mut self, rt: &R) -> Option<Entry>
        ensures same { (self.new.line ≡ self.old.line) × (self.new.sent ≡ self.old.sent) }
        ensures some { IfSome result (λ x. (self.new ≡ rest_took self.old (entry_data x)) × (x.script < length self.old.line.quotas)
            × IsInRange (content x.command) × (length self.new.list ≤ sum self.old.line.quotas)) }
        ensures next { IfSome result (λ x. IsNextOf self.old.line.quotas self.old.list (entry_data x)) }
        ensures more { IfSome result (λ _. ¬ (HoldsAll self.old)) }
        ensures none { IfNone result ((self.new ≡ self.old) × HoldsAll self.old × IsSettled self.old []) }
    {
        pop(&self.queue, rt, &mut self.pass)
    }
}
