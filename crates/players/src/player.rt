//! A script that an end sends, turn by turn.
ghost use Rattle.std.specs.Prelude.{◌≡◌, ◌+◌, ◌<◌, ◌≤◌, MatchBool, IsTrue, length, ◌↔◌};
ghost use Rattle.lateness.specs.Late.{AllFrom, FirstBelow};
ghost use Rattle.script_plan.specs.Plan.{due_blocks};
ghost use Rattle.players.specs.Players.{PlayerView, IsReady, SentNext, Turned};

use crate::due::{next_due, pop_first};
use command_queue::{Line, SendEnd};
use outside::Gate;
use script_plan::{Planned, Script};
use std::marker::Model;
use std::sync::Wait;

/// A script that an end sends. Contracts see the end, the commands that are left, and how many of its entries were found in the journal.
#[derive(Drop)]
pub struct Player {
    end: SendEnd,
    refused: Option<Planned>,
    script: Script,
    logged: u64,
}

impl Model for Player {
    ghost use Rattle.players.specs.Players.{PlayerView, left_of, IsNext};

    ghost Value = { PlayerView };

    ghost view = { λ p. record { end = p.end; left = left_of p.refused p.script; logged = p.logged } };

    ghost invariant = { λ p. IsNext p.refused p.script };
}

/// What the try to send the first command that is left came to.
#[derive(Clone, Copy, PartialEq, Eq, Drop)]
pub enum SendOutcome {
    /// The line accepted it.
    Sent,
    /// The line was full, and the command is kept.
    Refused,
    /// No command that is left is due.
    NotDue,
}

impl Player {
    /// A player of a script, before its first turn.
    pub fn new(end: SendEnd, script: Script) -> Player
        ensures { result ≡ record { end = end; left = script; logged = 0 } }
    {
        Player {
            end,
            refused: None,
            script,
            logged: 0,
        }
    }

    /// How many commands were not accepted yet.
    pub fn left(&self) -> usize
        ensures { result ≡ length self.now.left }
    {
        match &self.refused {
            Some(_) => self.script.len() + 1,
            None => self.script.len(),
        }
    }

    /// Its end.
    pub fn into_end(self) -> SendEnd
        ensures { result ≡ self.end }
    {
        self.end
    }

    /// One more of its entries was found in the journal.
    pub fn count_logged(&mut self)
        requires { self.old.logged < 18446744073709551615 }
        ensures { self.new ≡ record self.old { logged = self.old.logged + 1 } }
    {
        self.logged += 1;
    }

    /// Whether all entries that were accepted of it were found in the journal.
    pub fn is_logged(&self) -> bool
        ensures { IsTrue result ↔ (self.now.logged ≡ length self.now.end.list) }
    {
        self.logged == u64::from(self.end.count())
    }

    /// Whether a command that is left is due at a turn: then the first one is, and otherwise all are due later.
    pub fn is_due(&self, turn: u32) -> bool
        ensures { MatchBool result (FirstBelow (turn + 1) (due_blocks self.now.left)) (AllFrom (turn + 1) (due_blocks self.now.left)) }
    {
        match next_due(&self.refused, &self.script) {
            Some(due) => due <= turn,
            None => false,
        }
    }

    // Sends the first command that is left, if it is due and the line has room.
    fn send_next<R: Wait>(&mut self, rt: &R, line: &Line, turn: u32) -> SendOutcome
        requires { IsReady line.now self.old }
        ensures ready { IsReady line.now self.new }
        ensures sent { SentNext result turn self.old self.new }
    {
        if !self.is_due(turn) {
            return SendOutcome::NotDue;
        }
        let Some(planned) = pop_first(&mut self.refused, &mut self.script) else {
            return SendOutcome::NotDue;
        };
        let due = planned.due;
        match line.send(rt, &mut self.end, due, planned.command) {
            Ok(_) => SendOutcome::Sent,
            Err(full) => {
                self.refused = Some(Planned {
                    due,
                    command: full.command,
                });
                SendOutcome::Refused
            }
        }
    }

    // Sends commands that are due, in order, until none is left that is due or the line is full.
    fn send_due<R: Wait>(&mut self, rt: &R, line: &Line, turn: u32)
        requires { IsReady line.now self.old }
        ensures ready { IsReady line.now self.new }
        ensures turned { Turned turn self.old self.new }
    {
        for _ in rt.forever() {
            match self.send_next(rt, line, turn) {
                SendOutcome::Sent => {}
                SendOutcome::Refused => return,
                SendOutcome::NotDue => return,
            }
        }
        unreachable!()
    }

    /// A turn: sends the commands that are due at it or before, in order, up to the first refusal. It calls the gate with its end's number
    /// where something is due.
    pub fn turn<R: Wait, G: Gate>(&mut self, rt: &R, line: &Line, turn: u32, gate: &G)
        requires { IsReady line.now self.old }
        ensures ready { IsReady line.now self.new }
        ensures turned { Turned turn self.old self.new }
    {
        if !self.is_due(turn) {
            return;
        }
        let number = self.end.number();
        gate.pass(number);
        self.send_due(rt, line, turn);
        gate.done(number);
    }
}
