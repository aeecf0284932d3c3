//! A text script in the middle of its lines.

ghost use Rattle.std.specs.Prelude.{ℕ, ◌≡◌, Option, if◌then◌else◌};
ghost use Rattle.velocity_map.specs.Map.{curve_of};
ghost use Rattle.command_set.specs.Command.{IsInRange, content};
ghost use Rattle.script_read.specs.Outcomes.{curved, time_fault};

use crate::script_line::ScriptLine;
use command_set::Command;
use script_outcome::{Bounds, Feed, Place, ScriptFault, ScriptKind, Spot, give, read_bytes};
use script_plan::Script;
use std::alloc::{AllocError, Global};
use velocity_map::{Curve, MapSet, VelocityMap};

/// Where the reader of a text stands after some lines.
#[derive(Drop)]
pub(crate) struct Progress {
    pub(crate) feed: Feed,
    /// The curve in force.
    pub(crate) curve: Curve,
    /// The block of the last line that has one.
    pub(crate) least: u32,
    /// The number of the next line.
    pub(crate) number: u32,
    /// The number of the last `bytes` line.
    pub(crate) fed: u32,
}

impl Progress {
    ghost use Rattle.std.specs.Prelude.{ℕ, List, Option, ◌≡◌, ◌+◌, ◌^◌, ◌-◌, ◌<◌, [], ◌∷◌, ◌++◌, true, false, IfErr, IfOk, OnErr, OnOk};
    ghost use Rattle.midi_stream.specs.Messages.{is_unfinished};
    ghost use Rattle.midi_stream.specs.FedStream.{Reads};
    ghost use Rattle.command_set.specs.Command.{IsInRange, content};
    ghost use Rattle.script_read.specs.Lines.{ParsedLine, Blank, Feeds, Maps, Orders, Wrong};
    ghost use Rattle.script_read.specs.LineData.{IsSound, line_data};
    ghost use Rattle.script_read.specs.Outcomes.{outcomes_after};
    ghost use Rattle.script_outcome.specs.ReaderAnswer.{Stops};
    ghost use Rattle.script_read.specs.TextSoFar.{HasOrder, IsAfter};

    /// Before the line after the first. It asks for the memory that a reader of MIDI bytes needs.
    pub(crate) fn new(alloc: Global) -> Result<Progress, AllocError>
        ensures after { IfOk result (λ p. (blocks : Option ℕ) → IsAfter p blocks []) }
        ensures order { IfOk result (λ p. (room : ℕ) → HasOrder p room) }
        ensures number { IfOk result (λ p. p.number ≡ 2) }
    {
        match Feed::new(alloc) {
            Ok(feed) => Ok(Progress {
                feed,
                curve: Curve::Linear,
                least: 0,
                number: 2,
                fed: 0,
            }),
            Err(fault) => Err(fault),
        }
    }

    /// Applies the next line.
    pub(crate) fn apply(
        &mut self,
        alloc: Global,
        parsed: ScriptLine,
        maps: &MapSet,
        bounds: Bounds,
    ) -> Result<(), ScriptFault>
        requires order { HasOrder self.old bounds.room }
        requires number { self.old.number < 2 ^ 32 - 1 }
        requires sound { IsSound parsed }
        ensures after { OnOk result ((lines : List ParsedLine) → IsAfter self.old bounds.blocks lines
            → IsAfter self.new bounds.blocks (lines ++ line_data parsed ∷ [])) }
        ensures order { OnOk result (HasOrder self.new bounds.room) }
        ensures number { OnOk result (self.new.number ≡ self.old.number + 1) }
        ensures stops { IfErr result (λ why. (lines : List ParsedLine) → IsAfter self.old bounds.blocks lines
            → Stops why bounds.room (outcomes_after bounds.blocks [] (lines ++ line_data parsed ∷ []))) }
    {
        match parsed {
            ScriptLine::Blank => {
                self.pass_over();
                Ok(())
            }
            ScriptLine::Map(curve) => {
                self.set_curve(curve);
                Ok(())
            }
            ScriptLine::Command { block, command } => self.add_command(
                block, command, maps, bounds,
            ),
            ScriptLine::Bytes { block, bytes } => self.add_bytes(
                alloc, block, &bytes, maps, bounds,
            ),
            ScriptLine::Wrong => Err(self.refuse()),
        }
    }

    /// Passes over the next line.
    fn pass_over(&mut self)
        requires { self.old.number < 2 ^ 32 - 1 }
        ensures after { (blocks : Option ℕ) (lines : List ParsedLine) → IsAfter self.old blocks lines
            → IsAfter self.new blocks (lines ++ Blank ∷ []) }
        ensures order { (room : ℕ) → HasOrder self.old room → HasOrder self.new room }
        ensures number { self.new.number ≡ self.old.number + 1 }
    {
        self.number += 1;
    }

    /// Sets the curve of the lines after the next one.
    fn set_curve(&mut self, curve: Curve)
        requires { self.old.number < 2 ^ 32 - 1 }
        ensures after { (blocks : Option ℕ) (lines : List ParsedLine) → IsAfter self.old blocks lines
            → IsAfter self.new blocks (lines ++ Maps curve ∷ []) }
        ensures order { (room : ℕ) → HasOrder self.old room → HasOrder self.new room }
        ensures number { self.new.number ≡ self.old.number + 1 }
    {
        self.curve = curve;
        self.number += 1;
    }

    /// The refusal of a next line that isn't of the grammar.
    fn refuse(&self) -> ScriptFault
        ensures { (blocks : Option ℕ) (room : ℕ) (lines : List ParsedLine) → IsAfter self.now blocks lines → HasOrder self.now room
            → Stops result room (outcomes_after blocks [] (lines ++ Wrong ∷ [])) }
    {
        refused(self.number, ScriptKind::Line)
    }

    /// Adds a command at a block.
    fn add_command(
        &mut self,
        block: u32,
        command: Command,
        maps: &MapSet,
        bounds: Bounds,
    ) -> Result<(), ScriptFault>
        requires order { HasOrder self.old bounds.room }
        requires number { self.old.number < 2 ^ 32 - 1 }
        requires range { IsInRange (content command) }
        ensures after { OnOk result ((lines : List ParsedLine) → IsAfter self.old bounds.blocks lines
            → IsAfter self.new bounds.blocks (lines ++ Orders block (content command) ∷ [])) }
        ensures order { OnOk result (HasOrder self.new bounds.room) }
        ensures number { OnOk result (self.new.number ≡ self.old.number + 1) }
        ensures stops { IfErr result (λ why. (lines : List ParsedLine) → IsAfter self.old bounds.blocks lines
            → Stops why bounds.room (outcomes_after bounds.blocks [] (lines ++ Orders block (content command) ∷ []))) }
    {
        match fault_of_block(block, self.least, bounds) {
            Some(kind) => return Err(refused(self.number, kind)),
            None => {}
        }
        let command = on_curve(command, maps.map(self.curve));
        match give(&mut self.feed.script, block, command, bounds.room) {
            Ok(()) => {
                self.least = block;
                self.number += 1;
                Ok(())
            }
            Err(fault) => Err(fault),
        }
    }

    /// Adds what comes of MIDI bytes at a block.
    fn add_bytes(
        &mut self,
        alloc: Global,
        block: u32,
        bytes: &[u8],
        maps: &MapSet,
        bounds: Bounds,
    ) -> Result<(), ScriptFault>
        requires order { HasOrder self.old bounds.room }
        requires number { self.old.number < 2 ^ 32 - 1 }
        ensures after { OnOk result ((lines : List ParsedLine) → IsAfter self.old bounds.blocks lines
            → IsAfter self.new bounds.blocks (lines ++ Feeds block bytes.now ∷ [])) }
        ensures order { OnOk result (HasOrder self.new bounds.room) }
        ensures number { OnOk result (self.new.number ≡ self.old.number + 1) }
        ensures stops { IfErr result (λ why. (lines : List ParsedLine) → IsAfter self.old bounds.blocks lines
            → Stops why bounds.room (outcomes_after bounds.blocks [] (lines ++ Feeds block bytes.now ∷ []))) }
    {
        match fault_of_block(block, self.least, bounds) {
            Some(kind) => return Err(refused(self.number, kind)),
            None => {}
        }
        let spot = Spot {
            place: Place::Line(self.number),
            block,
        };
        let map = maps.map(self.curve);
        match read_bytes(alloc, &mut self.feed, bytes, spot, map, bounds.room) {
            Ok(()) => {
                self.least = block;
                self.fed = self.number;
                self.number += 1;
                Ok(())
            }
            Err(fault) => Err(fault),
        }
    }

    /// The commands, where the text doesn't end within a message.
    pub(crate) fn end(self) -> Result<Script, ScriptFault>
        ensures given { IfOk result (λ script. script ≡ self.feed.script) }
        ensures whole { OnOk result ((stream : List ℕ) → Reads self.feed.reader stream → is_unfinished stream ≡ false) }
        ensures cut { IfErr result (λ why. why ≡ ScriptFault.Refused (Place.Line self.fed) ScriptKind.Cut) }
        ensures unfinished { OnErr result ((stream : List ℕ) → Reads self.feed.reader stream → is_unfinished stream ≡ true) }
    {
        if self.feed.reader.at_rest() {
            Ok(self.feed.script)
        } else {
            Err(refused(self.fed, ScriptKind::Cut))
        }
    }
}

/// The refusal of a line.
pub(crate) fn refused(number: u32, kind: ScriptKind) -> ScriptFault
    ensures { result ≡ ScriptFault.Refused (Place.Line number) kind }
{
    ScriptFault::Refused {
        place: Place::Line(number),
        kind,
    }
}

/// What is wrong with a line's block.
pub(crate) fn fault_of_block(block: u32, least: u32, bounds: Bounds) -> Option<ScriptKind>
    ensures { result ≡ time_fault bounds.blocks least block }
{
    if block < least {
        Some(ScriptKind::Falls)
    } else if bounds.is_late(block) {
        Some(ScriptKind::Late)
    } else {
        None
    }
}

/// A note-on with its velocity on a curve; any other command as it is.
fn on_curve(command: Command, map: &VelocityMap) -> Command
    requires { IsInRange (content command) }
    ensures curved { content result ≡ curved (curve_of map.now) (content command) }
    ensures range { IsInRange (content result) }
{
    match command {
        Command::NoteOn {
            channel,
            key,
            velocity,
        } => Command::NoteOn {
            channel,
            key,
            velocity: map.apply(velocity),
        },
        other => other,
    }
}
