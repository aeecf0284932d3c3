//! What a port keeps for its next feed.

ghost use Rattle.std.specs.Prelude.{◌≡◌};
ghost use Rattle.midi_stream.specs.Ranges.{InRange};
ghost use Rattle.command_set.specs.Command.{IsInRange, content};

use command_set::Command;
use midi_stream::MidiMessage;
use std::marker::Model;

/// A command in range, which the line had no place for.
#[derive(Drop)]
pub(crate) struct Waiting {
    command: Command,
}

impl Model for Waiting {
    ghost use Rattle.command_set.specs.Command.{CommandData, IsInRange, content};

    ghost Value = { CommandData };

    ghost view = { λ waiting. content waiting.command };

    ghost invariant = { λ waiting. IsInRange (content waiting.command) };
}

impl Waiting {
    pub(crate) fn new(command: Command) -> Waiting
        requires { IsInRange (content command) }
        ensures { result ≡ content command }
    {
        Waiting { command }
    }

    pub(crate) fn into_command(self) -> Command
        ensures content { content result ≡ self }
        ensures range { IsInRange (content result) }
    {
        self.command
    }
}

/// A message as a reader answers it, for whose command memory had run out.
#[derive(Drop)]
pub(crate) struct KeptMessage {
    message: MidiMessage,
}

impl Model for KeptMessage {
    ghost use Rattle.midi_stream.specs.declared.message.MidiMessage.{MidiMessage};
    ghost use Rattle.midi_stream.specs.Ranges.{InRange};

    ghost Value = { MidiMessage };

    ghost view = { λ kept. kept.message };

    ghost invariant = { λ kept. InRange kept.message };
}

impl KeptMessage {
    pub(crate) fn new(message: MidiMessage) -> KeptMessage
        requires { InRange message }
        ensures { result ≡ message }
    {
        KeptMessage { message }
    }

    pub(crate) fn into_message(self) -> MidiMessage
        ensures message { result ≡ self }
        ensures range { InRange result }
    {
        self.message
    }
}

/// What is tried first at the next feed.
#[derive(Drop)]
pub(crate) enum Kept {
    /// A command that found the line full.
    Command(Waiting),
    /// A message for whose command memory had run out.
    Message(KeptMessage),
}
