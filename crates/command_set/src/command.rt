//! What a player can ask of the instrument.

ghost use Rattle.std.specs.Prelude.{◌≡◌, ◌↔◌, IsTrue};
ghost use Rattle.command_set.specs.Command.{IsKnownControl};
ghost use Rattle.command_set.specs.Message.{acts};

use cartridge::Cartridge;
use voice_record::{Voice, greatest};

/// The control number of the modulation wheel.
pub const MODULATION_WHEEL: u8 = 1;

/// The control number of the hold pedal.
pub const HOLD_PEDAL: u8 = 64;

/// The control number of "all notes off".
pub const ALL_NOTES_OFF: u8 = 123;

/// What the instrument is told to do between two blocks. Channels are 0 to 15, keys, controls' values and programs 0 to 127.
#[derive(Drop)]
pub enum Command {
    /// A key goes down, with a velocity of 1 to 127.
    NoteOn { channel: u8, key: u8, velocity: u8 },
    /// A key goes up.
    NoteOff { channel: u8, key: u8 },
    /// The pitch bend, 0 to 16383 with 8192 for none.
    Bend { channel: u8, value: u16 },
    /// The modulation wheel (1), the hold pedal (64) or all notes off (123).
    Control { channel: u8, number: u8, value: u8 },
    /// The voice of a slot of the cartridge, the number modulo 32.
    Program { channel: u8, number: u8 },
    /// A parameter of the voice, 0 to 154, or the operator switch, 155, by the DX7's parameter change.
    Param { number: u8, value: u8 },
    /// The voice goes into a slot of the cartridge, 0 to 31.
    Store { slot: u8 },
    /// Another voice.
    Voice(Box<Voice>),
    /// Another cartridge.
    Cartridge(Box<Cartridge>),
}

impl Command {
    ghost use Rattle.command_set.specs.Command.{IsInRange, content};

    /// Whether each number is in its range. Every voice and cartridge is.
    pub fn in_range(&self) -> bool
        ensures { IsTrue result ↔ IsInRange (content self.now) }
    {
        match self {
            Command::NoteOn {
                channel,
                key,
                velocity,
            } => *channel <= 15 && *key <= 127 && 1 <= *velocity && *velocity <= 127,
            Command::NoteOff { channel, key } => *channel <= 15 && *key <= 127,
            Command::Bend { channel, value } => *channel <= 15 && *value <= 16383,
            Command::Control {
                channel,
                number,
                value,
            } => *channel <= 15 && is_known_control(*number) && *value <= 127,
            Command::Program { channel, number } => *channel <= 15 && *number <= 127,
            Command::Param { number, value } => *number <= 155 && *value <= greatest(*number),
            Command::Store { slot } => *slot <= 31,
            Command::Voice(voice) => {
                // For its contract alone: every voice is in range.
                let _ = voice.get(0);
                true
            }
            Command::Cartridge(cartridge) => {
                // For its contract alone: every cartridge is in range.
                let _ = cartridge.payload();
                true
            }
        }
    }
}

/// Whether a control acts on the instrument: modulation wheel, hold pedal and all notes off do.
pub fn is_known_control(number: u8) -> bool
    ensures known { IsTrue result ↔ IsKnownControl number }
    ensures value { result ≡ acts number }
{
    number == MODULATION_WHEEL || number == HOLD_PEDAL || number == ALL_NOTES_OFF
}
