//! Events of a track, each at no ticks after the one before it.

ghost use Rattle.std.specs.Prelude.{◌≡◌, ◌≤◌, ◌<◌, ◌++◌, length, OnOk};
ghost use Rattle.midi_stream.specs.Ranges.{InRange};
ghost use Rattle.song_bank.specs.Event.{message_event, quantity_bytes, sysex_event};

use midi_stream::MidiMessage;
use std::alloc::AllocError;

/// The velocity of a note-off that has none of its own.
const RELEASE_VELOCITY: u8 = 64;

/// Adds the event of a message, with the bytes of a SysEx one.
#[tactic(auto, unfolding(crate::specs::Event::message_event))]
pub(crate) fn push_event(
    events: &mut Vec<u8>,
    message: MidiMessage,
    sysex: &[u8],
) -> Result<(), AllocError>
    requires range { InRange message }
    requires bytes { length sysex.now ≤ 5000 }
    ensures { OnOk result (events.new.items ≡ events.old.items ++ message_event message sysex.now) }
{
    match message {
        MidiMessage::NoteOff { channel, key } => {
            events.extend_from_slice(&[0, 0x80 + channel, key, RELEASE_VELOCITY])
        }
        MidiMessage::NoteOn {
            channel,
            key,
            velocity,
        } => events.extend_from_slice(&[0, 0x90 + channel, key, velocity]),
        MidiMessage::KeyPressure {
            channel,
            key,
            value,
        } => events.extend_from_slice(&[0, 0xA0 + channel, key, value]),
        MidiMessage::Control {
            channel,
            number,
            value,
        } => events.extend_from_slice(&[0, 0xB0 + channel, number, value]),
        MidiMessage::Program { channel, number } => {
            events.extend_from_slice(&[0, 0xC0 + channel, number])
        }
        MidiMessage::ChannelPressure { channel, value } => {
            events.extend_from_slice(&[0, 0xD0 + channel, value])
        }
        MidiMessage::Bend { channel, value } => events.extend_from_slice(&[
            0,
            0xE0 + channel,
            (value % 128) as u8,
            (value / 128) as u8,
        ]),
        MidiMessage::SysEx { .. } => push_sysex(events, sysex),
        // its bytes aren't kept
        MidiMessage::SysExTooLong { .. } => Ok(()),
    }
}

/// Adds the event of a SysEx message.
#[tactic(auto, unfolding(crate::specs::Event::sysex_event))]
fn push_sysex(events: &mut Vec<u8>, bytes: &[u8]) -> Result<(), AllocError>
    requires { length bytes.now ≤ 5000 }
    ensures { OnOk result (events.new.items ≡ events.old.items ++ sysex_event bytes.now) }
{
    let rest = match bytes {
        [_, rest @ ..] => rest,
        [] => bytes,
    };
    events.extend_from_slice(&[0, 0xF0])?;
    push_quantity(events, rest.len() as u16)?;
    events.extend_from_slice(rest)
}

/// Adds a length as a variable-length quantity.
#[tactic(auto, unfolding(crate::specs::Event::quantity_bytes))]
fn push_quantity(events: &mut Vec<u8>, length: u16) -> Result<(), AllocError>
    requires { length < 16384 }
    ensures { OnOk result (events.new.items ≡ events.old.items ++ quantity_bytes length) }
{
    if length < 128 {
        events.extend_from_slice(&[length as u8])
    } else {
        events.extend_from_slice(&[128 + (length / 128) as u8, (length % 128) as u8])
    }
}
