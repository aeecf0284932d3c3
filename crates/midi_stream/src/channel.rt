//! Channel messages by their status and data bytes.

ghost use Rattle.std.specs.Prelude.{ℕ, List, Option, ◌≡◌, ◌<◌, ◌≤◌, ◌==◌, if◌then◌else◌};
ghost use Rattle.midi_stream.specs.Messages.{message_of_one, message_of_two, has_one_data_byte};
ghost use Rattle.midi_stream.specs.Ranges.{InRange};
ghost use Rattle.midi_stream.specs.Standing.{HasBytes};

use crate::message::MidiMessage;

/// Whether the messages of a channel status have one data byte, and not two.
pub fn has_one_data_byte(status: u8) -> bool
    ensures { result ≡ has_one_data_byte status }
{
    (0xC0..0xE0).contains(&status)
}

/// The message of a channel status with one data byte.
#[tactic(auto, unfolding(crate::specs::Messages::message_of_one))]
pub fn message_of_one(status: u8, value: u8) -> MidiMessage
    requires { value < 128 }
    ensures value { result ≡ message_of_one status value }
    ensures bytes { (kept : Option (List ℕ)) → HasBytes result kept }
    ensures range { InRange result }
{
    let channel = status % 16;
    if status < 0xD0 {
        MidiMessage::Program {
            channel,
            number: value,
        }
    } else {
        MidiMessage::ChannelPressure { channel, value }
    }
}

/// A note that begins, or ends where its velocity is 0.
fn note(channel: u8, key: u8, velocity: u8) -> MidiMessage
    requires channel { channel < 16 }
    requires key { key < 128 }
    requires velocity { velocity < 128 }
    ensures value { result ≡ (if velocity == 0 then MidiMessage.NoteOff channel key else MidiMessage.NoteOn channel key velocity) }
    ensures bytes { (kept : Option (List ℕ)) → HasBytes result kept }
    ensures range { InRange result }
{
    if velocity == 0 {
        MidiMessage::NoteOff { channel, key }
    } else {
        MidiMessage::NoteOn {
            channel,
            key,
            velocity,
        }
    }
}

/// The message of a channel status with two data bytes.
#[tactic(auto, unfolding(crate::specs::Messages::message_of_two))]
pub fn message_of_two(status: u8, first: u8, second: u8) -> MidiMessage
    requires first { first < 128 }
    requires second { second < 128 }
    ensures value { result ≡ message_of_two status first second }
    ensures bytes { (kept : Option (List ℕ)) → HasBytes result kept }
    ensures range { InRange result }
{
    let channel = status % 16;
    if status < 0x90 {
        MidiMessage::NoteOff {
            channel,
            key: first,
        }
    } else if status < 0xA0 {
        note(channel, first, second)
    } else if status < 0xB0 {
        MidiMessage::KeyPressure {
            channel,
            key: first,
            value: second,
        }
    } else if status < 0xC0 {
        MidiMessage::Control {
            channel,
            number: first,
            value: second,
        }
    } else {
        MidiMessage::Bend {
            channel,
            value: u16::from(first) + 128 * u16::from(second),
        }
    }
}
