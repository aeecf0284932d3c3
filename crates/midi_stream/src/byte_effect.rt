//! What a byte does to the state in a message.

ghost use Rattle.std.specs.Prelude.{ℕ, List, ◌≡◌, ◌^◌, ◌-◌, ◌<◌, ◌≤◌, min, length, true, Some};
ghost use Rattle.midi_stream.specs.Segments.{Segment};
ghost use Rattle.midi_stream.specs.Growth.{extended, with_status, with_byte};
ghost use Rattle.midi_stream.specs.Messages.{sysex_message};
ghost use Rattle.midi_stream.specs.ParserState.{holds_data};
ghost use Rattle.midi_stream.specs.declared.state.ParserState.{ParserState};
ghost use Rattle.midi_stream.specs.Ranges.{InRange};
ghost use Rattle.midi_stream.specs.Standing.{StandsAt, EndsNone, HasBytes, kept_with};
ghost use Rattle.midi_stream.specs.ByteEffects.{Advances};

use crate::channel::{has_one_data_byte, message_of_one, message_of_two};
use crate::message::MidiMessage;
use crate::state::ParserState;

/// Where a stream stands after a byte, and the message that ended with it.
#[derive(Clone, Copy, Debug, Drop)]
pub(crate) struct ByteEffect {
    pub(crate) state: ParserState,
    pub(crate) message: Option<MidiMessage>,
}

/// A data byte after whole messages of a channel status.
fn first_data(status: u8, byte: u8) -> ByteEffect
    requires { byte < 128 }
    ensures begun { Advances (ParserState.Begun status) byte extended result }
    ensures running { Advances (ParserState.Running status) byte extended result }
{
    if has_one_data_byte(status) {
        ByteEffect {
            state: ParserState::Running { status },
            message: Some(message_of_one(status, byte)),
        }
    } else {
        ByteEffect {
            state: ParserState::Half {
                status,
                first: byte,
            },
            message: None,
        }
    }
}

/// A data byte after the first of two.
fn second_data(status: u8, first: u8, byte: u8) -> ByteEffect
    requires first { first < 128 }
    requires byte { byte < 128 }
    ensures { Advances (ParserState.Half status first) byte extended result }
{
    ByteEffect {
        state: ParserState::Running { status },
        message: Some(message_of_two(status, first, byte)),
    }
}

/// What a data byte does.
pub(crate) fn with_data(state: ParserState, byte: u8) -> ByteEffect
    requires byte { byte < 128 }
    requires holds { holds_data state ≡ true }
    ensures { Advances state byte extended result }
{
    match state {
        ParserState::Between => ByteEffect {
            state,
            message: None,
        },
        ParserState::Begun { status } | ParserState::Running { status } => first_data(status, byte),
        ParserState::Half { status, first } => second_data(status, first, byte),
        ParserState::InSysEx { count } => ByteEffect {
            state: ParserState::InSysEx {
                count: count.saturating_add(1),
            },
            message: None,
        },
    }
}

/// The state after a status byte that ends no SysEx message.
fn state_after(status: u8) -> ParserState
    requires low { 128 ≤ status }
    requires high { status < 248 }
    ensures stands { (state : ParserState) (kept : List ℕ) (parts : List Segment) →
        EndsNone parts status → StandsAt result (kept_with state kept status) (with_status parts status) }
    ensures holds { holds_data result ≡ true }
{
    if status < 0xF0 {
        ParserState::Begun { status }
    } else if status == 0xF0 {
        ParserState::InSysEx { count: 1 }
    } else {
        ParserState::Between
    }
}

/// What is answered of a SysEx message, by the count of its bytes, which stops at 4294967295.
fn sysex_message(count: u32) -> MidiMessage
    ensures value { (bytes : ℕ) → count ≡ min bytes (2 ^ 32 - 1) → result ≡ sysex_message bytes }
    ensures bytes { (kept : List ℕ) → count ≡ min (length kept) (2 ^ 32 - 1) → HasBytes result (Some kept) }
    ensures range { InRange result }
{
    if count <= 5000 {
        MidiMessage::SysEx { length: count }
    } else {
        MidiMessage::SysExTooLong { length: count }
    }
}

/// What a status byte does in a SysEx message.
fn status_in_sysex(count: u32, byte: u8) -> ByteEffect
    requires low { 128 ≤ byte }
    requires high { byte < 248 }
    ensures { Advances (ParserState.InSysEx count) byte with_status result }
{
    if byte == 0xF7 {
        ByteEffect {
            state: ParserState::Between,
            message: Some(sysex_message(count.saturating_add(1))),
        }
    } else {
        ByteEffect {
            state: state_after(byte),
            message: None,
        }
    }
}

/// What a status byte does that is not a real-time byte.
pub(crate) fn with_status_byte(state: ParserState, byte: u8) -> ByteEffect
    requires low { 128 ≤ byte }
    requires high { byte < 248 }
    ensures { Advances state byte with_status result }
{
    match state {
        ParserState::InSysEx { count } => status_in_sysex(count, byte),
        _ => ByteEffect {
            state: state_after(byte),
            message: None,
        },
    }
}

/// What a byte does that is not a real-time byte.
pub(crate) fn effect_of(state: ParserState, byte: u8) -> ByteEffect
    requires byte { byte < 248 }
    requires holds { holds_data state ≡ true }
    ensures { Advances state byte with_byte result }
{
    if byte < 0x80 {
        with_data(state, byte)
    } else {
        with_status_byte(state, byte)
    }
}
