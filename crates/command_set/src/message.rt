//! The command of a message of a MIDI stream.

ghost use Rattle.std.specs.Prelude.{◌≡◌, ◌≢◌, ◌≤◌, length, option_map, if◌then◌else◌, IfOk, IfErr, IfSome, IsNone};
ghost use Rattle.midi_stream.specs.Ranges.{InRange};
ghost use Rattle.velocity_map.specs.Map.{curve_of};
ghost use Rattle.sysex_frame.specs.Frame.{content_of};
ghost use Rattle.sysex_frame.specs.FrameFault.{first_fault};
ghost use Rattle.sysex_frame.specs.ParsedFrame.{reading};
ghost use Rattle.cartridge.specs.Cartridge.{IsCartridge, voices_of};
ghost use Rattle.command_set.specs.Command.{Controls, IsInRange, LoadsCartridge, LoadsVoice, content};
ghost use Rattle.command_set.specs.Message.{IsRefusal, IsSound, PassedOver, Yields, acts, answer_outcome, clamped_voice, command_of, content_outcome};
ghost use Rattle.command_set.specs.Message.{fault_outcome, frame_outcome};
ghost use Rattle.command_set.specs.declared.message.CommandFault.TheVariants.{Memory};

use crate::command::{Command, is_known_control};
use cartridge::Cartridge;
use midi_stream::MidiMessage;
use std::alloc::Global;
use sysex_frame::{Frame, FrameFault, read_frame};
use velocity_map::VelocityMap;
use voice_record::Voice;

/// Why a message is no command and isn't passed over.
#[derive(Clone, Copy, Debug, PartialEq, Eq)]
pub enum CommandFault {
    /// A SysEx message has more than 5000 bytes, so many.
    TooLong { length: u32 },
    /// Its bytes have this fault.
    Frame(FrameFault),
    /// There was no memory for its voice or cartridge.
    Memory,
}

/// The command of a message, whose fields are in the ranges of those that a reader answers, with the
/// bytes of a SysEx one. The velocity of a note-on goes through the map. None where the
/// message is passed over: pressures, controls that don't act, messages of another manufacturer and other
/// messages of the DX7.
#[tactic(auto, unfolding(crate::specs::Message::command_of))]
pub fn from_message(
    alloc: Global,
    message: MidiMessage,
    sysex: &[u8],
    map: &VelocityMap,
) -> Result<Option<Command>, CommandFault>
    requires range { InRange message }
    requires bytes { length sysex.now ≤ 536870912 }
    ensures command { IfOk result (λ found. command_of message sysex.now (curve_of map.now) ≡ answer_outcome (option_map content found)) }
    ensures refused { IfErr result (λ why. IsRefusal why (command_of message sysex.now (curve_of map.now))) }
    ensures range { IfOk result (λ found. IfSome found (λ command. IsInRange (content command))) }
{
    Ok(match message {
        MidiMessage::NoteOff { channel, key } => Some(Command::NoteOff { channel, key }),
        MidiMessage::NoteOn {
            channel,
            key,
            velocity,
        } => Some(Command::NoteOn {
            channel,
            key,
            velocity: map.apply(velocity),
        }),
        MidiMessage::Control {
            channel,
            number,
            value,
        } => control(channel, number, value),
        MidiMessage::Program { channel, number } => Some(Command::Program { channel, number }),
        MidiMessage::Bend { channel, value } => Some(Command::Bend { channel, value }),
        MidiMessage::KeyPressure { .. } | MidiMessage::ChannelPressure { .. } => None,
        MidiMessage::SysEx { .. } => return from_exclusive(alloc, sysex),
        MidiMessage::SysExTooLong { length } => return Err(CommandFault::TooLong { length }),
    })
}

/// The command of a control, where it acts.
fn control(channel: u8, number: u8, value: u8) -> Option<Command>
    requires channel { channel ≤ 15 }
    requires value { value ≤ 127 }
    ensures outcome { answer_outcome (option_map content result) ≡ (if acts number then Yields (Controls channel number value) else PassedOver) }
    ensures range { IfSome result (λ command. IsInRange (content command)) }
{
    if is_known_control(number) {
        Some(Command::Control {
            channel,
            number,
            value,
        })
    } else {
        None
    }
}

/// The command of a SysEx message.
fn from_exclusive(alloc: Global, bytes: &[u8]) -> Result<Option<Command>, CommandFault>
    requires { length bytes.now ≤ 536870912 }
    ensures command { IfOk result (λ found. frame_outcome (first_fault bytes.now) (reading bytes.now) ≡ answer_outcome (option_map content found)) }
    ensures refused { IfErr result (λ why. IsRefusal why (frame_outcome (first_fault bytes.now) (reading bytes.now))) }
    ensures range { IfOk result (λ found. IfSome found (λ command. IsInRange (content command))) }
{
    match read_frame(bytes) {
        Ok(frame) => from_frame(alloc, frame),
        Err(fault) => from_fault(fault),
    }
}

/// The command of a message of the DX7.
fn from_frame(alloc: Global, frame: Frame<'_>) -> Result<Option<Command>, CommandFault>
    requires { IsSound (content_of frame) }
    ensures command { IfOk result (λ found. content_outcome (content_of frame.entry) ≡ answer_outcome (option_map content found)) }
    ensures refused { IfErr result (λ why. why ≡ Memory) }
    ensures range { IfOk result (λ found. IfSome found (λ command. IsInRange (content command))) }
{
    match frame {
        Frame::Voice { payload, .. } => voice(alloc, payload),
        Frame::Cartridge { payload, .. } => cartridge(alloc, payload),
        Frame::Param { number, value, .. } => Ok(Some(Command::Param { number, value })),
        Frame::OtherParam { .. } | Frame::Request { .. } => Ok(None),
    }
}

/// What comes of a message with this fault.
fn from_fault(fault: FrameFault) -> Result<Option<Command>, CommandFault>
    ensures command { IfOk result (λ found. fault_outcome fault ≡ answer_outcome (option_map content found)) }
    ensures refused { IfErr result (λ why. IsRefusal why (fault_outcome fault)) }
    ensures none { IfOk result (λ found. IsNone found) }
    ensures memory { result ≢ Err Memory }
{
    if fault.is_foreign() {
        Ok(None)
    } else {
        Err(CommandFault::Frame(fault))
    }
}

/// The voice of 155 bytes as they were sent.
fn voice(alloc: Global, payload: &[u8]) -> Result<Option<Command>, CommandFault>
    requires { length payload.now ≡ 155 }
    ensures command { IfOk result (λ found. option_map content found ≡ Some (LoadsVoice (clamped_voice payload.now))) }
    ensures refused { IfErr result (λ why. why ≡ Memory) }
    ensures range { IfOk result (λ found. IfSome found (λ command. IsInRange (content command))) }
{
    let mut bytes = [0; 155];
    bytes.copy_from_slice(payload);
    match Box::new(alloc, Voice::from_bytes(&bytes)) {
        Ok(voice) => Ok(Some(Command::Voice(voice))),
        Err(_) => Err(CommandFault::Memory),
    }
}

/// The cartridge of 4096 packed bytes.
fn cartridge(alloc: Global, payload: &[u8]) -> Result<Option<Command>, CommandFault>
    requires { length payload.now ≡ 4096 }
    ensures command { IfOk result (λ found. option_map content found ≡ Some (LoadsCartridge (voices_of payload.now))) }
    ensures refused { IfErr result (λ why. why ≡ Memory) }
    ensures range { IfOk result (λ found. IfSome found (λ command. IsInRange (content command))) }
{
    match Cartridge::from_payload(alloc, payload) {
        Ok(cartridge) => boxed(alloc, cartridge),
        Err(_) => Err(CommandFault::Memory),
    }
}

/// The command that loads a cartridge.
fn boxed(alloc: Global, cartridge: Cartridge) -> Result<Option<Command>, CommandFault>
    requires { IsCartridge cartridge }
    ensures command { IfOk result (λ found. option_map content found ≡ Some (LoadsCartridge cartridge)) }
    ensures refused { IfErr result (λ why. why ≡ Memory) }
    ensures range { IfOk result (λ found. IfSome found (λ command. IsInRange (content command))) }
{
    match Box::new(alloc, cartridge) {
        Ok(cartridge) => Ok(Some(Command::Cartridge(cartridge))),
        Err(_) => Err(CommandFault::Memory),
    }
}
