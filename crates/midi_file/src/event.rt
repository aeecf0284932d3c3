//! One event of a track of a MIDI file.

ghost use Rattle.std.specs.Prelude.{◌≡◌, ◌==◌, ◌<◌, ◌≤◌, [], ◌∷◌, length, if◌then◌else◌, IfErr, IfOk};
ghost use Rattle.midi_file.specs.Event.{Broken, Event, channel_event, event_at, event_after, exclusive_event, meta_kind, meta_event, second_event};
ghost use Rattle.midi_file.specs.Values.{IsSoundKind, kind_data, event_data};

use crate::bytes::{read_counted, read_data, read_quantity};
use byteorder::{BigEndian, ByteOrder};
use midi_stream::{MidiMessage, has_one_data_byte, message_of_one, message_of_two};
use script_outcome::ScriptKind;

/// The type of the meta event that sets the tempo, where it has three bytes.
const TEMPO: u8 = 0x51;

/// The type of the meta event that ends a track.
const END_OF_TRACK: u8 = 0x2F;

/// What an event does.
#[derive(Clone, Copy, Debug, Drop)]
pub(crate) enum EventKind<'a> {
    /// It is a channel message.
    Message(MidiMessage),
    /// It begins a system exclusive message with the bytes after its `F0`.
    Exclusive(&'a [u8]),
    /// It has bytes that go on where earlier ones ended.
    Continued(&'a [u8]),
    /// It sets the tempo: microseconds for a quarter note.
    Tempo(u32),
    /// It ends the track.
    End,
    /// Nothing: it is passed over.
    Other,
}

/// An event: its ticks after the one before, what it does, the running status after it (0 where there
/// is none), and the bytes after it.
#[derive(Clone, Copy, Debug, Drop)]
pub(crate) struct MidiEvent<'a> {
    pub(crate) delta: u32,
    pub(crate) kind: EventKind<'a>,
    pub(crate) running: u8,
    pub(crate) rest: &'a [u8],
}

/// Reads the event at the beginning of bytes, by the running status before it.
#[tactic(auto, unfolding(crate::specs::Event::event_at))]
pub(crate) fn read_event(running: u8, bytes: &[u8]) -> Result<MidiEvent<'_>, ScriptKind>
    ensures ok { IfOk result (λ e. event_at running bytes.now ≡ Event (event_data e)) }
    ensures err { IfErr result (λ why. event_at running bytes.now ≡ Broken why) }
    ensures sound { IfOk result (λ e. IsSoundKind e.kind) }
    ensures shorter { IfOk result (λ e. length e.rest.now < length bytes.now) }
{
    match read_quantity(bytes) {
        Ok((delta, rest)) => read_after(running, delta, rest),
        Err(kind) => Err(kind),
    }
}

/// An event after its delta time.
#[tactic(auto, unfolding(crate::specs::Event::event_after))]
fn read_after(running: u8, delta: u32, bytes: &[u8]) -> Result<MidiEvent<'_>, ScriptKind>
    ensures ok { IfOk result (λ e. event_after running delta bytes.now ≡ Event (event_data e)) }
    ensures err { IfErr result (λ why. event_after running delta bytes.now ≡ Broken why) }
    ensures sound { IfOk result (λ e. IsSoundKind e.kind) }
    ensures shorter { IfOk result (λ e. length e.rest.now ≤ length bytes.now) }
{
    match bytes.split_first() {
        None => Err(ScriptKind::Cut),
        Some((first, rest)) => {
            let status = *first;
            if status < 0x80 {
                read_running(running, delta, bytes)
            } else if status < 0xF0 {
                read_channel(delta, status, rest)
            } else if status == 0xF0 {
                read_exclusive(delta, rest)
            } else if status == 0xF7 {
                read_continued(delta, rest)
            } else if status == 0xFF {
                read_meta(delta, running, rest)
            } else {
                Err(ScriptKind::Event)
            }
        }
    }
}

/// A channel event by the running status, which there must be.
fn read_running(running: u8, delta: u32, bytes: &[u8]) -> Result<MidiEvent<'_>, ScriptKind>
    ensures ok { IfOk result (λ e. (if running == 0 then Broken ScriptKind.Event else channel_event delta running bytes.now) ≡ Event (event_data e)) }
    ensures err { IfErr result (λ why. (if running == 0 then Broken ScriptKind.Event else channel_event delta running bytes.now) ≡ Broken why) }
    ensures sound { IfOk result (λ e. IsSoundKind e.kind) }
    ensures shorter { IfOk result (λ e. length e.rest.now ≤ length bytes.now) }
{
    if running == 0 {
        Err(ScriptKind::Event)
    } else {
        read_channel(delta, running, bytes)
    }
}

/// A channel event by its data bytes.
#[tactic(auto, unfolding(crate::specs::Event::channel_event))]
fn read_channel(delta: u32, status: u8, bytes: &[u8]) -> Result<MidiEvent<'_>, ScriptKind>
    ensures ok { IfOk result (λ e. channel_event delta status bytes.now ≡ Event (event_data e)) }
    ensures err { IfErr result (λ why. channel_event delta status bytes.now ≡ Broken why) }
    ensures sound { IfOk result (λ e. IsSoundKind e.kind) }
    ensures shorter { IfOk result (λ e. length e.rest.now ≤ length bytes.now) }
{
    match read_data(bytes) {
        Ok((first, rest)) => {
            if has_one_data_byte(status) {
                let kind = EventKind::Message(message_of_one(status, first));
                Ok(MidiEvent {
                    delta,
                    kind,
                    running: status,
                    rest,
                })
            } else {
                read_second(delta, status, first, rest)
            }
        }
        Err(kind) => Err(kind),
    }
}

/// A channel event of two data bytes, by its second one.
fn read_second(delta: u32, status: u8, first: u8, bytes: &[u8]) -> Result<MidiEvent<'_>, ScriptKind>
    requires { first < 128 }
    ensures ok { IfOk result (λ e. second_event delta status first bytes.now ≡ Event (event_data e)) }
    ensures err { IfErr result (λ why. second_event delta status first bytes.now ≡ Broken why) }
    ensures sound { IfOk result (λ e. IsSoundKind e.kind) }
    ensures shorter { IfOk result (λ e. length e.rest.now ≤ length bytes.now) }
{
    match read_data(bytes) {
        Ok((second, rest)) => {
            let kind = EventKind::Message(message_of_two(status, first, second));
            Ok(MidiEvent {
                delta,
                kind,
                running: status,
                rest,
            })
        }
        Err(kind) => Err(kind),
    }
}

/// A system exclusive event, which begins a message.
#[tactic(auto, unfolding(crate::specs::Event::exclusive_event))]
fn read_exclusive(delta: u32, bytes: &[u8]) -> Result<MidiEvent<'_>, ScriptKind>
    ensures ok { IfOk result (λ e. exclusive_event delta (240 ∷ []) bytes.now ≡ Event (event_data e)) }
    ensures err { IfErr result (λ why. exclusive_event delta (240 ∷ []) bytes.now ≡ Broken why) }
    ensures sound { IfOk result (λ e. IsSoundKind e.kind) }
    ensures shorter { IfOk result (λ e. length e.rest.now ≤ length bytes.now) }
{
    match read_counted(bytes) {
        Ok((message, rest)) => Ok(MidiEvent {
            delta,
            kind: EventKind::Exclusive(message),
            running: 0,
            rest,
        }),
        Err(kind) => Err(kind),
    }
}

/// A system exclusive event that goes on with a message, or has bytes of any kind.
#[tactic(auto, unfolding(crate::specs::Event::exclusive_event))]
fn read_continued(delta: u32, bytes: &[u8]) -> Result<MidiEvent<'_>, ScriptKind>
    ensures ok { IfOk result (λ e. exclusive_event delta [] bytes.now ≡ Event (event_data e)) }
    ensures err { IfErr result (λ why. exclusive_event delta [] bytes.now ≡ Broken why) }
    ensures sound { IfOk result (λ e. IsSoundKind e.kind) }
    ensures shorter { IfOk result (λ e. length e.rest.now ≤ length bytes.now) }
{
    match read_counted(bytes) {
        Ok((message, rest)) => Ok(MidiEvent {
            delta,
            kind: EventKind::Continued(message),
            running: 0,
            rest,
        }),
        Err(kind) => Err(kind),
    }
}

/// A meta event after its `FF`. The running status holds over it.
#[tactic(auto, unfolding(crate::specs::Event::meta_event))]
fn read_meta(delta: u32, running: u8, bytes: &[u8]) -> Result<MidiEvent<'_>, ScriptKind>
    ensures ok { IfOk result (λ e. meta_event delta running bytes.now ≡ Event (event_data e)) }
    ensures err { IfErr result (λ why. meta_event delta running bytes.now ≡ Broken why) }
    ensures sound { IfOk result (λ e. IsSoundKind e.kind) }
    ensures shorter { IfOk result (λ e. length e.rest.now ≤ length bytes.now) }
{
    match bytes.split_first() {
        None => Err(ScriptKind::Cut),
        Some((meta, counted)) => match read_counted(counted) {
            Ok((text, rest)) => Ok(MidiEvent {
                delta,
                kind: kind_of_meta(*meta, text),
                running,
                rest,
            }),
            Err(kind) => Err(kind),
        },
    }
}

/// What a meta event does, by its type and its bytes.
fn kind_of_meta<'a>(meta: u8, text: &[u8]) -> EventKind<'a>
    ensures kind { kind_data result ≡ meta_kind meta text.now }
    ensures sound { IsSoundKind result }
{
    if meta == TEMPO && text.len() == 3 {
        EventKind::Tempo(BigEndian::read_u24(text))
    } else if meta == END_OF_TRACK {
        EventKind::End
    } else {
        EventKind::Other
    }
}
