//! The messages of streams as events of a track.

ghost use Rattle.std.specs.Prelude.{ℕ, List, ◌≡◌, ◌+◌, ◌<◌, ◌≤◌, [], ◌∷◌, ◌++◌, length, IfOk, OnOk, None, true};
ghost use Rattle.std.specs.List.{flat_map};
ghost use Rattle.midi_stream.specs.Ended.{ended_message};
ghost use Rattle.midi_stream.specs.FedStream.{Reads};
ghost use Rattle.midi_file.specs.Chunks.{after_chunk, header_fault, track_count};
ghost use Rattle.script_read.specs.Plan.{is_midi_file};
ghost use Rattle.song_bank.specs.Messages.{ended_messages, listed};
ghost use Rattle.song_bank.specs.Event.{ended_event};
ghost use Rattle.song_bank.specs.Sound.{AreSound};
ghost use Rattle.song_bank.specs.Song.{events_of, header_with_track, stream_events, track_of, with_first_track};
ghost use Rattle.song_bank.specs.Promise.{AreFaultless, AreSoundStreams, Leads, bank_commands};

use crate::event::push_event;
use crate::song::push_header;
use midi_stream::MidiReader;
use std::alloc::{AllocError, Global};
use std::marker::Model;

/// The meta event that ends a track, with its delta time.
const END_OF_TRACK: [u8; 4] = [0, 0xFF, 0x2F, 0];

/// Messages of streams as the events of a track, in the order in which they were added. Contracts see the events' bytes.
#[derive(Drop)]
pub struct Bank {
    events: Vec<u8>,
}

impl Model for Bank {
    ghost use Rattle.std.specs.Prelude.{ℕ, List};

    ghost Value = { List ℕ };

    ghost view = { λ b. b.events.items };
}

impl Bank {
    /// No events.
    pub fn new(alloc: Global) -> Bank
        ensures { result ≡ [] }
    {
        Bank {
            events: Vec::new(alloc),
        }
    }

    /// How many bytes the events have.
    pub fn len(&self) -> usize
        ensures { result ≡ length self.now }
    {
        self.events.len()
    }

    /// Adds an event for each message of a stream. The one error is want of memory.
    #[tactic(auto, unfolding(crate::specs::Song::stream_events))]
    pub fn add_stream(&mut self, alloc: Global, stream: &[u8]) -> Result<(), AllocError>
        ensures events { OnOk result (self.new ≡ self.old ++ stream_events stream.now) }
        ensures sound { OnOk result (AreSound (ended_messages stream.now)) }
    {
        let mut reader = MidiReader::new(alloc)?;
        for byte in stream {
            push_ended(&mut self.events, &mut reader, *byte)?;
        }
        Ok(())
    }

    /// The first chunks of a song with these events before it: its header, with format 1 and one more track, and that track. The song's
    /// other chunks come after them as they are. The one error is want of memory.
    pub fn first_chunks(&self, alloc: Global, song: &[u8]) -> Result<Vec<u8>, AllocError>
        requires name { is_midi_file song.now ≡ true }
        requires header { header_fault song.now ≡ None }
        requires tracks { track_count song.now < 65535 }
        requires small { length self.now ≤ 536870912 }
        ensures whole { IfOk result (λ start. start.items ++ after_chunk song.now ≡ with_first_track song.now self.now) }
        ensures leads { IfOk result (λ start. (streams : List (List ℕ)) → self.now ≡ events_of streams → AreSoundStreams streams
            → AreFaultless streams → Leads (bank_commands streams) song.now (start.items ++ after_chunk song.now)) }
    {
        let mut start = Vec::new(alloc);
        push_header(&mut start, song)?;
        self.push_track(&mut start)?;
        Ok(start)
    }

    /// Adds the track of the events.
    fn push_track(&self, bytes: &mut Vec<u8>) -> Result<(), AllocError>
        requires { length self.now ≤ 536870912 }
        ensures { OnOk result (bytes.new.items ≡ bytes.old.items ++ track_of self.now) }
    {
        let length = (self.events.len() + END_OF_TRACK.len()) as u32;
        bytes.extend_from_slice(b"MTrk")?;
        bytes.extend_from_slice(&length.to_be_bytes())?;
        bytes.extend_from_slice(&self.events)?;
        bytes.extend_from_slice(&END_OF_TRACK)
    }
}

/// Adds the event of the message that ends with a byte, where one does.
fn push_ended(events: &mut Vec<u8>, reader: &mut MidiReader, byte: u8) -> Result<(), AllocError>
    ensures reads { (stream : List ℕ) → Reads reader.old stream → Reads reader.new (stream ++ byte ∷ []) }
    ensures events { OnOk result ((stream : List ℕ) → Reads reader.old stream
        → events.new.items ≡ events.old.items ++ flat_map ended_event (listed (ended_message stream byte))) }
    ensures sound { OnOk result ((stream : List ℕ) → Reads reader.old stream → AreSound (listed (ended_message stream byte))) }
{
    match reader.feed(byte) {
        Some(message) => push_event(events, message, reader.sysex()),
        None => Ok(()),
    }
}
