//! The port: the commands of a stream's messages go to the line, and what can't go is kept for the next feed.

ghost use Rattle.std.specs.Prelude.{ℕ, List, ◌≡◌, ◌≢◌, ◌+◌, ◌-◌, ◌<◌, ◌≤◌, ◌⊎◌, [], ◌∷◌, ◌++◌, None, take, length};
ghost use Rattle.std.specs.Prelude.{slice_index, IfOk, IfErr};
ghost use Rattle.velocity_map.specs.Map.{curve_of};
ghost use Rattle.command_set.specs.Message.{MessageOutcome};
ghost use Rattle.command_queue.specs.Ends.{quota_of};
ghost use Rattle.port.specs.Feeding.{Handles};
ghost use Rattle.port.specs.Keeping.{KeepsAt};
ghost use Rattle.port.specs.Ranges.{SendsInRange};
ghost use Rattle.port.specs.Handling.{OneMore};
ghost use Rattle.port.specs.Stopping.{FullOnly, refusals_after};

use crate::fed::{Fed, PortStop};
use crate::handling::{handle, send};
use crate::kept::Kept;
use command_queue::{Line, SendEnd};
use midi_stream::MidiReader;
use std::alloc::Global;
use std::sync::Wait;
use velocity_map::VelocityMap;

/// A live stream of MIDI bytes on its way to a line, with a velocity map, and what is kept for the next feed.
#[derive(Drop)]
pub struct Port {
    reader: MidiReader,
    map: VelocityMap,
    kept: Option<Kept>,
}

impl Port {
    ghost use Rattle.port.specs.Used.{Used, port_curve, IsClear, KeepsAs, Receives};

    /// A port with a map, which has used no byte. Where memory is wanted, the map is given back.
    pub fn new(alloc: Global, map: VelocityMap) -> Result<Port, VelocityMap>
        ensures used { IfOk result (λ port. Used port [] []) }
        ensures curve { IfOk result (λ port. port_curve port ≡ curve_of map) }
        ensures back { IfErr result (λ back. back ≡ map) }
    {
        match MidiReader::new(alloc) {
            Ok(reader) => Ok(Port {
                reader,
                map,
                kept: None,
            }),
            Err(_) => Err(map),
        }
    }

    // Tries what is kept.
    fn retry<R: Wait>(&mut self, rt: &R, alloc: Global, line: &Line, end: &mut SendEnd) -> Fed
        requires line { end.old.line ≡ line.now }
        requires quota { length end.old.list < quota_of end.old }
        ensures received { (done : List MessageOutcome) (stream : List ℕ) → Used self.old done stream
            → Receives self.new done stream end.old end.new result }
        ensures curve { port_curve self.new ≡ port_curve self.old }
        ensures keeps { KeepsAs self.new result.stop }
        ensures one { OneMore end.old end.new 0 result }
        ensures ranges { SendsInRange end.old end.new }
    {
        match self.kept.take() {
            None => Fed::NOTHING,
            Some(Kept::Command(waiting)) => send(
                rt,
                line,
                end,
                &mut self.kept,
                waiting.into_command(),
            ),
            Some(Kept::Message(ended)) => handle(
                rt,
                alloc,
                line,
                end,
                &mut self.kept,
                &self.map,
                ended.into_message(),
                self.reader.sysex(),
            ),
        }
    }

    // Uses the next byte.
    fn use_byte<R: Wait>(
        &mut self,
        rt: &R,
        alloc: Global,
        line: &Line,
        end: &mut SendEnd,
        byte: u8,
    ) -> Fed
        requires line { end.old.line ≡ line.now }
        requires quota { length end.old.list < quota_of end.old }
        requires clear { IsClear self.old }
        ensures received { (done : List MessageOutcome) (stream : List ℕ) → Used self.old done stream
            → Receives self.new done (stream ++ byte ∷ []) end.old end.new result }
        ensures curve { port_curve self.new ≡ port_curve self.old }
        ensures keeps { KeepsAs self.new result.stop }
        ensures one { OneMore end.old end.new 1 result }
        ensures ranges { SendsInRange end.old end.new }
    {
        let fed = match self.reader.feed(byte) {
            None => Fed::NOTHING,
            Some(message) => handle(
                rt,
                alloc,
                line,
                end,
                &mut self.kept,
                &self.map,
                message,
                self.reader.sysex(),
            ),
        };
        Fed { used: 1, ..fed }
    }

    /// Sends what was kept, and then the commands of the messages of the next bytes, each with `sent_at` 0. It stops where the line is full or
    /// memory has run out, and keeps what it could not send. The end may still send as many entries as there are bytes, and one more.
    pub fn feed<R: Wait>(
        &mut self,
        rt: &R,
        alloc: Global,
        line: &Line,
        end: &mut SendEnd,
        bytes: &[u8],
    ) -> Fed
        requires line { end.old.line ≡ line.now }
        requires quota { length end.old.list + length bytes.now + 1 ≤ quota_of end.old }
        ensures fed { (done : List MessageOutcome) (stream : List ℕ) → Used self.old done stream
            → Receives self.new done (stream ++ take result.used bytes.now) end.old end.new result }
        ensures ranges { SendsInRange end.old end.new }
        ensures curve { port_curve self.new ≡ port_curve self.old }
        ensures keeps { KeepsAs self.new result.stop }
        ensures used { result.used ≤ length bytes.now }
        ensures all { result.stop ≡ PortStop.All → result.used ≡ length bytes.now }
        ensures full { FullOnly result.stop end.new }
        ensures refusals { end.new.refusals ≡ refusals_after result.stop end.old.refusals }
        ensures same { (end.new.line ≡ end.old.line) × (end.new.number ≡ end.old.number) }
        ensures count { length end.new.list ≡ length end.old.list + result.sent }
        ensures few { result.sent + result.passed_over + result.refused ≤ result.used + 1 }
    {
        let quota = end.quota();
        prove!(bytes.len() < quota as usize);
        let mut fed = self.retry(rt, alloc, line, end);
        if fed.stop != PortStop::All {
            return fed;
        }
        for byte in bytes {
            fed = fed.and(self.use_byte(rt, alloc, line, end, *byte));
            if fed.stop != PortStop::All {
                return fed;
            }
        }
        fed
    }
}
