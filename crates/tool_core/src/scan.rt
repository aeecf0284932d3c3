//! The scan of a file: where its SysEx messages end, and what they hold.

ghost use Rattle.std.specs.Prelude.{ℕ, ◌≡◌, ◌≤◌, ◌<◌, ◌+◌, ◌==◌, [], ◌∷◌, ◌++◌, List, Option, Some, false, length, slice_index};
ghost use Rattle.std.specs.Prelude.{OnOk, IfOk, IfSome, option_map, if◌then◌else◌};
ghost use Rattle.std.specs.Option.{option_or};
ghost use Rattle.midi_stream.specs.Messages.{is_unfinished};
ghost use Rattle.midi_stream.specs.Ranges.{InRange};
ghost use Rattle.midi_stream.specs.Standing.{HasBytes};
ghost use Rattle.cartridge.specs.Cartridge.{voices_of};
ghost use Rattle.sysex_frame.specs.Frame.{content_of};
ghost use Rattle.command_set.specs.Message.{clamped_voice};
ghost use Rattle.tool_core.specs.SysEx.{SysExMessage, sysex_messages, sysex_before, is_too_long, placed};
ghost use Rattle.tool_core.specs.Scans.{Follows, HasSizes, IsScan, TellsOf};
ghost use Rattle.tool_core.specs.Refusals.{cartridge_bytes, fault_at, voice_bytes};

use crate::refusal::Refusal;
use cartridge::Cartridge;
use midi_stream::{MidiMessage, MidiReader};
use std::alloc::{AllocError, Global};
use sysex_frame::{Frame, FrameFault, read_frame};
use voice_record::Voice;

/// A SysEx message that has ended: the offset of its `F0`, and whether it has more than 5000 bytes.
#[derive(Clone, Copy, Debug, PartialEq, Eq)]
pub(crate) struct EndedSysEx {
    pub(crate) offset: u32,
    pub(crate) is_too_long: bool,
}

/// What a message of a stream tells of a SysEx message that began at an offset.
pub(crate) fn ending_of(message: Option<MidiMessage>, offset: u32) -> Option<EndedSysEx>
    requires { IfSome message InRange }
    ensures { (kept : Option (List ℕ)) → IfSome message (λ m. HasBytes m kept) → TellsOf result (placed message offset kept) }
{
    match message {
        Some(MidiMessage::SysEx { .. }) => Some(EndedSysEx {
            offset,
            is_too_long: false,
        }),
        Some(MidiMessage::SysExTooLong { .. }) => Some(EndedSysEx {
            offset,
            is_too_long: true,
        }),
        _ => None,
    }
}

/// Where the last `F0` stands, after a byte at an offset.
fn start_after(start: u32, offset: u32, byte: u8) -> u32
    ensures { result ≡ (if byte == 240 then offset else start) }
{
    if byte == 0xF0 { offset } else { start }
}

/// A scanner over a file, byte by byte, that tells where a SysEx message ends.
#[derive(Drop)]
pub(crate) struct Scanner {
    reader: MidiReader,
    start: u32,
}

impl Scanner {
    ghost use Rattle.std.specs.Prelude.{ℕ, ◌≤◌, ◌<◌, ◌+◌, List, length, slice_index, Some, false, IfOk};
    ghost use Rattle.midi_stream.specs.Messages.{is_unfinished};
    ghost use Rattle.tool_core.specs.SysEx.{SysExMessage, sysex_at, is_too_long};
    ghost use Rattle.tool_core.specs.Scans.{Follows, TellsOf};

    /// A scanner that is to begin. It asks for all the memory that it needs.
    pub(crate) fn new(alloc: Global) -> Result<Scanner, AllocError>
        ensures { IfOk result (λ scanner. (file : List ℕ) → Follows scanner file 0) }
    {
        Ok(Scanner {
            reader: MidiReader::new(alloc)?,
            start: 0,
        })
    }

    /// Reads the byte at an offset, and tells of the SysEx message that ends with it.
    pub(crate) fn feed(&mut self, offset: u32, byte: u8) -> Option<EndedSysEx>
        ensures follows { (file : List ℕ) → offset < length file → slice_index file offset ≡ byte → Follows self.old file offset
            → Follows self.new file (offset + 1) }
        ensures ended { (file : List ℕ) → offset < length file → slice_index file offset ≡ byte → Follows self.old file offset
            → TellsOf result (sysex_at file offset) }
    {
        let start = self.start;
        let message = self.reader.feed(byte);
        self.start = start_after(start, offset, byte);
        ending_of(message, start)
    }

    /// The bytes of the message that ended with the last byte, where it isn't too long.
    pub(crate) fn message(&self) -> &[u8]
        ensures bytes { (file : List ℕ) (offset : ℕ) (sysex : SysExMessage) → Follows self.now file (offset + 1)
            → sysex_at file offset ≡ Some sysex → is_too_long sysex ≡ false → result.now ≡ sysex.bytes }
        ensures bound { length result.now ≤ 5000 }
    {
        self.reader.sysex()
    }

    /// Whether the file ends within a message.
    pub(crate) fn is_cut(&self) -> bool
        ensures { (file : List ℕ) → Follows self.now file (length file) → result ≡ is_unfinished file }
    {
        !self.reader.at_rest()
    }
}

/// The first bad message of a file, the first that is too long, the first voice and the first cartridge, and
/// whether the file ends within a message.
#[derive(Drop)]
pub(crate) struct Scan {
    pub(crate) bad: Option<Refusal>,
    pub(crate) long: Option<Refusal>,
    pub(crate) voice: Option<Voice>,
    pub(crate) cartridge: Option<Cartridge>,
    pub(crate) is_cut: bool,
}

/// Passes once over a file.
pub(crate) fn scan_file(alloc: Global, file: &[u8]) -> Result<Scan, AllocError>
    requires { length file.now ≤ 16777216 }
    ensures scanned { IfOk result (λ scan. IsScan scan (sysex_messages file.now)) }
    ensures cut { IfOk result (λ scan. scan.is_cut ≡ is_unfinished file.now) }
{
    let mut scanner = Scanner::new(alloc)?;
    let mut scan = Scan {
        bad: None,
        long: None,
        voice: None,
        cartridge: None,
        is_cut: false,
    };
    for (offset, byte) in file.iter().enumerate() {
        scan_byte(alloc, &mut scan, &mut scanner, offset as u32, *byte)?;
    }
    scan.is_cut = scanner.is_cut();
    Ok(scan)
}

/// Scans the byte at an offset.
fn scan_byte(
    alloc: Global,
    scan: &mut Scan,
    scanner: &mut Scanner,
    offset: u32,
    byte: u8,
) -> Result<(), AllocError>
    ensures follows { (file : List ℕ) → offset < length file → slice_index file offset ≡ byte → Follows scanner.old file offset
        → Follows scanner.new file (offset + 1) }
    ensures scanned { OnOk result ((file : List ℕ) → offset < length file → slice_index file offset ≡ byte → Follows scanner.old file offset
        → IsScan scan.old (sysex_before file offset) → IsScan scan.new (sysex_before file (offset + 1))) }
{
    match scanner.feed(offset, byte) {
        Some(ended) => scan_message(alloc, scan, ended, scanner.message()),
        None => Ok(()),
    }
}

/// Scans a message that has ended.
fn scan_message(
    alloc: Global,
    scan: &mut Scan,
    ended: EndedSysEx,
    message: &[u8],
) -> Result<(), AllocError>
    requires { length message.now ≤ 5000 }
    ensures { OnOk result ((messages : List SysExMessage) (sysex : SysExMessage) → TellsOf (Some ended) (Some sysex)
        → (is_too_long sysex ≡ false → message.now ≡ sysex.bytes)
        → IsScan scan.old messages → IsScan scan.new (messages ++ sysex ∷ [])) }
{
    if ended.is_too_long {
        let refusal = Refusal::TooLong {
            offset: ended.offset,
        };
        scan.bad = scan.bad.or(Some(refusal));
        scan.long = scan.long.or(Some(refusal));
        return Ok(());
    }
    match read_frame(message) {
        Ok(frame) => scan_frame(alloc, scan, frame),
        Err(fault) => {
            scan.bad = scan.bad.or(refusal_of(ended.offset, fault));
            Ok(())
        }
    }
}

/// Why a message with this fault is refused, where it is.
pub(crate) fn refusal_of(offset: u32, fault: FrameFault) -> Option<Refusal>
    ensures { result ≡ fault_at offset (Some fault) }
{
    if fault.is_foreign() {
        None
    } else {
        Some(Refusal::Fault { offset, fault })
    }
}

/// Scans a good message.
fn scan_frame(alloc: Global, scan: &mut Scan, frame: Frame<'_>) -> Result<(), AllocError>
    requires { HasSizes (content_of frame) }
    ensures bad { scan.new.bad ≡ scan.old.bad }
    ensures long { scan.new.long ≡ scan.old.long }
    ensures voice { OnOk result (scan.new.voice ≡ option_or scan.old.voice (option_map clamped_voice (voice_bytes (content_of frame.entry)))) }
    ensures cartridge { OnOk result (scan.new.cartridge
        ≡ option_or scan.old.cartridge (option_map voices_of (cartridge_bytes (content_of frame.entry)))) }
{
    match frame {
        Frame::Voice { payload, .. } => {
            scan.voice = scan.voice.or(Some(clamp(payload)));
            Ok(())
        }
        Frame::Cartridge { payload, .. } => {
            if scan.cartridge.is_none() {
                scan.cartridge = Some(unpack(alloc, payload)?);
            }
            Ok(())
        }
        Frame::Param { .. } | Frame::OtherParam { .. } | Frame::Request { .. } => Ok(()),
    }
}

/// The voice that 155 bytes hold.
pub(crate) fn clamp(payload: &[u8]) -> Voice
    requires { length payload.now ≡ 155 }
    ensures { result ≡ clamped_voice payload.now }
{
    let mut bytes = [0; 155];
    bytes.copy_from_slice(payload);
    Voice::from_bytes(&bytes)
}

/// The 32 voices that 4096 bytes hold.
fn unpack(alloc: Global, payload: &[u8]) -> Result<Cartridge, AllocError>
    requires { length payload.now ≡ 4096 }
    ensures { IfOk result (λ cartridge. cartridge ≡ voices_of payload.now) }
{
    Cartridge::from_payload(alloc, payload)
}
