//! The messages of a stream of MIDI bytes: those of a channel, and system exclusive ones by their length.

/// A message of a MIDI stream. Channels are 0 to 15, keys, numbers, velocities and values 0 to 127.
#[derive(Clone, Copy, PartialEq, Eq, Debug, Drop)]
pub enum MidiMessage {
    /// Status `80`, or a note-on with velocity 0.
    NoteOff { channel: u8, key: u8 },
    /// Status `90` with a velocity from 1 on.
    NoteOn { channel: u8, key: u8, velocity: u8 },
    /// Status `A0`.
    KeyPressure { channel: u8, key: u8, value: u8 },
    /// Status `B0`.
    Control { channel: u8, number: u8, value: u8 },
    /// Status `C0`.
    Program { channel: u8, number: u8 },
    /// Status `D0`.
    ChannelPressure { channel: u8, value: u8 },
    /// Status `E0`: 0 to 16383, 8192 in the middle.
    Bend { channel: u8, value: u16 },
    /// A SysEx message of so many bytes, from `F0` to `F7`.
    SysEx { length: u32 },
    /// One above 5000 bytes; the length stops at 4294967295.
    SysExTooLong { length: u32 },
}
