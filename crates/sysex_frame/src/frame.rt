//! What a message holds, and why bytes are no message.

/// What a message holds. A device number is kept and not looked at.
#[derive(Clone, Copy, Debug, PartialEq, Eq)]
pub enum Frame<'a> {
    /// The 155 parameters of a voice as they were sent.
    Voice { device: u8, payload: &'a [u8] },
    /// The 32 packed voices of a cartridge, 4096 bytes as they were sent.
    Cartridge { device: u8, payload: &'a [u8] },
    /// A parameter of the voice from 0 to 154, or the operator switch 155, and its new value.
    Param { device: u8, number: u8, value: u8 },
    /// A parameter of another group, or a function parameter of group 0.
    OtherParam { device: u8, group: u8, number: u16 },
    /// A request for a dump.
    Request { device: u8 },
}

/// The first fault of bytes that are no message.
#[derive(Clone, Copy, Debug, PartialEq, Eq)]
pub enum FrameFault {
    /// It is shorter than 2 bytes, doesn't begin with `F0` or doesn't end with `F7`.
    NotFramed,
    /// The manufacturer ID isn't `43`.
    NotYamaha,
    /// A byte of 128 or more stands at this place.
    DataByte { place: u32 },
    /// It has fewer than 5 bytes.
    Short { length: u32 },
    /// The substatus is none of 0, 1 and 2.
    UnknownSubstatus { found: u8 },
    /// A dump is neither of one voice nor of 32 voices.
    UnknownFormat { found: u8 },
    /// The count bytes of a dump aren't those of its format.
    CountBytes { high: u8, low: u8 },
    /// The length isn't that of its kind.
    Length { found: u32, wanted: u32 },
    /// The checksum isn't that of the payload.
    Checksum { found: u8, wanted: u8 },
    /// The value is above the greatest of its parameter.
    ParamValue { number: u8, value: u8 },
}

impl FrameFault {
    ghost use Rattle.std.specs.Prelude.{◌≡◌};
    ghost use Rattle.sysex_frame.specs.FrameFault.{is_foreign};

    /// Whether the bytes are a message of another manufacturer, or of a kind that the DX7 doesn't know. Whoever reads a
    /// stream passes over these, and refuses all other faults.
    pub fn is_foreign(self) -> bool
        ensures { result ≡ is_foreign self }
    {
        match self {
            FrameFault::NotYamaha
            | FrameFault::UnknownSubstatus { .. }
            | FrameFault::UnknownFormat { .. } => true,
            FrameFault::NotFramed
            | FrameFault::DataByte { .. }
            | FrameFault::Short { .. }
            | FrameFault::CountBytes { .. }
            | FrameFault::Length { .. }
            | FrameFault::Checksum { .. }
            | FrameFault::ParamValue { .. } => false,
        }
    }
}
