//! Where in a message a stream stands.

ghost use Rattle.std.specs.Prelude.{◌≡◌};

/// Where in a message a stream stands.
#[derive(Clone, Copy, Debug, Drop)]
pub(crate) enum ParserState {
    /// In none that counts.
    Between,
    /// After a channel status.
    Begun { status: u8 },
    /// After a whole channel message, whose status still holds.
    Running { status: u8 },
    /// After the first of two data bytes.
    Half { status: u8, first: u8 },
    /// In a SysEx message, of which so many bytes came.
    InSysEx { count: u32 },
}

impl ParserState {
    ghost use Rattle.midi_stream.specs.ParserState.{rests};

    /// Whether no message has begun that isn't ended.
    pub(crate) fn is_at_rest(self) -> bool
        ensures { result ≡ rests self }
    {
        match self {
            ParserState::Between | ParserState::Running { .. } => true,
            ParserState::Begun { .. } | ParserState::Half { .. } | ParserState::InSysEx { .. } =>
                false,
        }
    }
}
