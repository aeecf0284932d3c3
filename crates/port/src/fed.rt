//! What came of a feed.

ghost use Rattle.std.specs.Prelude.{◌≡◌, ◌+◌, ◌<◌, ◌^◌};

/// Why a feed stopped.
#[derive(Clone, Copy, Debug, PartialEq, Eq)]
pub enum PortStop {
    /// Every byte was used, and nothing is kept.
    All,
    /// The line was full. The command is kept, and is sent first at the next feed.
    Full,
    /// Memory has run out. The message is kept, and is read first at the next feed.
    Memory,
}

/// What came of one feed.
#[derive(Clone, Copy, Debug, PartialEq, Eq)]
pub struct Fed {
    /// How many bytes were used.
    pub used: usize,
    /// How many commands the line accepted.
    pub sent: u32,
    /// How many messages have no command.
    pub passed_over: u32,
    /// How many system exclusive messages are too long or have a fault.
    pub refused: u32,
    /// Why the feed stopped.
    pub stop: PortStop,
}

impl Fed {
    /// Nothing came of it, and nothing is kept.
    pub(crate) const NOTHING: Fed = Fed {
        used: 0,
        sent: 0,
        passed_over: 0,
        refused: 0,
        stop: PortStop::All,
    };

    /// A command was accepted.
    pub(crate) const SENT: Fed = Fed {
        used: 0,
        sent: 1,
        passed_over: 0,
        refused: 0,
        stop: PortStop::All,
    };

    /// A message was passed over.
    pub(crate) const PASSED_OVER: Fed = Fed {
        used: 0,
        sent: 0,
        passed_over: 1,
        refused: 0,
        stop: PortStop::All,
    };

    /// A message was refused.
    pub(crate) const REFUSED: Fed = Fed {
        used: 0,
        sent: 0,
        passed_over: 0,
        refused: 1,
        stop: PortStop::All,
    };

    /// A command found the line full.
    pub(crate) const FULL: Fed = Fed {
        used: 0,
        sent: 0,
        passed_over: 0,
        refused: 0,
        stop: PortStop::Full,
    };

    /// A message wanted memory.
    pub(crate) const MEMORY: Fed = Fed {
        used: 0,
        sent: 0,
        passed_over: 0,
        refused: 0,
        stop: PortStop::Memory,
    };

    /// This and then that.
    pub(crate) fn and(self, next: Fed) -> Fed
        requires used { self.used + next.used < 2 ^ 64 }
        requires sent { self.sent + next.sent < 2 ^ 32 }
        requires passed_over { self.passed_over + next.passed_over < 2 ^ 32 }
        requires refused { self.refused + next.refused < 2 ^ 32 }
        ensures { result ≡ record {
          used = self.used + next.used;
          sent = self.sent + next.sent;
          passed_over = self.passed_over + next.passed_over;
          refused = self.refused + next.refused;
          stop = next.stop;
        } }
    {
        Fed {
            used: self.used + next.used,
            sent: self.sent + next.sent,
            passed_over: self.passed_over + next.passed_over,
            refused: self.refused + next.refused,
            stop: next.stop,
        }
    }
}
