//! The opening voice.
ghost use Rattle.note_voice.specs.Opening.{OpeningIsPlain};

/// A law, with nothing to compute: in a note of the opening voice operators 2 to 6 are silent, for every key, velocity, release
/// and whatever moves the note, no level is attenuated, and with no bend and no wheel its pitch is not moved.
pub fn opening_is_plain()
    ensures { OpeningIsPlain }
{}
