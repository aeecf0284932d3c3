//! The numbers of a voice's parameters, as in the DX7's parameter change message.
//!
//! The six operators come first, operator 6 before operator 1, with 21 parameters each; what belongs to the whole
//! voice follows from number 126 on.

/// How many parameters an operator has.
pub const OPERATOR_FIELDS: u8 = 21;

/// The first of the four pitch rates; the first number after the six operators.
pub const PITCH_RATES: u8 = 126;

/// The first of the four pitch levels.
pub const PITCH_LEVELS: u8 = 130;

/// The algorithm, 0 to 31: the panel's number less 1.
pub const ALGORITHM: u8 = 134;

/// The feedback, 0 to 7.
pub const FEEDBACK: u8 = 135;

/// The LFO's speed, 0 to 99.
pub const LFO_SPEED: u8 = 137;

/// The LFO's delay, 0 to 99.
pub const LFO_DELAY: u8 = 138;

/// How far the LFO moves the pitch, 0 to 99.
pub const LFO_PITCH_DEPTH: u8 = 139;

/// How far the LFO takes levels down, 0 to 99.
pub const LFO_AMPLITUDE_DEPTH: u8 = 140;

/// Whether a key starts the LFO anew, 0 or 1.
pub const LFO_SYNC: u8 = 141;

/// The LFO's wave, 0 to 5.
pub const LFO_WAVE: u8 = 142;

/// The pitch modulation sensitivity, 0 to 7.
pub const PITCH_SENSITIVITY: u8 = 143;

/// The transposition in semitones, 0 to 48 with 24 for none.
pub const TRANSPOSE: u8 = 144;

/// The first of the ten bytes of the name.
pub const NAME: u8 = 145;

/// The operator switch, 0 to 63: bit 5 is operator 1, bit 0 operator 6. It is a parameter of the instrument and no field of a voice.
pub const OPERATOR_SWITCH: u8 = 155;
