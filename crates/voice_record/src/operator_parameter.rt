//! The numbers of an operator's parameters, counted within its 21.
//!
//! Operator `n` has its parameters from number `21 * (6 - n)` of the voice on.

/// The first of the four rates of the envelope, 0 to 99 each.
pub const RATES: u8 = 0;

/// The first of the four levels of the envelope, 0 to 99 each.
pub const LEVELS: u8 = 4;

/// The break point of key scaling, 0 to 99: 0 is key 17.
pub const BREAK_POINT: u8 = 8;

/// How far levels are scaled below the break point, 0 to 99.
pub const LEFT_DEPTH: u8 = 9;

/// How far levels are scaled from the break point on, 0 to 99.
pub const RIGHT_DEPTH: u8 = 10;

/// The curve below the break point, 0 to 3: -LIN, -EXP, +EXP, +LIN.
pub const LEFT_CURVE: u8 = 11;

/// The curve from the break point on, 0 to 3 as on the left.
pub const RIGHT_CURVE: u8 = 12;

/// How much faster the envelope runs at higher keys, 0 to 7.
pub const RATE_SCALING: u8 = 13;

/// The amplitude modulation sensitivity, 0 to 3.
pub const AMPLITUDE_SENSITIVITY: u8 = 14;

/// The key velocity sensitivity, 0 to 7.
pub const VELOCITY_SENSITIVITY: u8 = 15;

/// The output level, 0 to 99.
pub const OUTPUT_LEVEL: u8 = 16;

/// The mode, 0 for a pitch by ratio and 1 for a fixed pitch.
pub const MODE: u8 = 17;

/// The coarse setting of the pitch, 0 to 31.
pub const COARSE: u8 = 18;

/// The fine setting of the pitch, 0 to 99.
pub const FINE: u8 = 19;

/// The detune, 0 to 14 with 7 for none.
pub const DETUNE: u8 = 20;
