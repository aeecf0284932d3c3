//! How large each parameter of a voice may be.

ghost use Rattle.std.specs.Prelude.{◌≡◌, ◌≤◌};
ghost use Rattle.voice_record.specs.Voice.{greatest_value};

use crate::parameter::{OPERATOR_FIELDS, PITCH_RATES};

const OPERATOR_GREATEST: [u8; 21] = [
    99, 99, 99, 99, 99, 99, 99, 99, 99, 99, 99, 3, 3, 7, 3, 7, 99, 1, 31, 99, 14,
];

const COMMON_GREATEST: [u8; 30] = [
    99, 99, 99, 99, 99, 99, 99, 99, 31, 7, 1, 99, 99, 99, 99, 1, 5, 7, 48, 127, 127, 127, 127, 127,
    127, 127, 127, 127, 127, 63,
];

/// The greatest value of a parameter of a voice, 0 to 154, or of the operator switch, 155.
pub const fn greatest(number: u8) -> u8
    requires { number ≤ 155 }
    ensures value { result ≡ greatest_value number }
    ensures small { result ≤ 127 }
{
    if number < PITCH_RATES {
        OPERATOR_GREATEST[(number % OPERATOR_FIELDS) as usize]
    } else {
        COMMON_GREATEST[(number - PITCH_RATES) as usize]
    }
}
