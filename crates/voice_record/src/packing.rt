//! The packed form of a voice: 128 bytes, by the bit table of the DX7's 32-voice message.

ghost use Rattle.std.specs.Prelude.{ℕ, ◌≡◌, ◌+◌, ◌*◌, ◌^◌, ◌<◌, ◌≤◌, slice_index};
ghost use Rattle.voice_record.specs.Voice.{IsVoice};
ghost use Rattle.voice_record.specs.Packing.{bits_of, row_of, Packs, Unpacks};

use crate::limits::greatest;
use crate::parameter::{OPERATOR_FIELDS, PITCH_RATES};

/// How many packed bytes an operator has.
const OPERATOR_BYTES: u8 = 17;

/// Byte, lowest bit and number of bits of each parameter of an operator, by the bytes of the operator.
const OPERATOR_ROWS: [(u8, u8, u8); 21] = [
    (0, 0, 7),
    (1, 0, 7),
    (2, 0, 7),
    (3, 0, 7),
    (4, 0, 7),
    (5, 0, 7),
    (6, 0, 7),
    (7, 0, 7),
    (8, 0, 7),
    (9, 0, 7),
    (10, 0, 7),
    (11, 0, 2), // left curve
    (11, 2, 2), // right curve
    (12, 0, 3), // rate scaling
    (13, 0, 2), // amplitude modulation sensitivity
    (13, 2, 3), // key velocity sensitivity
    (14, 0, 7), // output level
    (15, 0, 1), // mode
    (15, 1, 5), // coarse
    (16, 0, 7), // fine
    (12, 3, 4), // detune
];

/// The same of the parameters from 126 on, by the bytes of the voice.
const COMMON_ROWS: [(u8, u8, u8); 29] = [
    (102, 0, 7),
    (103, 0, 7),
    (104, 0, 7),
    (105, 0, 7),
    (106, 0, 7),
    (107, 0, 7),
    (108, 0, 7),
    (109, 0, 7),
    (110, 0, 5), // algorithm
    (111, 0, 3), // feedback
    (111, 3, 1), // oscillator key sync
    (112, 0, 7), // LFO speed
    (113, 0, 7), // LFO delay
    (114, 0, 7), // LFO pitch depth
    (115, 0, 7), // LFO amplitude depth
    (116, 0, 1), // LFO sync
    (116, 1, 3), // LFO wave
    (116, 4, 3), // pitch modulation sensitivity
    (117, 0, 6), // transpose
    (118, 0, 7),
    (119, 0, 7),
    (120, 0, 7),
    (121, 0, 7),
    (122, 0, 7),
    (123, 0, 7),
    (124, 0, 7),
    (125, 0, 7),
    (126, 0, 7),
    (127, 0, 7),
];

/// Where a parameter lies: its byte, its lowest bit there, and the number of its bits.
#[derive(Clone, Copy)]
struct BitField {
    byte: u8,
    shift: u8,
    width: u8,
}

/// The bit field of a parameter, 0 to 154.
fn bit_field_of(field: u8) -> BitField
    requires { field ≤ 154 }
    ensures byte { result.byte ≡ (row_of field).byte }
    ensures shift { result.shift ≡ (row_of field).shift }
    ensures width { result.width ≡ (row_of field).width }
    ensures inside { result.byte < 128 }
    ensures end { result.shift + result.width ≤ 7 }
{
    if field < PITCH_RATES {
        let (byte, shift, width) = OPERATOR_ROWS[(field % OPERATOR_FIELDS) as usize];
        BitField {
            byte: OPERATOR_BYTES * (field / OPERATOR_FIELDS) + byte,
            shift,
            width,
        }
    } else {
        let (byte, shift, width) = COMMON_ROWS[(field - PITCH_RATES) as usize];
        BitField { byte, shift, width }
    }
}

/// The bits of a parameter.
fn bits(bytes: &[u8; 128], field: u8) -> u8
    requires { field ≤ 154 }
    ensures { result ≡ bits_of bytes.now field }
{
    let bits = bit_field_of(field);
    (bytes[bits.byte as usize] >> bits.shift) % (1 << bits.width)
}

/// A byte with further bits above those that it has.
fn with_bits(byte: u8, value: u8, shift: u8) -> u8
    requires low { byte < 2 ^ shift }
    requires fits { value * 2 ^ shift < 128 }
    requires shift { shift ≤ 7 }
    ensures { result ≡ byte + value * 2 ^ shift }
{
    byte | value << shift
}

/// The 155 parameters of 128 packed bytes.
pub(crate) fn unpack(bytes: &[u8; 128]) -> [u8; 155]
    ensures { Unpacks bytes.now result }
{
    let mut fields = [0; 155];
    for field in 0..155u8 {
        fields[field as usize] = greatest(field).min(bits(bytes, field));
    }
    fields
}

/// The 128 packed bytes of 155 parameters.
pub(crate) fn pack(fields: &[u8; 155]) -> [u8; 128]
    requires { IsVoice fields.now }
    ensures { Packs fields.now result }
{
    let mut bytes = [0; 128];
    for field in 0..155u8 {
        let bits = bit_field_of(field);
        let byte = bytes[bits.byte as usize];
        bytes[bits.byte as usize] = with_bits(byte, fields[field as usize], bits.shift);
    }
    bytes
}
