//! Known voices and packed bytes.

use crate::operator_parameter::{DETUNE, LEFT_CURVE, OUTPUT_LEVEL, RATE_SCALING, RIGHT_CURVE};
use crate::parameter::{
    ALGORITHM, LFO_SPEED, LFO_WAVE, NAME, OPERATOR_FIELDS, OPERATOR_SWITCH, TRANSPOSE,
};
use crate::{ValueHigh, Voice, greatest};
use hex::FromHex;
use std::test::Fail;

fn sum(bytes: &[u8; 155]) -> u32 {
    let mut total = 0u32;
    for byte in bytes {
        total = total.saturating_add(u32::from(*byte));
    }
    total
}

#[test]
fn the_opening_voice(rt: HostRuntime) -> Result<(), Fail> {
    let voice = Voice::init();
    let packed = voice.pack();
    let mut total = 0u32;
    for byte in packed {
        total = total.saturating_add(u32::from(byte));
    }
    assert_eq!(rt; sum(&voice.bytes()), 5913);
    assert_eq!(rt; total, 6265);
    let name = <[u8; 10] as FromHex>::from_hex("494e495420564f494345")
        .ok()
        .ok_or("no hex")?;
    for k in 0..10u8 {
        assert_eq!(rt; voice.get(NAME + k), name[k as usize]);
    }
    assert_eq!(rt;
        (
            voice.get(5 * OPERATOR_FIELDS + OUTPUT_LEVEL),
            voice.get(OUTPUT_LEVEL)
        ),
        (99, 0)
    );
    assert_eq!(rt;
        (
            voice.get(ALGORITHM),
            voice.get(136),
            voice.get(LFO_SPEED),
            voice.get(TRANSPOSE)
        ),
        (0, 1, 35, 24)
    );
    assert_eq!(rt; Voice::unpack(&packed), voice);
    assert_eq!(rt; Voice::from_bytes(&voice.bytes()), voice);
    Ok(())
}

#[test]
fn each_field_is_packed_in_its_bits(rt: HostRuntime) {
    let mut full = Voice::unpack(&[0x7f; 128]);
    for number in 0..155u8 {
        assert_eq!(rt;
            full.get(number),
            greatest(number),
            "number {number} of 128 bytes 7F"
        );
        for value in [0, 1, greatest(number)] {
            let mut voice = Voice::init();
            let old = voice.get(number);
            assert_eq!(rt; voice.set(number, value), Ok(old), "number {number}");
            let back = Voice::unpack(&voice.pack());
            assert_eq!(rt; back.get(number), value, "number {number}");
            assert_eq!(rt; back, voice, "number {number} is {value}");
        }
        let value = greatest(number) + 1;
        let refused = ValueHigh {
            number,
            value,
            greatest: greatest(number),
        };
        assert_eq!(rt; full.set(number, value), Err(refused));
    }
    let packed = full.pack();
    assert_eq!(rt; Voice::unpack(&packed), full);
    for (byte, written) in [
        (11, 0x0f),
        (12, 0x77),
        (28, 0x0f),
        (97, 0x77),
        (15, 0x3f),
        (116, 0x7b),
        (117, 0x30),
    ] {
        assert_eq!(rt; packed[byte], written, "byte {byte}");
    }
    assert_eq!(rt;
        (
            full.get(LEFT_CURVE),
            full.get(RIGHT_CURVE),
            full.get(RATE_SCALING),
            full.get(DETUNE)
        ),
        (3, 3, 7, 14)
    );
    assert_eq!(rt;
        (full.get(LFO_WAVE), full.get(TRANSPOSE), full.get(NAME + 9)),
        (5, 48, 127)
    );
    assert_eq!(rt; Voice::from_bytes(&[0xff; 155]), full);
    assert_eq!(rt; (greatest(133), greatest(OPERATOR_SWITCH)), (99, 63));
}
