//! Known messages and broken ones.

use crate::{Frame, FrameFault, checksum, read_frame, write_param, write_voice};
use std::test::Fail;
use voice_record::{Voice, greatest};

const GREATEST_LENGTH: usize = 536_870_912;

#[test]
fn short_messages(rt: HostRuntime) -> Result<(), Fail> {
    let param = |number: u8, value: u8| Ok(Frame::Param {
        device: 0,
        number,
        value,
    });
    let other = |group: u8, number: u16| Ok(Frame::OtherParam {
        device: 0,
        group,
        number,
    });
    let length = |found: u32, wanted: u32| Err(FrameFault::Length { found, wanted });
    let table = [
        ("", Err(FrameFault::NotFramed)),
        ("f0", Err(FrameFault::NotFramed)),
        ("f04300", Err(FrameFault::NotFramed)),
        ("f0f7", Err(FrameFault::NotYamaha)),
        ("f04100f7", Err(FrameFault::NotYamaha)),
        ("f043f7", Err(FrameFault::Short { length: 3 })),
        ("f04300f7", Err(FrameFault::Short { length: 4 })),
        ("f04380f7", Err(FrameFault::DataByte { place: 2 })),
        (
            "f043300000f7",
            Err(FrameFault::UnknownSubstatus { found: 3 }),
        ),
        ("f0430001f7", Err(FrameFault::UnknownFormat { found: 1 })),
        ("f0430009f7", length(5, 4104)),
        ("f0430000011bf7", length(7, 163)),
        (
            "f0430000011af7",
            Err(FrameFault::CountBytes { high: 1, low: 26 }),
        ),
        ("f0432009f7", Ok(Frame::Request { device: 0 })),
        ("f0432f00010203f7", Ok(Frame::Request { device: 15 })),
        ("f04310010610f7", param(134, 16)),
        (
            "f04310010620f7",
            Err(FrameFault::ParamValue {
                number: 134,
                value: 32,
            }),
        ),
        ("f04310011b3ff7", param(155, 63)),
        (
            "f04310011b40f7",
            Err(FrameFault::ParamValue {
                number: 155,
                value: 64,
            }),
        ),
        ("f04310011c7ff7", other(0, 156)),
        ("f04310040000f7", other(1, 0)),
        ("f043104c00007e00f7", other(19, 0)),
        ("f043104c00f7", length(6, 7)),
        ("f043100106f7", length(6, 7)),
        ("f0431001061000f7", length(8, 7)),
    ];
    for (digits, wanted) in table {
        let bytes = hex::decode(rt.alloc(), digits)?;
        assert!(rt; bytes.len() <= GREATEST_LENGTH);
        assert_eq!(rt; read_frame(&bytes), wanted, "{digits}");
    }
    Ok(())
}

#[test]
fn dumps(rt: HostRuntime) -> Result<(), Fail> {
    let zeros = [0; 155];
    let message = write_voice(0, &Voice::from_bytes(&zeros));
    let voice = |payload| Ok(Frame::Voice { device: 0, payload });
    assert_eq!(rt; read_frame(&message), voice(&zeros));
    let mut one = zeros;
    one[0] = 1;
    // place and value of up to three bytes that differ from the message, and the answer
    let table = [
        (
            [(161, 1), (161, 1), (161, 1)],
            Err(FrameFault::Checksum {
                found: 1,
                wanted: 0,
            }),
        ),
        ([(6, 1), (161, 0x7f), (161, 0x7f)], voice(&one)),
        (
            [(6, 1), (161, 0x80), (161, 0x80)],
            Err(FrameFault::DataByte { place: 161 }),
        ),
        (
            [(5, 0x1a), (161, 1), (161, 1)],
            Err(FrameFault::CountBytes { high: 1, low: 26 }),
        ),
        (
            [(3, 9), (4, 0x20), (5, 0)],
            Err(FrameFault::Length {
                found: 163,
                wanted: 4104,
            }),
        ),
    ];
    for (changes, wanted) in table {
        let mut changed = message;
        for (place, value) in changes {
            changed[place] = value;
        }
        assert_eq!(rt; read_frame(&changed), wanted);
    }
    let length = |found: u32| Err(FrameFault::Length {
        found,
        wanted: 4104,
    });
    let payload: &[u8] = &[0; 4096];
    let whole = Ok(Frame::Cartridge { device: 0, payload });
    for (count, wanted) in [(4095, length(4103)), (4096, whole), (4097, length(4105))] {
        let mut message = Vec::new(rt.alloc());
        message.extend_from_slice(&[0xf0, 0x43, 0, 9, 0x20, 0])?;
        for _ in 0..=count {
            message.push(0u8)?;
        }
        message.push(0xf7)?;
        assert!(rt; message.len() <= GREATEST_LENGTH);
        assert_eq!(rt; read_frame(&message), wanted, "{count} bytes");
    }
    Ok(())
}

#[test]
fn written_messages(rt: HostRuntime) {
    let message = write_voice(3, &Voice::init());
    let fields = Voice::init().bytes();
    assert_eq!(rt; (checksum(&fields), message[161]), (103, 103));
    assert_eq!(rt;
        read_frame(&message),
        Ok(Frame::Voice {
            device: 3,
            payload: &fields
        })
    );
    assert!(rt; 16 <= greatest(134));
    assert_eq!(rt;
        write_param(0, 134, 16),
        [0xf0, 0x43, 0x10, 0x01, 0x06, 0x10, 0xf7]
    );
    assert_eq!(rt; (checksum(&[]), checksum(&[1])), (0, 127));
}

#[test]
fn three_faults_are_foreign(rt: HostRuntime) {
    let table = [
        (FrameFault::NotFramed, false),
        (FrameFault::NotYamaha, true),
        (FrameFault::DataByte { place: 2 }, false),
        (FrameFault::Short { length: 3 }, false),
        (FrameFault::UnknownSubstatus { found: 3 }, true),
        (FrameFault::UnknownFormat { found: 1 }, true),
        (FrameFault::CountBytes { high: 1, low: 26 }, false),
        (
            FrameFault::Length {
                found: 5,
                wanted: 7,
            },
            false,
        ),
        (
            FrameFault::Checksum {
                found: 1,
                wanted: 0,
            },
            false,
        ),
        (
            FrameFault::ParamValue {
                number: 134,
                value: 32,
            },
            false,
        ),
    ];
    for (fault, foreign) in table {
        assert_eq!(rt; fault.is_foreign(), foreign, "{fault:?}");
    }
}
