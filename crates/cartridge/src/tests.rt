//! Known cartridges, and what the calls do to the slots.

use crate::Cartridge;
use std::test::Fail;
use sysex_frame::{Frame, read_frame};
use voice_record::{Voice, greatest};

#[test]
fn a_blank_cartridge(rt: HostRuntime) -> Result<(), Fail> {
    let cartridge = Cartridge::blank(rt.alloc())?;
    let name = hex::decode(rt.alloc(), "494e495420564f494345")?;
    for slot in 0..32u8 {
        assert_eq!(rt; cartridge.voice(slot), Voice::init(), "slot {slot}");
        assert_eq!(rt;
            cartridge.name(slot).as_slice(),
            name.as_slice(),
            "slot {slot}"
        );
    }
    let message = cartridge.write(rt.alloc(), 5)?;
    assert_eq!(rt; message.len(), 4104);
    assert_eq!(rt; (message[2], message[4102], message[4103]), (5, 0x60, 0xf7));
    let payload = cartridge.payload();
    assert_eq!(rt;
        read_frame(&message),
        Ok(Frame::Cartridge { device: 5, payload })
    );
    Ok(())
}

#[test]
fn slots_change_alone(rt: HostRuntime) -> Result<(), Fail> {
    let mut payload = vec![in rt.alloc(); 0x7fu8; 4096]?;
    assert_eq!(rt; payload.len(), 4096);
    let full = Cartridge::from_payload(rt.alloc(), &payload)?;
    let greatest_voice = full.voice(17);
    for number in 0..155u8 {
        assert_eq!(rt;
            greatest_voice.get(number),
            greatest(number),
            "number {number}"
        );
    }
    let packed = full.payload();
    assert!(rt; packed.len() == 4096);
    assert_eq!(rt;
        (packed[11], packed[12], packed[4096 - 128 + 11]),
        (0x0f, 0x77, 0x0f)
    );

    let mut cartridge = Cartridge::blank(rt.alloc())?;
    let mut voice = Voice::init();
    assert_eq!(rt; voice.set(134, 16), Ok(0));
    cartridge.store(3, &voice);
    cartridge.exchange(3, 3);
    cartridge.exchange(3, 31);
    cartridge.copy_from(&full, 17, 0);
    for slot in 0..32u8 {
        let wanted = match slot {
            0 => greatest_voice,
            31 => voice,
            _ => Voice::init(),
        };
        assert_eq!(rt; cartridge.voice(slot), wanted, "slot {slot}");
    }
    payload.clear();
    payload.extend_from_slice(cartridge.payload())?;
    assert_eq!(rt; payload.len(), 4096);
    let again = Cartridge::from_payload(rt.alloc(), &payload)?;
    assert_eq!(rt; again.payload(), cartridge.payload());
    cartridge.assign(&full);
    assert_eq!(rt; cartridge.payload(), full.payload());
    Ok(())
}
