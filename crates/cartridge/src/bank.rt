//! The 32 voices of a cartridge.

ghost use Rattle.std.specs.Prelude.{List, ℕ, ◌≡◌, ◌≤◌, IfOk, length, replicate, slice_range, slice_set};
ghost use Rattle.voice_record.specs.Voice.{opening_voice};
ghost use Rattle.voice_record.specs.Packing.{Packs};
ghost use Rattle.cartridge.specs.Cartridge.{IsCartridge, IsMessageOf, PacksAll, UnpacksAll, unpacked, voice_at};

use crate::slots;
use std::alloc::{AllocError, Global};
use std::marker::Model;
use sysex_frame::checksum;
use voice_record::{Voice, parameter};

/// A cartridge, seen as the list of its 32 voices. It keeps them packed, with 0 in the unused bits.
#[derive(Drop)]
pub struct Cartridge {
    packed: Vec<u8>,
}

impl Model for Cartridge {
    ghost use Rattle.std.specs.Prelude.{List, ℕ};
    ghost use Rattle.cartridge.specs.Cartridge.{PacksAll, voices_of};

    ghost Value = { List (List ℕ) };

    ghost view = { λ cartridge. voices_of cartridge.packed.items };

    ghost invariant = { λ cartridge. PacksAll (voices_of cartridge.packed.items) cartridge.packed.items };
}

impl Cartridge {
    /// 32 opening voices.
    pub fn blank(alloc: Global) -> Result<Cartridge, AllocError>
        ensures voices { IfOk result (λ cartridge. cartridge ≡ replicate 32 opening_voice) }
        ensures cartridge { IfOk result IsCartridge }
    {
        let voice = Voice::init().pack();
        let mut packed = vec![in alloc; 0u8; 4096]?;
        for slot in 0..32u8 {
            slots::write(&mut packed, slot, &voice);
        }
        Ok(Cartridge { packed })
    }

    /// The 32 voices of 4096 packed bytes.
    pub fn from_payload(alloc: Global, payload: &[u8]) -> Result<Cartridge, AllocError>
        requires { length payload.now ≡ 4096 }
        ensures unpacked { IfOk result (UnpacksAll payload.now) }
        ensures back { IfOk result (λ cartridge. (voices : List (List ℕ)) → PacksAll voices payload.now → cartridge ≡ voices) }
        ensures cartridge { IfOk result IsCartridge }
    {
        let mut packed = vec![in alloc; 0u8; 4096]?;
        for slot in 0..32u8 {
            let voice = Voice::unpack(&slots::read(payload, slot));
            slots::write(&mut packed, slot, &voice.pack());
        }
        Ok(Cartridge { packed })
    }

    /// The voice of a slot, 0 to 31.
    pub fn voice(&self, slot: u8) -> Voice
        requires { slot ≤ 31 }
        ensures value { result ≡ voice_at self.now slot }
        ensures cartridge { IsCartridge self.now }
    {
        Voice::unpack(&self.slot(slot))
    }

    fn slot(&self, slot: u8) -> [u8; 128]
        requires { slot ≤ 31 }
        ensures packed { Packs (voice_at self.now slot) result }
        ensures cartridge { IsCartridge self.now }
    {
        slots::read(&self.packed, slot)
    }

    fn put(&mut self, slot: u8, bytes: &[u8; 128])
        requires slot { slot ≤ 31 }
        requires packed { Packs (unpacked bytes.now) bytes.now }
        ensures voices { self.new ≡ slice_set self.old slot (unpacked bytes.now) }
        ensures cartridge { IsCartridge self.new }
    {
        slots::write(&mut self.packed, slot, bytes);
    }

    /// Puts a voice into a slot, 0 to 31.
    pub fn store(&mut self, slot: u8, voice: &Voice)
        requires { slot ≤ 31 }
        ensures voices { self.new ≡ slice_set self.old slot voice.now }
        ensures cartridge { IsCartridge self.new }
    {
        self.put(slot, &voice.pack());
    }

    /// Exchanges the voices of two slots, 0 to 31.
    pub fn exchange(&mut self, a: u8, b: u8)
        requires a { a ≤ 31 }
        requires b { b ≤ 31 }
        ensures voices { self.new ≡ slice_set (slice_set self.old a (voice_at self.old b)) b (voice_at self.old a) }
        ensures cartridge { IsCartridge self.new }
    {
        let first = self.slot(a);
        let second = self.slot(b);
        self.put(a, &second);
        self.put(b, &first);
    }

    /// Copies the voice of a slot of another cartridge into one of its own, 0 to 31.
    pub fn copy_from(&mut self, other: &Cartridge, from: u8, to: u8)
        requires from { from ≤ 31 }
        requires to { to ≤ 31 }
        ensures voices { self.new ≡ slice_set self.old to (voice_at other.now from) }
        ensures cartridge { IsCartridge self.new }
    {
        self.put(to, &other.slot(from));
    }

    /// Copies all voices of another cartridge.
    pub fn assign(&mut self, other: &Cartridge)
        ensures voices { self.new ≡ other.now }
        ensures cartridge { IsCartridge self.new }
    {
        self.packed.as_mut_slice().copy_from_slice(&other.packed);
    }

    /// The ten bytes of the name of the voice of a slot, 0 to 31.
    pub fn name(&self, slot: u8) -> [u8; 10]
        requires { slot ≤ 31 }
        ensures value { result ≡ slice_range (voice_at self.now slot) 145 155 }
        ensures cartridge { IsCartridge self.now }
    {
        let voice = self.voice(slot).bytes();
        let first = usize::from(parameter::NAME);
        let mut name = [0; 10];
        name.copy_from_slice(&voice[first..first + 10]);
        name
    }

    /// The 4096 packed bytes, with 0 in the unused bits.
    pub fn payload(&self) -> &[u8]
        ensures packed { PacksAll self.now result.now }
        ensures cartridge { IsCartridge self.now }
    {
        &self.packed
    }

    /// The dump of the cartridge for a device from 0 to 15: 4104 bytes.
    pub fn write(&self, alloc: Global, device: u8) -> Result<Vec<u8>, AllocError>
        requires { device ≤ 15 }
        ensures message { IfOk result (λ message. IsMessageOf self.now device message.items) }
        ensures size { IfOk result (λ message. length message.items ≡ 4104) }
        ensures cartridge { IsCartridge self.now }
    {
        let payload = self.payload();
        let mut message = Vec::with_capacity(alloc, 4104)?;
        message.extend_from_slice(&[0xf0, 0x43, device, 0x09, 0x20, 0x00])?;
        message.extend_from_slice(payload)?;
        message.push(checksum(payload))?;
        message.push(0xf7)?;
        Ok(message)
    }
}
