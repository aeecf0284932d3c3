//! A voice as its 155 parameters.

ghost use Rattle.std.specs.Prelude.{List, ℕ, ◌≡◌, ◌<◌, ◌≤◌, ◌↔◌, IsOk, IfOk, IfErr, OnOk, OnErr, slice_index, slice_set};
ghost use Rattle.voice_record.specs.Voice.{IsClamped, IsVoice, greatest_value, opening_voice};
ghost use Rattle.voice_record.specs.Packing.{Packs, Unpacks};

use crate::limits::greatest;
use crate::packing;
use std::marker::Model;

/// The opening voice: operators 6 to 1 with 21 parameters each, then the parameters of the whole voice.
const OPENING: [u8; 155] = [
    99, 99, 99, 99, 99, 99, 99, 0, 39, 0, 0, 0, 0, 0, 0, 0, 0, 0, 1, 0, 7, //
    99, 99, 99, 99, 99, 99, 99, 0, 39, 0, 0, 0, 0, 0, 0, 0, 0, 0, 1, 0, 7, //
    99, 99, 99, 99, 99, 99, 99, 0, 39, 0, 0, 0, 0, 0, 0, 0, 0, 0, 1, 0, 7, //
    99, 99, 99, 99, 99, 99, 99, 0, 39, 0, 0, 0, 0, 0, 0, 0, 0, 0, 1, 0, 7, //
    99, 99, 99, 99, 99, 99, 99, 0, 39, 0, 0, 0, 0, 0, 0, 0, 0, 0, 1, 0, 7, //
    99, 99, 99, 99, 99, 99, 99, 0, 39, 0, 0, 0, 0, 0, 0, 0, 99, 0, 1, 0, 7, //
    99, 99, 99, 99, 50, 50, 50, 50, 0, 0, 1, 35, 0, 0, 0, 1, 0, 3, 24, //
    73, 78, 73, 84, 32, 86, 79, 73, 67, 69,
];

/// A voice of the DX7, seen as the list of its 155 parameters: 21 of each operator, operator 6 first, then
/// those of the whole voice. Each is at most its greatest value.
#[derive(Clone, Copy, Debug, PartialEq, Eq)]
pub struct Voice {
    fields: [u8; 155],
}

impl Model for Voice {
    ghost use Rattle.std.specs.Prelude.{List, ℕ};
    ghost use Rattle.voice_record.specs.Voice.{IsVoice};

    ghost Value = { List ℕ };

    ghost view = { λ voice. voice.fields };

    ghost invariant = { λ voice. IsVoice voice.fields };

    ghost inverse = { λ numbers. record { fields = numbers } };
}

/// A value that a parameter can't have: the parameter's number, the value, and the greatest value of that parameter.
#[derive(Clone, Copy, Debug, PartialEq, Eq)]
pub struct ValueHigh {
    pub number: u8,
    pub value: u8,
    pub greatest: u8,
}

impl Voice {
    /// The opening voice, `INIT VOICE`: a plain tone of operator 1.
    pub fn init() -> Voice
        ensures value { result ≡ opening_voice }
        ensures voice { IsVoice result }
    {
        Voice { fields: OPENING }
    }

    /// The value of a parameter, 0 to 154.
    pub fn get(&self, number: u8) -> u8
        requires { number ≤ 154 }
        ensures value { result ≡ slice_index self.now number }
        ensures within { result ≤ greatest_value number }
        ensures voice { IsVoice self.now }
    {
        self.fields[number as usize]
    }

    /// Sets a parameter, 0 to 154, and gives its old value. A value above the greatest of that parameter
    /// is refused, and the voice stays.
    pub fn set(&mut self, number: u8, value: u8) -> Result<u8, ValueHigh>
        requires { number ≤ 154 }
        ensures accepted { IsOk result ↔ (value ≤ greatest_value number) }
        ensures old { IfOk result (λ old. old ≡ slice_index self.old number) }
        ensures changed { OnOk result (self.new ≡ slice_set self.old number value) }
        ensures refused { IfErr result (λ e. e ≡ record { number = number; value = value; greatest = greatest_value number }) }
        ensures kept { OnErr result (self.new ≡ self.old) }
        ensures voice { IsVoice self.new }
    {
        let old = self.fields[number as usize];
        let greatest = greatest(number);
        if value > greatest {
            return Err(ValueHigh {
                number,
                value,
                greatest,
            });
        }
        self.fields[number as usize] = value;
        Ok(old)
    }

    /// The voice of 155 bytes: each modulo 128, and at most its greatest value.
    pub fn from_bytes(bytes: &[u8; 155]) -> Voice
        ensures clamped { IsClamped bytes.now result }
        ensures same { IsVoice bytes.now → result ≡ bytes.now }
        ensures voice { IsVoice result }
    {
        let mut fields = [0; 155];
        for number in 0..155u8 {
            fields[number as usize] = (bytes[number as usize] % 128).min(greatest(number));
        }
        Voice { fields }
    }

    /// The 155 parameters.
    pub fn bytes(&self) -> [u8; 155]
        ensures value { result ≡ self.now }
        ensures voice { IsVoice self.now }
    {
        self.fields
    }

    /// The 128 packed bytes of the voice, with 0 in the unused bits.
    pub fn pack(&self) -> [u8; 128]
        ensures packed { Packs self.now result }
        ensures back { (fields : List ℕ) → Unpacks result fields → fields ≡ self.now }
        ensures voice { IsVoice self.now }
    {
        packing::pack(&self.fields)
    }

    /// The voice of 128 packed bytes: unused bits are ignored, and a parameter above its greatest value is
    /// lowered to that.
    pub fn unpack(bytes: &[u8; 128]) -> Voice
        ensures unpacked { Unpacks bytes.now result }
        ensures back { (fields : List ℕ) → Packs fields bytes.now → result ≡ fields }
        ensures voice { IsVoice result }
    {
        Voice {
            fields: packing::unpack(bytes),
        }
    }
}
