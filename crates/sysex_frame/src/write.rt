//! Messages, written: a voice, and the change of a parameter.

ghost use Rattle.std.specs.Prelude.{◌≡◌, ◌≤◌};
ghost use Rattle.voice_record.specs.Voice.{greatest_value};
ghost use Rattle.sysex_frame.specs.Frame.{Content, IsFrame, ParamChange, VoiceDump};

use crate::sums::checksum;
use voice_record::Voice;

/// The dump of a voice, for a device from 0 to 15. It is read back as the voice's 155 parameters.
pub fn write_voice(device: u8, voice: &Voice) -> [u8; 163]
    requires { device ≤ 15 }
    ensures frame { IsFrame result (VoiceDump device voice.now) }
    ensures only { (content : Content) → IsFrame result content → content ≡ VoiceDump device voice.now }
{
    let fields = voice.bytes();
    let mut message = [0; 163];
    message[0] = 0xf0;
    message[1] = 0x43;
    message[2] = device;
    message[4] = 0x01;
    message[5] = 0x1b;
    message[161] = checksum(&fields);
    message[162] = 0xf7;
    message[6..161].copy_from_slice(&fields);
    message
}

/// The change of a parameter of the voice or of the operator switch, for a device from 0 to 15. It is read
/// back as this change.
pub fn write_param(device: u8, number: u8, value: u8) -> [u8; 7]
    requires device { device ≤ 15 }
    requires number { number ≤ 155 }
    requires value { value ≤ greatest_value number }
    ensures frame { IsFrame result (ParamChange device number value) }
    ensures only { (content : Content) → IsFrame result content → content ≡ ParamChange device number value }
{
    [
        0xf0,
        0x43,
        0x10 + device,
        number / 128,
        number % 128,
        value,
        0xf7,
    ]
}
