//! Reads the settings of an operator in a voice.

ghost use Rattle.std.specs.Prelude.{◌≡◌, ◌<◌, ◌≤◌, slice_index};
ghost use Rattle.voice_record.specs.Voice.{operator_greatest};
ghost use Rattle.key_scale.specs.Operator.{operator_field};

use voice_record::Voice;
use voice_record::parameter::OPERATOR_FIELDS;

/// A setting of an operator, 1 to 6, by its number among the operator's 21 parameters (`voice_record::operator_parameter`).
pub(crate) fn operator_setting(voice: &Voice, operator: u8, parameter: u8) -> u8
    requires first { 1 ≤ operator }
    requires last { operator ≤ 6 }
    requires parameter { parameter ≤ 20 }
    ensures value { result ≡ operator_field voice.now operator parameter }
    ensures within { result ≤ slice_index operator_greatest parameter }
{
    voice.get(OPERATOR_FIELDS * (6 - operator) + parameter)
}
