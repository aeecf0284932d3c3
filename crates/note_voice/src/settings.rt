//! Settings of a voice, as a note reads them.

ghost use Rattle.std.specs.Prelude.{◌≡◌, ◌≤◌, ◌-◌, ◌+◌, ◌*◌, pos, neg_ℤ, ◌≤ℤ◌, All, slice_index};
ghost use Rattle.voice_record.specs.Voice.{IsVoice};
ghost use Rattle.voice_record.specs.declared.parameter.TheConstants.{ALGORITHM, FEEDBACK, LFO_PITCH_DEPTH, LFO_AMPLITUDE_DEPTH, OPERATOR_FIELDS, PITCH_LEVELS};
ghost use Rattle.voice_record.specs.declared.parameter.TheConstants.{PITCH_RATES, PITCH_SENSITIVITY, TRANSPOSE};
ghost use Rattle.voice_record.specs.declared.operator_parameter.TheConstants.{AMPLITUDE_SENSITIVITY, LEVELS, RATES};
ghost use Rattle.key_scale.specs.Operator.{operator_field};
ghost use Rattle.note_voice.specs.Note.{four_from, played_note};

use voice_record::Voice;
use voice_record::operator_parameter::{AMPLITUDE_SENSITIVITY, LEVELS, RATES};
use voice_record::parameter::{
    ALGORITHM, FEEDBACK, LFO_AMPLITUDE_DEPTH, LFO_PITCH_DEPTH, OPERATOR_FIELDS, PITCH_LEVELS,
    PITCH_RATES, PITCH_SENSITIVITY, TRANSPOSE,
};

/// Four parameters of a voice, from this one on.
fn four(voice: &Voice, first: u8) -> [u8; 4]
    requires { first ≤ 151 }
    ensures value { result ≡ four_from voice.now first }
    ensures voice { IsVoice voice.now }
{
    [
        voice.get(first),
        voice.get(first + 1),
        voice.get(first + 2),
        voice.get(first + 3),
    ]
}

/// The rates of an operator's envelope.
pub(crate) fn rates(voice: &Voice, operator: u8) -> [u8; 4]
    requires { (1 ≤ operator) × (operator ≤ 6) }
    ensures value { result ≡ four_from voice.now (OPERATOR_FIELDS * (6 - operator) + RATES) }
    ensures within { All (λ r. r ≤ 99) result }
{
    four(voice, OPERATOR_FIELDS * (6 - operator) + RATES)
}

/// The levels of an operator's envelope.
pub(crate) fn levels(voice: &Voice, operator: u8) -> [u8; 4]
    requires { (1 ≤ operator) × (operator ≤ 6) }
    ensures value { result ≡ four_from voice.now (OPERATOR_FIELDS * (6 - operator) + LEVELS) }
    ensures within { All (λ l. l ≤ 99) result }
{
    four(voice, OPERATOR_FIELDS * (6 - operator) + LEVELS)
}

/// The rates of the pitch envelope.
pub(crate) fn pitch_rates(voice: &Voice) -> [u8; 4]
    ensures value { result ≡ four_from voice.now PITCH_RATES }
    ensures within { All (λ r. r ≤ 99) result }
{
    four(voice, PITCH_RATES)
}

/// The levels of the pitch envelope.
pub(crate) fn pitch_levels(voice: &Voice) -> [u8; 4]
    ensures value { result ≡ four_from voice.now PITCH_LEVELS }
    ensures within { All (λ l. l ≤ 99) result }
{
    four(voice, PITCH_LEVELS)
}

/// The amplitude modulation sensitivity of an operator.
pub(crate) fn amplitude_sensitivity(voice: &Voice, operator: u8) -> u8
    requires { (1 ≤ operator) × (operator ≤ 6) }
    ensures value { result ≡ operator_field voice.now operator AMPLITUDE_SENSITIVITY }
    ensures within { result ≤ 3 }
{
    voice.get(OPERATOR_FIELDS * (6 - operator) + AMPLITUDE_SENSITIVITY)
}

/// The algorithm, 0 for the panel's number 1.
#[tactic(auto, unfolding(voice_record::specs::Voice::greatest_value))]
pub(crate) fn algorithm(voice: &Voice) -> u8
    ensures value { result ≡ slice_index voice.now ALGORITHM }
    ensures within { result ≤ 31 }
{
    voice.get(ALGORITHM)
}

#[tactic(auto, unfolding(voice_record::specs::Voice::greatest_value))]
pub(crate) fn feedback(voice: &Voice) -> u8
    ensures value { result ≡ slice_index voice.now FEEDBACK }
    ensures within { result ≤ 7 }
{
    voice.get(FEEDBACK)
}

/// How deep the LFO moves the pitch.
#[tactic(auto, unfolding(voice_record::specs::Voice::greatest_value))]
pub(crate) fn pitch_depth(voice: &Voice) -> u8
    ensures value { result ≡ slice_index voice.now LFO_PITCH_DEPTH }
    ensures within { result ≤ 99 }
{
    voice.get(LFO_PITCH_DEPTH)
}

/// How deep the LFO moves the gain.
#[tactic(auto, unfolding(voice_record::specs::Voice::greatest_value))]
pub(crate) fn amplitude_depth(voice: &Voice) -> u8
    ensures value { result ≡ slice_index voice.now LFO_AMPLITUDE_DEPTH }
    ensures within { result ≤ 99 }
{
    voice.get(LFO_AMPLITUDE_DEPTH)
}

/// The pitch modulation sensitivity.
#[tactic(auto, unfolding(voice_record::specs::Voice::greatest_value))]
pub(crate) fn pitch_sensitivity(voice: &Voice) -> u8
    ensures value { result ≡ slice_index voice.now PITCH_SENSITIVITY }
    ensures within { result ≤ 7 }
{
    voice.get(PITCH_SENSITIVITY)
}

/// How far the voice is transposed, 24 for not at all.
#[tactic(auto, unfolding(voice_record::specs::Voice::greatest_value))]
fn transpose(voice: &Voice) -> u8
    ensures value { result ≡ slice_index voice.now TRANSPOSE }
    ensures within { result ≤ 48 }
{
    voice.get(TRANSPOSE)
}

/// The note that a key plays, from -24 to 151.
pub(crate) fn played_note(voice: &Voice, key: u8) -> i32
    requires { key ≤ 127 }
    ensures value { result ≡ played_note voice.now key }
    ensures low { neg_ℤ (pos 24) ≤ℤ result }
    ensures high { result ≤ℤ pos 151 }
{
    i32::from(key) + i32::from(transpose(voice)) - 24
}
