//! Notes beside the reference program.
ghost use Rattle.std.specs.Prelude.{◌≤◌, ◌<◌, ◌^◌};
ghost use Rattle.note_voice.specs.Mix.{IsSmall};

use super::*;
use crate::reference::{ReferenceNote, block, modulation};
use dx_tables::Tables;
use std::process::Abort;
use std::test::Fail;
use voice_record::operator_parameter::OUTPUT_LEVEL;
use voice_record::parameter::{OPERATOR_FIELDS, PITCH_RATES};
use voice_record::{Voice, greatest};

/// The sum of no notes.
fn nothing() -> [i64; 64]
    ensures { IsSmall (2 ^ 40) result }
{
    [0; 64]
}

/// Thirty blocks of a note that is released after `off` of them, beside the reference program. How many samples are not 0?
fn compare(rt: &impl Abort, tables: &Tables, reference: &ReferenceNote) -> u32
    requires switch { reference.now.switch ≤ 63 }
    requires key { reference.now.key ≤ 127 }
    requires velocity { (1 ≤ reference.now.velocity) × (reference.now.velocity ≤ 127) }
{
    let mut note = Note::idle();
    // An earlier note, of which nothing is to stay.
    note.start(tables, &reference.voice, 63, 127, 127);
    note.block(tables, 0, 0, 0, 0, &mut nothing());
    note.start(
        tables,
        &reference.voice,
        reference.switch,
        reference.key,
        reference.velocity,
    );
    let mut feedback_state = [0i32; 2];
    let mut sounding = 0u32;
    for i in 0..30u32 {
        if i == reference.off {
            note.release();
        }
        let m = modulation(i);
        let mut mix = nothing();
        note.block(tables, m.lfo, m.lfo_depth as i32, m.bend, m.wheel, &mut mix);
        let samples = block(tables, reference, i, &mut feedback_state);
        for j in 0..64usize {
            assert_eq!(rt; mix[j], i64::from(samples[j]), "block {i} sample {j}");
            if mix[j] != 0 {
                sounding = sounding.wrapping_add(1);
            }
        }
    }
    sounding
}

/// A voice whose parameters look random, each modulo its greatest value and one, with levels that are heard.
fn voice_of(seed: u32) -> Voice {
    let mut numbers = [0u8; 155];
    let mut random = seed.wrapping_mul(2_654_435_761);
    for i in 0..155usize {
        random = random.wrapping_mul(1_664_525).wrapping_add(1_013_904_223);
        numbers[i] = ((random >> 16) % (u32::from(greatest(i as u8)) + 1)) as u8;
        if i < PITCH_RATES as usize && i % OPERATOR_FIELDS as usize == OUTPUT_LEVEL as usize {
            numbers[i] = 90 + numbers[i] % 10;
        }
    }
    Voice::from_bytes(&numbers)
}

/// All operators, or some of them.
fn switch_of(seed: u32) -> u8
    requires { seed < 24 }
    ensures { result ≤ 63 }
{
    if seed % 2 == 0 {
        63
    } else {
        (seed * 11 % 64) as u8
    }
}

#[test]
fn the_opening_voice_sounds_as_ever(rt: HostRuntime) -> Result<(), Fail> {
    let tables = Tables::new(rt.alloc())?;
    let mut note = Note::idle();
    let mut silence = nothing();
    note.block(&tables, 0, 0, 0, 0, &mut silence);
    note.release();
    assert_eq!(rt; silence, [0; 64]);
    let mut mix = nothing();
    note.start(&tables, &Voice::init(), 63, 69, 100);
    note.block(&tables, 0x80_0000, 0x100_0000, 8192, 0, &mut mix);
    let front: [i64; 8] = [0, 8, 24, 47, 79, 118, 164, 217];
    for j in 0..8usize {
        let sample = (mix[j] >> 4).clamp(-0x100_0000, 0xFF_FFFF) >> 9;
        assert_eq!(rt; sample, front[j]);
    }
    opening_is_plain();
    Ok(())
}

#[test]
fn notes_follow_the_reference(rt: HostRuntime) -> Result<(), Fail> {
    let tables = Tables::new(rt.alloc())?;
    for seed in 0..24u32 {
        let reference = ReferenceNote {
            voice: voice_of(seed),
            switch: switch_of(seed),
            key: (seed * 37 % 128) as u8,
            velocity: 127 - (seed * 5) as u8,
            off: seed,
        };
        let sounding = compare(&rt, &tables, &reference);
        assert!(rt; seed % 2 != 0 || 100 < sounding, "voice {seed} sounds");
    }
    Ok(())
}
