//! Envelopes, pitch envelopes and the LFO, step by step.

ghost use Rattle.std.specs.Prelude.{◌≤◌};

use crate::{Envelope, Lfo, PitchEnvelope};
use dx_tables::Tables;
use std::test::Fail;
use voice_record::parameter::{LFO_DELAY, LFO_SPEED, LFO_SYNC, LFO_WAVE};
use voice_record::{ValueHigh, Voice};

/// Levels 99, 0, 20, 50 and 60 at an output level of 4064.
const LEVELS: [(u8, i32); 5] = [
    (99, 251_658_240),
    (0, 1_048_576),
    (20, 88_080_384),
    (50, 150_994_944),
    (60, 171_966_464),
];

/// The most steps that a stage needs between these levels, for ten rates each from 0 on.
const MOST_STEPS: [u32; 10] = [244_736, 81_579, 30_592, 8_741, 3_060, 956, 319, 120, 35, 12];

/// Pitches of the same levels.
const PITCHES: [(u8, i32); 5] = [
    (99, 66_584_576),
    (0, -67_108_864),
    (20, -15_728_640),
    (50, 0),
    (60, 5_242_880),
];

/// The most steps that a stage of a pitch envelope needs between them.
const MOST_PITCH_STEPS: [u32; 10] = [
    116_968, 16_710, 9_748, 6_499, 4_333, 2_853, 2_017, 1_481, 1_018, 685,
];

/// The number of steps until an envelope answers this level, or 0 where it does not within 300000.
fn steps_to(envelope: &mut Envelope, level: i32) -> u32 {
    for k in 1..300_000u32 {
        if envelope.step() == level {
            return k;
        }
    }
    0
}

/// The number of steps of a second stage, which goes from the level of one parameter to that of another.
fn steps_between(rate: u8, from: (u8, i32), to: (u8, i32)) -> u32
    requires rate { rate ≤ 99 }
    requires from { from.0 ≤ 99 }
    requires to { to.0 ≤ 99 }
{
    let mut envelope = Envelope::new([99, rate, 99, 99], [from.0, to.0, to.0, to.0], 4064, 0);
    steps_to(&mut envelope, from.1);
    steps_to(&mut envelope, to.1)
}

#[test]
fn envelope_gives_known_levels(rt: HostRuntime) -> Result<(), Fail> {
    let mut envelope = Envelope::new([99, 99, 99, 99], [99, 99, 99, 0], 4064, 0);
    for _ in 0..20 {
        assert_eq!(rt; envelope.step(), 251_658_240);
    }
    envelope.release();
    for level in [192_937_984, 134_217_728, 75_497_472, 16_777_216] {
        assert_eq!(rt; envelope.step(), level);
    }
    envelope.release();
    for _ in 0..20 {
        assert_eq!(rt; envelope.step(), 1_048_576);
    }

    let mut slow = Envelope::new([99, 0, 99, 99], [99, 0, 0, 0], 4064, 0);
    assert_eq!(rt; slow.step(), 251_658_240);
    assert_eq!(rt; slow.step(), 251_658_240 - 1024);
    slow.release();
    assert_eq!(rt; slow.step(), 251_658_240 - 1024 - 58_720_256);
    Ok(())
}

#[test]
fn envelope_stages_end(rt: HostRuntime) -> Result<(), Fail> {
    let known = [
        (0, 0, 1, 244_736),
        (0, 1, 0, 30_452),
        (10, 3, 0, 8_698),
        (50, 0, 3, 384),
        (35, 2, 4, 154),
        (77, 4, 2, 16),
    ];
    for (rate, from, to, steps) in known {
        assert!(rt; rate <= 99 && from < 5 && to < 5);
        let (from, to) = (LEVELS[from], LEVELS[to]);
        assert!(rt; from.0 <= 99 && to.0 <= 99);
        assert_eq!(rt; steps_between(rate, from, to), steps, "rate {rate}");
    }
    for rate in 0..100u8 {
        for from in LEVELS {
            for to in LEVELS {
                assert!(rt; from.0 <= 99 && to.0 <= 99);
                let steps = steps_between(rate, from, to);
                assert!(rt;
                    0 < steps && steps <= MOST_STEPS[rate as usize / 10],
                    "rate {rate}"
                );
            }
        }
    }
    Ok(())
}

/// The number of steps of a first stage of a pitch envelope, or 0 where it does not end within 300000.
fn pitch_steps_between(rate: u8, from: u8, to: (u8, i32)) -> u32
    requires rate { rate ≤ 99 }
    requires from { from ≤ 99 }
    requires to { to.0 ≤ 99 }
{
    let mut envelope = PitchEnvelope::new([rate, 99, 99, 99], [to.0, to.0, to.0, from]);
    for k in 1..300_000u32 {
        if envelope.step() == to.1 {
            return k;
        }
    }
    0
}

#[test]
fn pitch_envelope_gives_known_levels(rt: HostRuntime) -> Result<(), Fail> {
    let mut envelope = PitchEnvelope::new([99, 99, 99, 99], [99, 50, 50, 50]);
    for level in [291_465, 582_930, 874_395] {
        assert_eq!(rt; envelope.step(), level);
    }
    envelope.release();
    for level in [582_930, 291_465, 0, 0] {
        assert_eq!(rt; envelope.step(), level);
        envelope.release();
    }

    let known = [
        (0, 1, 0, 116_968),
        (99, 3, 0, 229),
        (50, 4, 2, 448),
        (35, 0, 3, 2_648),
    ];
    for (rate, from, to, steps) in known {
        assert!(rt; rate <= 99 && from < 5 && to < 5);
        let (from, to) = (PITCHES[from], PITCHES[to]);
        assert!(rt; from.0 <= 99 && to.0 <= 99);
        assert_eq!(rt; pitch_steps_between(rate, from.0, to), steps, "rate {rate}");
    }
    for rate in 0..100u8 {
        for from in PITCHES {
            for to in PITCHES {
                assert!(rt; from.0 <= 99 && to.0 <= 99);
                let steps = pitch_steps_between(rate, from.0, to);
                assert!(rt;
                    0 < steps && steps <= MOST_PITCH_STEPS[rate as usize / 10],
                    "rate {rate}"
                );
            }
        }
    }
    Ok(())
}

/// An LFO with these settings.
fn lfo(speed: u8, delay: u8, sync: u8, wave: u8) -> Result<Lfo, ValueHigh> {
    let mut voice = Voice::init();
    voice.set(LFO_SPEED, speed)?;
    voice.set(LFO_DELAY, delay)?;
    voice.set(LFO_SYNC, sync)?;
    voice.set(LFO_WAVE, wave)?;
    let mut lfo = Lfo::new();
    lfo.assign(&voice);
    Ok(lfo)
}

/// Wave, speed, the steps of one cycle, and the first value, the least and the greatest of them and their sum.
const CYCLES: [(u8, u8, u32, i32, i32, i32, i64); 18] = [
    (0, 0, 10_681, 16_774_074, 521, 16_776_173, 89_604_319_408),
    (0, 35, 119, 16_494_462, 94_772, 16_684_007, 1_000_948_119),
    (0, 99, 29, 15_611_929, 463_208, 16_538_346, 244_934_436),
    (1, 0, 10_681, 16_775_645, 521, 16_776_166, 89_601_499_770),
    (1, 35, 119, 16_635_839, 94_772, 16_730_611, 1_003_836_647),
    (1, 99, 29, 16_194_572, 463_208, 16_657_781, 249_866_707),
    (2, 0, 10_681, 1_570, 1_049, 16_776_694, 89_595_933_645),
    (2, 35, 119, 141_376, 46_604, 16_682_443, 992_651_938),
    (2, 99, 29, 582_643, 119_434, 16_314_007, 236_672_528),
    (3, 0, 10_681, 0, 0, 16_777_216, 89_590_333_440),
    (3, 35, 119, 0, 0, 16_777_216, 989_855_744),
    (3, 99, 29, 0, 0, 16_777_216, 234_881_024),
    (4, 0, 10_681, 8_383_675, 1, 16_777_212, 89_598_713_904),
    (4, 35, 119, 7_944_671, 1_317, 16_777_212, 998_146_969),
    (4, 99, 29, 6_572_680, 7_898, 16_744_647, 243_043_777),
    (
        5,
        0,
        10_681,
        8_454_144,
        8_454_144,
        9_568_256,
        96_249_184_256,
    ),
    (5, 35, 119, 8_454_144, 8_454_144, 9_568_256, 1_072_889_856),
    (5, 99, 29, 8_454_144, 8_454_144, 9_568_256, 261_881_856),
];

#[test]
fn lfo_gives_known_waves(rt: HostRuntime) -> Result<(), Fail> {
    let tables = Tables::new(rt.alloc())?;
    let mut opening = Lfo::new();
    opening.key_down();
    assert_eq!(rt; opening.step(&tables), (16_494_462, 16_777_216));
    assert_eq!(rt; Lfo::new().step(&tables), (282_753, 16_777_216));

    for (wave, speed, steps, first, least, greatest, sum) in CYCLES {
        let mut waves = lfo(speed, 0, 1, wave)?;
        waves.key_down();
        let begun = waves.step(&tables).0;
        assert_eq!(rt; begun, first, "wave {wave}, speed {speed}");
        let (mut low, mut high, mut total) = (begun, begun, i64::from(begun));
        for _ in 1..steps {
            let value = waves.step(&tables).0;
            low = low.min(value);
            high = high.max(value);
            total = total.wrapping_add(i64::from(value));
        }
        assert_eq!(rt; low, least, "wave {wave}, speed {speed}");
        assert_eq!(rt; high, greatest, "wave {wave}, speed {speed}");
        assert_eq!(rt; total, sum, "wave {wave}, speed {speed}");
    }
    Ok(())
}

#[test]
fn lfo_holds_waits_and_runs_free(rt: HostRuntime) -> Result<(), Fail> {
    let tables = Tables::new(rt.alloc())?;
    let mut held = lfo(99, 0, 1, 5)?;
    held.key_down();
    let mut value = 8_454_144;
    for next in [9_568_256, 7_667_712, 3_014_656, 8_978_432, 2_752_512] {
        for _ in 0..29 {
            let now = held.step(&tables).0;
            if now != value {
                value = now;
                break;
            }
        }
        assert_eq!(rt; value, next);
    }

    let waits = [
        (1, 25, 331_928, 51),
        (50, 215, 2_906, 446),
        (99, 1_835, 2_906, 2_295),
    ];
    for (delay, silent, first, full) in waits {
        let mut fading = lfo(35, delay, 0, 0)?;
        for _ in 0..2 {
            fading.key_down();
            for k in 1..3_000u32 {
                let depth = fading.step(&tables).1;
                assert_eq!(rt; depth == 0, k <= silent, "delay {delay}, step {k}");
                assert_eq!(rt; depth == 16_777_216, k >= full, "delay {delay}, step {k}");
                assert!(rt; k != silent + 1 || depth == first, "delay {delay}");
            }
        }
    }

    let mut free = lfo(35, 0, 0, 2)?;
    for next in [8_529_984, 8_671_361, 8_812_737] {
        assert_eq!(rt; free.step(&tables).0, next);
    }
    free.key_down();
    assert_eq!(rt; free.step(&tables).0, 8_954_114);
    Ok(())
}
