//! The instrument beside the reference program.

ghost use Rattle.std.specs.Prelude.{◌≤◌};

use super::*;
use crate::reference::ReferenceInstrument;
use cartridge::Cartridge;
use command_set::{ALL_NOTES_OFF, Command, HOLD_PEDAL, MODULATION_WHEEL};
use dx_tables::Tables;
use std::alloc::{AllocError, Global};
use std::process::Abort;
use std::test::Fail;
use voice_record::operator_parameter::OUTPUT_LEVEL;
use voice_record::parameter::{ALGORITHM, OPERATOR_FIELDS, OPERATOR_SWITCH, PITCH_RATES};
use voice_record::{Voice, greatest};

/// The instrument with the reference program beside it.
#[derive(Drop)]
struct Pair {
    tables: Tables,
    instrument: Instrument,
    reference: ReferenceInstrument,
}

impl Pair {
    fn new(alloc: Global) -> Result<Pair, AllocError> {
        Ok(Pair {
            tables: Tables::new(alloc)?,
            instrument: Instrument::new(alloc, Engine::One)?,
            reference: ReferenceInstrument::new(),
        })
    }

    fn apply(&mut self, rt: &impl Abort, command: &Command) {
        assert!(rt; command.in_range());
        self.instrument.apply(command);
        self.reference.apply(&self.tables, command);
    }

    /// Renders a block with both.
    fn block(&mut self, rt: &impl Abort, block: u32) -> [i16; 64] {
        let mut out = [0i16; 64];
        self.instrument.block(&mut out);
        let samples = self.reference.block(&self.tables);
        for j in 0..64usize {
            assert_eq!(rt; out[j], samples[j], "block {block} sample {j}");
        }
        out
    }

    /// Whether both have the same voices and the same switch.
    fn compare_voices(&self, rt: &impl Abort, block: u32) {
        let bank = self.instrument.bank();
        for slot in 0..32u8 {
            let voice = bank.voice(slot).bytes();
            assert!(rt;
                voice == self.reference.bank[slot as usize],
                "block {block} slot {slot}"
            );
        }
        assert!(rt;
            self.instrument.voice().bytes() == self.reference.voice,
            "block {block}"
        );
        assert_eq!(rt;
            self.instrument.switch(),
            self.reference.switch,
            "block {block}"
        );
    }
}

fn note_on(key: u8) -> Command {
    Command::NoteOn {
        channel: 0,
        key,
        velocity: 100,
    }
}

fn note_off(key: u8) -> Command {
    Command::NoteOff { channel: 0, key }
}

fn pedal(value: u8) -> Command {
    Command::Control {
        channel: 3,
        number: HOLD_PEDAL,
        value,
    }
}

#[test]
fn a_note_sounds_and_dies_away(rt: HostRuntime) -> Result<(), Fail> {
    let mut pair = Pair::new(rt.alloc())?;
    pair.apply(&rt, &note_on(69));
    let out = pair.block(&rt, 0);
    let prefix: [i16; 8] = [0, 8, 24, 47, 79, 118, 164, 217];
    assert!(rt; out.as_slice().starts_with(&prefix));
    for b in 1..100u32 {
        if b == 50 {
            pair.apply(&rt, &note_off(69));
        }
        let out = pair.block(&rt, b);
        assert_eq!(rt; out == [0; 64], b >= 55, "block {b}");
    }
    Ok(())
}

#[test]
fn a_seventeenth_note_waits_for_a_slot(rt: HostRuntime) -> Result<(), Fail> {
    let mut pair = Pair::new(rt.alloc())?;
    // A loud voice: all operators are carriers.
    for (number, value) in [(16, 99), (37, 99), (58, 99), (79, 99), (100, 99), (134, 31)] {
        pair.apply(&rt, &Command::Param { number, value });
    }
    for key in 40..56u8 {
        pair.apply(&rt, &note_on(key));
    }
    pair.block(&rt, 0);
    pair.apply(&rt, &note_on(56));
    assert_eq!(rt; pair.reference.dropped, 1);
    pair.block(&rt, 1);
    pair.apply(&rt, &note_off(42));
    pair.apply(&rt, &note_on(90));
    assert_eq!(rt; (pair.reference.dropped, pair.reference.last), (1, 2));
    for b in 2..20u32 {
        pair.block(&rt, b);
    }
    assert!(rt;
        pair.reference.limited > 100,
        "limited {}",
        pair.reference.limited
    );
    Ok(())
}

/// Blocks 1 and 12 of a note that is released before block 1, where the pedal's value is this.
fn released_sound(
    rt: &impl Abort,
    alloc: Global,
    value: u8,
) -> Result<([i16; 64], [i16; 64]), AllocError> {
    let mut pair = Pair::new(alloc)?;
    pair.apply(rt, &pedal(value));
    pair.apply(rt, &note_on(69));
    pair.block(rt, 0);
    pair.apply(rt, &note_off(69));
    let early = pair.block(rt, 1);
    for b in 2..12u32 {
        pair.block(rt, b);
    }
    let late = pair.block(rt, 12);
    pair.apply(rt, &pedal(0));
    for b in 13..20u32 {
        pair.block(rt, b);
    }
    Ok((early, late))
}

#[test]
fn the_pedal_holds_a_note(rt: HostRuntime) -> Result<(), Fail> {
    let (early, late) = released_sound(&rt, rt.alloc(), 127)?;
    let (early_at_64, late_at_64) = released_sound(&rt, rt.alloc(), 64)?;
    assert!(rt; late != [0; 64] && early == early_at_64 && late == late_at_64);
    let (early_at_63, late_at_63) = released_sound(&rt, rt.alloc(), 63)?;
    assert!(rt; early != early_at_63 && late_at_63 == [0; 64]);
    Ok(())
}

#[test]
fn a_program_is_taken_modulo_32(rt: HostRuntime) -> Result<(), Fail> {
    let mut pair = Pair::new(rt.alloc())?;
    for command in [
        Command::Param {
            number: ALGORITHM,
            value: 31,
        },
        Command::Store { slot: 1 },
        Command::Program {
            channel: 0,
            number: 0,
        },
        Command::Param {
            number: OPERATOR_SWITCH,
            value: 32,
        },
    ] {
        pair.apply(&rt, &command);
    }
    assert_eq!(rt; pair.instrument.voice().get(ALGORITHM), 0);
    assert_eq!(rt; pair.instrument.switch(), 32);
    pair.apply(
        &rt,
        &Command::Program {
            channel: 0,
            number: 33,
        },
    );
    assert_eq!(rt; pair.instrument.voice().get(ALGORITHM), 31);
    assert_eq!(rt; pair.instrument.switch(), 63);
    pair.compare_voices(&rt, 0);
    Ok(())
}

/// A number below a bound, from one that looks random.
fn draw(random: u32, index: u32, bound: u32) -> u8
    requires { bound ≤ 256 }
{
    let mixed = random.wrapping_add(index).wrapping_mul(2_654_435_761);
    ((mixed >> 8) % bound.max(1)) as u8
}

/// A voice whose parameters look random, each modulo its greatest value and one, with audible levels.
fn voice_of(seed: u32) -> Voice {
    let mut numbers = [0u8; 155];
    let mut random = seed;
    for i in 0..155usize {
        random = random.wrapping_mul(1_664_525).wrapping_add(1_013_904_223);
        numbers[i] = ((random >> 16) % (u32::from(greatest(i as u8)) + 1)) as u8;
        if i < PITCH_RATES as usize && i % OPERATOR_FIELDS as usize == OUTPUT_LEVEL as usize {
            numbers[i] = 90 + numbers[i] % 10;
        }
    }
    Voice::from_bytes(&numbers)
}

fn cartridge_of(alloc: Global, seed: u32) -> Result<Cartridge, AllocError> {
    let mut cartridge = Cartridge::blank(alloc)?;
    for slot in 0..32u8 {
        cartridge.store(slot, &voice_of(seed.wrapping_add(u32::from(slot))));
    }
    Ok(cartridge)
}

fn control_of(random: u32) -> Command {
    let value = draw(random, 3, 128);
    match draw(random, 4, 8) {
        0..=2 => Command::Control {
            channel: 0,
            number: MODULATION_WHEEL,
            value,
        },
        3..=6 => pedal(value),
        _ => Command::Control {
            channel: 1,
            number: ALL_NOTES_OFF,
            value,
        },
    }
}

/// A command that looks random.
fn command_of(alloc: Global, random: u32) -> Result<Command, AllocError> {
    let channel = draw(random, 1, 2);
    let key = 36 + draw(random, 2, 20) % 20;
    Ok(match draw(random, 0, 100) {
        0..=44 => Command::NoteOn {
            channel,
            key,
            velocity: 127 - draw(random, 3, 100) % 100,
        },
        45..=74 => Command::NoteOff { channel, key },
        75..=78 => Command::Bend {
            channel,
            value: u16::from(draw(random, 3, 128)) * 128,
        },
        79..=86 => control_of(random),
        87..=89 => Command::Program {
            channel,
            number: draw(random, 3, 128),
        },
        90..=95 => {
            let number = draw(random, 3, 156).min(OPERATOR_SWITCH);
            let bound = u32::from(greatest(number)) + 1;
            Command::Param {
                number,
                value: draw(random, 4, bound),
            }
        }
        96 => Command::Store {
            slot: draw(random, 3, 32),
        },
        97 => Command::Cartridge(Box::new(alloc, cartridge_of(alloc, random)?)?),
        _ => Command::Voice(Box::new(alloc, voice_of(random))?),
    })
}

#[test]
fn sounds_like_the_reference(rt: HostRuntime) -> Result<(), Fail> {
    let mut pair = Pair::new(rt.alloc())?;
    let mut random = 1u32;
    let mut sounding = 0u32;
    for block in 0..600u32 {
        for _ in 0..3 {
            random = random.wrapping_mul(1_664_525).wrapping_add(1_013_904_223);
            pair.apply(&rt, &command_of(rt.alloc(), random)?);
        }
        if pair.block(&rt, block) != [0; 64] {
            sounding = sounding.wrapping_add(1);
        }
        pair.compare_voices(&rt, block);
    }
    assert!(rt; sounding > 500, "sounding {sounding}");
    assert!(rt;
        pair.reference.dropped > 100,
        "dropped {}",
        pair.reference.dropped
    );
    assert!(rt; pair.reference.held > 50, "held {}", pair.reference.held);
    Ok(())
}
