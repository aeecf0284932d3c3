//! A world beside the reference program, schedule by schedule.

ghost use Rattle.std.specs.Prelude.{ℕ, ◌≡◌, ◌<◌, OnOk, length};
ghost use Rattle.schedule_core.specs.Core.{Step, accepted_of, opening, step};

use super::*;
use crate::reference::{ReferenceCore, command_of};
use command_set::Command;
use std::alloc::{AllocError, Global};
use std::process::Abort;
use std::test::Fail;

#[test]
fn one_place(rt: HostRuntime) -> Result<(), Fail> {
    let alloc = rt.alloc();
    let mut world = World::new(alloc, 1, 1, Engine::One)?;
    let first = world.send(alloc, 0, 0, command_of(4));
    assert!(rt; matches!(&first, Ok(0)));
    assert!(rt; !world.was_refused(0));
    let second = world.send(alloc, 0, 7, command_of(9));
    assert!(rt;
        matches!(
            &second,
            Err(WorldRefusal::Full(Command::NoteOff { channel: 0, key: 2 }))
        )
    );
    assert!(rt; world.was_refused(0));
    assert!(rt; world.take(alloc)?);
    assert!(rt; !world.take(alloc)?);
    assert_eq!(rt; world.settle(alloc)?, 0);
    assert_eq!(rt; world.journal().len(), 1);
    every_schedule();
    Ok(())
}

/// A step of the world and the reference core, by a random number. Is anything audible?
fn one_step(
    rt: &impl Abort,
    alloc: Global,
    world: &mut World,
    reference: &mut ReferenceCore,
    random: u32,
) -> Result<bool, AllocError>
    requires scripts { length world.old.scripts ≡ 3 }
    requires accepted { (script : ℕ) → length (accepted_of world.old script) < 1000 }
    requires blocks { world.old.blocks < 1000 }
    ensures { OnOk result ((s : Step) × (world.new ≡ step world.old s)) }
{
    let kind = random % 9;
    if kind == 0 {
        assert_eq!(rt; world.take(alloc)?, reference.take()?);
    } else if kind == 1 {
        assert_eq!(rt; world.settle(alloc)?, reference.settle()?);
    } else if kind == 2 {
        let mut samples = [0i16; 64];
        world.render(&mut samples);
        assert_eq!(rt; samples, reference.render(alloc)?);
        return Ok(samples[63] != 0);
    } else {
        let script = random / 9 % 3;
        let number = random / 27;
        let wanted = reference.send(script, random, number)?;
        match world.send(alloc, script, random, command_of(number)) {
            Ok(seq) => assert_eq!(rt; Some(seq), wanted),
            Err(WorldRefusal::Full(_)) => assert_eq!(rt; None, wanted),
            Err(WorldRefusal::Memory(_)) => return Err(AllocError),
        }
    }
    Ok(false)
}

/// A hundred steps by random numbers. In how many blocks is anything audible?
fn one_schedule(
    rt: &impl Abort,
    alloc: Global,
    world: &mut World,
    reference: &mut ReferenceCore,
    seed: u32,
) -> Result<u32, AllocError>
    requires { world.old ≡ opening world.old.places 3 }
    ensures { OnOk result (length world.new.scripts ≡ 3) }
{
    let mut random = seed;
    let mut audible = 0u32;
    for turn in 0..100u32 {
        random = random
            .wrapping_mul(1_664_525)
            .wrapping_add(1_013_904_223 + turn);
        if one_step(rt, alloc, world, reference, random >> 8)? {
            audible = audible.wrapping_add(1);
        }
    }
    Ok(audible)
}

#[test]
fn random_schedules(rt: HostRuntime) -> Result<(), Fail> {
    let alloc = rt.alloc();
    let mut audible = 0u32;
    let mut refused = 0u32;
    for seed in 0..20u32 {
        let places = 1 + seed as usize % 4 * 12;
        let mut world = World::new(alloc, places, 3, Engine::One)?;
        let mut reference = ReferenceCore::new(alloc, places);
        let blocks = one_schedule(&rt, alloc, &mut world, &mut reference, seed)?;
        audible = audible.wrapping_add(blocks);
        assert_eq!(rt; world.blocks(), reference.blocks);
        for script in 0..3u32 {
            assert_eq!(rt;
                world.was_refused(script),
                reference.was_refused[script as usize],
                "seed {seed}"
            );
            if world.was_refused(script) {
                refused = refused.wrapping_add(1);
            }
        }
        assert_eq!(rt; world.journal().len(), reference.journal.len());
        for (logged, (block, entry)) in world.journal().iter().zip(&reference.journal) {
            assert_eq!(rt; logged.block, *block);
            assert_eq!(rt; logged.entry.script, entry.script);
            assert_eq!(rt; logged.entry.seq, entry.seq);
            assert_eq!(rt; logged.entry.sent_at, entry.sent_at);
        }
    }
    assert!(rt;
        100 < audible && 30 < refused && refused < 60,
        "{audible} {refused}"
    );
    Ok(())
}
