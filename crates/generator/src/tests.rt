//! Scripts beside a reference program, and numbers that other programs gave.

ghost use Rattle.std.specs.Prelude.{◌<◌};

use super::*;
use std::alloc::{AllocError, Global};
use std::process::Abort;
use std::test::Fail;

/// The next number below another.
fn next_below(state: &mut u64, bound: u64) -> u64
    requires { 0 < bound }
{
    *state = state
        .wrapping_mul(6_364_136_223_846_793_005)
        .wrapping_add(1_442_695_040_888_963_407);
    (*state >> 33) % bound
}

/// The text of a script.
fn reference_script(
    alloc: Global,
    seed: u64,
    script: u32,
    commands: u32,
) -> Result<String, AllocError> {
    let mut state = seed.wrapping_add(u64::from(script).wrapping_mul(1_000_003));
    let mut block = 0u64;
    let mut text = format!(in alloc; "midi 1\n")?;
    for _turn in 0..commands {
        block = block.wrapping_add(next_below(&mut state, 8));
        let kind = next_below(&mut state, 8);
        let line = if kind == 7 {
            let algorithm = next_below(&mut state, 32);
            format!(in alloc; "{block} param 134 {algorithm}\n")?
        } else {
            let key = next_below(&mut state, 60).wrapping_add(36);
            if kind < 4 {
                let velocity = next_below(&mut state, 127).wrapping_add(1);
                format!(in alloc; "{block} on 0 {key} {velocity}\n")?
            } else {
                format!(in alloc; "{block} off 0 {key}\n")?
            }
        };
        text.push_str(&line)?;
    }
    Ok(text)
}

#[test]
fn texts(rt: HostRuntime) -> Result<(), Fail> {
    let alloc = rt.alloc();
    let rows: [(u64, u32, u32, &[u8]); 4] = [
        (0, 0, 0, b"midi 1\n"),
        (0, 0, 1, b"midi 1\n7 on 0 73 26\n"),
        (
            0,
            0,
            3,
            b"midi 1\n7 on 0 73 26\n12 on 0 80 113\n12 on 0 79 20\n",
        ),
        (
            u64::MAX,
            255,
            3,
            b"midi 1\n7 off 0 40\n10 on 0 59 61\n17 off 0 93\n",
        ),
    ];
    for (seed, script, commands, wanted) in rows {
        assert!(rt; commands <= 100_000);
        assert!(rt; script_text(alloc, seed, script, commands)?.as_slice() == wanted);
    }
    for script in 0..4u32 {
        let text = script_text(alloc, 1, script, 5000)?;
        let reference = reference_script(alloc, 1, script, 5000)?;
        assert!(rt; text.as_slice() == reference.as_bytes(), "script {script}");
    }
    Ok(())
}

#[test]
fn sums(rt: HostRuntime) -> Result<(), Fail> {
    let rows = [
        (0u64, 1u32, 0u32, Some(0i64)),
        (2, 40, 38, None),
        (1, 400, 400, Some(3_814_002)),
        (1, 4000, 4000, Some(28_504_844)),
        (0, 4000, 4000, Some(34_989_878)),
    ];
    for (seed, blocks, commands, sum) in rows {
        assert!(rt; blocks <= 100_000);
        let played = play_generated(rt.alloc(), seed, blocks)?;
        assert_eq!(rt; played.commands, commands, "{seed} {blocks}");
        assert_eq!(rt; played.sum, sum.unwrap_or(played.sum), "{seed} {blocks}");
    }
    Ok(())
}
