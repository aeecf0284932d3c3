//! Runs a kernel many times and prints a checksum of its answers, so that a script can time it:
//! `notes` renders blocks of six operators, `note` a whole note of them, `died` one that has died away, `sixteen` sixteen
//! notes on the instrument, `commands` applies commands, `entries` passes entries through a line, `acts` edits a voice,
//! `frames` reads a cartridge's message.
#![tactic(auto)]

mod edits;
mod entries;
mod notes;

ghost use Rattle.std.specs.Prelude.{◌≤◌};
ghost use Rattle.operator_kernel.specs.Operator.{HasGains};
ghost use Rattle.algorithm_bus.specs.Buses.{HaveGains};

use algorithm_bus::run_note;
use cartridge::Cartridge;
use dx_tables::Tables;
use operator_kernel::OpBlock;
use std::alloc::{AllocError, Global};
use std::env;
use sysex_frame::{Frame, read_frame};

fn main(rt: HostRuntime) -> Result<(), anyhow::Error> {
    for word in env::args(&rt)?.skip(1) {
        match word.as_str() {
            "notes" => {
                let sum = render_notes(rt.alloc())?;
                println!(rt; "notes sum {sum}")?;
            }
            "note" => {
                let sum = notes::render_note(rt.alloc(), false)?;
                println!(rt; "note sum {sum}")?;
            }
            "died" => {
                let sum = notes::render_note(rt.alloc(), true)?;
                println!(rt; "died sum {sum}")?;
            }
            "sixteen" => {
                let sum = notes::render_sixteen(rt.alloc())?;
                println!(rt; "sixteen sum {sum}")?;
            }
            "commands" => {
                let sum = notes::apply_commands(rt.alloc())?;
                println!(rt; "commands sum {sum}")?;
            }
            "entries" => {
                let sum = entries::pass_entries(&rt, rt.alloc())?;
                println!(rt; "entries sum {sum}")?;
            }
            "acts" => {
                let acts = edits::edit_voice(rt.alloc())?;
                println!(rt; "acts {acts}")?;
            }
            "frames" => {
                let sum = read_frames(rt.alloc())?;
                println!(rt; "frames sum {sum}")?;
            }
            _ => println!(rt; "usage: speed notes|note|died|sixteen|commands|entries|acts|frames")?,
        }
    }
    Ok(())
}

/// 200,000 blocks of one note with six sounding operators, three of them carriers, and feedback.
fn render_notes(alloc: Global) -> Result<i32, AllocError> {
    let tables = Tables::new(alloc)?;
    let mut feedback_state = [0i32; 2];
    let mut out = [0i32; 64];
    let mut sum = 0i32;
    for block in 0..200_000u32 {
        let ops = operators(block as i32);
        run_note(&tables, 4, 7, &ops, &mut feedback_state, &mut out);
        sum = sum.wrapping_mul(31).wrapping_add(out[block as usize % 64]);
    }
    Ok(sum)
}

/// Six operators with phase increments of their own, each as far on as after so many blocks.
fn operators(block: i32) -> [OpBlock; 6]
    ensures { HaveGains result }
{
    six(
        operator(block, 167_391),
        operator(block, 334_782),
        operator(block, 83_695),
        operator(block, 251_086),
        operator(block, 502_173),
        operator(block, 125_543),
    )
}

fn operator(block: i32, freq: i32) -> OpBlock
    ensures { HasGains result }
{
    OpBlock {
        phase: block.wrapping_mul(64).wrapping_mul(freq),
        freq,
        g1: 0xC0_0000,
        g2: 0xB0_0000,
    }
}

fn six(
    first: OpBlock,
    second: OpBlock,
    third: OpBlock,
    fourth: OpBlock,
    fifth: OpBlock,
    sixth: OpBlock,
) -> [OpBlock; 6]
    requires { HasGains first × HasGains second × HasGains third × HasGains fourth × HasGains fifth × HasGains sixth }
    ensures { HaveGains result }
{
    [first, second, third, fourth, fifth, sixth]
}

/// Reads the message of a blank cartridge 20,000 times.
fn read_frames(alloc: Global) -> Result<u32, AllocError> {
    let message = Cartridge::blank(alloc)?.write(alloc, 0)?;
    let mut sum = 0u32;
    for _ in 0..20_000u32 {
        if message.len() <= 536_870_912
            && let Ok(Frame::Cartridge { payload, .. }) = read_frame(&message)
        {
            sum = sum.wrapping_add(payload.len() as u32);
        }
    }
    Ok(sum)
}
