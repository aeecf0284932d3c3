//! Drawn MIDI files, read back against a reference program that goes from tick to tick.

ghost use Rattle.std.specs.Prelude.{◌≡◌, ◌<◌};
ghost use Rattle.velocity_map.specs.declared.curve.Curve.TheVariants.{Linear};
ghost use Rattle.velocity_map.specs.Map.{curve_of};

use super::told;
use plain_text::{LineText, push_number, push_text};
use script_outcome::Bounds;
use std::alloc::{AllocError, Global};
use std::process::Abort;
use velocity_map::VelocityMap;

/// What a drawn event does: a note of a key and a velocity, or a tempo.
#[derive(Clone, Copy, Debug)]
enum Act {
    Note(u8, u8),
    Tempo(u32),
}

/// A drawn event at its tick.
#[derive(Clone, Copy, Debug)]
struct Drawn {
    tick: u32,
    act: Act,
}

fn draw(seed: &mut u64, below: u32) -> u32
    requires { 0 < below }
    ensures { result < below }
{
    *seed = seed
        .wrapping_mul(6_364_136_223_846_793_005)
        .wrapping_add(1_442_695_040_888_963_407);
    (*seed >> 33) as u32 % below
}

/// Draws an event, and writes it after its delta time with or without its status.
fn draw_event(
    bytes: &mut Vec<u8>,
    seed: &mut u64,
    delta: u32,
    runs: bool,
) -> Result<Act, AllocError>
    requires { delta < 16384 }
{
    if delta > 127 || draw(seed, 2) == 0 {
        bytes.push(0x80 + (delta / 128) as u8)?;
    }
    bytes.push((delta % 128) as u8)?;
    if draw(seed, 5) == 0 {
        let tempo = draw(seed, 256) * 4096;
        bytes.extend_from_slice(b"\xFF\x51\x03")?;
        bytes.push((tempo / 65536) as u8)?;
        bytes.push((tempo / 256 % 256) as u8)?;
        bytes.push((tempo % 256) as u8)?;
        return Ok(Act::Tempo(tempo));
    }
    let key = draw(seed, 128) as u8;
    let velocity = 1 + draw(seed, 127) as u8;
    if !runs || draw(seed, 2) == 0 {
        bytes.push(0x90)?;
    }
    bytes.push(key)?;
    bytes.push(velocity)?;
    Ok(Act::Note(key, velocity))
}

/// Draws a track of 12 events: its chunk, and its events.
fn draw_track(
    alloc: Global,
    bytes: &mut Vec<u8>,
    events: &mut Vec<Drawn>,
    seed: &mut u64,
) -> Result<(), AllocError> {
    let mut track = Vec::new(alloc);
    let mut tick = 0u32;
    let mut runs = false;
    for _ in 0..12u8 {
        let delta = draw(seed, 200);
        tick = tick.wrapping_add(delta);
        let act = draw_event(&mut track, seed, delta, runs)?;
        runs = runs || matches!(act, Act::Note(_, _));
        events.push(Drawn { tick, act })?;
    }
    bytes.extend_from_slice(b"MTrk\0\0\0")?;
    bytes.push((track.len() % 256) as u8)?;
    bytes.extend_from_slice(&track)
}

/// Draws a file of three tracks.
fn draw_file(
    alloc: Global,
    bytes: &mut Vec<u8>,
    events: &mut Vec<Drawn>,
    seed: u64,
) -> Result<(), AllocError> {
    let mut seed = seed;
    bytes.extend_from_slice(b"MThd\0\0\0\x06\0\x01\0\x03\0\x60")?;
    for _ in 0..3u8 {
        draw_track(alloc, bytes, events, &mut seed)?;
    }
    Ok(())
}

fn add_note(text: &mut Vec<u8>, due: u32, key: u8, velocity: u8) -> Result<(), AllocError> {
    let mut line = LineText::new();
    push_number(&mut line, due);
    push_text(&mut line, b" on 0 ");
    push_number(&mut line, u32::from(key));
    push_text(&mut line, b" ");
    push_number(&mut line, u32::from(velocity));
    text.extend_from_slice(line.as_slice())?;
    text.push(b'\n')?;
    Ok(())
}

/// What the file says: at each tick the events of the first track, then those of the second and of the
/// third; then the time goes on by the tempo.
fn reference_text_of(alloc: Global, events: &[Drawn]) -> Result<Vec<u8>, AllocError> {
    let mut text = Vec::new(alloc);
    let mut time = 0u64;
    let mut tempo = 500_000u32;
    for tick in 0..2400u32 {
        for event in events {
            if event.tick == tick {
                match event.act {
                    Act::Note(key, velocity) => {
                        let samples = time.wrapping_mul(441) / 960_000;
                        add_note(&mut text, (samples / 64 % 65536) as u32, key, velocity)?;
                    }
                    Act::Tempo(next) => tempo = next,
                }
            }
        }
        time = time.wrapping_add(u64::from(tempo));
    }
    Ok(text)
}

/// Whether drawn files say what the reference program says.
pub(crate) fn files_are_read_back(
    rt: &impl Abort,
    alloc: Global,
    map: &VelocityMap,
) -> Result<(), AllocError>
    requires { curve_of map.now ≡ Linear }
{
    for seed in 0..40u64 {
        let mut bytes = Vec::new(alloc);
        let mut events = Vec::new(alloc);
        draw_file(alloc, &mut bytes, &mut events, seed)?;
        let wanted = reference_text_of(alloc, &events)?;
        let bounds = Bounds {
            blocks: None,
            room: 100,
        };
        let text = told(alloc, map, &bytes, bounds)?;
        assert_eq!(rt; text.as_slice(), wanted.as_slice(), "{seed}");
    }
    Ok(())
}
