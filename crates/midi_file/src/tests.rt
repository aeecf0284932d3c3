//! MIDI files, good ones and broken ones.

ghost use Rattle.std.specs.Prelude.{◌≡◌};
ghost use Rattle.velocity_map.specs.declared.curve.Curve.TheVariants.{Linear};
ghost use Rattle.velocity_map.specs.Map.{curve_of};

use super::*;
use plain_text::{LineText, push_number, push_text};
use script_outcome::{Bounds, Place, ScriptFault, ScriptKind, push_script_text};
use script_plan::Script;
use std::alloc::{AllocError, Global};
use std::process::Abort;
use std::test::Fail;
use velocity_map::{Curve, VelocityMap};

mod broken;
mod drawn;
mod good;

#[test]
fn midi_files(rt: HostRuntime) -> Result<(), Fail> {
    let alloc = rt.alloc();
    let rule = Box::new(alloc, |v: u8| Curve::Linear.value(v))?;
    let map = VelocityMap::new(Curve::Linear, rule);
    good::files_are_read(&rt, alloc, &map)?;
    broken::files_are_refused(&rt, alloc, &map)?;
    drawn::files_are_read_back(&rt, alloc, &map)?;
    Ok(())
}

/// Adds a script's commands, a line each with its block.
fn add_commands(text: &mut Vec<u8>, mut script: Script) -> Result<(), AllocError> {
    for _ in 0..script.len() {
        if let Some((due, command)) = script.pop() {
            let mut line = LineText::new();
            push_number(&mut line, due);
            push_text(&mut line, b" ");
            if command.in_range() {
                command.write_text(&mut line);
            }
            text.extend_from_slice(line.as_slice())?;
            text.push(b'\n')?;
        }
    }
    Ok(())
}

/// Adds a refusal with its place.
fn add_refusal(text: &mut Vec<u8>, place: Place, kind: ScriptKind) -> Result<(), AllocError> {
    let mut line = LineText::new();
    match place {
        Place::Line(_) => push_text(&mut line, b"line"),
        Place::Byte(number) => {
            push_text(&mut line, b"byte ");
            push_number(&mut line, number);
        }
    }
    push_text(&mut line, b": ");
    push_script_text(&kind, &mut line);
    text.extend_from_slice(line.as_slice())
}

/// What a file says, as text.
fn told(
    alloc: Global,
    map: &VelocityMap,
    bytes: &[u8],
    bounds: Bounds,
) -> Result<Vec<u8>, AllocError>
    requires { curve_of map.now ≡ Linear }
{
    let mut text = Vec::new(alloc);
    if bytes.len() > 536_870_912 {
        return Ok(text);
    }
    match read_midi_file(alloc, bytes, map, bounds) {
        Ok(script) => add_commands(&mut text, script)?,
        Err(ScriptFault::Refused { place, kind }) => add_refusal(&mut text, place, kind)?,
        Err(ScriptFault::TooMany) => text.extend_from_slice(b"too many")?,
        Err(ScriptFault::Memory) => return Err(AllocError),
    }
    Ok(text)
}

/// A file of format 1 with these tracks, each of fewer than 256 bytes, and 96 ticks for a quarter note.
fn file_of(alloc: Global, tracks: &[&[u8]]) -> Result<Vec<u8>, AllocError> {
    let mut bytes = Vec::from_slice(alloc, b"MThd\0\0\0\x06\0\x01\0")?;
    bytes.push((tracks.len() % 256) as u8)?;
    bytes.extend_from_slice(b"\0\x60")?;
    for track in tracks {
        bytes.extend_from_slice(b"MTrk\0\0\0")?;
        bytes.push((track.len() % 256) as u8)?;
        bytes.extend_from_slice(track)?;
    }
    Ok(bytes)
}

/// Whether each file says what stands beside it, with no bound on the blocks and room for ten commands.
fn judge_files(
    rt: &impl Abort,
    alloc: Global,
    map: &VelocityMap,
    rows: &[(&[u8], &[u8])],
) -> Result<(), AllocError>
    requires { curve_of map.now ≡ Linear }
{
    for (bytes, wanted) in rows {
        let bounds = Bounds {
            blocks: None,
            room: 10,
        };
        let text = told(alloc, map, bytes, bounds)?;
        assert_eq!(rt; text.as_slice(), *wanted, "{bytes:?}");
    }
    Ok(())
}

/// Whether each file of tracks says what stands beside it, with no bound on the blocks and room for ten commands.
fn judge_tracks(
    rt: &impl Abort,
    alloc: Global,
    map: &VelocityMap,
    rows: &[(&[&[u8]], &[u8])],
) -> Result<(), AllocError>
    requires { curve_of map.now ≡ Linear }
{
    for (tracks, wanted) in rows {
        let bytes = file_of(alloc, tracks)?;
        let bounds = Bounds {
            blocks: None,
            room: 10,
        };
        let text = told(alloc, map, &bytes, bounds)?;
        assert_eq!(rt; text.as_slice(), *wanted, "{tracks:?}");
    }
    Ok(())
}
