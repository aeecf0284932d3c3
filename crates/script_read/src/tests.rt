//! Scripts of every kind, good ones and broken ones.

use super::*;
use plain_text::{LineText, push_number, push_text};
use script_outcome::{Bounds, Place, ScriptFault, ScriptKind, push_script_text};
use script_plan::Script;
use std::alloc::{AllocError, Global};
use std::process::Abort;
use std::test::Fail;
use velocity_map::{Curve, MapSet, VelocityMap};

/// One map for each curve.
macro_rules! make_maps {
    ($alloc:expr) => {{
        let linear = Box::new($alloc, |v: u8| Curve::Linear.value(v))?;
        let soft = Box::new($alloc, |v: u8| Curve::Soft.value(v))?;
        let hard = Box::new($alloc, |v: u8| Curve::Hard.value(v))?;
        MapSet::new(
            VelocityMap::new(Curve::Linear, linear),
            VelocityMap::new(Curve::Soft, soft),
            VelocityMap::new(Curve::Hard, hard),
        )
    }};
}

/// A script's commands, a line each with its block, as text.
fn add_commands(text: &mut Vec<u8>, mut script: Script) -> Result<(), AllocError> {
    for _ in 0..script.len() {
        if let Some((due, command)) = script.pop() {
            let mut line = LineText::new();
            push_number(&mut line, due);
            push_text(&mut line, b" ");
            if command.in_range() {
                command.write_text(&mut line);
            }
            text.extend_from_slice(line.as_slice())?;
            text.push(b'\n')?;
        }
    }
    Ok(())
}

/// The text of a refusal with its place.
fn add_refusal(text: &mut Vec<u8>, place: Place, kind: ScriptKind) -> Result<(), AllocError> {
    let mut line = LineText::new();
    match place {
        Place::Line(number) => {
            push_text(&mut line, b"line ");
            push_number(&mut line, number);
        }
        Place::Byte(number) => {
            push_text(&mut line, b"byte ");
            push_number(&mut line, number);
        }
    }
    push_text(&mut line, b": ");
    push_script_text(&kind, &mut line);
    text.extend_from_slice(line.as_slice())
}

/// What a script says, as text.
fn told(
    alloc: Global,
    maps: &MapSet,
    bytes: &[u8],
    blocks: Option<u32>,
    room: u32,
) -> Result<Vec<u8>, AllocError> {
    let mut text = Vec::new(alloc);
    if bytes.len() > 536_870_912 {
        return Ok(text);
    }
    match read_script(alloc, bytes, maps, Bounds { blocks, room }) {
        Ok(script) => add_commands(&mut text, script)?,
        Err(ScriptFault::Refused { place, kind }) => add_refusal(&mut text, place, kind)?,
        Err(ScriptFault::TooMany) => text.extend_from_slice(b"too many")?,
        Err(ScriptFault::Memory) => return Err(AllocError),
    }
    Ok(text)
}

/// Whether each script says what stands beside it, with 100 blocks.
fn judge(
    rt: &impl Abort,
    alloc: Global,
    maps: &MapSet,
    rows: &[(&[u8], &[u8])],
) -> Result<(), AllocError> {
    for (bytes, wanted) in rows {
        let text = told(alloc, maps, bytes, Some(100), 10)?;
        assert_eq!(rt; text.as_slice(), *wanted, "{bytes:?}");
    }
    Ok(())
}

#[test]
fn texts_are_read(rt: HostRuntime) -> Result<(), Fail> {
    let alloc = rt.alloc();
    let maps = make_maps!(alloc);
    let rows: [(&[u8], &[u8]); 22] = [
        (
            b"MThd\0\0\0\x06\0\0\0\x01\0\x60MTrk\0\0\0\x08\0\x90\x3C\x64\0\xFF\x2F\0",
            b"0 on 0 60 100\n",
        ),
        (b"midi 1", b""),
        (b"midi 1\n", b""),
        (b"midi 1\r\n\r\n   \r\n#\xFF x\n", b""),
        (
            b"midi 1\n0 on 0 69 100\n50 off 0 69\n",
            b"0 on 0 69 100\n50 off 0 69\n",
        ),
        (b"midi 1\n  007  on 0   0060 100  \r\n", b"7 on 0 60 100\n"),
        (b"midi 1\n0000000099 off 15 127", b"99 off 15 127\n"),
        (
            b"midi 1\n1 bend 3 16383\n1 control 0 64 127\n",
            b"1 bend 3 16383\n1 control 0 64 127\n",
        ),
        (
            b"midi 1\n1 program 9 5\n1 param 155 63\n1 store 31\n",
            b"1 program 9 5\n1 param 155 63\n1 store 31\n",
        ),
        (b"midi 1\nmap soft\n0 bytes 903C40\n", b"0 on 0 60 96\n"),
        (b"midi 1\nmap hard\n0 bytes 903C40\n", b"0 on 0 60 32\n"),
        (
            b"midi 1\nmap  soft \n0 on 0 60 64\nmap linear\n0 on 0 60 64\n",
            b"0 on 0 60 96\n0 on 0 60 64\n",
        ),
        (
            b"midi 1\nmap soft\n0 bytes 903C\nmap hard\n0 bytes 40\n",
            b"0 on 0 60 32\n",
        ),
        (
            b"midi 1\n0 bytes F043\n3 bytes 10010610F7\n",
            b"3 param 134 16\n",
        ),
        (
            b"midi 1\n0 bytes f043\n1 off 0 1\n2 bytes 10010610fF7\n",
            b"line 4: line",
        ),
        (
            b"midi 1\n0 bytes f043\n1 off 0 1\n2 bytes 10010610F7\n",
            b"1 off 0 1\n2 param 134 16\n",
        ),
        (b"midi 1\n0 bytes F043104C00007E00F7\n", b""),
        (
            b"midi 1\n0 bytes F07E00F7F043300000F7F0430001F7F0432009F7\n",
            b"",
        ),
        (
            b"midi 1\n0 bytes A03C40D040B00200B0017F\n",
            b"0 control 0 1 127\n",
        ),
        (
            b"midi 1\n0 bytes 903C64\n1 bytes 4064\n2 bytes 3C00\n",
            b"0 on 0 60 100\n1 on 0 64 100\n2 off 0 60\n",
        ),
        (b"midi 1\n0 bytes 3C64F1", b""),
        (b"midi 1\n5 bytes F8\n5 off 0 1\n", b"5 off 0 1\n"),
    ];
    judge(&rt, alloc, &maps, &rows)?;
    Ok(())
}

#[test]
fn texts_are_refused(rt: HostRuntime) -> Result<(), Fail> {
    let alloc = rt.alloc();
    let maps = make_maps!(alloc);
    let rows: [(&[u8], &[u8]); 32] = [
        (b"", b"line 1: kind"),
        (b" midi 1\n", b"line 1: kind"),
        (b"midi 1 \n", b"line 1: kind"),
        (b"midi 1\r", b"line 1: kind"),
        (b"midi 1\r\r\n", b"line 1: kind"),
        (b"#\nmidi 1\n", b"line 1: kind"),
        (b"\xEF\xBB\xBFmidi 1\n", b"line 1: kind"),
        (b"edit 1 \n0 undo\n", b"line 1: kind"),
        (b"MThd\0\0\0\x06", b"byte 4: cut"),
        (b"midi 1\n\n # x\n", b"line 3: line"),
        (b"midi 1\nmap\n", b"line 2: line"),
        (b"midi 1\nmap x\n", b"line 2: line"),
        (b"midi 1\nmap soft x\n", b"line 2: line"),
        (b"midi 1\n0 map soft\n", b"line 2: line"),
        (b"midi 1\n0\n", b"line 2: line"),
        (b"midi 1\n00000000000 off 0 1\n", b"line 2: line"),
        (b"midi 1\n4294967296 off 0 1\n", b"line 2: line"),
        (b"midi 1\n0 off 0 1\r\r\n", b"line 2: line"),
        (b"midi 1\n0\toff 0 1\n", b"line 2: line"),
        (b"midi 1\n0 on 16 60 100\n", b"line 2: line"),
        (b"midi 1\n0 on 0 60 0\n", b"line 2: line"),
        (b"midi 1\n0 control 0 2 0\n", b"line 2: line"),
        (b"midi 1\n0 param 134 32\n", b"line 2: line"),
        (b"midi 1\n0 bytes\n", b"line 2: line"),
        (b"midi 1\n0 bytes 903\n", b"line 2: line"),
        (b"midi 1\n0 bytes 90 3C\n", b"line 2: line"),
        (b"midi 1\n0 bytes 9g\n", b"line 2: line"),
        (b"midi 1\n5 off 0 1\n4 off 0 1\n", b"line 3: falls"),
        (b"midi 1\n5 bytes F8\n4 off 0 1\n", b"line 3: falls"),
        (b"midi 1\n100 bytes F8\n", b"line 2: late"),
        (b"midi 1\n0 bytes 903C\n", b"line 2: cut"),
        (
            b"midi 1\n0 bytes 90\n1 bytes 3C\n\n2 off 0 1\n",
            b"line 3: cut",
        ),
    ];
    judge(&rt, alloc, &maps, &rows)?;
    Ok(())
}

#[test]
fn edits_are_read(rt: HostRuntime) -> Result<(), Fail> {
    let alloc = rt.alloc();
    let maps = make_maps!(alloc);
    let rows: [(&[u8], &[u8]); 9] = [
        (b"edit 1", b""),
        (b"edit 1\n\n  \r\n# 0 undo\n", b""),
        (
            b"edit 1\n0 set 134 4\n0 undo\n10 store 3\n",
            b"0 param 134 4\n0 param 134 0\n10 store 3\n",
        ),
        (
            b"edit 1\r\n  007  set 0144   0048 \r\n",
            b"7 param 144 48\n",
        ),
        (
            b"edit 1\n0 set 134 4\n1 set 135 7\n2 undo\n3 undo\n4 redo\n5 redo",
            b"0 param 134 4\n1 param 135 7\n2 param 135 0\n3 param 134 0\n4 param 134 4\n5 param 135 7\n",
        ),
        (
            b"edit 1\n0 set 134 4\n0 undo\n0 store 31\n0 redo\n",
            b"0 param 134 4\n0 param 134 0\n0 store 31\n0 param 134 4\n",
        ),
        (
            b"edit 1\n0 set 134 4\n0 set 134 4\n0 undo\n0 undo\n",
            b"0 param 134 4\n0 param 134 4\n0 param 134 4\n0 param 134 0\n",
        ),
        (b"edit 1\n99 set 154 127\n", b"99 param 154 127\n"),
        (
            b"edit 1\n0 set 134 5\n0 set 134 6\n0 undo\n0 redo\n0 undo\n0 undo\n",
            b"0 param 134 5\n0 param 134 6\n0 param 134 5\n0 param 134 6\n0 param 134 5\n0 param 134 0\n",
        ),
    ];
    judge(&rt, alloc, &maps, &rows)?;
    Ok(())
}

#[test]
fn edits_are_refused(rt: HostRuntime) -> Result<(), Fail> {
    let alloc = rt.alloc();
    let maps = make_maps!(alloc);
    let rows: [(&[u8], &[u8]); 35] = [
        (b"edit 1\n0 undo\n", b"line 2: undo"),
        (b"edit 1\n0 redo\n", b"line 2: redo"),
        (
            b"edit 1\n0 set 134 4\n0 undo\n0 set 134 5\n0 redo\n",
            b"line 5: redo",
        ),
        (
            b"edit 1\n0 set 134 5\n0 set 134 6\n0 undo\n0 undo\n0 undo\n",
            b"line 6: undo",
        ),
        (
            b"edit 1\n0 set 134 5\n0 undo\n0 redo\n0 set 134 32\n",
            b"line 5: value",
        ),
        (b"edit 1\n0 set 134 32\n", b"line 2: value"),
        (b"edit 1\n0 set 134 256\n", b"line 2: value"),
        (b"edit 1\n0 set 134 4294967295\n", b"line 2: value"),
        (b"edit 1\n0 set 134 4294967296\n", b"line 2: line"),
        (b"edit 1\n0 set 155 1\n", b"line 2: line"),
        (b"edit 1\n0 set 134\n", b"line 2: line"),
        (b"edit 1\n0 set 134 4 5\n", b"line 2: line"),
        (b"edit 1\n0 undo 1\n", b"line 2: line"),
        (b"edit 1\n0\n", b"line 2: line"),
        (b"edit 1\nundo\n", b"line 2: line"),
        (b"edit 1\nmap soft\n", b"line 2: line"),
        (b"edit 1\n0 bytes F8\n", b"line 2: line"),
        (b"edit 1\n0 on 0 60 100\n", b"line 2: line"),
        (b"edit 1\n0 param 134 4\n", b"line 2: line"),
        (b"edit 1\n0 store 32\n", b"line 2: line"),
        (b"edit 1\n0 voice 00\n", b"line 2: line"),
        (b"edit 1\n0 name\n", b"line 2: line"),
        (b"edit 1\n0 name \r\n", b"line 2: line"),
        (b"edit 1\n0 name ELEVENBYTES\n", b"line 2: line"),
        (b"edit 1\n0 name a\x7f\n", b"line 2: line"),
        (b"edit 1\n0 name a\tb\n", b"line 2: line"),
        (b"edit 1\n0 name a\x1f\n", b"line 2: line"),
        (b"edit 1\n0 name a\x80\n", b"line 2: line"),
        (b"edit 1\n0 name A\r", b"line 2: line"),
        (b"edit 1\n\n\n0 name 0123456789 \n", b"line 4: line"),
        (b"edit 1\n5 set 134 4\n4 undo\n", b"line 3: falls"),
        (b"edit 1\n5 set 134 4\n4 set 134 32\n", b"line 3: falls"),
        (b"edit 1\n5 set 134 4\n4 set 155 1\n", b"line 3: line"),
        (b"edit 1\n100 undo\n", b"line 2: late"),
        (b"edit 1\n100 set 134 32\n", b"line 2: late"),
    ];
    judge(&rt, alloc, &maps, &rows)?;
    Ok(())
}

#[test]
fn names_are_taken_whole(rt: HostRuntime) -> Result<(), Fail> {
    let alloc = rt.alloc();
    let maps = make_maps!(alloc);
    let rows: [(&[u8], &[u8]); 6] = [
        (b"edit 1\n0 name A\n", b"41202020202020202020\n"),
        (b"edit 1\n  0   name  ~ # \r\n", b"207e2023202020202020\n"),
        (b"edit 1\n0 name 0123456789", b"30313233343536373839\n"),
        (b"edit 1\n0 name  \n", b"20202020202020202020\n"),
        (b"edit 1\n0 name A\n0 undo\n", b"494e495420564f494345\n"),
        (
            b"edit 1\n0 name A\n0 undo\n0 redo\n",
            b"41202020202020202020\n",
        ),
    ];
    for (bytes, name) in rows {
        let text = told(alloc, &maps, bytes, None, 3)?;
        assert!(rt;
            text.starts_with(b"0 voice 6363") && text.ends_with(name),
            "{bytes:?}"
        );
    }
    Ok(())
}

#[test]
fn edits_are_bounded(rt: HostRuntime) -> Result<(), Fail> {
    let alloc = rt.alloc();
    let maps = make_maps!(alloc);
    // one act more than can be undone
    let mut text = Vec::from_slice(alloc, b"edit 1\n")?;
    for _ in 0..101u8 {
        text.extend_from_slice(b"0 set 134 4\n")?;
    }
    for _ in 0..100u8 {
        text.extend_from_slice(b"0 undo\n")?;
    }
    let read = told(alloc, &maps, &text, None, 201)?;
    assert!(rt; read.ends_with(b"0 param 134 4\n"));
    let many = told(alloc, &maps, &text, None, 200)?;
    assert_eq!(rt; many.as_slice(), b"too many".as_slice());
    text.extend_from_slice(b"0 undo\n")?;
    let refused = told(alloc, &maps, &text, None, 300)?;
    assert_eq!(rt; refused.as_slice(), b"line 203: undo".as_slice());
    // whole voices
    let mut voice = Vec::from_slice(alloc, b"edit 1\n0  voice  0a")?;
    voice.resize(327, b'0')?;
    voice.extend_from_slice(b" \n0 undo\n")?;
    let read = told(alloc, &maps, &voice, None, 2)?;
    assert!(rt; read.starts_with(b"0 voice 0a00") && read.ends_with(b"494e495420564f494345\n"));
    // a digit in upper case; a number above its greatest value
    let wrong: [&[u8]; 2] = [b"edit 1\n0  voice  0A", b"edit 1\n0  voice  64"];
    for begin in wrong {
        let mut voice = Vec::from_slice(alloc, begin)?;
        voice.resize(327, b'0')?;
        let refused = told(alloc, &maps, &voice, None, 2)?;
        assert_eq!(rt; refused.as_slice(), b"line 2: line".as_slice());
    }
    Ok(())
}

#[test]
fn messages_are_refused(rt: HostRuntime) -> Result<(), Fail> {
    let alloc = rt.alloc();
    let maps = make_maps!(alloc);
    let rows: [(&[u8], &[u8]); 8] = [
        (
            b"midi 1\n0 bytes F04310010620F7\n",
            b"line 2: message value 32 of 134",
        ),
        (
            b"midi 1\n0 bytes F043\n0 bytes F7\n",
            b"line 3: message short 3",
        ),
        (
            b"midi 1\n0 bytes F0430000011AF7\n",
            b"line 2: message count 1 26",
        ),
        (
            b"midi 1\n0 bytes F0430009F7\n",
            b"line 2: message length 5 wanted 4104",
        ),
        (
            b"midi 1\n0 bytes 803C00F0431001061020F7\n1 x\n",
            b"line 2: message length 8 wanted 7",
        ),
        (
            b"\xF0\x43\x10\x01\x06\x10\xF7\xF0\x43\x10\x01\x06\x20\xF7",
            b"byte 7: message value 32 of 134",
        ),
        (b"midi 1\n0 bytes F043\n0 x\n", b"line 3: line"),
        (b"midi 1\n0 bytes F0F7F043F7", b"line 2: message short 3"),
    ];
    judge(&rt, alloc, &maps, &rows)?;
    // a voice with a wrong checksum
    let mut text = Vec::from_slice(alloc, b"midi 1\n0 bytes F0430000011B")?;
    for _ in 0..155u8 {
        text.extend_from_slice(b"00")?;
    }
    text.extend_from_slice(b"01F7")?;
    let refused = told(alloc, &maps, &text, None, 1)?;
    assert_eq!(rt;
        refused.as_slice(),
        b"line 2: message checksum 1 wanted 0".as_slice()
    );
    Ok(())
}

#[test]
fn streams_are_read(rt: HostRuntime) -> Result<(), Fail> {
    let alloc = rt.alloc();
    let maps = make_maps!(alloc);
    let rows: [(&[u8], &[u8]); 9] = [
        (b"\xF0\x43\x10\x01\x06\x10\xF7", b"0 param 134 16\n"),
        (b"\xF0\xF7\x90\x3C\x40", b"0 on 0 60 64\n"),
        (
            b"\xF0\x43\x10\x01\x06\x20\xF7",
            b"byte 0: message value 32 of 134",
        ),
        (b"\xF0\x43", b"byte 0: cut"),
        (b"\xF0\xF7\x90", b"byte 2: cut"),
        (b"\xF0\xF7\x90\xF8\x3C", b"byte 2: cut"),
        (b"\xF0\xF7\x90\x3C\x40\xF8\x3E", b"byte 6: cut"),
        (b"\xF0\xF7\x90\x3C\xF0\x43", b"byte 4: cut"),
        (b"\xF0\x43\x90\x3C\x64", b"0 on 0 60 100\n"),
    ];
    judge(&rt, alloc, &maps, &rows)?;
    let mut message = Vec::from_slice(alloc, b"\xF0\x43\x00\x00\x01\x1B")?;
    message.resize(162, 0u8)?;
    message.push(0xF7)?;
    let voice = told(alloc, &maps, &message, None, 1)?;
    assert!(rt; voice.len() == 319 && voice.starts_with(b"0 voice 0000"));
    let mut alone = Vec::from_slice(alloc, b"\xF0")?;
    alone.resize(5999, 0u8)?;
    alone.push(0xF7)?;
    let refused = told(alloc, &maps, &alone, None, 1)?;
    assert_eq!(rt; refused.as_slice(), b"byte 0: long".as_slice());
    let mut long = Vec::from_slice(alloc, b"\xF0\xF7\xF0")?;
    long.resize(6001, 0u8)?;
    long.push(0xF7)?;
    let refused = told(alloc, &maps, &long, None, 1)?;
    assert_eq!(rt; refused.as_slice(), b"byte 2: long".as_slice());
    Ok(())
}

#[test]
fn bounds_are_kept(rt: HostRuntime) -> Result<(), Fail> {
    let alloc = rt.alloc();
    let maps = make_maps!(alloc);
    let rows: [(&[u8], Option<u32>, u32, &[u8]); 9] = [
        (b"midi 1\n4 off 0 1\n", Some(5), 1, b"4 off 0 1\n"),
        (b"midi 1\n5 off 0 1\n", Some(5), 1, b"line 2: late"),
        (
            b"midi 1\n4294967295 off 0 1\n",
            None,
            1,
            b"4294967295 off 0 1\n",
        ),
        (b"midi 1\n", Some(1), 0, b""),
        (b"midi 1\n0 off 0 1\n", Some(1), 0, b"too many"),
        (
            b"midi 1\n0 off 0 1\n0 bytes 803C00F04310010620F7\n",
            None,
            1,
            b"too many",
        ),
        (
            b"midi 1\n0 off 0 1\n0 bytes 803C00F04310010620F7\n",
            None,
            2,
            b"line 3: message value 32 of 134",
        ),
        (
            b"midi 1\n0 bytes F0\n0 off 0 1\n0 off 0 1\n",
            None,
            1,
            b"too many",
        ),
        (b"\xF0\xF7\x80\x01\x00\x01\x00", None, 1, b"too many"),
    ];
    for (bytes, blocks, room, wanted) in rows {
        let text = told(alloc, &maps, bytes, blocks, room)?;
        assert_eq!(rt; text.as_slice(), wanted, "{bytes:?}");
    }
    Ok(())
}

#[test]
fn dumps_in_text(rt: HostRuntime) -> Result<(), Fail> {
    let alloc = rt.alloc();
    let maps = make_maps!(alloc);
    let mut voice = Vec::from_slice(alloc, b"midi 1\n0  voice ")?;
    for _ in 0..155u8 {
        voice.extend_from_slice(b"0a")?;
    }
    // a curve of 10, above its greatest
    let refused = told(alloc, &maps, &voice, None, 1)?;
    assert_eq!(rt; refused.as_slice(), b"line 2: line".as_slice());
    let mut voice = Vec::from_slice(alloc, b"midi 1\n0  voice ")?;
    voice.resize(326, b'0')?;
    let read = told(alloc, &maps, &voice, None, 1)?;
    assert!(rt; read.len() == 319 && read.starts_with(b"0 voice 0000"));
    let mut cartridge = Vec::from_slice(alloc, b"midi 1\n0 cartridge ")?;
    cartridge.resize(8211, b'0')?;
    let read = told(alloc, &maps, &cartridge, None, 1)?;
    assert!(rt; read.len() == 8205 && read.starts_with(b"0 cartridge 0000"));
    cartridge.push(b'0')?;
    let refused = told(alloc, &maps, &cartridge, None, 1)?;
    assert_eq!(rt; refused.as_slice(), b"line 2: line".as_slice());
    Ok(())
}
