//! Worked streams through a port on a line of one place.

ghost use Rattle.std.specs.Prelude.{◌≡◌, ◌<◌, ◌≤◌, length};
ghost use Rattle.velocity_map.specs.Curve.{curve_value};
ghost use Rattle.command_queue.specs.Ends.{AreEnds};

use crate::{Fed, Port, PortStop};
use command_queue::{Line, SendEnd, TakeEnd};
use command_set::Command;
use std::alloc::Global;
use std::process::Abort;
use std::sync::Wait;
use std::test::Fail;
use velocity_map::{Curve, VelocityMap};

/// Feeds the first end, if its quota allows it.
fn feed<R: Wait>(
    rt: &R,
    alloc: Global,
    port: &mut Port,
    line: &Line,
    ends: &mut [SendEnd],
    bytes: &[u8],
) -> Option<Fed>
    requires ends { AreEnds line.now ends.old × (0 < length ends.old) }
    requires bytes { length bytes.now ≤ 200 }
    ensures { AreEnds line.now ends.new }
{
    let end = &mut ends[0];
    if u64::from(end.count()) + bytes.len() as u64 + 1 <= u64::from(end.quota()) {
        Some(port.feed(rt, alloc, line, end, bytes))
    } else {
        None
    }
}

fn fed(used: usize, sent: u32, passed_over: u32, refused: u32, stop: PortStop) -> Option<Fed> {
    Some(Fed {
        used,
        sent,
        passed_over,
        refused,
        stop,
    })
}

/// What is taken, as its number, its block, and its note or parameter; zeros where it is another command or nothing.
fn taken<R: Wait>(rt: &R, line: &Line, taker: &mut TakeEnd) -> (u32, u32, u8, u8)
    requires { taker.old.line ≡ line.now }
    ensures { taker.new.line ≡ taker.old.line }
{
    match line.take(rt, taker) {
        Some(entry) => match entry.command {
            Command::NoteOn { key, velocity, .. } => (entry.seq, entry.sent_at, key, velocity),
            Command::Param { number, value } => (entry.seq, entry.sent_at, number, value),
            _ => (0, 0, 0, 0),
        },
        None => (0, 0, 0, 0),
    }
}

/// A voice of zeros goes through as one message.
fn whole_voice<R: Abort + Wait>(rt: &R, alloc: Global, port: &mut Port) -> Result<(), Fail> {
    let (line, mut taker, mut ends) = Line::new(alloc, 1, &[200])?;
    let mut message = [0u8; 163];
    message[..6].copy_from_slice(b"\xF0\x43\x00\x00\x01\x1B");
    message[162] = 0xF7;
    assert_eq!(rt;
        feed(rt, alloc, port, &line, ends.as_mut_slice(), &message),
        fed(163, 1, 0, 0, PortStop::All)
    );
    let entry = line.take(rt, &mut taker).ok_or("nothing waits")?;
    assert!(rt; matches!(entry.command, Command::Voice(_)));
    Ok(())
}

fn worked_stream<R: Abort + Wait>(
    rt: &R,
    alloc: Global,
    map: VelocityMap,
    velocity: u8,
) -> Result<(), Fail> {
    let mut port = Port::new(alloc, map).ok().ok_or("no memory")?;
    let (line, mut taker, mut ends) = Line::new(alloc, 1, &[16])?;
    let ends = ends.as_mut_slice();
    let notes = b"\x90\x3C\x40\x3E\x40";
    assert_eq!(rt;
        feed(rt, alloc, &mut port, &line, ends, notes),
        fed(5, 1, 0, 0, PortStop::Full)
    );
    assert_eq!(rt;
        feed(rt, alloc, &mut port, &line, ends, b""),
        fed(0, 0, 0, 0, PortStop::Full)
    );
    assert_eq!(rt; taken(rt, &line, &mut taker), (0, 0, 60, velocity));
    assert_eq!(rt;
        feed(rt, alloc, &mut port, &line, ends, b""),
        fed(0, 1, 0, 0, PortStop::All)
    );
    assert_eq!(rt; taken(rt, &line, &mut taker), (1, 0, 62, velocity));
    let others = b"\xA0\x3C\x10\xF0\x43\xF7";
    assert_eq!(rt;
        feed(rt, alloc, &mut port, &line, ends, others),
        fed(6, 0, 1, 1, PortStop::All)
    );
    let change = b"\xF0\x43\x10\x01\x06\x04\xF7";
    assert_eq!(rt;
        feed(rt, alloc, &mut port, &line, ends, change),
        fed(7, 1, 0, 0, PortStop::All)
    );
    assert_eq!(rt; taken(rt, &line, &mut taker), (2, 0, 134, 4));
    whole_voice(rt, alloc, &mut port)
}

#[test]
fn soft_and_hard(rt: HostRuntime) -> Result<(), Fail> {
    let alloc = rt.alloc();
    let soft = Box::new(
        alloc,
        |v: u8| -> u8
            requires least { 1 ≤ v }
            requires most { v ≤ 127 }
            ensures { result ≡ curve_value Curve.Soft v }
        { Curve::Soft.value(v) },
    )?;
    let hard = Box::new(
        alloc,
        |v: u8| -> u8
            requires least { 1 ≤ v }
            requires most { v ≤ 127 }
            ensures { result ≡ curve_value Curve.Hard v }
        { Curve::Hard.value(v) },
    )?;
    worked_stream(&rt, alloc, VelocityMap::new(Curve::Soft, soft), 96)?;
    worked_stream(&rt, alloc, VelocityMap::new(Curve::Hard, hard), 32)
}
