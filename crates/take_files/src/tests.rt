//! Orders read and written again, lines with each fault, and the first samples of a note.

use super::*;
use command_set::LineText;
use instrument::Engine;
use plain_text::{push_number, push_text};
use std::alloc::{AllocError, Global};
use std::process::Abort;
use std::test::Fail;

/// The first line of an order of 100 blocks and one script.
const HEADER: &[u8] = b"order engine 1 blocks 100 scripts 1\n";

/// How many entries an order has that is written again as the same bytes.
fn kept(alloc: Global, text: &[u8]) -> Option<usize> {
    if text.len() > 100_000 {
        return None;
    }
    let order = match read_order(alloc, text) {
        Ok(order) => order,
        Err(_) => return None,
    };
    match written(alloc, &order) {
        Ok(again) if again.as_slice() == text => Some(order.entries().len()),
        _ => None,
    }
}

#[tactic(auto, using(crate::proofs::Journals::ordered_range))]
fn written(alloc: Global, order: &Order) -> Result<Vec<u8>, AllocError> {
    let entries = order.entries();
    order_file(
        alloc,
        order.engine(),
        entries,
        order.blocks(),
        order.scripts(),
    )
}

/// The sound of an order.
fn sound_of(alloc: Global, text: &[u8]) -> Option<Vec<u8>> {
    if text.len() > 100_000 {
        return None;
    }
    match read_order(alloc, text) {
        Ok(order) => sound_file(alloc, Engine::One, order.entries(), order.blocks()).ok(),
        Err(_) => None,
    }
}

/// What a reader answers to a text that is fed in two chunks, split at a byte.
fn read_parted(alloc: Global, text: &[u8], at: usize) -> Result<Order, OrderFault> {
    let Ok(mut reader) = OrderReader::new(alloc) else {
        return Err(OrderFault::Memory);
    };
    let (first, second) = text.split_at(at.min(text.len()));
    let _ = reader.feed(alloc, first);
    let _ = reader.feed(alloc, second);
    reader.finish()
}

/// What a reader answers to a text that is fed in chunks of a size.
fn read_chunks(alloc: Global, text: &[u8], size: usize) -> Result<Order, OrderFault> {
    let Ok(mut reader) = OrderReader::new(alloc) else {
        return Err(OrderFault::Memory);
    };
    for chunk in text.chunks(size.max(1)) {
        let _ = reader.feed(alloc, chunk);
    }
    reader.finish()
}

/// The text is refused with this fault, wherever it is parted.
fn check_refused(rt: &impl Abort, alloc: Global, text: &[u8], line: u32, kind: OrderKind) {
    let fault = OrderFault::Refused { line, kind };
    for at in 0..=text.len() {
        assert_eq!(rt; read_parted(alloc, text, at).err(), Some(fault));
    }
}

#[test]
fn refused_orders(rt: HostRuntime) {
    use OrderKind::{Block, Line, Script, Sequence};
    const ROWS: [(&[u8], u32, OrderKind); 27] = [
        (b"", 1, Line),
        (b"\n", 1, Line),
        (b"order engine 1 blocks 100 scripts 1", 1, Line),
        (b"order engine 1 blocks 100 scripts 1\r\n", 1, Line),
        (b"order engine 1 blocks 0 scripts 1\n", 1, Line),
        (b"order engine 1 blocks 1048577 scripts 1\n", 1, Line),
        (b"order engine 1 blocks 100 scripts 0\n", 1, Line),
        (b"order engine 1 blocks 100 scripts 257\n", 1, Line),
        (b"order engine 1 blocks 0100 scripts 1\n", 1, Line),
        (b"order engine 1  blocks 100 scripts 1\n", 1, Line),
        (b"order engine 2 blocks 100 scripts 1\n", 1, Line),
        (
            b"order engine 1 blocks 100 scripts 1\n0 0 0 0 on 0 69 0\n",
            2,
            Line,
        ),
        (
            b"order engine 1 blocks 100 scripts 1\n00 0 0 0 on 0 69 100\n",
            2,
            Line,
        ),
        (
            b"order engine 1 blocks 100 scripts 1\n0  0 0 0 on 0 69 100\n",
            2,
            Line,
        ),
        (
            b"order engine 1 blocks 100 scripts 1\n0 0 0 0 on 0 69 100\r\n",
            2,
            Line,
        ),
        (
            b"order engine 1 blocks 100 scripts 1\n0 0 0 4294967296 on 0 69 100\n",
            2,
            Line,
        ),
        (
            b"order engine 1 blocks 100 scripts 1\n0 0 0 4294967295 on 0 69 100\n",
            2,
            Sequence,
        ),
        (
            b"order engine 1 blocks 100 scripts 1\n0 0 0 0 on 0 69 100\n1 0 0 1 off 0 69",
            3,
            Line,
        ),
        (b"order engine 1 blocks 100 scripts 1\n\n", 2, Line),
        (
            b"order engine 1 blocks 100 scripts 1\n5 0 0 0 on 0 69 100\n4 0 0 1 off 0 69\n",
            3,
            Block,
        ),
        (
            b"order engine 1 blocks 100 scripts 1\n100 0 1 5 on 0 69 100\n",
            2,
            Block,
        ),
        (
            b"order engine 1 blocks 100 scripts 1\n3 4 0 0 on 0 69 100\n",
            2,
            Block,
        ),
        (
            b"order engine 1 blocks 1 scripts 1\n0 1 0 0 off 0 1\n",
            2,
            Block,
        ),
        (
            b"order engine 1 blocks 1 scripts 1\n0 0 1 0 off 0 1\n",
            2,
            Script,
        ),
        (
            b"order engine 1 blocks 100 scripts 1\n0 0 1 5 on 0 69 100\n",
            2,
            Script,
        ),
        (
            b"order engine 1 blocks 100 scripts 1\n0 0 0 1 on 0 69 100\n0 0 0 0 off 0 69\n",
            2,
            Sequence,
        ),
        (
            b"order engine 1 blocks 100 scripts 1\n0 0 0 0 on 0 69 0\n9 0 0 0 on 0 69 9\n0 0 9 9 off\n",
            2,
            Line,
        ),
    ];
    let alloc = rt.alloc();
    for (text, line, kind) in ROWS {
        check_refused(&rt, alloc, text, line, kind);
    }
}

/// A line is refused where it ends, or has 8257 bytes, and the reader answers so from then on.
#[test]
fn faults_that_stay(rt: HostRuntime) -> Result<(), Fail> {
    let alloc = rt.alloc();
    let mut reader = OrderReader::new(alloc)?;
    assert_eq!(rt; reader.feed(alloc, HEADER), Ok(()));
    assert_eq!(rt; reader.feed(alloc, b"0 0 0 0 on 0 69 0"), Ok(()));
    let fault = OrderFault::Refused {
        line: 2,
        kind: OrderKind::Line,
    };
    assert_eq!(rt; reader.feed(alloc, b"\n0 0 0 0 on 0 69 100\n"), Err(fault));
    assert_eq!(rt; reader.feed(alloc, b""), Err(fault));
    assert_eq!(rt; reader.feed(alloc, b"5 1 0 0 on 0 69 100\n"), Err(fault));
    assert_eq!(rt; reader.finish().err(), Some(fault));
    let mut reader = OrderReader::new(alloc)?;
    assert_eq!(rt; reader.feed(alloc, HEADER), Ok(()));
    assert_eq!(rt; reader.feed(alloc, &[b'0'; 8256]), Ok(()));
    assert_eq!(rt; reader.feed(alloc, b""), Ok(()));
    assert_eq!(rt; reader.feed(alloc, b"0"), Err(fault));
    assert_eq!(rt; reader.feed(alloc, b"\n"), Err(fault));
    assert_eq!(rt; reader.finish().err(), Some(fault));
    let mut reader = OrderReader::new(alloc)?;
    let first = OrderFault::Refused {
        line: 1,
        kind: OrderKind::Line,
    };
    assert_eq!(rt; reader.feed(alloc, &[b'o'; 8257]), Err(first));
    assert_eq!(rt; reader.feed(alloc, HEADER), Err(first));
    Ok(())
}

/// The text of an order of 400 entries of three scripts, drawn from a seed.
fn drawn_order(alloc: Global, seed: u32) -> Result<Vec<u8>, AllocError> {
    let mut text = Vec::new(alloc);
    text.extend_from_slice(b"order engine 1 blocks 2000 scripts 3\n")?;
    let mut state = seed;
    let mut counts = [0u32; 3];
    let mut block = 0u32;
    for _ in 0..400 {
        state = state.wrapping_mul(1_664_525).wrapping_add(1_013_904_223);
        block = block.saturating_add((state >> 8) % 5);
        let script = (state >> 20) % 3;
        let seq = counts[script as usize];
        counts[script as usize] = seq.saturating_add(1);
        let mut line = LineText::new();
        for number in [block, block / 2, script, seq] {
            if line.len() > 8000 {
                break;
            }
            push_number(&mut line, number);
            push_text(&mut line, b" ");
        }
        text.extend_from_slice(line.as_slice())?;
        if state & 0x10000 == 0 {
            text.extend_from_slice(b"on 0 60 100\n")?;
        } else {
            text.extend_from_slice(b"control 15 64 127\n")?;
        }
    }
    Ok(text)
}

/// A drawn order says the same in chunks of any size.
#[test]
fn drawn_orders_in_chunks(rt: HostRuntime) -> Result<(), Fail> {
    let alloc = rt.alloc();
    let text = drawn_order(alloc, 7)?;
    assert_eq!(rt; kept(alloc, text.as_slice()), Some(400));
    for size in [1, 2, 3, 7, 16, 25, 64, 100, 1000, 4096, 65_536] {
        match read_chunks(alloc, text.as_slice(), size) {
            Ok(order) => {
                assert_eq!(rt; order.blocks(), 2000);
                assert_eq!(rt; order.scripts(), 3);
                assert!(rt; written(alloc, &order)?.as_slice() == text.as_slice());
            }
            Err(_) => assert!(rt; false),
        }
    }
    Ok(())
}

#[test]
fn orders_written_again(rt: HostRuntime) -> Result<(), Fail> {
    let alloc = rt.alloc();
    let note = b"order engine 1 blocks 100 scripts 1\n0 0 0 0 on 0 69 100\n50 50 0 1 off 0 69\n";
    assert_eq!(rt; kept(alloc, note), Some(2));
    let mut text = Vec::new(alloc);
    text.extend_from_slice(b"order engine 1 blocks 1048576 scripts 256\n")?;
    text.extend_from_slice(b"0 0 255 0 on 0 69 100\n1 0 0 0 off 0 69\n1 1 0 1 bend 15 16383\n")?;
    text.extend_from_slice(b"2 1 0 2 control 3 123 127\n2 2 0 3 program 0 31\n")?;
    text.extend_from_slice(b"2 2 255 1 param 155 63\n2 2 0 4 store 31\n9 8 0 5 voice ")?;
    text.extend_from_slice(&[b'0'; 310])?;
    text.extend_from_slice(b"\n1048575 9 0 6 cartridge ")?;
    text.extend_from_slice(&[b'0'; 8192])?;
    text.extend_from_slice(b"\n")?;
    assert_eq!(rt; kept(alloc, text.as_slice()), Some(9));
    let mut line = LineText::new();
    order_header(Engine::One, 100, 1, &mut line);
    assert!(rt; line.as_slice() == HEADER);
    Ok(())
}

#[test]
fn sounds_of_orders(rt: HostRuntime) -> Result<(), Fail> {
    let alloc = rt.alloc();
    let header =
        b"RIFF\xa4\0\0\0WAVEfmt \x10\0\0\0\x01\0\x01\0\x44\xac\0\0\x88\x58\x01\0\x02\0\x10\0data\x80\0\0\0";
    assert!(rt; wav_header(1) == *header);
    assert!(rt; wav_block(&[-2; 64]).starts_with(&[254, 255, 254, 255]));
    match sound_of(alloc, b"order engine 1 blocks 1 scripts 1\n") {
        Some(silence) => {
            assert_eq!(rt; silence.len(), 172);
            assert!(rt; silence.starts_with(header));
        }
        None => assert!(rt; false),
    }
    let note = b"order engine 1 blocks 100 scripts 1\n0 0 0 0 on 0 69 100\n50 50 0 1 off 0 69\n";
    match sound_of(alloc, note) {
        Some(sound) => {
            assert_eq!(rt; sound.len(), 12844);
            let first = [0, 0, 8, 0, 24, 0, 47, 0, 79, 0, 118, 0, 164, 0, 217, 0];
            assert!(rt; sound[44..].starts_with(&first));
            assert!(rt; sound[7084..].iter().all(|byte| *byte == 0));
        }
        None => assert!(rt; false),
    }
    Ok(())
}
