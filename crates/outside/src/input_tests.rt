//! Tests of the inputs and of what keeps pace.
use super::*;
use std::test::Fail;

#[test]
fn an_input_gives_pieces(rt: HostRuntime) -> Result<(), Fail> {
    let alloc = rt.alloc();
    for piece in [0, 1, 2, 3, 4096] {
        let mut input = MemInput::new(alloc, b"abcdefg", piece, &[2])?;
        let mut bytes = Vec::new(alloc);
        let mut chunk = [0u8; 4];
        let mut failed = false;
        for _ in 0..20 {
            match input.read(&mut chunk) {
                Ok(0) => break,
                Ok(count) => bytes.extend_from_slice(&chunk[..count])?,
                Err(Failed) => failed = true,
            }
        }
        assert_eq!(rt; bytes.as_slice(), b"abcdefg".as_slice());
        assert!(rt; failed);
        assert_eq!(rt; input.read(&mut chunk), Ok(0), "it has ended");
        assert_eq!(rt; input.read(&mut []), Ok(0), "there is no room");
    }
    Ok(())
}

#[test]
fn a_reader_is_an_input(rt: HostRuntime) {
    let mut input = StdIn::new(b"abc".as_slice());
    let mut chunk = [0u8; 2];
    assert_eq!(rt; input.read(&mut chunk), Ok(2));
    assert_eq!(rt; chunk, *b"ab");
    assert_eq!(rt; input.read(&mut chunk), Ok(1));
    assert_eq!(rt; chunk, *b"cb");
    assert_eq!(rt; input.read(&mut chunk), Ok(0));
}

#[test]
fn blocks_keep_pace(rt: HostRuntime) {
    NoPace.wait_for(0);
    let start = std::time::Instant::now(&rt).expect(&rt, "the time");
    let mut pace = ClockPace::new(&rt);
    for block in 0..14 {
        pace.wait_for(block);
    }
    let passed = start.elapsed(&rt).expect(&rt, "the time");
    // 13 blocks of 64 samples last 18.8 ms
    assert!(rt; passed.as_micros() >= 18_000);
}
