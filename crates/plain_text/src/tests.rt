//! Numbers, lines and texts that are split.

use super::*;
use arrayvec::ArrayVec;
use std::process::Abort;
use std::test::Fail;

/// What a number reads as, from 1 to 300.
fn read(rt: &impl Abort, text: &[u8], wanted: Option<u32>) {
    let found = parse_number(text, 1, 300);
    assert_eq!(rt; found, wanted);
}

#[test]
fn numbers_and_words(rt: HostRuntime) -> Result<(), Fail> {
    read(&rt, b"1", Some(1));
    read(&rt, b"300", Some(300));
    read(&rt, b"301", None);
    read(&rt, b"0", None);
    read(&rt, b"007", None);
    read(&rt, b"", None);
    read(&rt, b"1x", None);
    read(&rt, b"99999999999999999999999", None);
    let mut line = LineText::new();
    push_text(&mut line, b"blocks ");
    push_number(&mut line, 4_294_967_295);
    push_text(&mut line, b" 0");
    assert!(rt; is_word(line.as_slice(), b"blocks 4294967295 0"));
    let mut short = ArrayVec::<u8, 40>::new();
    push_two(&mut short, b"of ", 7, b" to ", 12);
    assert!(rt; is_word(short.as_slice(), b"of 7 to 12"));
    let mut one = ArrayVec::<u8, 40>::new();
    push_one(&mut one, b" by ", 0);
    assert!(rt; is_word(one.as_slice(), b" by 0"));
    let parted = split_once(line.as_slice(), b' ');
    assert!(rt; matches!(parted, Some((word, _)) if is_word(word, b"blocks")));
    Ok(())
}
