//! The lines as bytes.

use super::*;
use outside::MemOut;
use std::test::Fail;

#[test]
fn faults_are_told(rt: HostRuntime) -> Result<(), Fail> {
    let alloc = rt.alloc();
    let mut out = MemOut::new(alloc, &[])?;
    say(&mut out, b"cut\n");
    say_limit_file(&mut out);
    say_limit_commands(&mut out);
    say_out_of_memory(&mut out);
    say_cannot_read(&mut out, "a.txt");
    say_cannot_write(&mut out, "b.wav");
    let told =
        b"cut\nlimit file\nlimit commands\nout of memory\ncannot read a.txt\ncannot write b.wav\n";
    assert_eq!(rt; out.bytes(), told.as_slice());
    // The third of three pieces fails.
    let mut broken = MemOut::new(alloc, &[2])?;
    say_cannot_read(&mut broken, "a.txt");
    assert_eq!(rt; broken.bytes(), b"cannot read a.txt".as_slice());
    Ok(())
}
