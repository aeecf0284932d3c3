//! Tests of the shelves and outputs.
use super::*;
use std::test::Fail;

#[test]
fn a_file_is_read_whole_or_too_long(rt: HostRuntime) -> Result<(), Fail> {
    let alloc = rt.alloc();
    let mut shelf = SureShelf::new(alloc);
    shelf.put_file(alloc, "four", b"old")?;
    shelf.put_file(alloc, "four", b"abcd")?;
    let fault = read_all(alloc, &mut shelf, "four", 3).err();
    assert_eq!(rt; fault, Some(ReadFault::TooLong));
    let cases: [(&str, u64, &[u8]); 3] = [
        ("four", 4, b"abcd"),
        ("four", u64::MAX, b"abcd"),
        ("unknown", 0, b""),
    ];
    for (name, limit, want) in cases {
        let bytes = read_all(alloc, &mut shelf, name, limit).expect(&rt, "the whole file");
        assert_eq!(rt; bytes.as_slice(), want);
    }
    Ok(())
}

#[test]
fn the_listed_calls_fail(rt: HostRuntime) -> Result<(), Fail> {
    let alloc = rt.alloc();
    let mut shelf = MemShelf::new(alloc, &[1, 5])?;
    shelf.put_file(alloc, "old", b"bytes")?;
    let mut chunk = [0u8; 8];
    assert_eq!(rt; shelf.create("a"), Ok(()), "call 0");
    assert_eq!(rt; append_all(&mut shelf, "a", b"x"), Err(Failed), "call 1");
    assert_eq!(rt; append_all(&mut shelf, "a", b"xy"), Ok(()), "call 2");
    assert_eq!(rt; shelf.append("a", b"z"), Ok(1), "call 3");
    assert_eq!(rt;
        shelf.append("b", b"z"),
        Err(Failed),
        "call 4: no such file"
    );
    assert_eq!(rt; shelf.read_at("old", 0, &mut chunk), Err(Failed), "call 5");
    assert_eq!(rt;
        shelf.read_at("b", 0, &mut chunk),
        Err(Failed),
        "call 6: no such file"
    );
    assert_eq!(rt; shelf.read_at("old", 3, &mut chunk), Ok(2), "call 7");
    assert_eq!(rt; chunk, *b"es\0\0\0\0\0\0");
    assert_eq!(rt; shelf.read_at("old", 5, &mut chunk), Ok(0), "call 8");
    let bytes = read_all(alloc, &mut shelf, "a", 3).expect(&rt, "calls 9 and 10");
    assert_eq!(rt; bytes.as_slice(), b"xyz".as_slice());
    assert_eq!(rt; shelf.file("a"), Some(b"xyz".as_slice()));
    assert_eq!(rt; shelf.file("old").map(|file| file.len()), Some(5));
    assert!(rt; shelf.file("b").is_none());
    let mut out = MemOut::new(alloc, &[1])?;
    assert_eq!(rt; put_all(&mut out, b"one"), Ok(()));
    assert_eq!(rt; put_all(&mut out, b"two"), Err(Failed));
    assert_eq!(rt; out.put(b"three"), Ok(5));
    assert_eq!(rt; out.bytes(), b"onethree".as_slice());
    Ok(())
}

#[test]
fn files_are_kept_on_disk(rt: HostRuntime) -> Result<(), Fail> {
    let alloc = rt.alloc();
    let mut shelf = DiskShelf::new(&rt);
    assert_eq!(rt; append_all(&mut shelf, "disk.bin", b"early"), Err(Failed));
    for _ in 0..2 {
        assert_eq!(rt; shelf.create("disk.bin"), Ok(()));
        assert_eq!(rt; append_all(&mut shelf, "disk.bin", b"first "), Ok(()));
        assert_eq!(rt; append_all(&mut shelf, "disk.bin", b"second"), Ok(()));
    }
    let bytes = read_all(alloc, &mut shelf, "disk.bin", 12).expect(&rt, "the whole file");
    assert_eq!(rt; bytes.as_slice(), b"first second".as_slice());
    let fault = read_all(alloc, &mut shelf, "disk.bin", 11).err();
    assert_eq!(rt; fault, Some(ReadFault::TooLong));
    let fault = read_all(alloc, &mut shelf, "missing.bin", 11).err();
    assert_eq!(rt; fault, Some(ReadFault::Failed));
    assert_eq!(rt; shelf.create("no_folder/disk.bin"), Err(Failed));
    let mut shelf = DiskShelf::holding_back(&rt);
    // what is held back of a file is gone once the file is made again
    assert_eq!(rt; shelf.create("disk.bin"), Ok(()));
    assert_eq!(rt; append_all(&mut shelf, "disk.bin", b"gone"), Ok(()));
    assert_eq!(rt; shelf.create("disk.bin"), Ok(()));
    assert_eq!(rt; append_all(&mut shelf, "disk.bin", b"kept"), Ok(()));
    assert_eq!(rt; write_out(&mut shelf, "disk.bin"), Ok(()));
    let bytes = read_all(alloc, &mut shelf, "disk.bin", 4).expect(&rt, "what was kept");
    assert_eq!(rt; bytes.as_slice(), b"kept".as_slice());
    let names = ["one.bin", "two.bin", "three.bin"];
    for name in names {
        assert_eq!(rt; shelf.create(name), Ok(()));
    }
    // small pieces are held back, a large one isn't, and the third file takes the place of the first
    for round in 0..300u16 {
        for name in names {
            assert_eq!(rt; append_all(&mut shelf, name, &round.to_le_bytes()), Ok(()));
        }
        if round % 100 == 0 {
            assert_eq!(rt; append_all(&mut shelf, "two.bin", &[7; 9000]), Ok(()));
        }
    }
    for name in names {
        assert_eq!(rt; write_out(&mut shelf, name), Ok(()));
        let mut other = DiskShelf::new(&rt);
        let bytes = read_all(alloc, &mut other, name, 27600).expect(&rt, "what was written out");
        let longs = if name == "two.bin" { 3 } else { 0 };
        assert_eq!(rt; bytes.len(), 600 + 9000 * longs);
        assert!(rt; bytes.ends_with(&[43, 1]));
    }
    Ok(())
}

#[test]
fn the_standard_output_takes_lines(rt: HostRuntime) {
    let mut out = StdOut::new(&rt);
    assert_eq!(rt; put_all(&mut out, b"a line\n"), Ok(()));
    assert_eq!(rt; out.put(b""), Ok(0));
}
