//! Well-formed files, and bounds that they go beyond.

ghost use Rattle.std.specs.Prelude.{◌≡◌};
ghost use Rattle.velocity_map.specs.declared.curve.Curve.TheVariants.{Linear};
ghost use Rattle.velocity_map.specs.Map.{curve_of};

use super::{file_of, judge_files, judge_tracks, told};
use script_outcome::Bounds;
use std::alloc::{AllocError, Global};
use std::process::Abort;
use velocity_map::VelocityMap;

/// Whether well-formed files say what they should.
pub(crate) fn files_are_read(
    rt: &impl Abort,
    alloc: Global,
    map: &VelocityMap,
) -> Result<(), AllocError>
    requires { curve_of map.now ≡ Linear }
{
    let rows: [(&[&[u8]], &[u8]); 13] = [
        (&[], b""),
        (&[b""], b""),
        // a tempo acts on all tracks
        (
            &[
                b"\x60\xFF\x51\x03\x03\xD0\x90\0\xFF\x2F\0",
                b"\0\x90\x3C\x64\x60\x3C\0\x60\x40\x64\0\xFF\x2F\0",
            ],
            b"0 on 0 60 100\n344 off 0 60\n516 on 0 64 100\n",
        ),
        // running status holds over meta events, of which unknown types are passed over
        (
            &[b"\0\x90\x3C\x64\0\xFF\x01\x01A\0\xFF\xFF\0\0\x3E\x64"],
            b"0 on 0 60 100\n0 on 0 62 100\n",
        ),
        // an event with bytes of any kind
        (
            &[b"\0\xF7\x05\x90\x3C\x64\x3E\x64"],
            b"0 on 0 60 100\n0 on 0 62 100\n",
        ),
        // a message in two events, with a channel event between
        (
            &[b"\0\xF0\x03\x43\x10\x01\0\x90\x3C\x64\x60\xF7\x03\x06\x10\xF7"],
            b"0 on 0 60 100\n344 param 134 16\n",
        ),
        // each track has a reader of its own
        (
            &[
                b"\0\xF0\x03\x43\x10\x01\x60\xF7\x03\x06\x10\xF7",
                b"\0\xF0\x03\x43\x10\x01\x30\xF7\x02\x06\x20",
                b"\x50\xF7\x03\x06\x11\xF7",
            ],
            b"344 param 134 16\n",
        ),
        // a new message drops an open one, and one that the track doesn't end is dropped
        (
            &[b"\0\xF0\x01\x43\0\xF0\x06\x43\x10\x01\x06\x10\xF7\0\xF0\x01\x43"],
            b"0 param 134 16\n",
        ),
        // the end of a track, whatever its length; nothing after it counts
        (
            &[b"\0\x90\x3C\x64\0\xFF\x2F\x01\0\0\x3C"],
            b"0 on 0 60 100\n",
        ),
        // time stands still
        (
            &[
                b"\0\xFF\x51\x03\0\0\0\x60\x90\x3C\x64",
                b"\x10\xFF\x51\x02\0\0\x40\x80\x3C\0",
            ],
            b"0 off 0 60\n0 on 0 60 100\n",
        ),
        // one tick: by track, and in a track by place
        (
            &[
                b"\x60\xC1\x05\0\xB0\x40\x7F",
                b"\x30\xE2\0\x40\x30\xC1\x06\0\xD0\x01\0\xA0\x3C\x01",
            ],
            b"172 bend 2 8192\n344 program 1 5\n344 control 0 64 127\n344 program 1 6\n",
        ),
        // a delta time of four bytes
        (&[b"\x81\x80\x80\0\x90\x3C\x64"], b"7526400 on 0 60 100\n"),
        // the greatest delta time
        (
            &[b"\xFF\xFF\xFF\x7F\x90\x3C\x64"],
            b"963379196 on 0 60 100\n",
        ),
    ];
    judge_tracks(rt, alloc, map, &rows)?;
    let rows: [(&[u8], &[u8]); 3] = [
        // a longer header, another chunk before the track, and bytes after it
        (
            b"MThd\0\0\0\x08\0\0\0\x01\0\x60??MTrx\0\0\0\x01?MTrk\0\0\0\x04\0\x90\x3C\x64MTrk",
            b"0 on 0 60 100\n",
        ),
        // a second header is a chunk to be passed over
        (
            b"MThd\0\0\0\x06\0\0\0\x01\0\x60MThd\0\0\0\0MTrk\0\0\0\x03\0\xC0\x01",
            b"0 program 0 1\n",
        ),
        // 19200 ticks for a quarter note
        (
            b"MThd\0\0\0\x06\0\0\0\x01\x4B\0MTrk\0\0\0\x05\x81\x16\x90\x3C\x64",
            b"2 on 0 60 100\n",
        ),
    ];
    judge_files(rt, alloc, map, &rows)?;
    bounds_are_kept(rt, alloc, map)
}

/// Whether commands beyond the bounds are named, once all of a file is read.
fn bounds_are_kept(rt: &impl Abort, alloc: Global, map: &VelocityMap) -> Result<(), AllocError>
    requires { curve_of map.now ≡ Linear }
{
    let rows: [(&[&[u8]], Option<u32>, u32, &[u8]); 7] = [
        (&[b"\x60\x90\x3C\x64"], Some(345), 1, b"344 on 0 60 100\n"),
        (&[b"\x60\x90\x3C\x64"], Some(344), 1, b"byte 22: late"),
        (&[b"\x60\x90\x3C\x64\0\x90"], Some(344), 1, b"byte 26: cut"),
        (&[b"\0\x90\x3C\x64\0\xF1"], None, 0, b"byte 26: event"),
        // by tick, and what is late and too many is late
        (
            &[b"\x60\x90\x3C\x64", b"\0\x90\x3C\x64"],
            Some(344),
            1,
            b"byte 22: late",
        ),
        (
            &[b"\x60\x90\x3C\x64", b"\0\x90\x3C\x64"],
            Some(344),
            0,
            b"too many",
        ),
        // what gives no command is never late
        (&[b"\x60\xFF\x51\x03\0\0\x01\0\xD0\x01"], Some(1), 0, b""),
    ];
    for (tracks, blocks, room, wanted) in rows {
        let bytes = file_of(alloc, tracks)?;
        let text = told(alloc, map, &bytes, Bounds { blocks, room })?;
        assert_eq!(rt; text.as_slice(), wanted, "{tracks:?}");
    }
    Ok(())
}
