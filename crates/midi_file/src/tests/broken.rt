//! Files that are refused, each with the byte of its first fault.

ghost use Rattle.std.specs.Prelude.{◌≡◌};
ghost use Rattle.velocity_map.specs.declared.curve.Curve.TheVariants.{Linear};
ghost use Rattle.velocity_map.specs.Map.{curve_of};

use super::{judge_files, judge_tracks};
use std::alloc::{AllocError, Global};
use std::process::Abort;
use velocity_map::VelocityMap;

/// Whether broken files are refused at the byte of their first fault.
pub(crate) fn files_are_refused(
    rt: &impl Abort,
    alloc: Global,
    map: &VelocityMap,
) -> Result<(), AllocError>
    requires { curve_of map.now ≡ Linear }
{
    let rows: [(&[u8], &[u8]); 14] = [
        (b"MThd", b"byte 4: cut"),
        (b"MThd\0\0\0", b"byte 4: cut"),
        (b"MThd\0\0\0\x05", b"byte 4: header"),
        (b"MThd\0\0\0\x05\0\x02\0\x01\0", b"byte 4: header"),
        (b"MThd\0\0\0\x06", b"byte 4: cut"),
        (b"MThd\xFF\xFF\xFF\xFF\0\x02\0\x01\0\0", b"byte 4: cut"),
        (b"MThd\0\0\0\x06\0\x02\0\x01\0\0", b"byte 8: format"),
        (b"MThd\0\0\0\x06\0\0\0\x01\0\0", b"byte 12: division"),
        (b"MThd\0\0\0\x06\0\0\0\x01\xE7\x28", b"byte 12: division"),
        (b"MThd\0\0\0\x06\0\0\0\x01\0\x60", b"byte 14: cut"),
        (b"MThd\0\0\0\x06\0\0\0\x01\0\x60MTr", b"byte 14: cut"),
        (b"MThd\0\0\0\x06\0\0\0\x01\0\x60MTrk\0\0\0", b"byte 18: cut"),
        (
            b"MThd\0\0\0\x06\0\0\0\x01\0\x60MTrk\0\0\0\x02\0",
            b"byte 18: cut",
        ),
        (
            b"MThd\0\0\0\x06\0\x01\0\x02\0\x60MTrk\xFF\xFF\xFF\xFF\0\x3C",
            b"byte 18: cut",
        ),
    ];
    judge_files(rt, alloc, map, &rows)?;
    let rows: [(&[&[u8]], &[u8]); 21] = [
        (&[b"\x81\x81\x81\x81\0"], b"byte 22: event"),
        (&[b"\x81\x81\x81\x81"], b"byte 22: event"),
        (&[b"\x81\x81\x81"], b"byte 22: cut"),
        (&[b"\0"], b"byte 22: cut"),
        (&[b"\0\x3C"], b"byte 22: event"),
        (&[b"\0\x90\x90"], b"byte 22: event"),
        (&[b"\0\x90\x3C"], b"byte 22: cut"),
        (&[b"\0\x90\x3C\x64\0\x3C\x80"], b"byte 26: event"),
        (&[b"\0\xF1"], b"byte 22: event"),
        (&[b"\0\xF6"], b"byte 22: event"),
        (&[b"\0\xF8"], b"byte 22: event"),
        (&[b"\0\xFE"], b"byte 22: event"),
        (&[b"\0\xFF\x01\x81\x81\x81\x81"], b"byte 22: event"),
        (&[b"\0\xFF\x2F\x01"], b"byte 22: cut"),
        (&[b"\0\xF0\x04\x43\x10\x01", b"\0\xF1"], b"byte 22: cut"),
        // a system exclusive event ends the running status
        (
            &[b"\0\x90\x3C\x64\0\xF0\x01\xF7\0\x3C\x64"],
            b"byte 30: event",
        ),
        (&[b"\0\x90\x3C\x64\0\xF7\0\0\x3C\x64"], b"byte 29: event"),
        // a message is named by the event at which it ends
        (
            &[b"\0\xF0\x03\x43\x10\x01\x60\xF7\x03\x06\x20\xF7"],
            b"byte 28: message value 32 of 134",
        ),
        (&[b"\0\xFF\x2F\0", b"\0\xF1"], b"byte 34: event"),
        // an event that is cut in the second track
        (&[b"\0\xFF\x2F\0", b"\0\x90\x3C\x64\0\x90"], b"byte 38: cut"),
        // too late for any run
        (
            &[b"\0\xFF\x51\x03\xFF\xFF\xFF\xFF\xFF\xFF\x7F\x90\x3C\x64"],
            b"byte 29: late",
        ),
    ];
    judge_tracks(rt, alloc, map, &rows)
}
