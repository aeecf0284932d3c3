//! The commands on files of voices.

ghost use Rattle.std.specs.Prelude.{◌≡◌, ◌<◌, ◌≤◌, length, map, string_bytes};
ghost use Rattle.outside.specs.Snapshot.{snapshot};
ghost use Rattle.tool_core.specs.Endings.{Ends};
ghost use Rattle.tool_core.specs.Outcomes.{WasDone};
ghost use Rattle.tool_core.specs.Words as words;

use crate::check_report::put_check;
use crate::failure::refuse;
use crate::list_report::list_page;
use crate::midi_bytes::{read_cartridge, read_messages};
use crate::output_file::{finish, put_report};
use crate::pack::{name_at, read_pack};
use outside::{Out, Shelf};
use std::alloc::Global;
use sysex_frame::write_voice;

/// `check FILE`: a line for each SysEx message.
pub(crate) fn check<S: Shelf, O: Out>(alloc: Global, file: &str, shelf: &mut S, out: &mut O) -> u8
    ensures { Ends (words.Check file.now) result
        (snapshot (S.files shelf.old) (S.reading shelf.old) (S.writing shelf.old) (O.written out.old) (O.faults out.old))
        (snapshot (S.files shelf.new) (S.reading shelf.new) (S.writing shelf.new) (O.written out.new) (O.faults out.new)) }
{
    match read_messages(alloc, shelf, file) {
        Ok(checked) => put_check(out, checked.scanner, checked.file.as_slice()),
        Err(why) => refuse(out, file, why),
    }
}

/// `list FILE`: the names of the first cartridge.
pub(crate) fn list<S: Shelf, O: Out>(alloc: Global, file: &str, shelf: &mut S, out: &mut O) -> u8
    ensures { Ends (words.ListVoices file.now) result
        (snapshot (S.files shelf.old) (S.reading shelf.old) (S.writing shelf.old) (O.written out.old) (O.faults out.old))
        (snapshot (S.files shelf.new) (S.reading shelf.new) (S.writing shelf.new) (O.written out.new) (O.faults out.new)) }
{
    match read_cartridge(alloc, shelf, file) {
        Ok(cartridge) => {
            let page = list_page(&cartridge);
            put_report(out, 0, page.as_slice())
        }
        Err(why) => refuse(out, file, why),
    }
}

/// `pick FILE SLOT OUT`: a voice of the first cartridge.
pub(crate) fn pick<S: Shelf, O: Out>(
    alloc: Global,
    file: &str,
    slot: u8,
    name: &str,
    shelf: &mut S,
    out: &mut O,
) -> u8
    requires { slot ≤ 31 }
    ensures ends { Ends (words.Pick file.now slot name.now) result
        (snapshot (S.files shelf.old) (S.reading shelf.old) (S.writing shelf.old) (O.written out.old) (O.faults out.old))
        (snapshot (S.files shelf.new) (S.reading shelf.new) (S.writing shelf.new) (O.written out.new) (O.faults out.new)) }
    ensures held { WasDone result → S.held shelf.new name.now ≡ 0 }
{
    match read_cartridge(alloc, shelf, file) {
        Ok(cartridge) => {
            let message = write_voice(0, &cartridge.voice(slot));
            finish(shelf, out, name, &message)
        }
        Err(why) => refuse(out, file, why),
    }
}

/// `pack OUT FILE...`: the first voice of each file.
pub(crate) fn pack<S: Shelf, O: Out>(
    alloc: Global,
    name: &str,
    files: &[String],
    shelf: &mut S,
    out: &mut O,
) -> u8
    requires some { 0 < length files.now }
    requires fits { length files.now ≤ 32 }
    ensures ends { Ends (words.Pack name.now (map string_bytes files.now)) result
        (snapshot (S.files shelf.old) (S.reading shelf.old) (S.writing shelf.old) (O.written out.old) (O.faults out.old))
        (snapshot (S.files shelf.new) (S.reading shelf.new) (S.writing shelf.new) (O.written out.new) (O.faults out.new)) }
    ensures held { WasDone result → S.held shelf.new name.now ≡ 0 }
{
    match read_pack(alloc, shelf, files) {
        Ok(message) => finish(shelf, out, name, message.as_slice()),
        Err(failure) => {
            let file = name_at(files, failure.place);
            refuse(out, file, failure.why)
        }
    }
}
