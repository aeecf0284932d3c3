//! Files of MIDI bytes that are read and judged.

ghost use Rattle.std.specs.Prelude.{ℕ, ◌≡◌, ◌≤◌, Some, None, List, IfOk, IfErr, IfSome, OnOk, length};
ghost use Rattle.std.specs.FinMap.{get};
ghost use Rattle.midi_stream.specs.Messages.{is_unfinished};
ghost use Rattle.tool_core.specs.Effects.{cartridge_of, voice_of};
ghost use Rattle.tool_core.specs.Endings.{IsMidiFailure, IsReadFailure};
ghost use Rattle.tool_core.specs.Failures.{IsReason};
ghost use Rattle.tool_core.specs.Inputs.{IsJudged, input, Midi};
ghost use Rattle.tool_core.specs.Scans.{Follows};
ghost use Rattle.tool_core.specs.Refusals as refusals;
ghost use Rattle.tool_core.specs.Refusals.{cartridge_in, cut_refusal, refusal, voice_in};
ghost use Rattle.tool_core.specs.Verdicts as verdicts;

use crate::failure::Failure;
use crate::refusal::Refusal;
use crate::scan::{Scan, Scanner, scan_file};
use cartridge::Cartridge;
use outside::{ReadFault, Shelf, read_all};
use std::alloc::Global;
use voice_record::Voice;

/// The most bytes of a file.
const FILE_LIMIT: u64 = 16_777_216;

/// A file whose messages are all good, and a scanner that is to begin.
#[derive(Drop)]
pub(crate) struct Checked {
    pub(crate) file: Vec<u8>,
    pub(crate) scanner: Scanner,
}

/// The bytes of a file, `limit` at most.
pub(crate) fn read_file<S: Shelf>(
    alloc: Global,
    shelf: &mut S,
    name: &str,
    limit: u64,
) -> Result<Vec<u8>, Failure>
    ensures found { IfOk result (λ file. IfSome (S.files shelf.old) (λ told. get told name.now ≡ Some file.items)) }
    ensures within { IfOk result (λ file. length file.items ≤ limit) }
    ensures kept { OnOk result (S.reading shelf.new ≡ S.reading shelf.old) }
    ensures refused { IfErr result (λ why. IsReadFailure why limit (S.files shelf.old) name.now (S.reading shelf.old) (S.reading shelf.new)) }
    ensures files { S.files shelf.new ≡ S.files shelf.old }
    ensures writing { S.writing shelf.new ≡ S.writing shelf.old }
{
    match read_all(alloc, shelf, name, limit) {
        Ok(file) => Ok(file),
        Err(ReadFault::Failed) => Err(Failure::Unread),
        Err(ReadFault::TooLong) => Err(Failure::TooLarge),
        Err(ReadFault::Memory) => Err(Failure::Memory),
    }
}

/// The refusal of a file that ends within a message.
fn refusal_of_cut(is_cut: bool) -> Option<Refusal>
    ensures { (file : List ℕ) → is_cut ≡ is_unfinished file → result ≡ cut_refusal file }
{
    if is_cut { Some(Refusal::Cut) } else { None }
}

/// A scanner over a file whose messages are all good.
fn judge_messages(alloc: Global, file: &[u8]) -> Result<Scanner, Failure>
    requires { length file.now ≤ 16777216 }
    ensures good { OnOk result (refusal refusals.AllMessages file.now ≡ None) }
    ensures begins { IfOk result (λ scanner. Follows scanner file.now 0) }
    ensures refused { IfErr result (λ why. IsMidiFailure why refusals.AllMessages file.now) }
{
    let scan = scan_file(alloc, file)?;
    match scan.bad.or(refusal_of_cut(scan.is_cut)) {
        Some(why) => Err(Failure::Refused(why)),
        None => match Scanner::new(alloc) {
            Ok(scanner) => Ok(scanner),
            Err(_) => Err(Failure::Memory),
        },
    }
}

/// The first cartridge of a file.
fn find_cartridge(alloc: Global, file: &[u8]) -> Result<Cartridge, Failure>
    requires { length file.now ≤ 16777216 }
    ensures good { OnOk result (refusal refusals.OneCartridge file.now ≡ None) }
    ensures value { IfOk result (λ cartridge. cartridge_in file.now ≡ Some cartridge) }
    ensures refused { IfErr result (λ why. IsMidiFailure why refusals.OneCartridge file.now) }
{
    let scan = scan_file(alloc, file)?;
    match scan.long.or(refusal_of_cut(scan.is_cut)) {
        Some(why) => Err(Failure::Refused(why)),
        None => scan.cartridge.ok_or(Failure::Refused(Refusal::NoCartridge)),
    }
}

/// The first voice of a file.
fn find_voice(alloc: Global, file: &[u8]) -> Result<Voice, Failure>
    requires { length file.now ≤ 16777216 }
    ensures good { OnOk result (refusal refusals.OneVoice file.now ≡ None) }
    ensures value { IfOk result (λ voice. voice_in file.now ≡ Some voice) }
    ensures refused { IfErr result (λ why. IsMidiFailure why refusals.OneVoice file.now) }
{
    let scan = scan_file(alloc, file)?;
    match scan.long.or(refusal_of_cut(scan.is_cut)) {
        Some(why) => Err(Failure::Refused(why)),
        None => scan.voice.ok_or(Failure::Refused(Refusal::NoVoice)),
    }
}

/// A file whose messages are all good.
pub(crate) fn read_messages<S: Shelf>(
    alloc: Global,
    shelf: &mut S,
    name: &str,
) -> Result<Checked, Failure>
    ensures good { OnOk result (IfSome (S.files shelf.old) (λ told. IsJudged (input name.now (Midi refusals.AllMessages)) told verdicts.Good)) }
    ensures found { IfOk result (λ checked. IfSome (S.files shelf.old) (λ told. get told name.now ≡ Some checked.file.items)) }
    ensures within { IfOk result (λ checked. length checked.file.items ≤ 16777216) }
    ensures begins { IfOk result (λ checked. Follows checked.scanner checked.file.items 0) }
    ensures kept { OnOk result (S.reading shelf.new ≡ S.reading shelf.old) }
    ensures refused { IfErr result (λ why. IsReason why (Midi refusals.AllMessages) (S.files shelf.old) name.now
        (S.reading shelf.old) (S.reading shelf.new)) }
    ensures files { S.files shelf.new ≡ S.files shelf.old }
    ensures writing { S.writing shelf.new ≡ S.writing shelf.old }
{
    match read_file(alloc, shelf, name, FILE_LIMIT) {
        Ok(file) => check_file(alloc, file),
        Err(why) => Err(why),
    }
}

fn check_file(alloc: Global, file: Vec<u8>) -> Result<Checked, Failure>
    requires { length file.items ≤ 16777216 }
    ensures good { OnOk result (refusal refusals.AllMessages file.items ≡ None) }
    ensures same { IfOk result (λ checked. checked.file.items ≡ file.items) }
    ensures begins { IfOk result (λ checked. Follows checked.scanner file.items 0) }
    ensures refused { IfErr result (λ why. IsMidiFailure why refusals.AllMessages file.items) }
{
    match judge_messages(alloc, file.as_slice()) {
        Ok(scanner) => Ok(Checked { file, scanner }),
        Err(why) => Err(why),
    }
}

/// The first cartridge of a file.
pub(crate) fn read_cartridge<S: Shelf>(
    alloc: Global,
    shelf: &mut S,
    name: &str,
) -> Result<Cartridge, Failure>
    ensures good { OnOk result (IfSome (S.files shelf.old) (λ told. IsJudged (input name.now (Midi refusals.OneCartridge)) told verdicts.Good)) }
    ensures value { IfOk result (λ cartridge. IfSome (S.files shelf.old) (λ told. cartridge_of told name.now ≡ cartridge)) }
    ensures kept { OnOk result (S.reading shelf.new ≡ S.reading shelf.old) }
    ensures refused { IfErr result (λ why. IsReason why (Midi refusals.OneCartridge) (S.files shelf.old) name.now
        (S.reading shelf.old) (S.reading shelf.new)) }
    ensures files { S.files shelf.new ≡ S.files shelf.old }
    ensures writing { S.writing shelf.new ≡ S.writing shelf.old }
{
    match read_file(alloc, shelf, name, FILE_LIMIT) {
        Ok(file) => find_cartridge(alloc, file.as_slice()),
        Err(why) => Err(why),
    }
}

/// The first voice of a file.
pub(crate) fn read_voice<S: Shelf>(
    alloc: Global,
    shelf: &mut S,
    name: &str,
) -> Result<Voice, Failure>
    ensures good { OnOk result (IfSome (S.files shelf.old) (λ told. IsJudged (input name.now (Midi refusals.OneVoice)) told verdicts.Good)) }
    ensures value { IfOk result (λ voice. IfSome (S.files shelf.old) (λ told. voice_of told name.now ≡ voice)) }
    ensures kept { OnOk result (S.reading shelf.new ≡ S.reading shelf.old) }
    ensures refused { IfErr result (λ why. IsReason why (Midi refusals.OneVoice) (S.files shelf.old) name.now
        (S.reading shelf.old) (S.reading shelf.new)) }
    ensures files { S.files shelf.new ≡ S.files shelf.old }
    ensures writing { S.writing shelf.new ≡ S.writing shelf.old }
{
    match read_file(alloc, shelf, name, FILE_LIMIT) {
        Ok(file) => find_voice(alloc, file.as_slice()),
        Err(why) => Err(why),
    }
}
