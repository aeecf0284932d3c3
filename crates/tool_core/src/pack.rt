//! A cartridge of the first voices of some files.

ghost use Rattle.std.specs.Prelude.{◌≡◌, ◌≤◌, ◌<◌, IfOk, IfErr, IfSome, OnOk, [], length, map, slice_index_or, slice_set, string_bytes};
ghost use Rattle.cartridge.specs.Cartridge.{IsMessageOf};
ghost use Rattle.tool_core.specs.Effects.{packed, voice_of};
ghost use Rattle.tool_core.specs.Failures.{IsReason};
ghost use Rattle.tool_core.specs.Inputs.{IsJudged, AreGood, input, Midi};
ghost use Rattle.tool_core.specs.Packing.{IsPackFailure, voices};
ghost use Rattle.tool_core.specs.Refusals as refusals;
ghost use Rattle.tool_core.specs.Verdicts as verdicts;

use crate::failure::Failure;
use crate::midi_bytes::read_voice;
use cartridge::Cartridge;
use outside::Shelf;
use std::alloc::Global;

/// The place of a file that doesn't serve, counted from 0, and why.
#[derive(Clone, Copy, Debug, PartialEq, Eq)]
pub(crate) struct PackFailure {
    pub(crate) place: usize,
    pub(crate) why: Failure,
}

/// The message of a cartridge with the first voice of each file, and opening voices after them.
pub(crate) fn read_pack<S: Shelf>(
    alloc: Global,
    shelf: &mut S,
    files: &[String],
) -> Result<Vec<u8>, PackFailure>
    requires some { 0 < length files.now }
    requires fits { length files.now ≤ 32 }
    ensures good { OnOk result (IfSome (S.files shelf.old) (λ told. AreGood (voices (map string_bytes files.now)) told)) }
    ensures message { IfOk result (λ message. IfSome (S.files shelf.old) (λ told.
        IsMessageOf (packed told (map string_bytes files.now)) 0 message.items)) }
    ensures kept { OnOk result (S.reading shelf.new ≡ S.reading shelf.old) }
    ensures place { IfErr result (λ failure. failure.place < length files.now) }
    ensures refused { IfErr result (λ failure. IsPackFailure failure.place failure.why (S.files shelf.old) (map string_bytes files.now)
        (S.reading shelf.old) (S.reading shelf.new)) }
    ensures files { S.files shelf.new ≡ S.files shelf.old }
    ensures writing { S.writing shelf.new ≡ S.writing shelf.old }
{
    let mut cartridge = match Cartridge::blank(alloc) {
        Ok(cartridge) => cartridge,
        Err(_) => return Err(out_of_memory()),
    };
    for place in 0..files.len() {
        let file = name_at(files, place);
        match pack_one(alloc, shelf, &mut cartridge, file, place as u8) {
            Ok(()) => {}
            Err(why) => return Err(PackFailure { place, why }),
        }
    }
    match cartridge.write(alloc, 0) {
        Ok(message) => Ok(message),
        Err(_) => Err(out_of_memory()),
    }
}

/// One of some names.
pub(crate) fn name_at(files: &[String], at: usize) -> &str
    requires { at < length files.now }
    ensures { result.now ≡ slice_index_or (map string_bytes files.entry.now) at [] }
{
    files[at].as_str()
}

/// Puts the first voice of a file into a slot, 0 to 31.
fn pack_one<S: Shelf>(
    alloc: Global,
    shelf: &mut S,
    cartridge: &mut Cartridge,
    file: &str,
    slot: u8,
) -> Result<(), Failure>
    requires { slot ≤ 31 }
    ensures good { OnOk result (IfSome (S.files shelf.old) (λ told. IsJudged (input file.now (Midi refusals.OneVoice)) told verdicts.Good)) }
    ensures voice { OnOk result (IfSome (S.files shelf.old) (λ told. cartridge.new ≡ slice_set cartridge.old slot (voice_of told file.now))) }
    ensures kept { OnOk result (S.reading shelf.new ≡ S.reading shelf.old) }
    ensures refused { IfErr result (λ why. IsReason why (Midi refusals.OneVoice) (S.files shelf.old) file.now
        (S.reading shelf.old) (S.reading shelf.new)) }
    ensures files { S.files shelf.new ≡ S.files shelf.old }
    ensures writing { S.writing shelf.new ≡ S.writing shelf.old }
{
    match read_voice(alloc, shelf, file) {
        Ok(voice) => {
            cartridge.store(slot, &voice);
            Ok(())
        }
        Err(why) => Err(why),
    }
}

fn out_of_memory() -> PackFailure
    ensures place { result.place ≡ 0 }
    ensures why { result.why ≡ Failure.Memory }
{
    PackFailure {
        place: 0,
        why: Failure::Memory,
    }
}
