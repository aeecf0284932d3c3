//! Parts of a MIDI file at the beginning of bytes.

ghost use Rattle.std.specs.Prelude.{◌≡◌, ◌+◌, ◌*◌, ◌^◌, ◌<◌, ◌≤◌, length, IfErr, IfOk};
ghost use Rattle.midi_file.specs.Bytes.{Got, Lacks, counted_bytes, data_byte, quantity, quantity_after, so_many};

use script_outcome::{Place, ScriptFault, ScriptKind};

/// The most bytes of a variable-length quantity.
const MOST_BYTES: u8 = 4;

/// The refusal of what stands at a byte.
pub(crate) fn refused_at(byte: u32, kind: ScriptKind) -> ScriptFault
    ensures { result ≡ ScriptFault.Refused (Place.Byte byte) kind }
{
    ScriptFault::Refused {
        place: Place::Byte(byte),
        kind,
    }
}

/// A variable-length quantity of at most four bytes, and the bytes after it.
pub(crate) fn read_quantity(bytes: &[u8]) -> Result<(u32, &[u8]), ScriptKind>
    ensures ok { IfOk result (λ r. quantity bytes.now ≡ Got r.0 r.1.now) }
    ensures err { IfErr result (λ why. quantity bytes.now ≡ Lacks why) }
    ensures shorter { IfOk result (λ r. length r.1.now < length bytes.now) }
{
    read_quantity_after(MOST_BYTES, 0, bytes)
}

/// The rest of a quantity, at most so many bytes, after those that wrote the number so far.
#[tactic(auto, unfolding(crate::specs::Bytes::quantity_after))]
fn read_quantity_after(more: u8, so_far: u32, bytes: &[u8]) -> Result<(u32, &[u8]), ScriptKind>
    requires { (so_far + 1) * 128 ^ more ≤ 268435456 }
    ensures ok { IfOk result (λ r. quantity_after more so_far bytes.now ≡ Got r.0 r.1.now) }
    ensures err { IfErr result (λ why. quantity_after more so_far bytes.now ≡ Lacks why) }
    ensures shorter { IfOk result (λ r. length r.1.now < length bytes.now) }
{
    if more == 0 {
        return Err(ScriptKind::Event);
    }
    match bytes.split_first() {
        None => Err(ScriptKind::Cut),
        Some((byte, rest)) => {
            let value = so_far * 128 + u32::from(*byte % 128);
            if *byte < 128 {
                Ok((value, rest))
            } else {
                read_quantity_after(more - 1, value, rest)
            }
        }
    }
}

/// A data byte, and the bytes after it.
pub(crate) fn read_data(bytes: &[u8]) -> Result<(u8, &[u8]), ScriptKind>
    ensures ok { IfOk result (λ r. data_byte bytes.now ≡ Got r.0 r.1.now) }
    ensures err { IfErr result (λ why. data_byte bytes.now ≡ Lacks why) }
    ensures range { IfOk result (λ r. r.0 < 128) }
    ensures shorter { IfOk result (λ r. length r.1.now < length bytes.now) }
{
    match bytes.split_first() {
        None => Err(ScriptKind::Cut),
        Some((byte, rest)) => {
            if *byte < 128 {
                Ok((*byte, rest))
            } else {
                Err(ScriptKind::Event)
            }
        }
    }
}

/// As many bytes as a quantity before them says, and the bytes after them.
#[tactic(auto, unfolding(crate::specs::Bytes::counted_bytes))]
pub(crate) fn read_counted(bytes: &[u8]) -> Result<(&[u8], &[u8]), ScriptKind>
    ensures ok { IfOk result (λ r. counted_bytes bytes.now ≡ Got r.0.now r.1.now) }
    ensures err { IfErr result (λ why. counted_bytes bytes.now ≡ Lacks why) }
    ensures shorter { IfOk result (λ r. length r.1.now < length bytes.now) }
{
    match read_quantity(bytes) {
        Ok((count, rest)) => read_bytes(count, rest),
        Err(kind) => Err(kind),
    }
}

/// So many bytes, and those after them.
fn read_bytes(count: u32, bytes: &[u8]) -> Result<(&[u8], &[u8]), ScriptKind>
    ensures ok { IfOk result (λ r. so_many (Got count bytes.now) ≡ Got r.0.now r.1.now) }
    ensures err { IfErr result (λ why. so_many (Got count bytes.now) ≡ Lacks why) }
    ensures shorter { IfOk result (λ r. length r.1.now ≤ length bytes.now) }
{
    let count = count as usize;
    if bytes.len() < count {
        Err(ScriptKind::Cut)
    } else {
        Ok(bytes.split_at(count))
    }
}
