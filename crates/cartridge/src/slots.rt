//! The slots of 4096 packed bytes, 128 bytes each.

ghost use Rattle.std.specs.Prelude.{ℕ, ◌≡◌, ◌≢◌, ◌<◌, ◌≤◌, length};
ghost use Rattle.cartridge.specs.Cartridge.{slot_bytes};

/// How many bytes a slot has.
const SLOT: usize = 128;

/// The bytes of a slot.
pub(crate) fn read(packed: &[u8], slot: u8) -> [u8; 128]
    requires size { length packed.now ≡ 4096 }
    requires slot { slot ≤ 31 }
    ensures { result ≡ slot_bytes packed.now slot }
{
    let start = SLOT * slot as usize;
    let mut bytes = [0; SLOT];
    bytes.copy_from_slice(&packed[start..start + SLOT]);
    bytes
}

/// Puts 128 bytes into a slot.
pub(crate) fn write(packed: &mut [u8], slot: u8, bytes: &[u8; 128])
    requires size { length packed.old ≡ 4096 }
    requires slot { slot ≤ 31 }
    ensures own { slot_bytes packed.new slot ≡ bytes.now }
    ensures others { (other : ℕ) → other < 32 → other ≢ slot → slot_bytes packed.new other ≡ slot_bytes packed.old other }
{
    let start = SLOT * slot as usize;
    packed[start..start + SLOT].copy_from_slice(bytes);
}
