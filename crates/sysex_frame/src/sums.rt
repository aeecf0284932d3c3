//! The checksum of a dump.

ghost use Rattle.std.specs.Prelude.{◌≡◌, ◌%◌};
ghost use Rattle.std.specs.List.{sum};
ghost use Rattle.sysex_frame.specs.Checksum.{checksum_of, IsChecksum};

/// The sum of some bytes modulo 256.
fn byte_sum(bytes: &[u8]) -> u8
    ensures { result ≡ sum bytes.now % 256 }
{
    let mut total = 0u8;
    for byte in bytes {
        total = total.wrapping_add(*byte);
    }
    total
}

/// The seven-bit number that brings the sum of the bytes to a multiple of 128.
pub fn checksum(bytes: &[u8]) -> u8
    ensures checked { IsChecksum bytes.now result }
    ensures value { result ≡ checksum_of bytes.now }
{
    (128 - byte_sum(bytes) % 128) % 128
}
