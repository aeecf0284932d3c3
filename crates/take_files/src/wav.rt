//! The bytes of a sound file: its header, and a block of samples.

ghost use Rattle.std.specs.Prelude.{◌≡◌, ◌≤◌};
ghost use Rattle.take_files.specs.Files as files;
ghost use Rattle.instrument.specs.Limits.{block_limit};

use byteorder::{ByteOrder, LittleEndian};

/// The header of a sound file of so many blocks: RIFF, one channel of 16 bits at 44100 Hz.
#[tactic(auto, unfolding(crate::specs::Files::wav_header))]
pub fn wav_header(blocks: u32) -> [u8; 44]
    requires { blocks ≤ block_limit }
    ensures { result ≡ files.wav_header blocks }
{
    let size = 128 * blocks;
    let mut header = *b"RIFF....WAVEfmt ....................data....";
    LittleEndian::write_u32(&mut header[4..], 36 + size);
    LittleEndian::write_u32(&mut header[16..], 16);
    // Format 1: samples of whole numbers, not compressed.
    LittleEndian::write_u16(&mut header[20..], 1);
    // One channel.
    LittleEndian::write_u16(&mut header[22..], 1);
    LittleEndian::write_u32(&mut header[24..], 44_100);
    // Bytes a second, bytes a sample, and bits a sample.
    LittleEndian::write_u32(&mut header[28..], 88_200);
    LittleEndian::write_u16(&mut header[32..], 2);
    LittleEndian::write_u16(&mut header[34..], 16);
    LittleEndian::write_u32(&mut header[40..], size);
    header
}

/// The bytes of a block of samples, the lower byte of each sample first.
#[tactic(auto, unfolding(crate::specs::Files::wav_block))]
pub fn wav_block(samples: &[i16; 64]) -> [u8; 128]
    ensures { result ≡ files.wav_block samples.now }
{
    let mut bytes = [0u8; 128];
    LittleEndian::write_i16_into(samples, &mut bytes);
    bytes
}
