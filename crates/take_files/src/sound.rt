//! The sound file, written.

ghost use Rattle.std.specs.Prelude.{◌≡◌, ◌≤◌, IfOk};
ghost use Rattle.command_set.specs.Entries.{journal_data};
ghost use Rattle.instrument.specs.Limits.{block_limit};
ghost use Rattle.take_files.specs.Files.{AreOrdered, wav};

use crate::playback::Playback;
use crate::wav::{wav_block, wav_header};
use command_set::Logged;
use instrument::Engine;
use std::alloc::{AllocError, Global};

/// The bytes of the sound file of a journal whose blocks don't fall, up to 1048576 blocks: block by block, what one
/// instrument renders after the commands that were taken up to it.
#[tactic(auto, unfolding(crate::specs::Files::wav))]
pub fn sound_file(
    alloc: Global,
    engine: Engine,
    journal: &[Logged],
    blocks: u32,
) -> Result<Vec<u8>, AllocError>
    requires blocks { blocks ≤ block_limit }
    requires order { AreOrdered 0 (journal_data journal.now) }
    ensures { IfOk result (λ sound. sound.items ≡ wav (journal_data journal.now) blocks) }
{
    let mut sound = Vec::with_capacity(alloc, 44 + 128 * blocks as usize)?;
    sound.extend_from_slice(&wav_header(blocks))?;
    let mut playback = Playback::new(alloc, engine, journal)?;
    let mut samples = [0i16; 64];
    'playing: for _ in 0..blocks {
        playback.render(&mut samples);
        sound.extend_from_slice(&wav_block(&samples))?;
    }
    Ok(sound)
}
