//! What is done with all sixteen slots.

ghost use Rattle.std.specs.Prelude.{ℕ, ◌≤◌, ◌<◌, ◌==◌, if◌then◌else◌, true, false, Option, Some, List};
ghost use Rattle.algorithm_bus.specs.declared.note_block.NoteBlock.{NoteBlock};
ghost use Rattle.note_voice.specs.Modulation.{Modulation};
ghost use Rattle.note_voice.specs.Note.{begun};
ghost use Rattle.note_voice.specs.Mix.{IsAdded};
ghost use Rattle.instrument.specs.Mix.{AreZeros};
ghost use Rattle.instrument.specs.Running.{AreSlots, AreSlotsBegun, modulation_of};
ghost use Rattle.instrument.specs.Blocks.{AreLeft};
ghost use Rattle.instrument.specs.State.{SlotData, key_up, mix_of, released_if_sounding, slot_later, pedal_up};
ghost use Rattle.instrument.specs.declared.slot.Key.TheVariants.{Down};

use crate::blocks::run_all;
use crate::modulation::BlockModulation;
use crate::slot::Slot;
use algorithm_bus::NoteBlock;
use dx_tables::Tables;
use voice_record::Voice;

/// Begins a note of the voice in a slot.
pub(crate) fn start_at(
    slots: &mut [Slot; 16],
    at: usize,
    tables: &Tables,
    voice: &Voice,
    switch: u8,
    channel: u8,
    key: u8,
    velocity: u8,
)
    requires at { at < 16 }
    requires switch { switch ≤ 63 }
    requires key { key ≤ 127 }
    requires velocity { (1 ≤ velocity) × (velocity ≤ 127) }
    ensures { (ws : ℕ → Option SlotData) → AreSlots slots.old ws → AreSlots slots.new (λ i. if i == at
        then Some (record { channel = channel; note = begun voice.now switch key velocity; key_state = Down }) else ws i) }
{
    slots[at].start(tables, voice, switch, channel, key, velocity);
}

/// A key goes up in each slot where it is down.
pub(crate) fn key_up_all(slots: &mut [Slot; 16], is_pedal_down: bool, channel: u8, key: u8)
    ensures { (ws : ℕ → Option SlotData) → AreSlots slots.old ws → AreSlots slots.new (λ i. key_up is_pedal_down channel key (ws i)) }
{
    for i in 0..16usize {
        slots[i].key_up(is_pedal_down, channel, key);
    }
}

/// The pedal goes up.
pub(crate) fn pedal_up_all(slots: &mut [Slot; 16])
    ensures { (ws : ℕ → Option SlotData) → AreSlots slots.old ws → AreSlots slots.new (λ i. pedal_up (ws i)) }
{
    for i in 0..16usize {
        slots[i].pedal_up();
    }
}

/// All notes whose key is down or that the pedal holds are released; they sound on as their envelopes say.
pub(crate) fn all_notes_off(slots: &mut [Slot; 16])
    ensures { (ws : ℕ → Option SlotData) → AreSlots slots.old ws → AreSlots slots.new (λ i. released_if_sounding (ws i)) }
{
    for i in 0..16usize {
        slots[i].release_if_sounding();
    }
}

/// What is to be run in the next block, slot by slot.
fn begin_all(
    slots: &mut [Slot; 16],
    tables: &Tables,
    modulation: &BlockModulation,
) -> [NoteBlock; 16]
    ensures { (ws : ℕ → Option SlotData) → AreSlots slots.old ws → AreSlotsBegun slots.new result (modulation_of modulation.now) ws }
{
    let mut blocks = [NoteBlock::silent(); 16];
    for i in 0..16usize {
        blocks[i] = slots[i].begin_block(tables, modulation);
    }
    blocks
}

/// Ends the blocks that were run.
fn end_all(slots: &mut [Slot; 16], blocks: &[NoteBlock; 16])
    ensures { (bs : List NoteBlock) (m : Modulation) (ws : ℕ → Option SlotData) → AreSlotsBegun slots.old bs m ws
        → AreLeft bs blocks.now → AreSlots slots.new (λ i. slot_later m (ws i)) }
{
    for i in 0..16usize {
        let feedback_state = blocks[i].feedback_state;
        slots[i].end_block(feedback_state);
    }
}

/// Adds up the 64 samples of the next block of all slots, over the sum of no notes.
pub(crate) fn sound_all(
    slots: &mut [Slot; 16],
    tables: &Tables,
    modulation: &BlockModulation,
    mix: &mut [i64; 64],
)
    requires { AreZeros mix.old }
    ensures samples { (ws : ℕ → Option SlotData) → AreSlots slots.old ws
        → IsAdded (mix_of (modulation_of modulation.now) ws 16) mix.old mix.new }
    ensures passed { (ws : ℕ → Option SlotData) → AreSlots slots.old ws
        → AreSlots slots.new (λ i. slot_later (modulation_of modulation.now) (ws i)) }
{
    let mut blocks = begin_all(slots, tables, modulation);
    run_all(tables, &mut blocks, mix);
    end_all(slots, &blocks);
}
