//! A slot: room for one note, with the state of its key.

ghost use Rattle.std.specs.Prelude.{◌≡◌, ◌≤◌, ◌+◌, ◌^◌, ℕ, Option, Some, None};
ghost use Rattle.operator_kernel.specs.Operator.{feedback_state_of};
ghost use Rattle.algorithm_bus.specs.declared.note_block.NoteBlock.{NoteBlock};
ghost use Rattle.algorithm_bus.specs.Signals.{feedback_state_left};
ghost use Rattle.algorithm_bus.specs.NoteBlocks.{block_input};
ghost use Rattle.note_voice.specs.Modulation.{Modulation};
ghost use Rattle.note_voice.specs.Note.{begun};
ghost use Rattle.instrument.specs.State.{SlotData, held, is_down, is_held, is_up, key_up, released, released_if_sounding, slot_later, pedal_up};
ghost use Rattle.instrument.specs.declared.slot.Key.TheVariants.{Down};

use crate::modulation::BlockModulation;
use algorithm_bus::NoteBlock;
use dx_tables::Tables;
use note_voice::Note;
use voice_record::Voice;

/// How the key of a slot's note stands.
#[derive(Clone, Copy)]
pub(crate) enum Key {
    /// It is down.
    Down,
    /// It went up while the pedal was down, which holds the note.
    Held,
    /// It is up, and the note released; or there was none.
    Up,
}

impl Key {
    fn is_down(self) -> bool
        ensures { result ≡ is_down self }
    {
        matches!(self, Key::Down)
    }

    fn is_held(self) -> bool
        ensures { result ≡ is_held self }
    {
        matches!(self, Key::Held)
    }
}

/// Room for a note. A note keeps its slot after its key was released, until another note occupies it.
#[derive(Clone, Copy)]
pub(crate) struct Slot {
    channel: u8,
    key: u8,
    note: Note,
    key_state: Key,
}

impl Slot {
    ghost use Rattle.instrument.specs.Running.{IsSlot, IsSlotBegun, modulation_of};

    /// A slot that had no note yet.
    pub(crate) fn empty() -> Slot
        ensures { IsSlot result None }
    {
        Slot {
            channel: 0,
            key: 0,
            note: Note::idle(),
            key_state: Key::Up,
        }
    }

    /// Begins a note of the voice, whose key goes down.
    pub(crate) fn start(
        &mut self,
        tables: &Tables,
        voice: &Voice,
        switch: u8,
        channel: u8,
        key: u8,
        velocity: u8,
    )
        requires switch { switch ≤ 63 }
        requires key { key ≤ 127 }
        requires velocity { (1 ≤ velocity) × (velocity ≤ 127) }
        ensures { IsSlot self.new (Some (record { channel = channel; note = begun voice.now switch key velocity; key_state = Down })) }
    {
        self.note.start(tables, voice, switch, key, velocity);
        self.channel = channel;
        self.key = key;
        self.key_state = Key::Down;
    }

    /// Whether no key is down here.
    pub(crate) fn is_up(&self) -> bool
        ensures { (w : Option SlotData) → IsSlot self.now w → result ≡ is_up w }
    {
        !self.key_state.is_down()
    }

    /// Releases the note.
    fn release(&mut self)
        ensures { (w : SlotData) → IsSlot self.old (Some w) → IsSlot self.new (Some (released w)) }
    {
        self.note.release();
        self.key_state = Key::Up;
    }

    /// Where this key is down, it goes up; the note is released, or held by a pedal that is down.
    pub(crate) fn key_up(&mut self, is_pedal_down: bool, channel: u8, key: u8)
        ensures { (w : Option SlotData) → IsSlot self.old w → IsSlot self.new (key_up is_pedal_down channel key w) }
    {
        if self.key_state.is_down() && self.channel == channel && self.key == key {
            if is_pedal_down {
                self.key_state = Key::Held;
            } else {
                self.release();
            }
        }
    }

    /// The pedal goes up.
    pub(crate) fn pedal_up(&mut self)
        ensures { (w : Option SlotData) → IsSlot self.old w → IsSlot self.new (pedal_up w) }
    {
        if self.key_state.is_held() {
            self.release();
        }
    }

    /// Releases the note where its key is down or the pedal holds it.
    pub(crate) fn release_if_sounding(&mut self)
        ensures { (w : Option SlotData) → IsSlot self.old w → IsSlot self.new (released_if_sounding w) }
    {
        if self.key_state.is_down() || self.key_state.is_held() {
            self.release();
        }
    }

    /// What is to be run of the slot's note in the next block; of an empty slot a block with no sound.
    pub(crate) fn begin_block(&mut self, tables: &Tables, modulation: &BlockModulation) -> NoteBlock
        ensures { (w : Option SlotData) → IsSlot self.old w → IsSlotBegun self.new result (modulation_of modulation.now) w }
    {
        self.note.begin_block(
            tables,
            modulation.lfo,
            modulation.lfo_depth,
            modulation.bend,
            modulation.wheel,
        )
    }

    /// Ends a block that was run, with the feedback state that it left.
    pub(crate) fn end_block(&mut self, feedback_state: [i32; 2])
        ensures { (b : NoteBlock) (m : Modulation) (w : Option SlotData) → IsSlotBegun self.old b m w
            → feedback_state_of feedback_state ≡ feedback_state_left (block_input b) → IsSlot self.new (slot_later m w) }
    {
        self.note.end_block(feedback_state);
    }
}
