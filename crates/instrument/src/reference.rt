//! The instrument as a program that tests compare with: voices as bytes, and a key in one of three states. Its notes, its LFO and its tables
//! are the product's own (`Note`, `Lfo`, `Tables`).

ghost use Rattle.std.specs.Prelude.{◌^◌};
ghost use Rattle.note_voice.specs.Mix.{IsSmall};

use block_rates::Lfo;
use cartridge::Cartridge;
use command_set::{ALL_NOTES_OFF, Command, HOLD_PEDAL, MODULATION_WHEEL};
use dx_tables::Tables;
use note_voice::Note;
use voice_record::Voice;
use voice_record::parameter::OPERATOR_SWITCH;

/// How the key of a slot stands.
#[derive(Clone, Copy, PartialEq, Eq)]
enum Key {
    Down,
    Held,
    Up,
}

/// The note of a slot.
#[derive(Clone, Copy)]
struct ReferenceSlot {
    channel: u8,
    number: u8,
    key: Key,
    note: Note,
}

/// The instrument, with counts of what happened in it.
#[derive(Drop)]
pub(crate) struct ReferenceInstrument {
    /// The voices of the cartridge.
    pub(crate) bank: [[u8; 155]; 32],
    /// The voice of the notes that begin.
    pub(crate) voice: [u8; 155],
    /// The operator switch.
    pub(crate) switch: u8,
    bend: u16,
    wheel: u8,
    pedal: u8,
    /// The slot of the last note.
    pub(crate) last: usize,
    lfo: Lfo,
    slots: [ReferenceSlot; 16],
    /// How many notes found no slot.
    pub(crate) dropped: u32,
    /// How many keys went up while the pedal was down.
    pub(crate) held: u32,
    /// How many samples were limited.
    pub(crate) limited: u32,
}

/// No sound.
fn nothing() -> [i64; 64]
    ensures { IsSmall (2 ^ 40) result }
{
    [0; 64]
}

impl ReferenceInstrument {
    /// The opening state.
    pub(crate) fn new() -> ReferenceInstrument {
        let voice = Voice::init().bytes();
        ReferenceInstrument {
            bank: [voice; 32],
            voice,
            switch: 63,
            bend: 8192,
            wheel: 0,
            pedal: 0,
            last: 15,
            lfo: Lfo::new(),
            slots: [ReferenceSlot {
                channel: 0,
                number: 0,
                key: Key::Up,
                note: Note::idle(),
            }; 16],
            dropped: 0,
            held: 0,
            limited: 0,
        }
    }

    /// Carries out a command.
    pub(crate) fn apply(&mut self, tables: &Tables, command: &Command) {
        match command {
            Command::NoteOn {
                channel,
                key,
                velocity,
            } => self.begin(tables, *channel, *key, *velocity),
            Command::NoteOff { channel, key } => self.end(*channel, *key),
            Command::Bend { channel: _, value } => self.bend = *value,
            Command::Control {
                channel: _,
                number,
                value,
            } => self.control(*number, *value),
            Command::Program { channel: _, number } => {
                let voice = self.bank[*number as usize % 32];
                self.choose(voice);
            }
            Command::Param { number, value } => {
                if *number < OPERATOR_SWITCH {
                    self.voice[*number as usize] = *value;
                } else {
                    self.switch = *value;
                }
            }
            Command::Store { slot } => self.bank[*slot as usize % 32] = self.voice,
            Command::Voice(voice) => self.choose(voice.bytes()),
            Command::Cartridge(cartridge) => self.insert(cartridge),
        }
    }

    fn choose(&mut self, voice: [u8; 155]) {
        self.voice = voice;
        self.switch = 63;
    }

    fn insert(&mut self, cartridge: &Cartridge) {
        for slot in 0..32u8 {
            self.bank[slot as usize] = cartridge.voice(slot).bytes();
        }
    }

    fn begin(&mut self, tables: &Tables, channel: u8, number: u8, velocity: u8) {
        let mut index = self.last;
        for _ in 0..16 {
            index = index.wrapping_add(1) % 16;
            if self.slots[index].key != Key::Down {
                let voice = Voice::from_bytes(&self.voice);
                let mut note = Note::idle();
                let switch = self.switch.min(63);
                note.start(
                    tables,
                    &voice,
                    switch,
                    number.min(127),
                    velocity.clamp(1, 127),
                );
                self.slots[index] = ReferenceSlot {
                    channel,
                    number,
                    key: Key::Down,
                    note,
                };
                self.last = index;
                self.lfo.assign(&voice);
                self.lfo.key_down();
                return;
            }
        }
        self.dropped = self.dropped.wrapping_add(1);
    }

    fn end(&mut self, channel: u8, number: u8) {
        for index in 0..16usize {
            let slot = &self.slots[index];
            if slot.key == Key::Down && slot.channel == channel && slot.number == number {
                if self.pedal < 64 {
                    self.release(index);
                } else {
                    self.slots[index].key = Key::Held;
                    self.held = self.held.wrapping_add(1);
                }
            }
        }
    }

    fn control(&mut self, number: u8, value: u8) {
        if number == MODULATION_WHEEL {
            self.wheel = value;
        }
        if number == HOLD_PEDAL {
            self.pedal = value;
        }
        for index in 0..16usize {
            let ends = match self.slots[index].key {
                Key::Down => number == ALL_NOTES_OFF,
                Key::Held => number == ALL_NOTES_OFF || self.pedal < 64,
                Key::Up => false,
            };
            if ends {
                self.release(index);
            }
        }
    }

    fn release(&mut self, index: usize) {
        let slot = &mut self.slots[index % 16];
        slot.note.release();
        slot.key = Key::Up;
    }

    /// The 64 samples of the next block.
    pub(crate) fn block(&mut self, tables: &Tables) -> [i16; 64] {
        let (lfo, lfo_depth) = self.lfo.step(tables);
        let bend = self.bend.min(16_383);
        let wheel = self.wheel.min(127);
        let mut sums = [0i64; 64];
        for index in 0..16usize {
            let mut alone = nothing();
            let note = &mut self.slots[index].note;
            note.block(tables, lfo, lfo_depth, bend, wheel, &mut alone);
            for j in 0..64usize {
                sums[j] = sums[j].wrapping_add(alone[j]);
            }
        }
        let mut out = [0i16; 64];
        for j in 0..64usize {
            out[j] = self.sample(sums[j]);
        }
        out
    }

    /// 16 bits of a sum.
    fn sample(&mut self, sum: i64) -> i16 {
        let sixteenth = sum.div_euclid(16);
        if (-16_777_216..16_777_216).contains(&sixteenth) {
            return i16::try_from(sixteenth.div_euclid(512)).unwrap_or(0);
        }
        self.limited = self.limited.wrapping_add(1);
        if sixteenth < 0 { -32_768 } else { 32_767 }
    }
}
