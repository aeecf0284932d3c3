//! The instrument: commands act on it between blocks, and each block is the sum of its slots.

ghost use Rattle.std.specs.Prelude.{◌≡◌, ◌<◌, ◌≤◌, ◌+◌, ◌%◌, ℕ, Option, IfOk, IfSome};
ghost use Rattle.voice_record.specs.Voice.{greatest_value};
ghost use Rattle.cartridge.specs.Cartridge.{voice_at};
ghost use Rattle.command_set.specs.Command.{IsInRange, StartsNote, EndsNote, SetsParameter, StoresVoice, LoadsCartridge, content};
ghost use Rattle.instrument.specs.State.{State, apply, controlled, free_slot, modulation, opening, passed, pedal, samples, voiced};

use crate::mix::{empty_mix, output};
use crate::modulation::BlockModulation;
use crate::slot::Slot;
use crate::slots::{all_notes_off, key_up_all, pedal_up_all, sound_all, start_at};
use block_rates::Lfo;
use cartridge::Cartridge;
use command_set::{ALL_NOTES_OFF, Command, HOLD_PEDAL, MODULATION_WHEEL};
use dx_tables::{Engine, Tables};
use std::alloc::{AllocError, Global};
use voice_record::Voice;
use voice_record::parameter::OPERATOR_SWITCH;

/// Sixteen slots for notes, a voice and a cartridge of voices. Commands act between blocks of 64 samples at 44100 Hz.
#[derive(Drop)]
pub struct Instrument {
    tables: Tables,
    bank: Cartridge,
    voice: Voice,
    switch: u8,
    bend: u16,
    wheel: u8,
    is_pedal_down: bool,
    next: usize,
    lfo: Lfo,
    slots: [Slot; 16],
    ghost switch_in_range: { switch ≤ 63 },
    ghost bend_in_range: { bend ≤ 16383 },
    ghost wheel_in_range: { wheel ≤ 127 },
    ghost next_is_a_slot: { next < 16 },
}

impl Instrument {
    ghost use Rattle.instrument.specs.Instrument.{IsIn};
    ghost use Rattle.instrument.specs.Running.{modulation_of};

    /// An instrument in its opening state: a blank cartridge, the opening voice, and all slots empty.
    pub fn new(alloc: Global, engine: Engine) -> Result<Instrument, AllocError>
        ensures { IfOk result (λ made. IsIn made opening) }
    {
        match engine {
            Engine::One => {}
        }
        Ok(Instrument {
            tables: Tables::new(alloc)?,
            bank: Cartridge::blank(alloc)?,
            voice: Voice::init(),
            switch: 63,
            bend: 8192,
            wheel: 0,
            is_pedal_down: false,
            next: 0,
            lfo: Lfo::new(),
            slots: [Slot::empty(); 16],
        })
    }

    /// Carries out a command. It asks for no memory and refuses nothing.
    #[tactic(auto, unfolding(crate::specs::State::apply))]
    pub fn apply(&mut self, command: &Command)
        requires { IsInRange (content command.now) }
        ensures { (s : State) → IsIn self.old s → IsIn self.new (apply s (content command.now)) }
    {
        match command {
            Command::NoteOn {
                channel,
                key,
                velocity,
            } => self.note_on(*channel, *key, *velocity),
            Command::NoteOff { channel, key } => self.note_off(*channel, *key),
            Command::Bend { channel: _, value } => self.set_bend(*value),
            Command::Control {
                channel: _,
                number,
                value,
            } => self.control(*number, *value),
            Command::Program { channel: _, number } => self.program_change(*number),
            Command::Param { number, value } => self.set_parameter(*number, *value),
            Command::Store { slot } => self.store(*slot),
            Command::Voice(voice) => self.load_voice(voice),
            Command::Cartridge(cartridge) => self.load_cartridge(cartridge),
        }
    }

    /// Renders the next block of 64 samples. It asks for no memory and refuses nothing.
    pub fn block(&mut self, out: &mut [i16; 64])
        ensures samples { (s : State) → IsIn self.old s → out.new ≡ samples s }
        ensures passed { (s : State) → IsIn self.old s → IsIn self.new (passed s) }
    {
        let modulation = self.next_modulation();
        let mut mix = empty_mix();
        sound_all(&mut self.slots, &self.tables, &modulation, &mut mix);
        for j in 0..64usize {
            out[j] = output(mix[j]);
        }
    }

    /// The voice of the notes that begin.
    pub fn voice(&self) -> &Voice
        ensures { (s : State) → IsIn self.now s → result.now ≡ s.voice }
    {
        &self.voice
    }

    /// The cartridge's voices.
    pub fn bank(&self) -> &Cartridge
        ensures { (s : State) → IsIn self.now s → result.now ≡ s.bank }
    {
        &self.bank
    }

    /// The operator switch: bit 5 is operator 1, bit 0 operator 6.
    pub fn switch(&self) -> u8
        ensures { (s : State) → IsIn self.now s → result ≡ s.switch }
    {
        self.switch
    }

    /// Gives a fresh note the first slot, from the next one on, whose key is up; where there is none it is dropped.
    fn note_on(&mut self, channel: u8, key: u8, velocity: u8)
        requires key { key ≤ 127 }
        requires velocity { (1 ≤ velocity) × (velocity ≤ 127) }
        ensures { (s : State) → IsIn self.old s → IsIn self.new (apply s (StartsNote channel key velocity)) }
    {
        let Some(free) = self.free_slot() else {
            return;
        };
        start_at(
            &mut self.slots,
            free,
            &self.tables,
            &self.voice,
            self.switch,
            channel,
            key,
            velocity,
        );
        self.next = (free + 1) % 16;
        self.lfo.assign(&self.voice);
        self.lfo.key_down();
    }

    /// A key goes up in each slot where it is down.
    fn note_off(&mut self, channel: u8, key: u8)
        ensures { (s : State) → IsIn self.old s → IsIn self.new (apply s (EndsNote channel key)) }
    {
        key_up_all(&mut self.slots, self.is_pedal_down, channel, key);
    }

    /// Sets the pitch bend, 0 to 16383.
    fn set_bend(&mut self, value: u16)
        requires { value ≤ 16383 }
        ensures { (s : State) → IsIn self.old s → IsIn self.new (record s { bend = value }) }
    {
        self.bend = value;
    }

    /// The modulation wheel, the hold pedal or all notes off; other controls do nothing.
    fn control(&mut self, number: u8, value: u8)
        requires { value ≤ 127 }
        ensures { (s : State) → IsIn self.old s → IsIn self.new (controlled s number value) }
    {
        match number {
            MODULATION_WHEEL => self.wheel = value,
            HOLD_PEDAL => self.pedal(value),
            ALL_NOTES_OFF => all_notes_off(&mut self.slots),
            _ => {}
        }
    }

    /// The hold pedal, which is down from 64 on.
    fn pedal(&mut self, value: u8)
        ensures { (s : State) → IsIn self.old s → IsIn self.new (pedal s value) }
    {
        if value < 64 {
            self.is_pedal_down = false;
            pedal_up_all(&mut self.slots);
        } else {
            self.is_pedal_down = true;
        }
    }

    /// Loads the voice of a slot of the cartridge, the number modulo 32, with all operators on.
    fn program_change(&mut self, number: u8)
        ensures { (s : State) → IsIn self.old s → IsIn self.new (voiced s (voice_at s.bank (number % 32))) }
    {
        let voice = self.bank.voice(number % 32);
        self.load_voice(&voice);
    }

    /// Sets a parameter of the voice, 0 to 154, or the operator switch, 155.
    fn set_parameter(&mut self, number: u8, value: u8)
        requires number { number ≤ 155 }
        requires value { value ≤ greatest_value number }
        ensures { (s : State) → IsIn self.old s → IsIn self.new (apply s (SetsParameter number value)) }
    {
        if number == OPERATOR_SWITCH {
            self.switch = value;
        } else {
            let _ = self.voice.set(number, value);
        }
    }

    /// Puts the voice into a slot of the cartridge, 0 to 31.
    #[tactic(auto, unfolding(crate::specs::State::apply))]
    fn store(&mut self, slot: u8)
        requires { slot ≤ 31 }
        ensures { (s : State) → IsIn self.old s → IsIn self.new (apply s (StoresVoice slot)) }
    {
        self.bank.store(slot, &self.voice);
    }

    /// Loads another cartridge. The voice stays.
    #[tactic(auto, unfolding(crate::specs::State::apply))]
    fn load_cartridge(&mut self, cartridge: &Cartridge)
        ensures { (s : State) → IsIn self.old s → IsIn self.new (apply s (LoadsCartridge cartridge.now)) }
    {
        self.bank.assign(cartridge);
    }

    /// Loads another voice, with all operators on.
    fn load_voice(&mut self, voice: &Voice)
        ensures { (s : State) → IsIn self.old s → IsIn self.new (voiced s voice.now) }
    {
        self.voice = *voice;
        self.switch = 63;
    }

    /// The first slot of the round from the next one on whose key is up.
    fn free_slot(&self) -> Option<usize>
        ensures slot { (s : State) → IsIn self.now s → result ≡ free_slot s }
        ensures within { IfSome result (λ i. i < 16) }
    {
        for k in 0..16usize {
            let i = (self.next + k) % 16;
            if self.slots[i].is_up() {
                return Some(i);
            }
        }
        None
    }

    /// What moves the notes in the next block, for which the LFO goes one block on.
    fn next_modulation(&mut self) -> BlockModulation
        ensures value { (s : State) → IsIn self.old s → modulation_of result ≡ modulation s }
        ensures stepped { (s : State) → IsIn self.old s → IsIn self.new (record s { steps = s.steps + 1 }) }
    {
        let (lfo, lfo_depth) = self.lfo.step(&self.tables);
        BlockModulation {
            lfo,
            lfo_depth,
            bend: self.bend,
            wheel: self.wheel,
        }
    }
}
