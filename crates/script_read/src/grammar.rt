//! Commands, read from the words of a line.

ghost use Rattle.std.specs.Prelude.{◌≡◌, [], ◌∷◌, option_map, IfOk, IfSome};
ghost use Rattle.script_read.specs.Words.{number_to, words_of};
ghost use Rattle.script_read.specs.Grammar.{both, parsed_cartridge, parsed_command, parsed_control, parsed_on, parsed_param};
ghost use Rattle.script_read.specs.Grammar.{parsed_three, parsed_two, parsed_voice};
ghost use Rattle.command_set.specs.Command.{Bends, EndsNote, IsInRange, PicksProgram, StoresVoice, content};

use crate::words::{next_word, read_number};
use command_set::{Command, TextFault, is_known_control, read_cartridge, read_voice};
use plain_text::is_word;
use std::alloc::{AllocError, Global};
use voice_record::greatest;

/// The command of a kind and one word.
#[tactic(auto, unfolding(crate::specs::Grammar::parsed_one, crate::specs::Grammar::parsed_command))]
pub(crate) fn read_one(
    alloc: Global,
    kind: &[u8],
    word: &[u8],
) -> Result<Option<Command>, AllocError>
    ensures parsed { IfOk result (λ found. option_map content found ≡ parsed_command (kind.now ∷ word.now ∷ [])) }
    ensures range { IfOk result (λ found. IfSome found (λ command. IsInRange (content command))) }
{
    if is_word(kind, b"store") {
        Ok(read_store(word))
    } else if is_word(kind, b"voice") {
        voice_of(alloc, word)
    } else if is_word(kind, b"cartridge") {
        cartridge_of(alloc, word)
    } else {
        Ok(None)
    }
}

fn read_store(word: &[u8]) -> Option<Command>
    ensures parsed { option_map content result ≡ option_map StoresVoice (number_to 31 word.now) }
    ensures range { IfSome result (λ command. IsInRange (content command)) }
{
    match read_number(word, 31) {
        Some(slot) => Some(Command::Store { slot: slot as u8 }),
        None => None,
    }
}

/// The voice of a word of hex digits.
pub(crate) fn voice_of(alloc: Global, word: &[u8]) -> Result<Option<Command>, AllocError>
    ensures parsed { IfOk result (λ found. option_map content found ≡ parsed_voice word.now) }
    ensures range { IfOk result (λ found. IfSome found (λ command. IsInRange (content command))) }
{
    match read_voice(alloc, word) {
        Ok(command) => Ok(Some(command)),
        Err(TextFault::NotCommand) => Ok(None),
        Err(TextFault::Memory) => Err(AllocError),
    }
}

/// The cartridge of a word of hex digits.
fn cartridge_of(alloc: Global, word: &[u8]) -> Result<Option<Command>, AllocError>
    ensures parsed { IfOk result (λ found. option_map content found ≡ parsed_cartridge word.now) }
    ensures range { IfOk result (λ found. IfSome found (λ command. IsInRange (content command))) }
{
    match read_cartridge(alloc, word) {
        Ok(command) => Ok(Some(command)),
        Err(TextFault::NotCommand) => Ok(None),
        Err(TextFault::Memory) => Err(AllocError),
    }
}

/// The command of a kind, two words and those of what is left of the line.
#[tactic(auto, unfolding(crate::specs::Grammar::parsed_command))]
pub(crate) fn read_more(kind: &[u8], first: &[u8], second: &[u8], rest: &[u8]) -> Option<Command>
    ensures parsed { option_map content result ≡ parsed_command (kind.now ∷ first.now ∷ second.now ∷ words_of rest.now) }
    ensures range { IfSome result (λ command. IsInRange (content command)) }
{
    match next_word(rest) {
        None => read_two(kind, first, second),
        Some((third, rest)) => match next_word(rest) {
            None => read_three(kind, first, second, third),
            Some(_) => None,
        },
    }
}

#[tactic(auto, unfolding(crate::specs::Grammar::parsed_two))]
fn read_two(kind: &[u8], first: &[u8], second: &[u8]) -> Option<Command>
    ensures parsed { option_map content result ≡ parsed_two kind.now first.now second.now }
    ensures range { IfSome result (λ command. IsInRange (content command)) }
{
    if is_word(kind, b"off") {
        read_off(first, second)
    } else if is_word(kind, b"bend") {
        read_bend(first, second)
    } else if is_word(kind, b"program") {
        read_program(first, second)
    } else if is_word(kind, b"param") {
        read_param(first, second)
    } else {
        None
    }
}

fn read_off(channel: &[u8], key: &[u8]) -> Option<Command>
    ensures parsed { option_map content result ≡ both EndsNote (number_to 15 channel.now) (number_to 127 key.now) }
    ensures range { IfSome result (λ command. IsInRange (content command)) }
{
    let channel = read_number(channel, 15)?;
    let key = read_number(key, 127)?;
    Some(Command::NoteOff {
        channel: channel as u8,
        key: key as u8,
    })
}

fn read_bend(channel: &[u8], value: &[u8]) -> Option<Command>
    ensures parsed { option_map content result ≡ both Bends (number_to 15 channel.now) (number_to 16383 value.now) }
    ensures range { IfSome result (λ command. IsInRange (content command)) }
{
    let channel = read_number(channel, 15)?;
    let value = read_number(value, 16383)?;
    Some(Command::Bend {
        channel: channel as u8,
        value: value as u16,
    })
}

fn read_program(channel: &[u8], number: &[u8]) -> Option<Command>
    ensures parsed { option_map content result ≡ both PicksProgram (number_to 15 channel.now) (number_to 127 number.now) }
    ensures range { IfSome result (λ command. IsInRange (content command)) }
{
    let channel = read_number(channel, 15)?;
    let number = read_number(number, 127)?;
    Some(Command::Program {
        channel: channel as u8,
        number: number as u8,
    })
}

fn read_param(number: &[u8], value: &[u8]) -> Option<Command>
    ensures parsed { option_map content result ≡ parsed_param value.now (number_to 155 number.now) }
    ensures range { IfSome result (λ command. IsInRange (content command)) }
{
    let number = read_number(number, 155)? as u8;
    let value = read_number(value, u32::from(greatest(number)))?;
    Some(Command::Param {
        number,
        value: value as u8,
    })
}

#[tactic(auto, unfolding(crate::specs::Grammar::parsed_three))]
fn read_three(kind: &[u8], first: &[u8], second: &[u8], third: &[u8]) -> Option<Command>
    ensures parsed { option_map content result ≡ parsed_three kind.now first.now second.now third.now }
    ensures range { IfSome result (λ command. IsInRange (content command)) }
{
    if is_word(kind, b"on") {
        read_on(first, second, third)
    } else if is_word(kind, b"control") {
        read_control(first, second, third)
    } else {
        None
    }
}

fn read_on(channel: &[u8], key: &[u8], velocity: &[u8]) -> Option<Command>
    ensures parsed { option_map content result ≡ parsed_on (number_to 15 channel.now) (number_to 127 key.now) (number_to 127 velocity.now) }
    ensures range { IfSome result (λ command. IsInRange (content command)) }
{
    let channel = read_number(channel, 15)?;
    let key = read_number(key, 127)?;
    let velocity = read_number(velocity, 127)?;
    if velocity == 0 {
        return None;
    }
    Some(Command::NoteOn {
        channel: channel as u8,
        key: key as u8,
        velocity: velocity as u8,
    })
}

fn read_control(channel: &[u8], number: &[u8], value: &[u8]) -> Option<Command>
    ensures parsed { option_map content result ≡ parsed_control (number_to 15 channel.now) (number_to 127 number.now) (number_to 127 value.now) }
    ensures range { IfSome result (λ command. IsInRange (content command)) }
{
    let channel = read_number(channel, 15)?;
    let number = read_number(number, 127)? as u8;
    let value = read_number(value, 127)?;
    if !is_known_control(number) {
        return None;
    }
    Some(Command::Control {
        channel: channel as u8,
        number,
        value: value as u8,
    })
}
