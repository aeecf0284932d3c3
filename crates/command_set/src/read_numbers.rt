//! Commands of numbers, read from their words.

ghost use Rattle.std.specs.Prelude.{◌≡◌, ◌∷◌, option_map};
ghost use Rattle.plain_text.specs.Number.{number};
ghost use Rattle.plain_text.specs.Split.{split};
ghost use Rattle.command_set.specs.Command.{content};
ghost use Rattle.command_set.specs.Words.{numbers_of, store_of, three_bytes_of, three_of, two_bytes_of, two_of};

use crate::command::Command;
use plain_text::{is_word, parse_number, split_once};

/// `store` and a slot.
#[tactic(auto, unfolding(crate::specs::Words::store_of))]
pub(crate) fn read_store(kind: &[u8], slot: &[u8]) -> Option<Command>
    ensures { option_map content result ≡ store_of kind.now slot.now }
{
    if !is_word(kind, b"store") {
        return None;
    }
    match read_byte(slot) {
        Some(slot) => Some(Command::Store { slot }),
        None => None,
    }
}

/// A command of two or three numbers, in range or not.
pub(crate) fn read_more(kind: &[u8], first: &[u8], rest: &[u8]) -> Option<Command>
    ensures { option_map content result ≡ numbers_of (kind.now ∷ first.now ∷ split 32 rest.now) }
{
    match split_once(rest, b' ') {
        None => read_two(kind, first, rest),
        Some((second, third)) => match split_once(third, b' ') {
            None => read_three(kind, first, second, third),
            Some(_) => None,
        },
    }
}

#[tactic(auto, unfolding(crate::specs::Words::two_of))]
fn read_two(kind: &[u8], first: &[u8], second: &[u8]) -> Option<Command>
    ensures { option_map content result ≡ two_of kind.now first.now second.now }
{
    let first = match read_byte(first) {
        Some(first) => first,
        None => return None,
    };
    if is_word(kind, b"bend") {
        return match parse_number(second, 0, 16383) {
            Some(value) => Some(Command::Bend {
                channel: first,
                value: value as u16,
            }),
            None => None,
        };
    }
    match read_byte(second) {
        Some(second) => command_of_two(kind, first, second),
        None => None,
    }
}

#[tactic(auto, unfolding(crate::specs::Words::two_bytes_of))]
fn command_of_two(kind: &[u8], first: u8, second: u8) -> Option<Command>
    ensures { option_map content result ≡ two_bytes_of kind.now first second }
{
    if is_word(kind, b"off") {
        Some(Command::NoteOff {
            channel: first,
            key: second,
        })
    } else if is_word(kind, b"program") {
        Some(Command::Program {
            channel: first,
            number: second,
        })
    } else if is_word(kind, b"param") {
        Some(Command::Param {
            number: first,
            value: second,
        })
    } else {
        None
    }
}

#[tactic(auto, unfolding(crate::specs::Words::three_of))]
fn read_three(kind: &[u8], first: &[u8], second: &[u8], third: &[u8]) -> Option<Command>
    ensures { option_map content result ≡ three_of kind.now first.now second.now third.now }
{
    let first = match read_byte(first) {
        Some(first) => first,
        None => return None,
    };
    let second = match read_byte(second) {
        Some(second) => second,
        None => return None,
    };
    match read_byte(third) {
        Some(third) => command_of_three(kind, first, second, third),
        None => None,
    }
}

#[tactic(auto, unfolding(crate::specs::Words::three_bytes_of))]
fn command_of_three(kind: &[u8], first: u8, second: u8, third: u8) -> Option<Command>
    ensures { option_map content result ≡ three_bytes_of kind.now first second third }
{
    if is_word(kind, b"on") {
        Some(Command::NoteOn {
            channel: first,
            key: second,
            velocity: third,
        })
    } else if is_word(kind, b"control") {
        Some(Command::Control {
            channel: first,
            number: second,
            value: third,
        })
    } else {
        None
    }
}

/// The number of a word, up to 255.
fn read_byte(word: &[u8]) -> Option<u8>
    ensures { result ≡ number 0 255 word.now }
{
    match parse_number(word, 0, 255) {
        Some(number) => Some(number as u8),
        None => None,
    }
}
