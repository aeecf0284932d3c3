//! One line of a text script.

ghost use Rattle.std.specs.Prelude.{◌≡◌, [], ◌∷◌, option_map, IfOk, IfSome};
ghost use Rattle.script_read.specs.Words.{hex_bytes, words_of};
ghost use Rattle.script_read.specs.Grammar.{parsed_command};
ghost use Rattle.script_read.specs.Lines.{parsed_block, fed, is_comment, parsed_map, parsed_one_word, ordered, parsed, parsed_at, parsed_words};
ghost use Rattle.script_read.specs.LineData.{IsSound, line_data};
ghost use Rattle.command_set.specs.Command.{IsInRange, content};

use crate::grammar::{read_more, read_one};
use crate::words::{next_word, read_number};
use command_set::Command;
use hex::FromHexError;
use plain_text::is_word;
use std::alloc::{AllocError, Global};
use velocity_map::Curve;

/// A parsed line.
#[derive(Drop)]
pub(crate) enum ScriptLine {
    /// Nothing: it is passed over.
    Blank,
    /// The curve of the lines after it.
    Map(Curve),
    /// A command at a block, before its curve.
    Command { block: u32, command: Command },
    /// MIDI bytes at a block.
    Bytes { block: u32, bytes: Vec<u8> },
    /// It isn't of the grammar.
    Wrong,
}

/// Reads a line, without its line feed.
#[tactic(auto, unfolding(crate::specs::Lines::parsed))]
pub(crate) fn read_line(alloc: Global, line: &[u8]) -> Result<ScriptLine, AllocError>
    ensures parsed { IfOk result (λ found. line_data found ≡ parsed line.now) }
    ensures sound { IfOk result IsSound }
{
    if starts_comment(line) {
        Ok(ScriptLine::Blank)
    } else {
        read_words(alloc, line)
    }
}

/// Whether the very first byte is a number sign.
pub(crate) fn starts_comment(line: &[u8]) -> bool
    ensures { result ≡ is_comment line.now }
{
    match line {
        [first, ..] => *first == b'#',
        [] => false,
    }
}

#[tactic(auto, unfolding(crate::specs::Lines::parsed_words))]
fn read_words(alloc: Global, line: &[u8]) -> Result<ScriptLine, AllocError>
    ensures parsed { IfOk result (λ found. line_data found ≡ parsed_words (words_of line.now)) }
    ensures sound { IfOk result IsSound }
{
    match next_word(line) {
        None => Ok(ScriptLine::Blank),
        Some((word, rest)) => {
            if is_word(word, b"map") {
                Ok(read_map(rest))
            } else {
                match read_number(word, u32::MAX) {
                    None => Ok(ScriptLine::Wrong),
                    Some(block) => read_at(alloc, block, rest),
                }
            }
        }
    }
}

/// The name of a curve.
fn read_map(words: &[u8]) -> ScriptLine
    ensures parsed { line_data result ≡ parsed_map (words_of words.now) }
    ensures sound { IsSound result }
{
    match next_word(words) {
        None => ScriptLine::Wrong,
        Some((name, rest)) => match next_word(rest) {
            None => read_curve(name),
            Some(_) => ScriptLine::Wrong,
        },
    }
}

fn read_curve(name: &[u8]) -> ScriptLine
    ensures parsed { line_data result ≡ parsed_map (name.now ∷ []) }
    ensures sound { IsSound result }
{
    if is_word(name, b"linear") {
        ScriptLine::Map(Curve::Linear)
    } else if is_word(name, b"soft") {
        ScriptLine::Map(Curve::Soft)
    } else if is_word(name, b"hard") {
        ScriptLine::Map(Curve::Hard)
    } else {
        ScriptLine::Wrong
    }
}

/// What stands after a block.
fn read_at(alloc: Global, block: u32, words: &[u8]) -> Result<ScriptLine, AllocError>
    ensures parsed { IfOk result (λ found. line_data found ≡ parsed_at block (words_of words.now)) }
    ensures sound { IfOk result IsSound }
{
    match next_word(words) {
        None => Ok(ScriptLine::Wrong),
        Some((kind, rest)) => match next_word(rest) {
            None => Ok(ScriptLine::Wrong),
            Some((first, rest)) => read_after(alloc, block, kind, first, rest),
        },
    }
}

/// What stands after a block, by its first two words and those of what is left of the line.
fn read_after(
    alloc: Global,
    block: u32,
    kind: &[u8],
    first: &[u8],
    rest: &[u8],
) -> Result<ScriptLine, AllocError>
    ensures parsed { IfOk result (λ found. line_data found ≡ parsed_at block (kind.now ∷ first.now ∷ words_of rest.now)) }
    ensures sound { IfOk result IsSound }
{
    match next_word(rest) {
        None => read_word(alloc, block, kind, first),
        Some((second, rest)) => Ok(line_of(block, read_more(kind, first, second, rest))),
    }
}

/// A kind and one word.
fn read_word(alloc: Global, block: u32, kind: &[u8], word: &[u8]) -> Result<ScriptLine, AllocError>
    ensures parsed { IfOk result (λ found. line_data found ≡ parsed_one_word block kind.now word.now) }
    ensures sound { IfOk result IsSound }
{
    if is_word(kind, b"bytes") {
        return read_bytes(alloc, block, word);
    }
    match read_one(alloc, kind, word) {
        Ok(command) => Ok(line_of(block, command)),
        Err(fault) => Err(fault),
    }
}

/// The line of a command, where there is one.
fn line_of(block: u32, command: Option<Command>) -> ScriptLine
    requires { IfSome command (λ command. IsInRange (content command)) }
    ensures parsed { line_data result ≡ ordered block (option_map content command) }
    ensures sound { IsSound result }
{
    match command {
        Some(command) => ScriptLine::Command { block, command },
        None => ScriptLine::Wrong,
    }
}

/// The line of MIDI bytes, where the word is pairs of hex digits.
#[tactic(auto, unfolding(crate::specs::Words::hex_bytes))]
fn read_bytes(alloc: Global, block: u32, word: &[u8]) -> Result<ScriptLine, AllocError>
    ensures parsed { IfOk result (λ found. line_data found ≡ fed block (hex_bytes word.now)) }
    ensures sound { IfOk result IsSound }
{
    match hex::decode(alloc, word) {
        Ok(bytes) => Ok(ScriptLine::Bytes { block, bytes }),
        Err(FromHexError::OutOfMemory) => Err(AllocError),
        Err(_) => Ok(ScriptLine::Wrong),
    }
}
