//! One line of an `edit 1` script.

ghost use Rattle.std.specs.Prelude.{None, ◌≡◌, ◌≤◌, ◌^◌, ◌-◌, ◌&&◌, ◌++◌, [], ◌∷◌, option_and_then, option_map, nat_lt, nat_le};
ghost use Rattle.std.specs.Prelude.{length, replicate, IfOk, IfSome, IsTrue};
ghost use Rattle.std.specs.List.{list_all};
ghost use Rattle.command_set.specs.Command.{content};
ghost use Rattle.editor.specs.Names.{first_high};
ghost use Rattle.script_read.specs.Words.{number_to, text_after, words_of};
ghost use Rattle.script_read.specs.Grammar.{parsed_voice};
ghost use Rattle.script_read.specs.EditLines.{Loads, Puts, Renames, request_alone, parsed_request, request_at, parsed_edit};
ghost use Rattle.script_read.specs.EditLines.{is_name_byte, parsed_name, request_of_one, parsed_set, request_of_two, voice_taken};
ghost use Rattle.script_read.specs.EditLines.{request_of_words};
ghost use Rattle.script_read.specs.EditData.{IsSoundRequest, IsSoundLine, request_data, edit_data};

use crate::grammar::voice_of;
use crate::script_line::starts_comment;
use crate::words::{next_word, read_number};
use command_set::Command;
use plain_text::is_word;
use std::alloc::{AllocError, Global};
use voice_record::Voice;

/// The bytes of a name.
const NAME: usize = 10;

/// A request to the editor.
#[derive(Drop)]
pub(crate) enum EditRequest {
    /// A parameter of the voice, 0 to 154, set to a value, which may be above its greatest.
    Set { number: u8, value: u32 },
    /// The last act undone.
    Undo,
    /// The act done again that was undone last.
    Redo,
    /// Another name.
    Rename([u8; 10]),
    /// Another voice.
    Load(Box<Voice>),
    /// The voice put into a slot, 0 to 31, of the instrument.
    Store { slot: u8 },
}

/// A parsed line.
#[derive(Drop)]
pub(crate) enum EditLine {
    /// Nothing: it is passed over.
    Blank,
    /// A request at a block.
    Requests { block: u32, request: EditRequest },
    /// It isn't of the grammar.
    Wrong,
}

/// Reads a line, without its line feed.
#[tactic(auto, unfolding(crate::specs::EditLines::parsed_edit, crate::specs::EditLines::parsed_edit_words))]
pub(crate) fn read_edit_line(alloc: Global, line: &[u8]) -> Result<EditLine, AllocError>
    ensures parsed { IfOk result (λ found. edit_data found ≡ parsed_edit line.now) }
    ensures sound { IfOk result IsSoundLine }
{
    if starts_comment(line) {
        return Ok(EditLine::Blank);
    }
    match next_word(line) {
        None => Ok(EditLine::Blank),
        Some((word, after)) => match read_number(word, u32::MAX) {
            None => Ok(EditLine::Wrong),
            Some(block) => match read_request(alloc, after) {
                Ok(request) => Ok(line_of(block, request)),
                Err(fault) => Err(fault),
            },
        },
    }
}

/// The line of a request, where there is one.
fn line_of(block: u32, request: Option<EditRequest>) -> EditLine
    requires { IfSome request IsSoundRequest }
    ensures parsed { edit_data result ≡ request_at block (option_map request_data request) }
    ensures sound { IsSoundLine result }
{
    match request {
        Some(request) => EditLine::Requests { block, request },
        None => EditLine::Wrong,
    }
}

/// What stands after a block.
fn read_request(alloc: Global, after: &[u8]) -> Result<Option<EditRequest>, AllocError>
    ensures parsed { IfOk result (λ found. option_map request_data found ≡ parsed_request (text_after after.now) (words_of after.now)) }
    ensures sound { IfOk result (λ found. IfSome found IsSoundRequest) }
{
    match next_word(after) {
        None => Ok(None),
        Some((kind, rest)) => {
            if is_word(kind, b"name") {
                Ok(read_rename(rest))
            } else {
                read_words(alloc, kind, rest)
            }
        }
    }
}

/// What a kind and the words after it request.
fn read_words(alloc: Global, kind: &[u8], rest: &[u8]) -> Result<Option<EditRequest>, AllocError>
    ensures parsed { IfOk result (λ found. option_map request_data found ≡ request_of_words kind.now (words_of rest.now)) }
    ensures sound { IfOk result (λ found. IfSome found IsSoundRequest) }
{
    match next_word(rest) {
        None => Ok(read_alone(kind)),
        Some((first, rest)) => match next_word(rest) {
            None => read_one(alloc, kind, first),
            Some((second, rest)) => match next_word(rest) {
                None => Ok(read_two(kind, first, second)),
                Some(_) => Ok(None),
            },
        },
    }
}

fn read_alone(kind: &[u8]) -> Option<EditRequest>
    ensures parsed { option_map request_data result ≡ request_alone kind.now }
    ensures sound { IfSome result IsSoundRequest }
{
    if is_word(kind, b"undo") {
        Some(EditRequest::Undo)
    } else if is_word(kind, b"redo") {
        Some(EditRequest::Redo)
    } else {
        None
    }
}

fn read_one(alloc: Global, kind: &[u8], word: &[u8]) -> Result<Option<EditRequest>, AllocError>
    ensures parsed { IfOk result (λ found. option_map request_data found ≡ request_of_one kind.now word.now) }
    ensures sound { IfOk result (λ found. IfSome found IsSoundRequest) }
{
    if is_word(kind, b"voice") {
        read_load(alloc, word)
    } else if is_word(kind, b"store") {
        Ok(read_store(word))
    } else {
        Ok(None)
    }
}

fn read_store(word: &[u8]) -> Option<EditRequest>
    ensures parsed { option_map request_data result ≡ option_map Puts (number_to 31 word.now) }
    ensures sound { IfSome result IsSoundRequest }
{
    match read_number(word, 31) {
        Some(slot) => Some(EditRequest::Store { slot: slot as u8 }),
        None => None,
    }
}

/// The voice of a word of hex digits.
fn read_load(alloc: Global, word: &[u8]) -> Result<Option<EditRequest>, AllocError>
    ensures parsed { IfOk result (λ found. option_map request_data found ≡ option_map Loads (option_and_then voice_taken (parsed_voice word.now))) }
    ensures sound { IfOk result (λ found. IfSome found IsSoundRequest) }
{
    match voice_of(alloc, word) {
        Ok(Some(command)) => Ok(load_of(command)),
        Ok(None) => Ok(None),
        Err(fault) => Err(fault),
    }
}

/// The voice of a command that loads one.
fn load_of(command: Command) -> Option<EditRequest>
    ensures parsed { option_map request_data result ≡ option_map Loads (voice_taken (content command)) }
    ensures sound { IfSome result IsSoundRequest }
{
    match command {
        Command::Voice(voice) => Some(EditRequest::Load(voice)),
        _ => None,
    }
}

fn read_two(kind: &[u8], first: &[u8], second: &[u8]) -> Option<EditRequest>
    ensures parsed { option_map request_data result ≡ request_of_two kind.now first.now second.now }
    ensures sound { IfSome result IsSoundRequest }
{
    if is_word(kind, b"set") {
        read_set(first, second)
    } else {
        None
    }
}

fn read_set(number: &[u8], value: &[u8]) -> Option<EditRequest>
    ensures parsed { option_map request_data result ≡ parsed_set (number_to 154 number.now) (number_to (2 ^ 32 - 1) value.now) }
    ensures sound { IfSome result IsSoundRequest }
{
    let number = read_number(number, 154)?;
    let value = read_number(value, u32::MAX)?;
    Some(EditRequest::Set {
        number: number as u8,
        value,
    })
}

fn read_rename(text: &[u8]) -> Option<EditRequest>
    ensures parsed { option_map request_data result ≡ option_map Renames (parsed_name text.now) }
    ensures sound { IfSome result IsSoundRequest }
{
    match read_name(text) {
        Some(name) => Some(EditRequest::Rename(name)),
        None => None,
    }
}

/// A name of 1 to 10 bytes, filled with spaces.
#[tactic(auto, unfolding(crate::specs::EditLines::parsed_name))]
fn read_name(text: &[u8]) -> Option<[u8; 10]>
    ensures parsed { result ≡ parsed_name text.now }
    ensures sound { IfSome result (λ name. first_high name ≡ None) }
{
    if is_name(text) {
        Some(filled(text))
    } else {
        None
    }
}

/// Whether a text may be a name.
fn is_name(text: &[u8]) -> bool
    ensures value { result ≡ ((nat_lt 0 (length text.now) && nat_le (length text.now) 10) && list_all is_name_byte text.now) }
    ensures short { IsTrue result → length text.now ≤ 10 }
{
    is_short(text) && has_name_bytes(text)
}

/// Whether a text has 1 to 10 bytes.
fn is_short(text: &[u8]) -> bool
    ensures value { result ≡ (nat_lt 0 (length text.now) && nat_le (length text.now) 10) }
    ensures short { IsTrue result → length text.now ≤ 10 }
{
    !text.is_empty() && text.len() <= NAME
}

fn has_name_bytes(text: &[u8]) -> bool
    ensures { result ≡ list_all is_name_byte text.now }
{
    text.iter().all(|byte| is_name_byte(*byte))
}

/// Whether a name may have a byte, from the space to the tilde.
fn is_name_byte(byte: u8) -> bool
    ensures { result ≡ is_name_byte byte }
{
    b' ' <= byte && byte <= b'~'
}

/// A text of at most ten bytes, filled with spaces to ten.
fn filled(text: &[u8]) -> [u8; 10]
    requires { length text.now ≤ 10 }
    ensures { result ≡ text.now ++ replicate (10 - length text.now) 32 }
{
    let mut name = [b' '; NAME];
    name[..text.len()].copy_from_slice(text);
    name
}
