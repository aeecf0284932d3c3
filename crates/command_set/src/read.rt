//! A command read from its text.

ghost use Rattle.std.specs.Prelude.{◌≡◌, ◌≢◌, [], ◌∷◌, option_map, IfOk};
ghost use Rattle.plain_text.specs.Split.{split};
ghost use Rattle.command_set.specs.Command.{CommandData, IsInRange, content};
ghost use Rattle.command_set.specs.Words.{AreWordsOf, AreWordsOfNone, AreWordsOfSome};
ghost use Rattle.command_set.specs.Unique.{TextsAreUnique};
ghost use Rattle.command_set.specs.declared.read.TextFault.TheVariants.{Memory, NotCommand};

use crate::command::Command;
use crate::read_bytes::{read_cartridge, read_voice};
use crate::read_numbers::{read_more, read_store};
use plain_text::{is_word, split_once};
use std::alloc::Global;

/// Why a text is no command: it is not the text of a command in range, or memory was wanting.
#[derive(Clone, Copy, Debug, PartialEq, Eq)]
pub enum TextFault {
    /// It is not the text of a command in range.
    NotCommand,
    /// It is one, and there was no memory for its voice or cartridge.
    Memory,
}

impl Command {
    ghost use Rattle.std.specs.Prelude.{◌≡◌, ◌≢◌, ◌≤◌, length, IfOk};
    ghost use Rattle.command_set.specs.Command.{CommandData, IsInRange, content};
    ghost use Rattle.command_set.specs.Text.{text as text_of};
    ghost use Rattle.command_set.specs.declared.read.TextFault.TheVariants.{Memory, NotCommand};

    /// The command that the text is the text of. `NotCommand` comes exactly where it is the text of no
    /// command in range, and asks for no memory.
    pub fn read_text(alloc: Global, text: &[u8]) -> Result<Command, TextFault>
        requires { length text.now ≤ 536870912 }
        ensures text { IfOk result (λ c. text_of (content c) ≡ text.now) }
        ensures range { IfOk result (λ c. IsInRange (content c)) }
        ensures only { IfOk result (λ c. (d : CommandData) → IsInRange d → text_of d ≡ text.now → d ≡ content c) }
        ensures refused { result ≡ Err NotCommand → (d : CommandData) → IsInRange d → text_of d ≢ text.now }
        ensures memory { result ≡ Err Memory → (d : CommandData) × IsInRange d × (text_of d ≡ text.now) }
    {
        read_words(alloc, text)
    }
}

/// The command in range whose words a text has.
fn read_words(alloc: Global, text: &[u8]) -> Result<Command, TextFault>
    ensures read { IfOk result (λ c. AreWordsOf (split 32 text.now) (content c)) }
    ensures refused { result ≡ Err NotCommand → AreWordsOfNone (split 32 text.now) }
    ensures memory { result ≡ Err Memory → AreWordsOfSome (split 32 text.now) }
{
    let (kind, rest) = match split_once(text, b' ') {
        Some(parts) => parts,
        None => return Err(TextFault::NotCommand),
    };
    match split_once(rest, b' ') {
        None => read_one(alloc, kind, rest),
        Some((first, rest)) => within_range(read_more(kind, first, rest)),
    }
}

/// A command of a word and one further word.
fn read_one(alloc: Global, kind: &[u8], word: &[u8]) -> Result<Command, TextFault>
    ensures read { IfOk result (λ c. AreWordsOf (kind.now ∷ word.now ∷ []) (content c)) }
    ensures refused { result ≡ Err NotCommand → AreWordsOfNone (kind.now ∷ word.now ∷ []) }
    ensures memory { result ≡ Err Memory → AreWordsOfSome (kind.now ∷ word.now ∷ []) }
{
    if is_word(kind, b"voice") {
        read_voice(alloc, word)
    } else if is_word(kind, b"cartridge") {
        read_cartridge(alloc, word)
    } else {
        within_range(read_store(kind, word))
    }
}

/// The command, where there is one and it is in range.
fn within_range(command: Option<Command>) -> Result<Command, TextFault>
    ensures read { IfOk result (λ c. (option_map content command ≡ Some (content c)) × IsInRange (content c)) }
    ensures refused { result ≡ Err NotCommand → (d : CommandData) → IsInRange d → option_map content command ≢ Some d }
    ensures memory { result ≢ Err Memory }
{
    match command {
        Some(command) => {
            if command.in_range() {
                Ok(command)
            } else {
                Err(TextFault::NotCommand)
            }
        }
        None => Err(TextFault::NotCommand),
    }
}

/// Commands in range that have one text are one command.
pub fn texts_are_unique()
    ensures { TextsAreUnique }
{}
