//! Worked lists of acts, and long random ones against a reference program that keeps whole voices.

ghost use Rattle.std.specs.Prelude.{◌≤◌, ◌<◌};

use crate::{EditFault, Editor};
use command_set::Command;
use std::alloc::{AllocError, Global};
use std::test::Fail;
use voice_record::{Voice, greatest};

/// What an editor is asked to do.
#[derive(Clone, Copy, Debug)]
enum Call {
    Set(u8, u8),
    Rename([u8; 10]),
    Load(Voice),
    Undo,
    Redo,
}

/// What it answers.
#[derive(Clone, Copy, Debug, PartialEq, Eq)]
enum Answer {
    Param(u8, u8),
    Whole(Voice),
    Refused(EditFault),
    Other,
}

fn answer_of(outcome: Result<Command, EditFault>) -> Answer {
    match outcome {
        Ok(Command::Param { number, value }) => Answer::Param(number, value),
        Ok(Command::Voice(voice)) => Answer::Whole(*voice),
        Ok(_) => Answer::Other,
        Err(fault) => Answer::Refused(fault),
    }
}

fn ask(alloc: Global, editor: &mut Editor, call: &Call) -> Answer {
    answer_of(match call {
        Call::Set(number, value) => editor.set(*number % 155, *value),
        Call::Rename(name) => editor.rename(alloc, name),
        Call::Load(voice) => editor.load(alloc, voice),
        Call::Undo => editor.undo(alloc),
        Call::Redo => editor.redo(alloc),
    })
}

/// A voice that was left, and the number that was changed then, where it was one.
type Left = (Voice, Option<u8>);

/// The reference program: each voice that was left, whole, the oldest first.
#[derive(Drop)]
struct Reference {
    depth: usize,
    voice: Voice,
    past: Vec<Left>,
    future: Vec<Left>,
}

fn expected(voice: &Voice, kind: Option<u8>) -> Answer {
    match kind {
        Some(number) => Answer::Param(number, voice.get(number % 155)),
        None => Answer::Whole(*voice),
    }
}

impl Reference {
    fn act(&mut self, voice: Voice, kind: Option<u8>) -> Result<Answer, AllocError> {
        self.past.push((self.voice, kind))?;
        if self.past.len() > self.depth {
            self.past.remove(0);
        }
        self.future.clear();
        self.voice = voice;
        Ok(expected(&voice, kind))
    }

    fn undo(&mut self) -> Result<Answer, AllocError> {
        let Some((voice, kind)) = self.past.pop() else {
            return Ok(Answer::Refused(EditFault::NothingToUndo));
        };
        self.future.push((self.voice, kind))?;
        self.voice = voice;
        Ok(expected(&voice, kind))
    }

    fn redo(&mut self) -> Result<Answer, AllocError> {
        let Some((voice, kind)) = self.future.pop() else {
            return Ok(Answer::Refused(EditFault::NothingToRedo));
        };
        self.past.push((self.voice, kind))?;
        self.voice = voice;
        Ok(expected(&voice, kind))
    }

    fn set(&mut self, number: u8, value: u8) -> Result<Answer, AllocError>
        requires { number ≤ 154 }
    {
        let mut voice = self.voice;
        match voice.set(number, value) {
            Ok(_) => self.act(voice, Some(number)),
            Err(high) => Ok(Answer::Refused(EditFault::from(high))),
        }
    }

    fn rename(&mut self, name: &[u8; 10]) -> Result<Answer, AllocError> {
        let mut voice = self.voice;
        for place in 0..10u8 {
            if voice.set(145 + place, name[place as usize]).is_err() {
                return Ok(Answer::Refused(EditFault::NameByte { place }));
            }
        }
        self.act(voice, None)
    }

    fn ask(&mut self, call: &Call) -> Result<Answer, AllocError> {
        match call {
            Call::Set(number, value) => self.set(*number % 155, *value),
            Call::Rename(name) => self.rename(name),
            Call::Load(voice) => self.act(*voice, None),
            Call::Undo => self.undo(),
            Call::Redo => self.redo(),
        }
    }
}

/// The next random number, below the bound.
fn draw(state: &mut u64, bound: u64) -> u8
    requires low { 0 < bound }
    requires high { bound ≤ 256 }
{
    *state = state
        .wrapping_mul(6_364_136_223_846_793_005)
        .wrapping_add(1_442_695_040_888_963_407);
    ((*state >> 33) % bound) as u8
}

fn draw_voice(state: &mut u64) -> Voice {
    let mut bytes = [0; 155];
    for number in 0..155u8 {
        bytes[number as usize] = draw(state, u64::from(greatest(number)) + 1);
    }
    Voice::from_bytes(&bytes)
}

fn draw_name(state: &mut u64) -> [u8; 10] {
    let mut name = [0; 10];
    for byte in name.iter_mut() {
        *byte = draw(state, 130).min(draw(state, 130));
    }
    name
}

fn draw_call(state: &mut u64) -> Call {
    match draw(state, 12) {
        0 => Call::Rename(draw_name(state)),
        1 => Call::Load(draw_voice(state)),
        2..=4 => Call::Undo,
        5..=7 => Call::Redo,
        _ => {
            let number = draw(state, 155);
            let value = draw(state, u64::from(greatest(number % 155)) + 2);
            Call::Set(number, value)
        }
    }
}

/// What a voice becomes that is given only the answered commands.
fn follow(voice: Voice, answer: &Answer) -> Voice {
    let mut voice = voice;
    match answer {
        Answer::Param(number, value) => {
            let _ = voice.set(*number % 155, *value);
            voice
        }
        Answer::Whole(other) => *other,
        _ => voice,
    }
}

#[test]
fn an_editor_of_depth_1(rt: HostRuntime) -> Result<(), Fail> {
    let voice = Voice::init();
    let mut named = voice;
    let name = *b"BRASS    1";
    for place in 0..10u8 {
        assert!(rt; named.set(145 + place, name[place as usize]).is_ok());
    }
    let mut editor = Editor::new(rt.alloc(), &voice, 1)?;
    let high = |number, value, greatest| {
        Answer::Refused(EditFault::ValueHigh {
            number,
            value,
            greatest,
        })
    };
    for (call, want, algorithm) in [
        (Call::Undo, Answer::Refused(EditFault::NothingToUndo), 0),
        (Call::Redo, Answer::Refused(EditFault::NothingToRedo), 0),
        (Call::Set(134, 5), Answer::Param(134, 5), 5),
        (Call::Set(134, 6), Answer::Param(134, 6), 6),
        (Call::Undo, Answer::Param(134, 5), 5),
        (Call::Undo, Answer::Refused(EditFault::NothingToUndo), 5),
        (Call::Redo, Answer::Param(134, 6), 6),
        (Call::Set(134, 32), high(134, 32, 31), 6),
        (Call::Load(voice), Answer::Whole(voice), 0),
        (Call::Rename(name), Answer::Whole(named), 0),
        (
            Call::Rename(*b"BRASS  \x80\xff1"),
            Answer::Refused(EditFault::NameByte { place: 7 }),
            0,
        ),
        (Call::Undo, Answer::Whole(voice), 0),
        (Call::Redo, Answer::Whole(named), 0),
        (Call::Set(134, 0), Answer::Param(134, 0), 0),
        (Call::Redo, Answer::Refused(EditFault::NothingToRedo), 0),
        (Call::Undo, Answer::Param(134, 0), 0),
    ] {
        assert_eq!(rt; ask(rt.alloc(), &mut editor, &call), want, "{call:?}");
        assert_eq!(rt; editor.voice().get(134), algorithm, "{call:?}");
    }
    Ok(())
}

#[test]
fn an_editor_of_depth_1000(rt: HostRuntime) -> Result<(), Fail> {
    let mut editor = Editor::new(rt.alloc(), &Voice::init(), 1000)?;
    for act in 0..1001u32 {
        let value = (act % 100) as u8;
        assert_eq!(rt; answer_of(editor.set(0, value)), Answer::Param(0, value));
    }
    for act in (0..1000u32).rev() {
        let value = (act % 100) as u8;
        assert_eq!(rt; answer_of(editor.undo(rt.alloc())), Answer::Param(0, value));
    }
    assert_eq!(rt;
        answer_of(editor.undo(rt.alloc())),
        Answer::Refused(EditFault::NothingToUndo)
    );
    Ok(())
}

#[test]
fn random_acts(rt: HostRuntime) -> Result<(), Fail> {
    for depth in [1, 2, 100] {
        let mut state = depth as u64;
        let voice = draw_voice(&mut state);
        let mut editor = Editor::new(rt.alloc(), &voice, depth)?;
        let mut reference = Reference {
            depth,
            voice,
            past: Vec::new(rt.alloc()),
            future: Vec::new(rt.alloc()),
        };
        let mut follower = voice;
        for act in 0..2000u32 {
            let call = draw_call(&mut state);
            let answer = ask(rt.alloc(), &mut editor, &call);
            assert_eq!(rt; answer, reference.ask(&call)?, "act {act}");
            follower = follow(follower, &answer);
            assert_eq!(rt; *editor.voice(), reference.voice, "act {act}");
            assert_eq!(rt; follower, reference.voice, "act {act}");
        }
    }
    Ok(())
}
