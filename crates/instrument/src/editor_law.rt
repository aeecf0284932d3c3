//! The law that an instrument follows an editor.

ghost use Rattle.instrument.specs.EditorLaw.{FollowsAnEditor};

/// An instrument that began with an editor's voice, and took only the commands that the editor answered, has the editor's voice, whatever
/// blocks it rendered between them.
pub fn follows_an_editor()
    ensures { FollowsAnEditor }
{}

#[cfg(test)]
mod tests {
    use super::follows_an_editor;
    use crate::{Engine, Instrument};
    use command_set::Command;
    use std::test::Fail;
    use voice_record::parameter;

    #[test]
    fn an_editors_commands_are_taken(rt: HostRuntime) -> Result<(), Fail> {
        follows_an_editor();
        let mut instrument = Instrument::new(rt.alloc(), Engine::One)?;
        let mut out = [0i16; 64];
        // an act, another one, and the first one again by an undo
        for value in [4u8, 7, 4] {
            let command = Command::Param {
                number: parameter::FEEDBACK,
                value,
            };
            assert!(rt; command.in_range());
            instrument.apply(&command);
            instrument.block(&mut out);
            assert_eq!(rt; instrument.voice().get(parameter::FEEDBACK), value);
        }
        Ok(())
    }
}
