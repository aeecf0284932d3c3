//! The text of why a script is refused.

ghost use Rattle.std.specs.Prelude.{◌≡◌, ◌+◌, ◌≤◌, ◌++◌, length};
ghost use Rattle.script_outcome.specs.Text.{script_text};

use crate::fault::ScriptKind;
use fault_text::push_frame_text;
use plain_text::{LineText, push_text};

/// Adds the text of why a script is refused to a line that has 48 places left.
#[tactic(auto, unfolding(crate::specs::Text::script_text))]
pub fn push_script_text(kind: &ScriptKind, into: &mut LineText)
    requires { length into.old.items ≤ 8208 }
    ensures text { into.new.items ≡ into.old.items ++ script_text kind.now }
    ensures room { length into.new.items ≤ length into.old.items + 48 }
{
    match kind {
        ScriptKind::Kind => push_text(into, b"kind"),
        ScriptKind::Line => push_text(into, b"line"),
        ScriptKind::Falls => push_text(into, b"falls"),
        ScriptKind::Late => push_text(into, b"late"),
        ScriptKind::Message(fault) => {
            push_text(into, b"message ");
            push_frame_text(fault, into);
        }
        ScriptKind::Long => push_text(into, b"long"),
        ScriptKind::Cut => push_text(into, b"cut"),
        ScriptKind::Value => push_text(into, b"value"),
        ScriptKind::Undo => push_text(into, b"undo"),
        ScriptKind::Redo => push_text(into, b"redo"),
        ScriptKind::Header => push_text(into, b"header"),
        ScriptKind::Format => push_text(into, b"format"),
        ScriptKind::Division => push_text(into, b"division"),
        ScriptKind::Event => push_text(into, b"event"),
    }
}
