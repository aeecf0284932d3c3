//! The texts of the kinds of fault.

use super::*;
use plain_text::LineText;

#[test]
fn kinds_have_their_texts(rt: HostRuntime) {
    let rows: [(ScriptKind, &[u8]); 13] = [
        (ScriptKind::Kind, b"kind"),
        (ScriptKind::Line, b"line"),
        (ScriptKind::Falls, b"falls"),
        (ScriptKind::Late, b"late"),
        (ScriptKind::Long, b"long"),
        (ScriptKind::Cut, b"cut"),
        (ScriptKind::Value, b"value"),
        (ScriptKind::Undo, b"undo"),
        (ScriptKind::Redo, b"redo"),
        (ScriptKind::Header, b"header"),
        (ScriptKind::Format, b"format"),
        (ScriptKind::Division, b"division"),
        (ScriptKind::Event, b"event"),
    ];
    for (kind, text) in rows {
        let mut line = LineText::new();
        push_script_text(&kind, &mut line);
        assert_eq!(rt; line.as_slice(), text);
    }
}
