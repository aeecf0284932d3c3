//! The names of a cartridge.

ghost use Rattle.std.specs.Prelude.{◌≡◌};
ghost use Rattle.tool_core.specs.Lines.{list_report};

use crate::output_line::name_line;
use crate::page::{Page, add};
use cartridge::Cartridge;

/// The names of 32 voices, a line for each.
pub(crate) fn list_page(cartridge: &Cartridge) -> Page
    ensures { result.items ≡ list_report cartridge.now }
{
    let mut page = Page::new();
    for slot in 0..32u8 {
        let line = name_line(slot, &cartridge.voice(slot));
        add(&mut page, line.as_slice());
    }
    page
}
