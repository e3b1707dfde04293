//! The card that a long script is for: it holds the MF, and these applets are registered.
ghost use Rattle.std.specs.Prelude.{◌≡◌, ◌≤◌, length, slice_get};
ghost use Rattle.script_form.specs.declared.lines.ScriptLine.TheVariants as line;
ghost use Rattle.long_runs.specs.FixedRows.{fixed_rows};

use script_form::ScriptLine;
use uicc_types::Octets;

/// The line that registers the applet at this place, counted from 0, if there is one.
pub fn fixed_row(place: u32) -> Option<ScriptLine>
    ensures { result ≡ slice_get fixed_rows place }
{
    match place {
        0 => Some(row(1, 1, b"\x00\x04Menu")),
        1 => Some(row(2, 1, b"\x01\x40\x00")),
        2 => Some(row(3, 1, b"\x02\x03\x04\x00")),
        3 => Some(row(5, 2, b"\x01\x40\x04Note")),
        4 => Some(row(6, 1, b"\x01\x41\x00\x41\x01\x41")),
        _ => None,
    }
}

fn row(shelf: u8, priority: u8, content: &[u8]) -> ScriptLine
    requires { length content.now ≤ 255 }
    ensures { result ≡ line.Row shelf priority content.now }
{
    ScriptLine::Row {
        shelf,
        priority,
        content: Octets::from_slice(content),
    }
}
