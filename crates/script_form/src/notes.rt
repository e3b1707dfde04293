//! The lines of a handset's notes, written.
ghost use Rattle.std.specs.Prelude.{◌≡◌, ◌+◌, ◌≤◌, ◌++◌, ◌∷◌, [], length, map};
ghost use Rattle.script_form.specs.Traces.{shown, trace_text};
ghost use Rattle.script_form.specs.declared.trace.TraceLine.TheVariants as line;

use crate::handset::Note;
use crate::trace::{put_hex, put_numbered, put_text};
use crate::values::is_printable;
use arrayvec::ArrayVec;
use itoa::Buffer;

/// The bytes of the longest line of a note: a mark and a word, the longest text, and the end.
pub const LONGEST_NOTE: usize = 7 + 255 + 1;

/// Puts the text of a note's line into an empty buffer.
#[tactic(auto, using(crate::proofs::EncodeWithLemmas::joined_digits), unfolding(crate::specs::Traces::trace_text))]
pub fn put_note<const N: usize>(text: &mut ArrayVec<u8, N>, note: &Note)
    requires empty { text.old.items ≡ [] }
    requires fits { LONGEST_NOTE ≤ N }
    ensures { text.new.items ≡ trace_text (line.Note note.now) }
{
    match note {
        Note::Text(shown) => put_shown(text, b"* text ", shown.as_slice()),
        Note::Ask(shown) => put_shown(text, b"* ask ", shown.as_slice()),
        Note::Choose(count) => {
            put_numbered(text, b"* choose ", Buffer::new().format(*count).as_bytes())
        }
        Note::Menu(count) => {
            put_numbered(text, b"* menu ", Buffer::new().format(*count).as_bytes())
        }
        Note::Tone(tone) => {
            put_text(text, b"* tone ");
            put_hex(text, &[*tone]);
            put_text(text, b"\n");
        }
        Note::Idle(shown) => put_shown(text, b"* idle ", shown.as_slice()),
        Note::Call => put_text(text, b"* call\n"),
        Note::Barred => put_text(text, b"* barred\n"),
        Note::Busy => put_text(text, b"* busy\n"),
    }
}

/// Puts words and a text as it is shown after them into an empty buffer, with the end of the line.
fn put_shown<const N: usize>(text: &mut ArrayVec<u8, N>, words: &[u8], bytes: &[u8])
    requires empty { text.old.items ≡ [] }
    requires fits { length words.now + length bytes.now + 1 ≤ N }
    ensures { text.new.items ≡ words.now ++ map shown bytes.now ++ 10 ∷ [] }
{
    put_text(text, words);
    put_printable(text, bytes);
    put_text(text, b"\n");
}

/// Adds bytes at the end, those that aren't printable as dots.
fn put_printable<const N: usize>(text: &mut ArrayVec<u8, N>, bytes: &[u8])
    requires { length text.old.items + length bytes.now ≤ N }
    ensures items { text.new.items ≡ text.old.items ++ map shown bytes.now }
    ensures size { length text.new.items ≡ length text.old.items + length bytes.now }
{
    for byte in bytes {
        text.push(if is_printable(*byte) { *byte } else { b'.' });
    }
}
