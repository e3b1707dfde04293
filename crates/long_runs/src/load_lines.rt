//! The lines that are made from a number.
ghost use Rattle.std.specs.Prelude.{◌≡◌, ◌≤◌, length, IfSome};
ghost use Rattle.handset_model.specs.History.{span_of};
ghost use Rattle.handset_model.specs.Legal.{IsBounded};
ghost use Rattle.long_runs.specs.LoadLines.{AreTaken, line_for, made_lines, place_for};
ghost use Rattle.long_runs.specs.declared.load_lines.TheConstants.{LONGEST_SPAN};

use rand_core::utils::NextWord;
use rand_pcg::Pcg32;
use script_form::HandsetLine;
use std::marker::Model;
use uicc_types::Octets;

/// The most seconds that a line lets pass.
pub const LONGEST_SPAN: u32 = 300;

/// The lines that are still to come.
#[derive(Debug, Drop)]
pub struct LoadLines {
    words: Pcg32,
    left: u32,
}

impl Model for LoadLines {
    ghost use Rattle.std.specs.Prelude.{List};
    ghost use Rattle.script_form.specs.declared.handset.HandsetLine.{HandsetLine};
    ghost use Rattle.long_runs.specs.LoadLines.{lines_of_words};

    ghost Value = { List HandsetLine };

    ghost view = { λ lines. lines_of_words lines.left lines.words };
}

impl LoadLines {
    /// So many lines, made from the number `start`.
    pub fn new(start: u32, count: u32) -> Self
        ensures lines { result ≡ made_lines start count }
        ensures count { length result ≡ count }
    {
        LoadLines {
            words: Pcg32::new(u64::from(start), 1),
            left: count,
        }
    }

    /// Takes the next line, if there is one.
    pub fn next(&mut self) -> Option<HandsetLine>
        ensures taken { AreTaken self.old result self.new }
        ensures bounded { IfSome result IsBounded }
        ensures short { IfSome result (λ line. span_of line ≤ LONGEST_SPAN) }
    {
        if self.left == 0 {
            return None;
        }
        self.left -= 1;
        Some(line_of(self.words.next_word()))
    }
}

/// The line that a word stands for: the word's lowest three bits choose its kind.
pub fn line_of(word: u32) -> HandsetLine
    ensures line { result ≡ line_for word }
    ensures bounded { IsBounded result }
    ensures short { span_of result ≤ LONGEST_SPAN }
{
    match word % 8 {
        0 => HandsetLine::UserPick((1 + word / 8 % 16) as u8),
        1 => HandsetLine::UserOk,
        2 => HandsetLine::UserEnd,
        3 => HandsetLine::NetPlace(place_of(word)),
        4 => HandsetLine::Time(1 + word / 8 % LONGEST_SPAN),
        5 => HandsetLine::UserPress,
        6 => HandsetLine::UserType(Octets::from_slice(b"T")),
        _ => HandsetLine::NetPoll,
    }
}

/// A location in a network of the country 001, with the bytes of a word as its area and cell.
fn place_of(word: u32) -> Octets
    ensures { result ≡ place_for word }
{
    let [first, second, third, fourth] = word.to_be_bytes();
    Octets::from_slice(&[0x00, 0xF1, 0x10, first, second, third, fourth])
}
