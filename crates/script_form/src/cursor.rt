//! The words of a line, one after the other.
ghost use Rattle.std.specs.Prelude.{◌≡◌, ◌==◌, ◌∷◌, [], MatchOption, IsSome, ◌↔◌, position};
ghost use Rattle.script_form.specs.Words.{words};

use std::marker::Model;

/// The words of a line that are still to be read.
#[derive(Drop)]
pub struct Words<'a> {
    // What stands after the last space that was passed; none once the last word was read.
    rest: Option<&'a [u8]>,
}

impl<'a> Model for Words<'a> {
    ghost use Rattle.std.specs.Prelude.{List, ℕ};
    ghost use Rattle.script_form.specs.Words.{words_left};

    ghost Value = { List (List ℕ) };

    ghost view = { λ words. words_left words.rest };
}

impl<'a> Words<'a> {
    /// All words of a line.
    pub fn of(line: &'a [u8]) -> Self
        ensures { result ≡ words line.now }
    {
        Words { rest: Some(line) }
    }

    /// The next word, or none where all were read.
    pub fn word(&mut self) -> Option<&'a [u8]>
        ensures { MatchOption result (self.old ≡ []) (λ word. self.old ≡ word.now ∷ self.new) }
    {
        let line = self.rest?;
        match first_space(line) {
            Some(space) => {
                self.rest = Some(&line[space + 1..]);
                Some(&line[..space])
            }
            None => {
                self.rest = None;
                Some(line)
            }
        }
    }

    /// All that is left of the line, with its spaces, or nothing where all words were read.
    pub fn rest(&self) -> Option<&'a [u8]>
        ensures { MatchOption result (self.now ≡ []) (λ rest. self.now ≡ words rest.now) }
    {
        match self.rest {
            Some(rest) => Some(rest),
            None => None,
        }
    }

    /// That no word is left.
    pub fn end(&self) -> Option<()>
        ensures { IsSome result ↔ (self.now ≡ []) }
    {
        match self.rest {
            Some(_) => None,
            None => Some(()),
        }
    }
}

fn first_space(line: &[u8]) -> Option<usize>
    ensures { result ≡ position (λ byte. byte == 32) line.now }
{
    line.iter().position(|byte| *byte == b' ')
}
