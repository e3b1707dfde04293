//! Script lines, read.
ghost use Rattle.std.specs.Prelude.{◌≡◌, IfOk, IfErr, OnOk, OnErr};
ghost use Rattle.script_form.specs.Forms.{Ends, IsBad, cut_form, IsCommandLine, IsLine, IsStatement, IsTransferLine, file_form, form_of};
ghost use Rattle.script_form.specs.Bounds.{IsBounded};
ghost use Rattle.script_form.specs.Reads.{IsOnly, ReadsInto};
ghost use Rattle.script_form.specs.declared.lines.ScriptLine.{ScriptLine as AnyLine};

use crate::cursor::Words;
use crate::files::{path_of, rule_of, short_of};
use crate::handset_reading::{network, proactive, time, user};
use crate::keywords::{Keyword, Structure, keyword_of, structure_of};
use crate::lines::{LineFault, Path, ScriptLine};
use crate::pins::{key_of, pin_of, switch_of};
use crate::values::{byte_of, bytes_of, number_of, read_bytes};
use byte_streams::LONGEST_LINE;
use uicc_types::{ApduBytes, CutAt, FailAt};

/// The largest number of nine digits.
const MOST_CALLS: u32 = 999_999_999;

/// Reads a line, given without its end; `number` is its place in the script. A fault, with that number, exactly where
/// the line is in no form.
pub fn read_line(bytes: &[u8], number: u32) -> Result<ScriptLine, LineFault>
    // What is read is what the line says, and it says nothing else.
    ensures read { IfOk result (λ line. IsOnly (IsLine bytes.now) line) }
    ensures within { IfOk result (λ line. IsBounded line) }
    ensures bad { OnErr result (IsBad bytes.now) }
    ensures number { IfErr result (λ fault. fault.0 ≡ number) }
    // No line has two readings.
    ensures one_reading { (one other : AnyLine) → IsLine bytes.now one → IsLine bytes.now other → one ≡ other }
{
    let mut line = ScriptLine::Passed;
    match read_line_into(bytes, number, &mut line) {
        Ok(()) => Ok(line),
        Err(fault) => Err(fault),
    }
}

/// Reads a line as `read_line` does, into a place of the caller's. What a line says is large, and is written into its place
/// once. After a fault the place holds any line.
#[inline(always)]
#[tactic(auto, using(crate::proofs::IsBoundedLemmas::bounded))]
pub fn read_line_into(bytes: &[u8], number: u32, line: &mut ScriptLine) -> Result<(), LineFault>
    ensures read { OnOk result (IsOnly (IsLine bytes.now) line.new) }
    ensures within { OnOk result (IsBounded line.new) }
    ensures bad { OnErr result (IsBad bytes.now) }
    ensures number { IfErr result (λ fault. fault.0 ≡ number) }
{
    match read_into(bytes, line) {
        Some(()) => Ok(()),
        None => Err(LineFault(number)),
    }
}

/// Most lines are commands, so theirs are told from the others at once.
#[inline(always)]
fn read_into(bytes: &[u8], line: &mut ScriptLine) -> Option<()>
    ensures { ReadsInto (IsLine bytes.now) result line.new }
{
    if bytes.len() > LONGEST_LINE {
        return None;
    }
    match bytes {
        [b'a', b'p', b'd', b'u', b' ', digits @ ..] => command(digits, line),
        [] | [b'#', ..] => {
            *line = ScriptLine::Passed;
            Some(())
        }
        _ => statement(&mut Words::of(bytes), line),
    }
}

#[inline(never)]
fn statement(words: &mut Words<'_>, line: &mut ScriptLine) -> Option<()>
    ensures { ReadsInto (IsStatement words.old) result line.new }
{
    let word = words.word()?;
    let keyword = keyword_of(word)?;
    form(keyword, words, line)
}

/// What stands after the keyword.
fn form(keyword: Keyword, words: &mut Words<'_>, line: &mut ScriptLine) -> Option<()>
    ensures { ReadsInto (form_of keyword words.old) result line.new }
{
    match keyword {
        Keyword::Df => directory(words, line),
        Keyword::Ef => file(words, line),
        Keyword::Fill => fill(words, line),
        Keyword::Rec => record(words, line),
        Keyword::Pin => pin(words, line),
        Keyword::Row => row(words, line),
        Keyword::Start => last(words, line, ScriptLine::Start),
        Keyword::Apdu => apdu(words, line),
        Keyword::Tpdu => tpdu(words, line),
        Keyword::Reset => last(words, line, ScriptLine::Reset),
        Keyword::Cut => cut(words, line),
        Keyword::Fail => fail(words, line),
        Keyword::ReadFail => read_fail(words, line),
        Keyword::User => user(words, line),
        Keyword::Net => network(words, line),
        Keyword::Time => time(words, line),
        Keyword::Cmd => proactive(words, line),
    }
}

fn directory(words: &mut Words<'_>, line: &mut ScriptLine) -> Option<()>
    ensures { ReadsInto (form_of Keyword.Df words.old) result line.new }
{
    let word = words.word()?;
    let path = path_of(word)?;
    last(words, line, ScriptLine::Df { path })
}

fn file(words: &mut Words<'_>, line: &mut ScriptLine) -> Option<()>
    ensures { ReadsInto (form_of Keyword.Ef words.old) result line.new }
{
    let word = words.word()?;
    let path = path_of(word)?;
    let word = words.word()?;
    let structure = structure_of(word)?;
    file_of(path, structure, words, line)
}

/// What stands after the letter of the structure.
fn file_of(
    path: Path,
    structure: Structure,
    words: &mut Words<'_>,
    line: &mut ScriptLine,
) -> Option<()>
    ensures { ReadsInto (file_form path structure words.old) result line.new }
{
    match structure {
        Structure::Transparent => transparent(path, words, line),
        Structure::Linear => linear(path, words, line),
        Structure::Cyclic => cyclic(path, words, line),
    }
}

fn transparent(path: Path, words: &mut Words<'_>, line: &mut ScriptLine) -> Option<()>
    ensures { ReadsInto (file_form path Structure.Transparent words.old) result line.new }
{
    let word = words.word()?;
    let size = number_of(word, 1, 32_767)?;
    let word = words.word()?;
    let short = short_of(word)?;
    let word = words.word()?;
    let rule = rule_of(word)?;
    let size = size as u16;
    last(
        words,
        line,
        ScriptLine::Transparent {
            path,
            size,
            short,
            rule,
        },
    )
}

fn linear(path: Path, words: &mut Words<'_>, line: &mut ScriptLine) -> Option<()>
    ensures { ReadsInto (file_form path Structure.Linear words.old) result line.new }
{
    let word = words.word()?;
    let length = number_of(word, 1, 255)?;
    let word = words.word()?;
    let count = number_of(word, 1, 254)?;
    let word = words.word()?;
    let short = short_of(word)?;
    let word = words.word()?;
    let rule = rule_of(word)?;
    let length = length as u8;
    let count = count as u8;
    last(
        words,
        line,
        ScriptLine::Linear {
            path,
            length,
            count,
            short,
            rule,
        },
    )
}

fn cyclic(path: Path, words: &mut Words<'_>, line: &mut ScriptLine) -> Option<()>
    ensures { ReadsInto (file_form path Structure.Cyclic words.old) result line.new }
{
    let word = words.word()?;
    let length = number_of(word, 1, 255)?;
    let word = words.word()?;
    let count = number_of(word, 1, 254)?;
    let word = words.word()?;
    let short = short_of(word)?;
    let word = words.word()?;
    let rule = rule_of(word)?;
    let length = length as u8;
    let count = count as u8;
    last(
        words,
        line,
        ScriptLine::Cyclic {
            path,
            length,
            count,
            short,
            rule,
        },
    )
}

fn fill(words: &mut Words<'_>, line: &mut ScriptLine) -> Option<()>
    ensures { ReadsInto (form_of Keyword.Fill words.old) result line.new }
{
    let word = words.word()?;
    let path = path_of(word)?;
    let word = words.word()?;
    let offset = number_of(word, 0, 65_535)?;
    let word = words.word()?;
    let bytes = bytes_of(word)?;
    let offset = offset as u16;
    last(
        words,
        line,
        ScriptLine::Fill {
            path,
            offset,
            bytes,
        },
    )
}

fn record(words: &mut Words<'_>, line: &mut ScriptLine) -> Option<()>
    ensures { ReadsInto (form_of Keyword.Rec words.old) result line.new }
{
    let word = words.word()?;
    let path = path_of(word)?;
    let word = words.word()?;
    let number = number_of(word, 0, 255)?;
    let word = words.word()?;
    let bytes = bytes_of(word)?;
    let number = number as u8;
    last(
        words,
        line,
        ScriptLine::Rec {
            path,
            number,
            bytes,
        },
    )
}

fn pin(words: &mut Words<'_>, line: &mut ScriptLine) -> Option<()>
    ensures { ReadsInto (form_of Keyword.Pin words.old) result line.new }
{
    let word = words.word()?;
    let key = key_of(word)?;
    let word = words.word()?;
    let value = pin_of(word)?;
    let word = words.word()?;
    let enabled = switch_of(word, key)?;
    let word = words.word()?;
    let unblock = pin_of(word)?;
    last(
        words,
        line,
        ScriptLine::Pin {
            key,
            value,
            enabled,
            unblock,
        },
    )
}

fn row(words: &mut Words<'_>, line: &mut ScriptLine) -> Option<()>
    ensures { ReadsInto (form_of Keyword.Row words.old) result line.new }
{
    let word = words.word()?;
    let shelf = number_of(word, 0, 255)?;
    let word = words.word()?;
    let priority = number_of(word, 1, 255)?;
    let word = words.word()?;
    let content = bytes_of(word)?;
    let shelf = shelf as u8;
    let priority = priority as u8;
    last(
        words,
        line,
        ScriptLine::Row {
            shelf,
            priority,
            content,
        },
    )
}

/// A command, which is the last word: all that is left of the line.
#[tactic(auto, using(crate::proofs::IsCommandLineLemmas::reads_form))]
fn apdu(words: &Words<'_>, line: &mut ScriptLine) -> Option<()>
    ensures { ReadsInto (form_of Keyword.Apdu words.now) result line.new }
{
    match words.rest() {
        Some(digits) => command(digits, line),
        None => None,
    }
}

/// Reads a command where the last one was, if the line was one too. It is most lines' way, and keeps its loop in registers in a
/// function of its own.
#[inline(never)]
#[tactic(auto, using(crate::proofs::IsCommandLineLemmas::reads_command))]
fn command(digits: &[u8], line: &mut ScriptLine) -> Option<()>
    ensures { ReadsInto (IsCommandLine digits.now) result line.new }
{
    match line {
        ScriptLine::Apdu(bytes) => read_bytes(digits, bytes),
        _ => first_command(digits, line),
    }
}

#[inline(never)]
#[tactic(auto, using(crate::proofs::IsCommandLineLemmas::reads_command))]
fn first_command(digits: &[u8], line: &mut ScriptLine) -> Option<()>
    ensures { ReadsInto (IsCommandLine digits.now) result line.new }
{
    let mut bytes = ApduBytes::new();
    read_bytes(digits, &mut bytes)?;
    *line = ScriptLine::Apdu(bytes);
    Some(())
}

/// A TPDU, which is the last word too.
#[tactic(auto, using(crate::proofs::IsCommandLineLemmas::reads_transfer_form))]
fn tpdu(words: &Words<'_>, line: &mut ScriptLine) -> Option<()>
    ensures { ReadsInto (form_of Keyword.Tpdu words.now) result line.new }
{
    match words.rest() {
        Some(digits) => transfer(digits, line),
        None => None,
    }
}

/// Reads a TPDU where the last one was, if the line was one too.
#[inline(never)]
#[tactic(auto, using(crate::proofs::IsCommandLineLemmas::reads_transfer))]
fn transfer(digits: &[u8], line: &mut ScriptLine) -> Option<()>
    ensures { ReadsInto (IsTransferLine digits.now) result line.new }
{
    match line {
        ScriptLine::Tpdu(bytes) => read_bytes(digits, bytes),
        _ => first_transfer(digits, line),
    }
}

#[inline(never)]
#[tactic(auto, using(crate::proofs::IsCommandLineLemmas::reads_transfer))]
fn first_transfer(digits: &[u8], line: &mut ScriptLine) -> Option<()>
    ensures { ReadsInto (IsTransferLine digits.now) result line.new }
{
    let mut bytes = ApduBytes::new();
    read_bytes(digits, &mut bytes)?;
    *line = ScriptLine::Tpdu(bytes);
    Some(())
}

fn cut(words: &mut Words<'_>, line: &mut ScriptLine) -> Option<()>
    ensures { ReadsInto (form_of Keyword.Cut words.old) result line.new }
{
    let word = words.word()?;
    let call = number_of(word, 1, MOST_CALLS)?;
    cut_at(call, words, line)
}

/// What stands after the number of the call.
fn cut_at(call: u32, words: &mut Words<'_>, line: &mut ScriptLine) -> Option<()>
    ensures { ReadsInto (cut_form call words.old) result line.new }
{
    let Some(word) = words.word() else {
        *line = ScriptLine::Cut(CutAt {
            call,
            kept: 0,
            rest: 0xFF,
        });
        return Some(());
    };
    let kept = number_of(word, 0, 64)?;
    let word = words.word()?;
    let rest = byte_of(word)?;
    let kept = kept as u16;
    last(words, line, ScriptLine::Cut(CutAt { call, kept, rest }))
}

fn fail(words: &mut Words<'_>, line: &mut ScriptLine) -> Option<()>
    ensures { ReadsInto (form_of Keyword.Fail words.old) result line.new }
{
    let word = words.word()?;
    let call = number_of(word, 1, MOST_CALLS)?;
    let word = words.word()?;
    let rest = byte_of(word)?;
    last(words, line, ScriptLine::Fail(FailAt { call, rest }))
}

fn read_fail(words: &mut Words<'_>, line: &mut ScriptLine) -> Option<()>
    ensures { ReadsInto (form_of Keyword.ReadFail words.old) result line.new }
{
    let word = words.word()?;
    let call = number_of(word, 1, MOST_CALLS)?;
    last(words, line, ScriptLine::ReadFail(call))
}

/// Has the line in its place, where its last word was read.
pub fn last(words: &Words<'_>, line: &mut ScriptLine, value: ScriptLine) -> Option<()>
    ensures { ReadsInto (Ends value words.now) result line.new }
{
    words.end()?;
    *line = value;
    Some(())
}
