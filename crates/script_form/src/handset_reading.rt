//! Script lines that tell what happens at a handset or a terminal's channels, read.
ghost use Rattle.std.specs.Prelude.{◌≡◌};
ghost use Rattle.script_form.specs.Forms.{IsTyping, form_of, network_form, user_form};
ghost use Rattle.script_form.specs.Reads.{Reads, ReadsInto};
ghost use Rattle.script_form.specs.Values.{IsHex};

use crate::cursor::Words;
use crate::keywords::{Keyword, NetworkAct, UserAct, network_act_of, user_act_of};
use crate::lines::ScriptLine;
use crate::reading::last;
use crate::values::{bytes_of, dialled_of, number_of, typed_of};
use uicc_types::Octets;

/// The most bytes of a location.
const LONGEST_PLACE: usize = 32;

/// The most channels of a terminal.
const MOST_CHANNELS: u32 = 7;

/// The most bytes that the far end of a channel sends back at once.
const MOST_ECHOED: u32 = 4_096;

/// The largest number of nine digits.
const MOST_SECONDS: u32 = 999_999_999;

/// What the user does.
pub fn user(words: &mut Words<'_>, line: &mut ScriptLine) -> Option<()>
    ensures { ReadsInto (form_of Keyword.User words.old) result line.new }
{
    let word = words.word()?;
    let act = user_act_of(word)?;
    user_line(act, words, line)
}

/// What stands after the word for what the user does.
fn user_line(act: UserAct, words: &mut Words<'_>, line: &mut ScriptLine) -> Option<()>
    ensures { ReadsInto (user_form act words.old) result line.new }
{
    match act {
        UserAct::Confirm => last(words, line, ScriptLine::UserOk),
        UserAct::End => last(words, line, ScriptLine::UserEnd),
        UserAct::Back => last(words, line, ScriptLine::UserBack),
        UserAct::Wait => last(words, line, ScriptLine::UserNone),
        UserAct::Enter => typing(words, line),
        UserAct::Pick => pick(words, line),
        UserAct::Press => last(words, line, ScriptLine::UserPress),
        UserAct::Idle => last(words, line, ScriptLine::UserIdle),
        UserAct::Dial => dial(words, line),
    }
}

/// A text is all that is left of the line, with its spaces.
fn typing(words: &Words<'_>, line: &mut ScriptLine) -> Option<()>
    ensures { ReadsInto (IsTyping words.now) result line.new }
{
    let rest = words.rest()?;
    let text = typed_of(rest)?;
    *line = ScriptLine::UserType(text);
    Some(())
}

fn pick(words: &mut Words<'_>, line: &mut ScriptLine) -> Option<()>
    ensures { ReadsInto (user_form UserAct.Pick words.old) result line.new }
{
    let word = words.word()?;
    let id = number_of(word, 1, 255)?;
    let id = id as u8;
    last(words, line, ScriptLine::UserPick(id))
}

fn dial(words: &mut Words<'_>, line: &mut ScriptLine) -> Option<()>
    ensures { ReadsInto (user_form UserAct.Dial words.old) result line.new }
{
    let word = words.word()?;
    let digits = dialled_of(word)?;
    last(words, line, ScriptLine::UserDial(digits))
}

/// What the network does.
pub fn network(words: &mut Words<'_>, line: &mut ScriptLine) -> Option<()>
    ensures { ReadsInto (form_of Keyword.Net words.old) result line.new }
{
    let word = words.word()?;
    let act = network_act_of(word)?;
    network_line(act, words, line)
}

/// What stands after the word for what the network does.
fn network_line(act: NetworkAct, words: &mut Words<'_>, line: &mut ScriptLine) -> Option<()>
    ensures { ReadsInto (network_form act words.old) result line.new }
{
    match act {
        NetworkAct::Place => place(words, line),
        NetworkAct::Poll => last(words, line, ScriptLine::NetPoll),
        NetworkAct::Echo => echo(words, line),
        NetworkAct::Lose => lose(words, line),
    }
}

/// One to 32 bytes, kept where any object's bytes may be.
fn place_of(word: &[u8]) -> Option<Octets>
    ensures { Reads (IsHex LONGEST_PLACE word.now) result }
{
    let bytes = bytes_of::<LONGEST_PLACE>(word)?;
    Some(Octets::from_slice(bytes.as_slice()))
}

fn place(words: &mut Words<'_>, line: &mut ScriptLine) -> Option<()>
    ensures { ReadsInto (network_form NetworkAct.Place words.old) result line.new }
{
    let word = words.word()?;
    let place = place_of(word)?;
    last(words, line, ScriptLine::NetPlace(place))
}

fn echo(words: &mut Words<'_>, line: &mut ScriptLine) -> Option<()>
    ensures { ReadsInto (network_form NetworkAct.Echo words.old) result line.new }
{
    let word = words.word()?;
    let channel = number_of(word, 1, MOST_CHANNELS)?;
    let word = words.word()?;
    let count = number_of(word, 1, MOST_ECHOED)?;
    let channel = channel as u8;
    let count = count as u16;
    last(words, line, ScriptLine::Echo { channel, count })
}

fn lose(words: &mut Words<'_>, line: &mut ScriptLine) -> Option<()>
    ensures { ReadsInto (network_form NetworkAct.Lose words.old) result line.new }
{
    let word = words.word()?;
    let channel = number_of(word, 1, MOST_CHANNELS)?;
    let channel = channel as u8;
    last(words, line, ScriptLine::Lose(channel))
}

/// A proactive command for a terminal.
pub fn proactive(words: &mut Words<'_>, line: &mut ScriptLine) -> Option<()>
    ensures { ReadsInto (form_of Keyword.Cmd words.old) result line.new }
{
    let word = words.word()?;
    let bytes = bytes_of(word)?;
    last(words, line, ScriptLine::Cmd(bytes))
}

pub fn time(words: &mut Words<'_>, line: &mut ScriptLine) -> Option<()>
    ensures { ReadsInto (form_of Keyword.Time words.old) result line.new }
{
    let word = words.word()?;
    let seconds = number_of(word, 0, MOST_SECONDS)?;
    last(words, line, ScriptLine::Time(seconds))
}
