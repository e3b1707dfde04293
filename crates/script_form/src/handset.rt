//! What a script says to a handset, and what the handset notes in the trace.
ghost use Rattle.std.specs.Prelude.{◌≡◌};
ghost use Rattle.script_form.specs.Handset.{handset_line};

use crate::lines::ScriptLine;
use uicc_types::Octets;

/// What happens at a handset: the user, the network and the clock do something, or the card is reset.
#[derive(Debug, Drop)]
pub enum HandsetLine {
    /// The user has read a text.
    UserOk,
    /// The user ends the card's session.
    UserEnd,
    /// The user goes back.
    UserBack,
    /// The user does nothing for a long time.
    UserNone,
    /// The user types a text of at most 30 bytes from 20 to 7E.
    UserType(Octets),
    /// The user picks the item with this identifier, from 1 to 255, of a choice or of the card's menu.
    UserPick(u8),
    /// The user presses a key.
    UserPress,
    /// The screen becomes idle.
    UserIdle,
    /// The user dials 1 to 20 decimal digits, which stand here as they are written.
    UserDial(Octets),
    /// The network tells a new location, of 1 to 32 bytes.
    NetPlace(Octets),
    /// The handset is to ask the card whether it wants anything.
    NetPoll,
    /// So many seconds pass.
    Time(u32),
    /// The card is reset.
    Reset,
}

/// What the handset shows to its user, or what became of what the user did.
#[derive(Debug, Drop)]
pub enum Note {
    /// A text stands on the screen until the user clears it.
    Text(Octets),
    /// The user is asked for a key or a text.
    Ask(Octets),
    /// The user is asked to choose among so many items.
    Choose(u8),
    /// The card's menu has so many items.
    Menu(u8),
    /// This tone is played.
    Tone(u8),
    /// A text stands on the idle screen.
    Idle(Octets),
    /// The call is set up.
    Call,
    /// The card doesn't allow the call.
    Barred,
    /// The card was busy, and what was reported to it is given up.
    Busy,
}

/// What happens at a handset by this line of a script; None exactly where the line is of another kind.
pub fn handset_line(line: &ScriptLine) -> Option<HandsetLine>
    ensures { result ≡ handset_line line.now }
{
    match line {
        ScriptLine::UserOk => Some(HandsetLine::UserOk),
        ScriptLine::UserEnd => Some(HandsetLine::UserEnd),
        ScriptLine::UserBack => Some(HandsetLine::UserBack),
        ScriptLine::UserNone => Some(HandsetLine::UserNone),
        ScriptLine::UserType(text) => Some(HandsetLine::UserType(text.copy())),
        ScriptLine::UserPick(id) => Some(HandsetLine::UserPick(*id)),
        ScriptLine::UserPress => Some(HandsetLine::UserPress),
        ScriptLine::UserIdle => Some(HandsetLine::UserIdle),
        ScriptLine::UserDial(digits) => Some(HandsetLine::UserDial(digits.copy())),
        ScriptLine::NetPlace(place) => Some(HandsetLine::NetPlace(place.copy())),
        ScriptLine::NetPoll => Some(HandsetLine::NetPoll),
        ScriptLine::Time(seconds) => Some(HandsetLine::Time(*seconds)),
        ScriptLine::Reset => Some(HandsetLine::Reset),
        ScriptLine::Passed
        | ScriptLine::Start
        | ScriptLine::Df { .. }
        | ScriptLine::Transparent { .. }
        | ScriptLine::Linear { .. }
        | ScriptLine::Cyclic { .. }
        | ScriptLine::Fill { .. }
        | ScriptLine::Rec { .. }
        | ScriptLine::Pin { .. }
        | ScriptLine::Row { .. }
        | ScriptLine::Apdu(_)
        | ScriptLine::Tpdu(_)
        | ScriptLine::Cut(_)
        | ScriptLine::Fail(_)
        | ScriptLine::ReadFail(_)
        | ScriptLine::Cmd(_)
        | ScriptLine::Echo { .. }
        | ScriptLine::Lose(_) => None,
    }
}
