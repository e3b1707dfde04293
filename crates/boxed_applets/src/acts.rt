//! What applets do. An act is large: each is made in a function of its own, so that a step pays for the one that it does. An applet of one's
//! own calls these by name, as docs/APPLETS.md has them.
ghost use Rattle.std.specs.Prelude.{◌≡◌, ◌≤◌, length, take};
ghost use Rattle.applet_trait.specs.Tables.{show};
ghost use Rattle.applet_trait.specs.declared.numbers.TheConstants.{START};

use applet_trait::Act;
use applet_trait::numbers::{MOST_KEPT, START};
use toolkit_commands::{Items, Proactive, TimeValue};
use uicc_types::{Octets, ShortText};

/// Nothing more. Mostly that stands there already, and then no act is made.
pub fn be_done(does: &mut Act)
    ensures { does.new ≡ Act.Done }
{
    match does {
        Act::Done => {}
        _ => forget(does),
    }
}

#[inline(never)]
fn forget(does: &mut Act)
    ensures { does.new ≡ Act.Done }
{
    *does = Act::Done;
}

/// Sends a command.
fn send(does: &mut Act, command: Proactive)
    ensures { does.new ≡ Act.Send command }
{
    *does = Act::Send(command);
}

/// Shows a text.
#[inline(never)]
pub fn show(does: &mut Act, text: &[u8])
    requires { length text.now ≤ 255 }
    ensures { does.new ≡ show text.now }
{
    let text = Octets::from_slice(text);
    send(does, Proactive::DisplayText { text });
}

/// Shows a text while nothing else goes on.
#[inline(never)]
pub fn show_when_idle(does: &mut Act, text: &[u8])
    requires { length text.now ≤ 255 }
    ensures { does.new ≡ Act.Send (Proactive.IdleText text.now) }
{
    let text = Octets::from_slice(text);
    send(does, Proactive::IdleText { text });
}

/// Asks for up to `most` characters, or digits alone.
#[inline(never)]
pub fn ask(does: &mut Act, text: &[u8], digits: bool, most: u8)
    requires { length text.now ≤ 255 }
    ensures { does.new ≡ Act.Send (Proactive.GetInput text.now digits 0 most) }
{
    let command = Proactive::GetInput {
        text: Octets::from_slice(text),
        digits,
        min: 0,
        max: most,
    };
    send(does, command);
}

/// Asks for a key.
#[inline(never)]
pub fn ask_for_key(does: &mut Act, text: &[u8])
    requires { length text.now ≤ 255 }
    ensures { does.new ≡ Act.Send (Proactive.GetInkey text.now) }
{
    let text = Octets::from_slice(text);
    send(does, Proactive::GetInkey { text });
}

/// Plays a tone.
#[inline(never)]
pub fn play(does: &mut Act, tone: u8)
    ensures { does.new ≡ Act.Send (Proactive.PlayTone tone) }
{
    send(does, Proactive::PlayTone { tone });
}

/// Asks for more time.
#[inline(never)]
pub fn ask_for_time(does: &mut Act)
    ensures { does.new ≡ Act.Send Proactive.MoreTime }
{
    send(does, Proactive::MoreTime);
}

/// Asks for information on what the handset knows.
#[inline(never)]
pub fn ask_for_information(does: &mut Act, what: u8)
    ensures { does.new ≡ Act.Send (Proactive.LocalInformation what) }
{
    send(does, Proactive::LocalInformation { what });
}

/// Asks for a reset of this mode.
#[inline(never)]
pub fn refresh(does: &mut Act, mode: u8)
    ensures { does.new ≡ Act.Send (Proactive.Refresh mode) }
{
    send(does, Proactive::Refresh { mode });
}

/// Offers items to choose from.
#[inline(never)]
pub fn offer(does: &mut Act, title: &[u8], items: Items)
    requires { length title.now ≤ 10 }
    ensures { does.new ≡ Act.Send (Proactive.SelectItem title.now items) }
{
    let title = ShortText::from_slice(title);
    send(does, Proactive::SelectItem { title, items });
}

/// Starts a timer with this value.
#[inline(never)]
pub fn start(does: &mut Act, timer: u8, value: TimeValue)
    ensures { does.new ≡ Act.Send (Proactive.TimerManagement START timer value) }
{
    let command = Proactive::TimerManagement {
        action: START,
        timer,
        value,
    };
    send(does, command);
}

/// Asks for a timer.
#[inline(never)]
pub fn take_timer(does: &mut Act)
    ensures { does.new ≡ Act.TakeTimer }
{
    *does = Act::TakeTimer;
}

/// Gives a timer back.
#[inline(never)]
pub fn free_timer(does: &mut Act, timer: u8)
    ensures { does.new ≡ Act.FreeTimer timer }
{
    *does = Act::FreeTimer(timer);
}

/// Says whether a call may be set up.
#[inline(never)]
pub fn answer(does: &mut Act, allows: bool)
    ensures { does.new ≡ Act.Answer allows }
{
    *does = Act::Answer(allows);
}

/// Asks to be told of the events of a code.
#[inline(never)]
pub fn register(does: &mut Act, code: u8)
    ensures { does.new ≡ Act.Register code }
{
    *does = Act::Register(code);
}

/// Asks to be told of them no more.
#[inline(never)]
pub fn deregister(does: &mut Act, code: u8)
    ensures { does.new ≡ Act.Deregister code }
{
    *does = Act::Deregister(code);
}

/// As much of a text as is kept.
pub fn kept_part(text: &[u8]) -> &[u8]
    ensures value { result.now ≡ take MOST_KEPT text.now }
    ensures fits { length result.now ≤ MOST_KEPT }
{
    if text.len() > MOST_KEPT {
        &text[..MOST_KEPT]
    } else {
        text
    }
}
