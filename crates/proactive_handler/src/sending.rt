//! Commands that become outstanding or wait, and triggers that come late.
ghost use Rattle.std.specs.Prelude.{◌≡◌, ◌<◌, ◌++◌, ◌∷◌, [], false, length, Some};
ghost use Rattle.toolkit_model.specs.Orderly.{CanBeSent};
ghost use Rattle.toolkit_model.specs.Running.{next_number, putting_out, sending};
ghost use Rattle.toolkit_model.specs.Driving.{front_out, announcing, trigger_for};
ghost use Rattle.toolkit_model.specs.Commands.{late_places};
ghost use Rattle.proactive_handler.specs.Spelled.{shelf_of};

use crate::outstanding::Outstanding;
use crate::session::Session;
use event_dispatch::Waiting;
use toolkit_commands::Proactive;
use uicc_types::{Octets, Shelf};

/// The number after the one of the latest command: 1 first, and again after 254.
fn next_number(number: u8) -> u8
    ensures { result ≡ next_number number }
{
    if number < 254 { number + 1 } else { 1 }
}

impl Session {
    /// A command becomes the outstanding one.
    pub(crate) fn put_out(&mut self, owner: Option<Shelf>, command: &Proactive)
        requires { CanBeSent command.now }
        ensures { self.new ≡ putting_out (shelf_of owner) command.now self.old }
    {
        let number = next_number(self.last_number);
        self.out = Some(Outstanding::new(owner, command, number));
        self.last_number = number;
    }

    /// The first command that waits becomes the outstanding one, if there is one. It is spelled already.
    pub(crate) fn put_front_out(&mut self)
        ensures { self.new ≡ front_out self.old.waiting self.old }
    {
        if self.waiting.len() > 0 {
            self.last_number = next_number(self.last_number);
            let mut bytes = Octets::new();
            let (shelf, details) = self.waiting.take_spelled(self.last_number, &mut bytes);
            self.out = Some(Outstanding::spelled(Some(shelf), details, bytes));
        }
    }

    /// A command of the card's own becomes the outstanding one, and what it tells is announced.
    pub(crate) fn put_own_out(&mut self, command: Proactive)
        requires { CanBeSent command }
        ensures { self.new ≡ putting_out None command
            (record self.old { announced = announcing command self.old.announced }) }
    {
        self.put_out(None, &command);
        self.announced.announce(command);
    }

    /// The applet on this shelf sent a command, which is admitted. Where it was resumed by the response to its command
    /// before, this one becomes outstanding at once; otherwise it goes after those that wait, of which there are at most 31.
    pub(crate) fn send(&mut self, shelf: Shelf, is_resumed: bool, command: &Proactive)
        requires sendable { CanBeSent command.now }
        requires room { is_resumed ≡ false → length self.old.waiting < Waiting.MOST }
        ensures { self.new ≡ sending shelf.0 is_resumed (Some command.now) self.old }
    {
        if is_resumed {
            self.put_out(Some(shelf), command);
        } else {
            self.waiting.push(shelf, command);
        }
    }

    /// An event came for the applet on this shelf while it waits for an answer. It goes after those that came late before,
    /// of which there are at most 15.
    pub(crate) fn keep_late(&mut self, shelf: Shelf, code: u8, body: &Octets)
        requires { length self.old.late < late_places }
        ensures { self.new ≡ record self.old { late = self.old.late ++ trigger_for code body.now shelf.0 ∷ [] } }
    {
        self.late.push(shelf, code, body);
    }
}
