//! The command that is outstanding.
ghost use Rattle.std.specs.Prelude.{◌≡◌, ◌==◌, false, length, if◌then◌else◌, Some, None};
ghost use Rattle.std.specs.List.{list_any};
ghost use Rattle.toolkit_commands.specs.Table.{details_of as details_of_command};
ghost use Rattle.toolkit_model.specs.Orderly.{CanBeSent, sent_by};
ghost use Rattle.toolkit_model.specs.Commands.{command_bytes, as_fetched};
ghost use Rattle.event_dispatch.specs.WaitingCommands.{command_of};
ghost use Rattle.proactive_handler.specs.Spelled.{IsSpelled, shelf_of};

use std::marker::Model;
use toolkit_commands::{Details, Proactive, details_of, spell};
use uicc_types::{Answer, Full, Octets, Shelf, StatusWord};

/// A command that the handset was told of and has not answered yet. It is kept as it is spelled, with its details.
#[derive(Drop)]
pub(crate) struct Outstanding {
    owner: Option<Shelf>,
    details: Details,
    bytes: Octets,
    is_fetched: bool,
}

impl Model for Outstanding {
    ghost use Rattle.toolkit_model.specs.Sessions.{Outstanding as OutstandingState};
    ghost use Rattle.event_dispatch.specs.WaitingCommands.{command_of};
    ghost use Rattle.proactive_handler.specs.Spelled.{IsSpelled, shelf_of};

    ghost Value = { OutstandingState };

    ghost view = { λ s. record { owner = shelf_of s.owner; command = command_of s.bytes; number = s.details.number; is_fetched = s.is_fetched } };

    ghost invariant = { λ s. IsSpelled s.details s.bytes };
}

impl Outstanding {
    /// A command that can be sent, with its owner and its number.
    pub(crate) fn new(owner: Option<Shelf>, command: &Proactive, number: u8) -> Self
        requires { CanBeSent command.now }
        ensures { result
            ≡ record { owner = shelf_of owner; command = command.now; number = number; is_fetched = false } }
    {
        match spell(command, number) {
            Ok(bytes) => Outstanding {
                owner,
                details: details_of(command, number),
                bytes,
                is_fetched: false,
            },
            Err(_) => unreachable!(),
        }
    }

    /// A command that is spelled already, with its owner and the details that the bytes have.
    pub(crate) fn spelled(owner: Option<Shelf>, details: Details, bytes: Octets) -> Self
        requires { IsSpelled details bytes }
        ensures { result ≡ record {
          owner = shelf_of owner;
          command = command_of bytes;
          number = details.number;
          is_fetched = false;
        } }
    {
        Outstanding {
            owner,
            details,
            bytes,
            is_fetched: false,
        }
    }

    /// The shelf of the applet that sent it; none where the card itself did.
    pub(crate) fn owner(&self) -> Option<Shelf>
        ensures { shelf_of result ≡ self.now.owner }
    {
        self.owner
    }

    /// Whether the applet on this shelf sent it.
    pub(crate) fn is_of(&self, shelf: Shelf) -> bool
        ensures { result ≡ list_any (λ sent. sent.shelf == shelf.0) (sent_by self.now.owner self.now.command) }
    {
        match self.owner {
            Some(owner) => owner.0 == shelf.0,
            None => false,
        }
    }

    /// How many bytes there are to fetch, where the handset didn't fetch them yet.
    pub(crate) fn unfetched(&self) -> Option<u8>
        ensures { result ≡ (if self.now.is_fetched then None else Some (length (command_bytes self.now))) }
    {
        if self.is_fetched {
            None
        } else {
            Some(self.bytes.as_slice().len() as u8)
        }
    }

    /// What a response has to name, where the handset fetched the command.
    pub(crate) fn fetched(&self) -> Option<Details>
        ensures { result ≡ (if self.now.is_fetched
            then Some (details_of_command self.now.command self.now.number) else None) }
    {
        if self.is_fetched {
            Some(self.details)
        } else {
            None
        }
    }

    /// Answers its bytes, and is fetched then.
    pub(crate) fn fetch(&mut self, answer: &mut Answer)
        ensures body { answer.new.body ≡ command_bytes self.old }
        ensures status { answer.new.status ≡ StatusWord.DONE }
        ensures state { self.new ≡ as_fetched self.old }
    {
        answer.body.clear();
        match answer.body.append(self.bytes.as_slice()) {
            Ok(()) => {}
            Err(Full) => unreachable!(),
        }
        answer.status = StatusWord::DONE;
        self.is_fetched = true;
    }
}
