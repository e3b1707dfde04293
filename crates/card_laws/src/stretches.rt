//! What is noted of the toolkit of a card, and its laws over each stretch of what happens to the card.
ghost use Rattle.card_laws.specs.Acting.{AppletsActInTurn, TurnsTell, AppletsActAtEachEvent};
ghost use Rattle.card_laws.specs.Announcing.{AnswersTellWhatWaits};
ghost use Rattle.card_laws.specs.Fetching.{FetchesGiveCommands, CarriedFetchesFetch};
ghost use Rattle.card_laws.specs.Noted.{EnvelopesGiveWhatTheyBring, EnvelopesAloneGive, CommandsAreNoted, EventsAreNoted, StretchesFollow};
ghost use Rattle.card_laws.specs.Staying.{OthersLeaveUnanswered};
ghost use Rattle.card_laws.specs.Taking.{CarriedCommandsAreTaken};
ghost use Rattle.card_laws.specs.Throughout.{LawsHoldThroughout, LawsHoldThroughoutRuns};

use crate::toolkit_laws::{cards_go_on, toolkit_laws_hold_of_cards, toolkit_laws_hold_of_runs};
use file_model::{
    commands_on_files_are_lawful, commands_on_trees_are_lawful, pin_commands_are_lawful,
};
use toolkit_model::{responses_reach_who_asked, sessions_stay_in_order};

/// What is noted of a command besides the turns of applets and the commits of rows: of an envelope that each applet that it
/// triggers was given its event, once and in their order, the applets that aren't idle too; of the others the command that was
/// fetched, the one that was answered with its answer, and that all applets woke. No other command gives an applet an event.
pub fn commands_are_noted()
    ensures envelopes { EnvelopesGiveWhatTheyBring }
    ensures alone { EnvelopesAloneGive }
    ensures commands { CommandsAreNoted }
{}

/// So it is over all that happens to a card that runs applets, and what is noted of a stretch follows what is noted before it.
pub fn events_are_noted()
    ensures events { EventsAreNoted }
    ensures follow { StretchesFollow }
{
    cards_go_on();
}

/// In each stretch of what happens to a card that runs applets: an applet is told of every answer that was accepted to a command
/// of it, once, in their order and before the stretch ends; and while no applet wakes, what was late for an applet and what
/// envelopes brought it is, in this order, what it was told of and what is late for it then. So it is in each stretch of a run.
pub fn toolkit_laws_hold_throughout()
    ensures cards { LawsHoldThroughout }
    ensures runs { LawsHoldThroughoutRuns }
{
    cards_go_on();
    responses_reach_who_asked();
    sessions_stay_in_order();
    toolkit_laws_hold_of_cards();
    toolkit_laws_hold_of_runs();
}

/// The status of each answer of a good card tells what waits to be fetched: `91XX` that a command waits which has XX bytes, or 256
/// where XX is 00, so that a FETCH of XX bytes gives it, and `9000` that none does.
pub fn answers_tell_what_waits()
    ensures { AnswersTellWhatWaits }
{
    commands_on_files_are_lawful();
    pin_commands_are_lawful();
    commands_on_trees_are_lawful();
}

/// Where a card fetches a command, the data of its answer are the bytes of that command, the status is `9000`, and the handset has
/// to answer it; and a FETCH that a good card carries out fetches the command that was outstanding.
pub fn fetches_give_commands()
    ensures gives { FetchesGiveCommands }
    ensures carried { CarriedFetchesFetch }
{
    cards_go_on();
}

/// A command that was fetched has to be answered until a TERMINAL RESPONSE is accepted or all applets wake: each other command of
/// the handset leaves it so, and none but FETCH makes one.
pub fn unanswered_commands_stay()
    ensures { OthersLeaveUnanswered }
{
    cards_go_on();
}

/// Each command of the toolkit that a good card carries out is taken, with the data that were read: so an ENVELOPE that is carried
/// out brings its event, and a TERMINAL RESPONSE answers the command that was fetched.
pub fn carried_commands_are_taken()
    ensures { CarriedCommandsAreTaken }
{}

/// At each turn that is noted the applet of its shelf is told of that stimulus and does that act, as it was then; and the applets,
/// the rows and the owners of the timers change by these turns alone, but for an applet that is installed or deleted, and for a
/// wake. A run begins with an event or with the answer to a command, and goes on with what came of each act. It is over after an
/// act that ends it, as a command that was admitted; after 32 acts its applet begins anew with what its row keeps for it.
pub fn applets_act_in_turn()
    ensures commands { AppletsActInTurn }
    ensures turns { TurnsTell }
{}

/// So it is over all that happens to a card that runs applets: from one event to the next its applets change by the turns that are
/// noted alone.
pub fn applets_act_at_each_event()
    ensures { AppletsActAtEachEvent }
{
    cards_go_on();
}
