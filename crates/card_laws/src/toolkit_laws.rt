//! What holds of the toolkit of every card that runs applets.
ghost use Rattle.card_laws.specs.ToolkitLaws.{GoodCardsHaveOrder, AnswersGoOn, CommandsLeaveRows, TellingLeavesRows, RefusalsTakeNothing, AnswersLeaveGoodCards, AnswersPassChanges, FaultsLeaveGoodCards, EventsGoOn, OneCommandIsOutstanding, ResponsesReachWhoAsked, NoEventIsLost, IdleTargetsRunInOrder};
ghost use Rattle.card_laws.specs.Lawful.{AnswersAreLawful, RefusalsChangeTriesAndMarkAlone};
ghost use Rattle.card_laws.specs.ToolkitRuns.{RunsAreEvents, RunsLeaveGoodCards, ToolkitLawsHoldOfRuns};
ghost use Rattle.card_laws.specs.Traces.{TracesAlternate, FetchesAreAnswered};

use applet_trait::turns_are_lawful;
use card_model::{answers_are_lawful, restarts_are_good};
use file_model::{
    commands_on_files_are_lawful, commands_on_trees_are_lawful, pin_commands_are_lawful,
};
use toolkit_model::{
    idle_targets_run_in_order, installations_are_accepted, installed_rows_are_sound,
    no_event_is_lost, one_command_is_outstanding, responses_reach_who_asked,
    sessions_stay_in_order, steps_leave_good,
};

/// A card that runs applets goes on by commands of the toolkit alone: a command that it carries out is one of those, which is
/// accepted and moves its rows, its session and its applets, or leaves them as they are; one that it refuses leaves them. After a
/// fault and at a reset all applets wake. Rows come and go by installing and deleting alone. So it is over all that happens, one
/// thing after the other, and the toolkit stays in order.
pub fn cards_go_on()
    ensures good { GoodCardsHaveOrder }
    ensures answers { AnswersGoOn }
    ensures rows { CommandsLeaveRows }
    ensures telling { TellingLeavesRows }
    ensures refused { RefusalsTakeNothing }
    ensures events { EventsGoOn }
{
    // These calls are laws, and do nothing.
    installations_are_accepted();
    installed_rows_are_sound();
    sessions_stay_in_order();
}

/// A good card that runs applets stays good, whatever it is sent, and what a fault leaves of it is good, too.
pub fn cards_stay_good()
    ensures answers { AnswersLeaveGoodCards }
    ensures faults { FaultsLeaveGoodCards }
{
    answers_are_lawful();
    installations_are_accepted();
    installed_rows_are_sound();
    steps_leave_good();
    turns_are_lawful();
}

/// What a good card that runs applets holds for good after each commit of a command is what the changes of its commits make of it,
/// one after the other.
pub fn answers_pass_changes()
    ensures { AnswersPassChanges }
{
    // These calls are laws, and do nothing.
    answers_are_lawful();
    commands_on_files_are_lawful();
    pin_commands_are_lawful();
    commands_on_trees_are_lawful();
    installations_are_accepted();
    installed_rows_are_sound();
    steps_leave_good();
}

/// What a good card that runs applets answers, whatever it is sent: each commit changes one file, one PIN or the rows, and leaves
/// the card sound, and the status is a known one. A refusal changes nothing at all, neither of what the card holds nor of its
/// applets and their session, unless it tells how many tries are left; then it changes at most the tries and the mark of the key
/// that the command names. So it does on a card without applets.
pub fn answers_with_applets_are_lawful()
    ensures lawful { AnswersAreLawful }
    ensures refused { RefusalsChangeTriesAndMarkAlone }
{
    answers_are_lawful();
    cards_stay_good();
}

/// Whatever happens to a card that runs applets: at most one command is outstanding, a response reaches the applet that asked, no
/// event is lost, and the idle applets that are told of an event run by their priority, before any other.
pub fn toolkit_laws_hold_of_cards()
    ensures one { OneCommandIsOutstanding }
    ensures reach { ResponsesReachWhoAsked }
    ensures events { NoEventIsLost }
    ensures order { IdleTargetsRunInOrder }
{
    cards_go_on();
    one_command_is_outstanding();
    responses_reach_who_asked();
    no_event_is_lost();
    idle_targets_run_in_order();
}

/// What happens to a card in a run of commands, resets, losses of power and memory failures is a list of such events, so that the
/// laws of the toolkit hold of every run; and a good card is good after it.
pub fn toolkit_laws_hold_of_runs()
    ensures events { RunsAreEvents }
    ensures good { RunsLeaveGoodCards }
    ensures laws { ToolkitLawsHoldOfRuns }
{
    answers_are_lawful();
    restarts_are_good();
    cards_go_on();
    cards_stay_good();
    toolkit_laws_hold_of_cards();
}

/// What a trace shows of a good card that runs applets: between two commands that were fetched a response was accepted, or all
/// applets woke, by a reset, a loss of power or a failure of the memory; and a response is accepted only where a command was
/// fetched and not answered.
pub fn traces_alternate()
    ensures alternate { TracesAlternate }
    ensures between { FetchesAreAnswered }
{
    answers_are_lawful();
    restarts_are_good();
    cards_go_on();
    cards_stay_good();
}
