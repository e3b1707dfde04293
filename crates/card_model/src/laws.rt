//! What holds of every card, command and run. The functions do nothing: each one's contract is the law.
ghost use Rattle.card_model.specs.Laws.{RestartsAreGood, CountsJoin, CallsAreCounted, PlansAreCounted, PlansAreSetInOrder, PlainAnswersAreLawful, CommandsAreLawful, PlainRefusalsChangeTriesAndMarkAlone, AnswersNeverFail, PlainFaultsLeaveGoodCards};

use file_model::{
    commands_on_files_are_lawful, commands_on_trees_are_lawful, pin_commands_are_lawful,
};

/// A reset leaves a good card good.
pub fn restarts_are_good()
    ensures { RestartsAreGood }
{}

/// What the device's counts say of a run: they say it of a call that had its causes, of a stretch with a plan that was set before it
/// and taken back after it, and of two stretches one after the other.
pub fn runs_are_counted()
    ensures calls { CallsAreCounted }
    ensures plans { PlansAreCounted }
    ensures join { CountsJoin }
{}

/// The plans that the steps of a run set are those of its stretches, one after the other.
pub fn plans_are_set_in_order()
    ensures { PlansAreSetInOrder }
{}

/// What a good card answers that runs no applets, whatever it is sent: it stays good, each commit changes one thing and leaves
/// the card sound, and the status is a known one. A refusal changes nothing at all, unless it tells how many tries are left; then
/// it changes at most the tries and the mark of the key that the command names. What a fault leaves of a good card is a good
/// card. No status tells of a failing memory, also where applets run. There a command that is none of the toolkit's is lawful, too,
/// before the applets are told of it.
pub fn answers_are_lawful()
    ensures lawful { PlainAnswersAreLawful }
    ensures commands { CommandsAreLawful }
    ensures refused { PlainRefusalsChangeTriesAndMarkAlone }
    ensures never_failed { AnswersNeverFail }
    ensures faults { PlainFaultsLeaveGoodCards }
{
    commands_on_files_are_lawful();
    pin_commands_are_lawful();
    commands_on_trees_are_lawful();
}
