//! What holds of every card and command. The functions do nothing: each one's contract is the law.
ghost use Rattle.run_steps.specs.Le.{OthersDontLookAtLe, AnswersAreCutToLe, BareBytesAreRead, AnswersKeepToLe};
ghost use Rattle.run_steps.specs.Linked.{LinkChangesNoAnswer};
ghost use Rattle.run_steps.specs.Stepped.{LinkChangesNoStep, CountsSeeNoBytes};

use card_laws::answers_with_applets_are_lawful;
use card_model::answers_are_lawful;

/// No command but READ BINARY, READ RECORD, FETCH and MANAGE CHANNEL with P1 00 looks at Le: Le cuts the data of its answer, and does
/// no more. No answer has more data than Le lets it have.
pub fn le_cuts_alone()
    ensures commands { OthersDontLookAtLe }
    ensures answers { AnswersAreCutToLe }
    ensures bare { BareBytesAreRead }
    ensures most { AnswersKeepToLe }
{}

/// For every good card and each command that the link carries, the card is left as by its own answer to the command, and the terminal
/// has the data and the status of that answer.
pub fn link_changes_no_answer()
    ensures { LinkChangesNoAnswer }
{
    answers_are_lawful();
    answers_with_applets_are_lawful();
}

/// In a run, for every good card and each command that the link carries: each step that the card takes by what the link passes is one
/// that it takes by the command itself, be it that it answers, that the memory fails, that power is lost or that there is none. The
/// counts of the memory say the same of both.
pub fn link_changes_no_step()
    ensures steps { LinkChangesNoStep }
    ensures counts { CountsSeeNoBytes }
{
    link_changes_no_answer();
}
