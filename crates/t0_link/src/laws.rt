//! What holds of the link over any card. The function does nothing: its contract is the law.
ghost use Rattle.std.specs.Prelude.{IsTrue, Option};
ghost use Rattle.uicc_types.specs.declared.answers.Answer.{Answer};
ghost use Rattle.apdu_form.specs.Model.{Apdu};
ghost use Rattle.t0_link.specs.Carrying.{command_answer, is_carried};
ghost use Rattle.t0_link.specs.Passing.{GivesAnswer, passed_apdu};

/// A command that the link carries is passed to the card as one APDU, whatever the link keeps, and the terminal has the status and the
/// data of the card's answer to that, cut to Le, for each answer of at most 256 bytes whose SW1 isn't 61.
#[tactic(auto, using(crate::proofs::CommandAnswerLemmas::carried_gives))]
pub fn commands_have_the_answer_of_the_card()
    ensures { (kept : Option Answer) (command : Apdu) → IsTrue (is_carried command)
        → GivesAnswer (passed_apdu command) command.expected (command_answer kept command) }
{}
