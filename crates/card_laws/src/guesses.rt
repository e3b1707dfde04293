//! What holds of the guesses in a run. The function does nothing: its contract is the law.
ghost use Rattle.card_laws.specs.GuessLaws.{GuessesTakeOne, GuessesTakeTries, CommitsLead, WrongValuesAreBounded, WrongValuesVerifyNothing, TriesAreFew};

use file_model::pins_are_guarded;

/// A value that is presented and told to be wrong, by `63CX`, takes one try for good, and X are left; no loss of power, no failure
/// of the memory and no reset gives one back. In a run without a commit that sets a key's tries to all of them, the card tells at
/// most as many values to be wrong as there were tries. So it does in a run that never presents the right value; there are no more
/// tries after it, and the key isn't verified by it.
pub fn guesses_are_bounded()
    ensures one { GuessesTakeOne }
    ensures tries { GuessesTakeTries }
    ensures commits { CommitsLead }
    ensures wrong { WrongValuesAreBounded }
    ensures unverified { WrongValuesVerifyNothing }
    ensures few { TriesAreFew }
{
    pins_are_guarded();
}
