//! VERIFY PIN, CHANGE PIN, DISABLE PIN, ENABLE PIN and UNBLOCK PIN.
ghost use Rattle.std.specs.Prelude.{◌≡◌, ◌≤◌, [], Err, IfErr, IfOk, IsOk, OnOk, OnErr};
ghost use Rattle.card_state.specs.Memory.{IsMounted, memory};
ghost use Rattle.card_state.specs.States.{pins_of};
ghost use Rattle.file_model.specs.Commands.{first_fields, second_fields, pin_outcome, pin_settled};
ghost use Rattle.file_model.specs.Pins.{pins_put};
ghost use Rattle.card_commits.specs.Performing.{PerformsPin, WritesAll};
ghost use Rattle.pin_rules.specs.Outcomes.{IsSettled, LeavesOneLess, IsPinRefused, IsPinCutShort, IsTried, ChangesPins, AnswersPins, pin_by_byte, settled_by_byte};
ghost use Rattle.pin_rules.specs.Trials.{IsTrial, OnlyTells, comes_to, trial_puts};

use crate::marks::{marked, tries_left};
use crate::presenting::{present_pin, present_unblock};
use crate::trials::{Trial, trial_of};
use access_rules::Verified;
use apdu_form::Command;
use card_commits::tables_tell_states;
use card_state::Loaded;
use file_model::PinCommand;
use store_form::{Store, StoreFault};
use uicc_types::{Answer, StatusWord};

// Does what a command does where nothing refuses it, and answers the status that it ends with.
fn carry_out<S: Store>(
    store: &mut S,
    loaded: &mut Loaded,
    verified: &mut Verified,
    command: &Command<'_>,
    tried: Result<Trial, StatusWord>,
) -> Result<StatusWord, StoreFault>
    requires mounted { IsMounted (memory S.Store store.old loaded.old) }
    requires trial { IfOk tried (IsTrial loaded.old command.now) }
    requires usual { IfErr tried (λ status. 0x6700 ≤ status.0) }
    ensures tried { IsTried (comes_to (pins_of loaded.old) verified.old command.now tried)
        (memory S.Store store.old loaded.old) (memory S.Store store.new loaded.new) verified.old verified.new result }
    ensures writes { WritesAll result (memory S.Store store.old loaded.old) (memory S.Store store.new loaded.new)
        (λ state. trial_puts tried (comes_to (pins_of loaded.old) verified.old command.now tried).passed) }
    ensures still { IfOk tried OnlyTells → IsOk result × (store.new ≡ store.old) × (loaded.new ≡ loaded.old) }
    ensures ends { ChangesPins (memory S.Store store.old loaded.old) (memory S.Store store.new loaded.new) result }
{
    match tried {
        Err(status) => Ok(status),
        Ok(Trial::Tell(tries)) => Ok(tries_left(tries)),
        Ok(Trial::Present(held, change, verifies)) => {
            let right = if verifies {
                marked(*verified, held.pin.key, true)
            } else {
                *verified
            };
            let value = &command.body[..8];
            present_pin(store, loaded, verified, &held, value, change, right)
        }
        Ok(Trial::Unblock(held, new)) => {
            let value = &command.body[..8];
            present_unblock(store, loaded, verified, &held, value, new)
        }
    }
}

/// Carries out one of the five PIN commands. A value that is presented takes a try first, in a commit of its own; then it is
/// compared, and a right one brings a second commit. What refuses a command is told by the table alone, and one that commits
/// nothing doesn't touch the memory. `out` has the status, and no data ever. After a fault the table has the PINs
/// before the commit that failed, the memory those or the ones after it, the commits before it are counted, and the same keys are
/// verified as before.
pub fn named_pin_command<S: Store>(
    pin: PinCommand,
    store: &mut S,
    loaded: &mut Loaded,
    verified: &mut Verified,
    command: &Command<'_>,
    out: &mut Answer,
) -> Result<(), StoreFault>
    requires mounted { IsMounted (memory S.Store store.old loaded.old) }
    ensures comes { OnOk result (IsSettled (pin_settled pin (pins_of loaded.old) verified.old command.now)
        (memory S.Store store.old loaded.old) (memory S.Store store.new loaded.new) out.new.status verified.new) }
    ensures performs { PerformsPin result (memory S.Store store.old loaded.old) (memory S.Store store.new loaded.new)
        out.new verified.new (λ state. pin_settled pin state.pins verified.old command.now) }
    ensures writes { WritesAll result (memory S.Store store.old loaded.old) (memory S.Store store.new loaded.new) (λ state. pins_put (first_fields pin)
        (second_fields pin) command.now.p2 (pin_settled pin state.pins verified.old command.now).passed) }
    ensures guessed { OnOk result (LeavesOneLess pin command.now out.new.status
        (pins_of loaded.old) (pins_of loaded.new)) }
    ensures refused { (status : StatusWord) → pin_outcome pin (pins_of loaded.old) verified.old command.now ≡ Err status
        → IsOk result × IsPinRefused status out.new verified.old verified.new × (loaded.new ≡ loaded.old) }
    ensures still { (pin_settled pin (pins_of loaded.old) verified.old command.now).passed ≡ []
        → IsOk result × (store.new ≡ store.old) × (loaded.new ≡ loaded.old) }
    ensures stops { OnErr result (IsPinCutShort (pin_settled pin (pins_of loaded.old) verified.old command.now)
        (memory S.Store store.old loaded.old) (memory S.Store store.new loaded.new) verified.old verified.new) }
    ensures ends { AnswersPins (memory S.Store store.old loaded.old) (memory S.Store store.new loaded.new)
        out.new result }
{
    // This call is a law, and does nothing.
    tables_tell_states();
    out.body.clear();
    let tried = trial_of(pin, loaded, command);
    out.status = carry_out(store, loaded, verified, command, tried)?;
    Ok(())
}

// The command that an instruction byte names.
fn pin_named(ins: u8) -> PinCommand
    ensures { result ≡ pin_by_byte ins }
{
    match ins {
        0x20 => PinCommand::Verify,
        0x24 => PinCommand::Change,
        0x26 => PinCommand::Disable,
        0x28 => PinCommand::Enable,
        _ => PinCommand::Unblock,
    }
}

/// The same of the command that its instruction byte names; each byte that is none of the other four's stands for UNBLOCK PIN.
pub fn pin_command<S: Store>(
    store: &mut S,
    loaded: &mut Loaded,
    verified: &mut Verified,
    command: &Command<'_>,
    out: &mut Answer,
) -> Result<(), StoreFault>
    requires mounted { IsMounted (memory S.Store store.old loaded.old) }
    ensures comes { OnOk result (IsSettled (settled_by_byte (pins_of loaded.old) verified.old command.now)
        (memory S.Store store.old loaded.old) (memory S.Store store.new loaded.new) out.new.status verified.new) }
    ensures performs { PerformsPin result (memory S.Store store.old loaded.old) (memory S.Store store.new loaded.new)
        out.new verified.new (λ state. settled_by_byte state.pins verified.old command.now) }
    ensures writes { WritesAll result (memory S.Store store.old loaded.old) (memory S.Store store.new loaded.new)
        (λ state. pins_put (first_fields (pin_by_byte command.now.ins)) (second_fields (pin_by_byte command.now.ins))
        command.now.p2 (settled_by_byte state.pins verified.old command.now).passed) }
    ensures guessed { OnOk result (LeavesOneLess (pin_by_byte command.now.ins) command.now out.new.status
        (pins_of loaded.old) (pins_of loaded.new)) }
    ensures refused { (status : StatusWord)
        → pin_outcome (pin_by_byte command.now.ins) (pins_of loaded.old) verified.old command.now ≡ Err status
        → IsOk result × IsPinRefused status out.new verified.old verified.new × (loaded.new ≡ loaded.old) }
    ensures still { (settled_by_byte (pins_of loaded.old) verified.old command.now).passed ≡ []
        → IsOk result × (store.new ≡ store.old) × (loaded.new ≡ loaded.old) }
    ensures stops { OnErr result (IsPinCutShort (settled_by_byte (pins_of loaded.old) verified.old command.now)
        (memory S.Store store.old loaded.old) (memory S.Store store.new loaded.new) verified.old verified.new) }
    ensures ends { AnswersPins (memory S.Store store.old loaded.old) (memory S.Store store.new loaded.new)
        out.new result }
{
    let pin = pin_named(command.ins);
    named_pin_command(pin, store, loaded, verified, command, out)
}
