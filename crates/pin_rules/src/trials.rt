//! What refuses a PIN command, in the written order, and what it does where nothing refuses it.
ghost use Rattle.std.specs.Prelude.{◌≡◌, ◌≤◌, ◌==◌, true, drop, length, IfOk, IfErr, Result};
ghost use Rattle.uicc_types.specs.declared.answers.StatusWord.{StatusWord};
ghost use Rattle.card_state.specs.Persistent.{Pin};
ghost use Rattle.card_state.specs.States.{pins_of};
ghost use Rattle.file_model.specs.Commands.{pin_outcome};
ghost use Rattle.file_model.specs.Outcomes.{PinOutcome};
ghost use Rattle.file_model.specs.Pins.{is_users_key, is_pin_key, pin_addressed, pin_verified, pin_changed, pin_disabled, pin_enabled, pin_unblocked};
ghost use Rattle.pin_rules.specs.Trials.{IsHeld, IsTrial, Means, SetsFields, tested_with};

use crate::slots::{Held, find_pin};
use apdu_form::Command;
use card_commits::PinChange;
use card_state::Loaded;
use card_state::sizes::TRIES;
use file_model::PinCommand;
use uicc_types::keys::{ADM_1, PIN_1, PIN_2};
use uicc_types::{Pin8, StatusWord};

/// What a PIN command does where nothing refuses it.
#[derive(Clone, Copy)]
pub enum Trial {
    /// It tells how many tries are left.
    Tell(u8),
    /// It presents a value against the PIN. A right one brings this change, and verifies the key or not.
    Present(Held, PinChange, bool),
    /// It presents a value against the UNBLOCK PIN. A right one brings this new value of the PIN.
    Unblock(Held, Pin8),
}

// The keys that the user's commands are for: the administrator's can't be disabled, enabled or unblocked.
fn is_users_key(key: u8) -> bool
    ensures { result ≡ is_users_key key }
{
    key == PIN_1 || key == PIN_2
}

fn is_pin_key(key: u8) -> bool
    ensures { result ≡ is_pin_key key }
{
    is_users_key(key) || key == ADM_1
}

// The new value after the one that is presented.
fn new_value(command: &Command<'_>) -> Pin8
    requires { length command.now.body ≡ 16 }
    ensures { result.0 ≡ drop 8 command.now.body }
{
    let mut bytes = [0; 8];
    bytes.copy_from_slice(&command.body[8..]);
    Pin8(bytes)
}

// The PIN that a command is for. Refused are, in this order, wrong P1, a wrong length, another key and one that isn't there.
#[tactic(auto, unfolding(file_model::specs::Chains::refused_if, file_model::specs::Chains::given))]
fn addressed(
    loaded: &Loaded,
    command: &Command<'_>,
    has_length: bool,
    has_key: bool,
) -> Result<Held, StatusWord>
    ensures means { (next : Pin → Result PinOutcome StatusWord)
        → pin_addressed (pins_of loaded.now) command.now has_length has_key next ≡ tested_with result next }
    ensures held { IfOk result (IsHeld loaded.now) }
    ensures key { IfOk result (λ held. held.pin.key ≡ command.now.p2) }
    ensures length { IfOk result (λ held. has_length ≡ true) }
    ensures usual { IfErr result (λ status. 0x6700 ≤ status.0) }
{
    if command.p1 != 0 {
        return Err(StatusWord::WRONG_PARAMETERS);
    }
    if !has_length {
        return Err(StatusWord::WRONG_LENGTH);
    }
    if !has_key {
        return Err(StatusWord::REFERENCE_NOT_FOUND);
    }
    find_pin(loaded, command.p2).ok_or(StatusWord::REFERENCE_NOT_FOUND)
}

// VERIFY PIN (11.1.9): without data it tells how many tries are left.
#[tactic(auto, unfolding(file_model::specs::Pins::pin_verified, file_model::specs::Pins::pin_presented, file_model::specs::Chains::refused_if, card_commits::specs::Pins::changed_pin))]
fn to_verify(loaded: &Loaded, command: &Command<'_>) -> Result<Trial, StatusWord>
    ensures means { Means pin_verified loaded.now command.now result }
    ensures lawful { IfOk result (IsTrial loaded.now command.now) }
    ensures sets { IfOk result (SetsFields PinCommand.Verify command.now.p2) }
    ensures usual { IfErr result (λ status. 0x6700 ≤ status.0) }
{
    let length = command.body.len();
    let held = addressed(
        loaded,
        command,
        length == 0 || length == 8,
        is_pin_key(command.p2),
    )?;
    if held.pin.tries == 0 {
        return Err(StatusWord::PIN_BLOCKED);
    }
    if length == 0 {
        return Ok(Trial::Tell(held.pin.tries));
    }
    if !held.pin.enabled {
        return Err(StatusWord::PIN_DISABLED);
    }
    Ok(Trial::Present(held, PinChange::Tries(TRIES), true))
}

// CHANGE PIN (11.1.10).
#[tactic(auto, unfolding(file_model::specs::Pins::pin_changed, file_model::specs::Pins::pin_presented, file_model::specs::Chains::refused_if, card_commits::specs::Pins::changed_pin))]
fn to_change(loaded: &Loaded, command: &Command<'_>) -> Result<Trial, StatusWord>
    ensures means { Means pin_changed loaded.now command.now result }
    ensures lawful { IfOk result (IsTrial loaded.now command.now) }
    ensures sets { IfOk result (SetsFields PinCommand.Change command.now.p2) }
    ensures usual { IfErr result (λ status. 0x6700 ≤ status.0) }
{
    let has_length = command.body.len() == 16;
    let held = addressed(loaded, command, has_length, is_pin_key(command.p2))?;
    if held.pin.tries == 0 {
        return Err(StatusWord::PIN_BLOCKED);
    }
    if !held.pin.enabled {
        return Err(StatusWord::PIN_DISABLED);
    }
    let change = PinChange::Value(new_value(command));
    Ok(Trial::Present(held, change, true))
}

// DISABLE PIN (11.1.11): the key stays verified if it was.
#[tactic(auto, unfolding(file_model::specs::Pins::pin_disabled, file_model::specs::Pins::pin_presented, file_model::specs::Chains::refused_if, card_commits::specs::Pins::changed_pin))]
fn to_disable(loaded: &Loaded, command: &Command<'_>) -> Result<Trial, StatusWord>
    ensures means { Means pin_disabled loaded.now command.now result }
    ensures lawful { IfOk result (IsTrial loaded.now command.now) }
    ensures sets { IfOk result (SetsFields PinCommand.Disable command.now.p2) }
    ensures usual { IfErr result (λ status. 0x6700 ≤ status.0) }
{
    let has_length = command.body.len() == 8;
    let held = addressed(loaded, command, has_length, is_users_key(command.p2))?;
    if held.pin.tries == 0 {
        return Err(StatusWord::PIN_BLOCKED);
    }
    if !held.pin.enabled {
        return Err(StatusWord::PIN_DISABLED);
    }
    Ok(Trial::Present(held, PinChange::Enabled(false), false))
}

// ENABLE PIN (11.1.12).
#[tactic(auto, unfolding(file_model::specs::Pins::pin_enabled, file_model::specs::Pins::pin_presented, file_model::specs::Chains::refused_if, card_commits::specs::Pins::changed_pin))]
fn to_enable(loaded: &Loaded, command: &Command<'_>) -> Result<Trial, StatusWord>
    ensures means { Means pin_enabled loaded.now command.now result }
    ensures lawful { IfOk result (IsTrial loaded.now command.now) }
    ensures sets { IfOk result (SetsFields PinCommand.Enable command.now.p2) }
    ensures usual { IfErr result (λ status. 0x6700 ≤ status.0) }
{
    let has_length = command.body.len() == 8;
    let held = addressed(loaded, command, has_length, is_users_key(command.p2))?;
    if held.pin.tries == 0 {
        return Err(StatusWord::PIN_BLOCKED);
    }
    if held.pin.enabled {
        return Err(StatusWord::CONDITIONS_NOT_SATISFIED);
    }
    Ok(Trial::Present(held, PinChange::Enabled(true), true))
}

// UNBLOCK PIN (11.1.13): without data it tells how many tries of the UNBLOCK PIN are left.
#[tactic(auto, unfolding(file_model::specs::Pins::pin_unblocked, file_model::specs::Pins::unblock_presented, file_model::specs::Chains::refused_if, card_commits::specs::Pins::changed_pin))]
fn to_unblock(loaded: &Loaded, command: &Command<'_>) -> Result<Trial, StatusWord>
    ensures means { Means pin_unblocked loaded.now command.now result }
    ensures lawful { IfOk result (IsTrial loaded.now command.now) }
    ensures sets { IfOk result (SetsFields PinCommand.Unblock command.now.p2) }
    ensures usual { IfErr result (λ status. 0x6700 ≤ status.0) }
{
    let length = command.body.len();
    let held = addressed(
        loaded,
        command,
        length == 0 || length == 16,
        is_users_key(command.p2),
    )?;
    if held.pin.unblock_tries == 0 {
        return Err(StatusWord::PIN_BLOCKED);
    }
    if length == 0 {
        return Ok(Trial::Tell(held.pin.unblock_tries));
    }
    Ok(Trial::Unblock(held, new_value(command)))
}

/// What refuses a command of the five, or what it does.
pub fn trial_of(
    pin: PinCommand,
    loaded: &Loaded,
    command: &Command<'_>,
) -> Result<Trial, StatusWord>
    ensures means { Means (pin_outcome pin) loaded.now command.now result }
    ensures lawful { IfOk result (IsTrial loaded.now command.now) }
    ensures sets { IfOk result (SetsFields pin command.now.p2) }
    ensures usual { IfErr result (λ status. 0x6700 ≤ status.0) }
{
    match pin {
        PinCommand::Verify => to_verify(loaded, command),
        PinCommand::Change => to_change(loaded, command),
        PinCommand::Disable => to_disable(loaded, command),
        PinCommand::Enable => to_enable(loaded, command),
        PinCommand::Unblock => to_unblock(loaded, command),
    }
}
