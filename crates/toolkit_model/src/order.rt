//! In which order applets are triggered.
ghost use Rattle.std.specs.Prelude.{◌≡◌, ℕ, List, filter};
ghost use Rattle.card_state.specs.Persistent.{Registration};
ghost use Rattle.toolkit_commands.specs.declared.envelopes.Envelope.{Envelope};
ghost use Rattle.toolkit_model.specs.Orderly.{asks};
ghost use Rattle.toolkit_model.specs.Order.{trigger_order, targets};
ghost use Rattle.toolkit_model.specs.Passing.{ToolkitState, before};
ghost use Rattle.toolkit_model.specs.Driving.{is_idle, driven};
ghost use Rattle.toolkit_model.specs.Commands.{registered_told, triggered_by, triggered, enveloped};
ghost use Rattle.toolkit_model.specs.Steps.{AreRows};
ghost use Rattle.toolkit_model.specs.Orders.{IsTriggerOrder};
ghost use Rattle.toolkit_model.specs.OrderlySessions.{IsInOrder};
ghost use Rattle.toolkit_model.specs.Begun.{begun};

/// Each row that is registered for an event stands in the order of its triggers once, and no other; an earlier one has a
/// smaller priority number, or the same and was registered later.
pub fn triggers_are_in_order()
    ensures { (rows : List Registration) (code : ℕ) → AreRows rows
        → IsTriggerOrder rows code (trigger_order rows code) }
{}

/// An event makes the applets run that are idle, each once and in the order of its targets, before any other runs: those that an
/// envelope triggers, and those that are told of an event of the card's own. What comes after is driving.
pub fn idle_targets_run_in_order()
    ensures by_envelope { (envelope : Envelope) (state : ToolkitState) → IsInOrder state
        → begun (triggered envelope state).log
        ≡ filter (is_idle (asks state.session)) (triggered_by envelope state).shelves }
    ensures by_card { (code : ℕ) (body : List ℕ) (state : ToolkitState) → IsInOrder state
        → begun (registered_told code body state).log
        ≡ filter (is_idle (asks state.session)) (targets state.rows code) }
    ensures before_driving { (envelope : Envelope) (state : ToolkitState)
        → enveloped envelope state ≡ before (triggered envelope state) driven }
{}
