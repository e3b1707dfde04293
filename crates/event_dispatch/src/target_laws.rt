//! Why the order of triggers is no choice.
ghost use Rattle.event_dispatch.specs.Targets.{StandInOneOrder};

/// The rows that an event triggers stand in their order in one way alone: by priority, and where that is the same the newest first.
pub fn targets_stand_in_one_order()
    ensures { StandInOneOrder }
{}
