//! What holds of every turn of an applet.
ghost use Rattle.applet_trait.specs.Minds.{AppletState, kept_after};
ghost use Rattle.applet_trait.specs.Turns.{act};
ghost use Rattle.applet_trait.specs.Laws.{IsLawful, GivesTimer, IsProperAct};
ghost use Rattle.applet_trait.specs.declared.stimuli.Stimulus.{Stimulus};

/// Whatever the kind and the stimulus, a turn keeps the kind, keeps the bytes but for those that went into the card's
/// memory, asks for bytes by Keep alone, comes back to phase 0 where it is Done, and sends what can be spelled.
pub fn turns_are_lawful()
    ensures { (mind : AppletState) (stimulus : Stimulus)
        → IsLawful mind.kind (kept_after stimulus mind.asked mind.kept) (act mind stimulus) }
{}

/// Whatever the kind, what an applet sends is a proper command within the bounds of titles and items, if each timer that it
/// is given is one of the eight.
pub fn commands_are_proper()
    ensures { (mind : AppletState) (stimulus : Stimulus) → GivesTimer stimulus
        → IsProperAct (act mind stimulus).does }
{}
