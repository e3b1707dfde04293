//! What the card sends of its own. The functions do nothing: their contracts are the laws.
ghost use Rattle.card_laws.specs.SendingLaws.{CommandsAreNumbered, EventListsAreAsked, NothingIsAskedBefore, NumbersAreInRange, NumbersComeBack, NumbersDiffer};

/// The numbers of commands are 1 to 254, and each comes back 254 commands later and no sooner.
pub fn commands_are_numbered()
    ensures numbered { CommandsAreNumbered }
    ensures in_range { NumbersAreInRange }
    ensures come_back { NumbersComeBack }
    ensures differ { NumbersDiffer }
{}

/// The card asks the handset for just the events for which an applet is registered and which the handset can report, each once and in
/// ascending order, and it asks anew where they are others than before.
pub fn events_are_asked_for()
    ensures lists { EventListsAreAsked }
    ensures nothing_before { NothingIsAskedBefore }
{}
