//! What the calls of a section come to. The function does nothing: its contract is the law.
ghost use Rattle.layout_section.specs.Laws.{LinesAreMade, OneMoreIsMade, RefusedIsNotMade, FaultsStay};

/// A new section takes lines, one call after the other, exactly where they describe a card, and comes to the state that
/// they describe; and so it is with each line more. A line that is refused is the fault of all of them, whatever follows.
pub fn sections_are_made()
    ensures taken { LinesAreMade }
    ensures one_more { OneMoreIsMade }
    ensures refused { RefusedIsNotMade }
    ensures faults { FaultsStay }
{}
