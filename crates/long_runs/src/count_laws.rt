//! What the counts mean. The function does nothing: its contract is the law.
ghost use Rattle.long_runs.specs.CountLaws.{CountsAreThoseOfTheLines};

/// The counts that are taken from the bytes of a trace, as the code's walk over them takes them, are those of its lines.
pub fn counts_are_those_of_the_lines()
    ensures { CountsAreThoseOfTheLines }
{}
