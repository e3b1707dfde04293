//! The numbers of the calls that are to fail.
ghost use Rattle.std.specs.Prelude.{◌↔◌, IsTrue, Contains};

/// Whether this call is one of those that are to fail.
pub(crate) fn is_planned(fails: &[u32], call: u64) -> bool
    ensures { IsTrue result ↔ Contains fails.now call }
{
    fails.iter().any(|number| u64::from(*number) == call)
}
