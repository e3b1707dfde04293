//! The text that a sink was given. It exists only in proofs: it takes no memory, and its methods do nothing when they run.
ghost use Rattle.std.specs.Prelude.{◌≡◌, ℕ, List, [], ◌++◌};
ghost use Rattle.std.specs.Coded.{coded_list, coded_ℕ};
ghost use base.Fml.{ftrue};

use std::marker::Model;

#[derive(Drop)]
pub struct ToldText {
    ghost bytes: { List ℕ } by { coded_list coded_ℕ },
}

impl Model for ToldText {
    ghost also_owns = { λ _. ftrue };
}

/// A part that was put.
#[derive(Clone, Copy, Drop)]
pub struct Part<'a> {
    pub bytes: &'a [u8],
}

impl ToldText {
    pub fn new() -> ToldText
        ensures { result.bytes ≡ [] }
    {
        ToldText {}
    }

    /// The text with a part after it.
    #[inline(always)]
    pub fn then(&self, _part: &Part<'_>) -> ToldText
        ensures { result.bytes ≡ self.now.bytes ++ _part.now.bytes.now }
    {
        ToldText {}
    }
}
