//! Planned faults of the memory, for tests: at which call it loses power or fails.
ghost use Rattle.std.specs.Prelude.{◌≡◌, None};
ghost use Rattle.uicc_types.specs.Counts.{names_fault};

/// A loss of power in a program call.
#[derive(Clone, Copy, Debug, PartialEq, Eq)]
pub struct CutAt {
    /// The program call in which power is lost, counted from 1 since the plan was set.
    pub call: u32,
    /// So many bytes of the range take their new value first.
    pub kept: u16,
    /// The value that every other byte of the range takes.
    pub rest: u8,
}

/// A failure of a program call.
#[derive(Clone, Copy, Debug, PartialEq, Eq)]
pub struct FailAt {
    /// The program call that fails, counted from 1 since the plan was set.
    pub call: u32,
    /// The value that every byte of the range takes.
    pub rest: u8,
}

/// The faults that are planned for one command or reset; each at most once.
#[derive(Clone, Copy, Debug, PartialEq, Eq)]
pub struct Plan {
    pub cut: Option<CutAt>,
    pub fail: Option<FailAt>,
    /// The read call that fails, counted from 1 since the plan was set.
    pub read_fail: Option<u32>,
}

impl Plan {
    /// The plan of no fault.
    pub const NONE: Plan = Plan {
        cut: None,
        fail: None,
        read_fail: None,
    };

    /// Whether it names a fault.
    pub fn names_fault(&self) -> bool
        ensures { result ≡ names_fault self.now }
    {
        self.cut.is_some() || self.fail.is_some() || self.read_fail.is_some()
    }
}
