//! What a case says.

use crate::expectations::Expectation;
use crate::plans::PlanShape;
use std::alloc::{AllocError, Global};

/// Runs over one device, with what each must show.
#[derive(Drop)]
pub struct Case {
    pub name: String,
    /// Whether it passes only where it differs.
    pub must_differ: bool,
    /// Whether it is carried out in the journal and in pages that move.
    pub both_stores: bool,
    /// The plans with which it is repeated. Without one it is carried out once.
    pub plans: Vec<PlanShape>,
    /// Whether the alternatives of a line are shown in turn, one for each call.
    pub in_turn: bool,
    /// The least number of calls that each plan must meet.
    pub least: u32,
    pub runs: Vec<ScriptRun>,
    /// The first line of the file that is no line of a case.
    pub mistake: Option<Mistake>,
}

impl Case {
    pub fn new(alloc: Global, name: &str) -> Result<Case, AllocError> {
        Ok(Case {
            name: String::from_str(alloc, name)?,
            must_differ: false,
            both_stores: false,
            plans: Vec::new(alloc),
            in_turn: false,
            least: 1,
            runs: Vec::new(alloc),
            mistake: None,
        })
    }
}

#[derive(Drop)]
pub struct Mistake {
    pub line: usize,
    pub what: &'static str,
}

/// One run: the words of its command line, its script, and what it must show.
#[derive(Drop)]
pub struct ScriptRun {
    pub setup: Setup,
    pub words: Vec<String>,
    pub script: Vec<u8>,
    /// Where the line of a plan is put into the script.
    pub plan_at: Option<usize>,
    pub expectations: Vec<Expectation>,
    pub status: u32,
    /// The status where the plan was met.
    pub met_status: u32,
    /// Bytes that the device must have afterwards.
    pub patches: Vec<Patch>,
    pub calls: Option<Calls>,
    /// What is noted of boxes and lines, if that is said.
    pub marks: Option<String>,
    /// On which shelves boxes are handed back, if that is said.
    pub left: Option<String>,
}

impl ScriptRun {
    pub fn new(alloc: Global, setup: Setup, words: Vec<String>) -> ScriptRun {
        ScriptRun {
            setup,
            words,
            script: Vec::new(alloc),
            plan_at: None,
            expectations: Vec::new(alloc),
            status: 0,
            met_status: 0,
            patches: Vec::new(alloc),
            calls: None,
            marks: None,
            left: None,
        }
    }
}

/// What stands before a run begins.
#[derive(Drop)]
pub struct Setup {
    /// Whether the device is made blank.
    pub blank: bool,
    /// Bytes that are put into the device, after that.
    pub patches: Vec<Patch>,
    pub boxes: Boxes,
    /// The numbers of the source's calls that fail.
    pub source_fails: Vec<u32>,
    /// The numbers of the sink's calls that fail.
    pub sink_fails: Vec<u32>,
    /// Whether the device has power.
    pub powered: bool,
    /// From how many lines of the trace on a new device shows the bytes that the device had, if it is to.
    pub switches_at: Option<u32>,
    /// Whether the device is armed with the plan, so that it can be met before the script's first command.
    pub armed: bool,
}

impl Setup {
    pub fn new(alloc: Global) -> Setup {
        Setup {
            blank: false,
            patches: Vec::new(alloc),
            boxes: Boxes::All,
            source_fails: Vec::new(alloc),
            sink_fails: Vec::new(alloc),
            powered: true,
            switches_at: None,
            armed: false,
        }
    }
}

/// Which applets stand on the shelves.
#[derive(Drop)]
pub enum Boxes {
    /// The program's own.
    All,
    /// From shelf 0 on those that the program has on these shelves, or none.
    From(Vec<Option<u32>>),
}

/// Bytes at a place of the device.
#[derive(Drop)]
pub struct Patch {
    pub at: usize,
    pub bytes: Vec<u8>,
}

/// How often the source and the sink are asked.
#[derive(Clone, Copy, PartialEq)]
pub struct Calls {
    pub takes: u64,
    pub puts: u64,
}
