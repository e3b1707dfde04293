//! Carries out a case in its stores and with its plans, and says where it differs first.

use crate::cases::Case;
use crate::judging::{Difference, Left, Turn, first_difference};
use crate::plans::PlanShape;
use crate::running::carried_out;
use std::alloc::{AllocError, Global};

/// The most calls that a plan is tried at.
const MOST_CALLS: u32 = 100;

/// How a case went.
#[derive(Drop)]
pub struct Verdict {
    /// How many runs were carried out.
    pub runs: usize,
    /// What differed first.
    pub what: Option<String>,
}

/// Carries out a case.
pub fn verdict_of(alloc: Global, case: &Case) -> Result<Verdict, AllocError> {
    if let Some(mistake) = &case.mistake {
        let line = mistake.line;
        let why = mistake.what;
        return Ok(Verdict {
            runs: 0,
            what: Some(format!(in alloc; "line {line} of the file: {why}")?),
        });
    }
    let first = in_store(alloc, case, false)?;
    if first.what.is_some() || !case.both_stores {
        return Ok(first);
    }
    let second = in_store(alloc, case, true)?;
    Ok(Verdict {
        runs: first.runs.saturating_add(second.runs),
        what: second.what,
    })
}

/// Carries out a case in the store that the words name, or in pages that move.
fn in_store(alloc: Global, case: &Case, in_pages: bool) -> Result<Verdict, AllocError> {
    if case.plans.is_empty() {
        let lefts = carried_out(alloc, case, in_pages, "")?;
        let found = compared(alloc, case, &lefts, Turn::ALONE)?;
        return Ok(Verdict {
            runs: lefts.len(),
            what: found.map(|differs| differs.what),
        });
    }
    let mut runs = 0usize;
    for shape in &case.plans {
        let one = with_plan(alloc, case, in_pages, shape)?;
        runs = runs.saturating_add(one.runs);
        if let Some(what) = one.what {
            return Ok(Verdict {
                runs,
                what: Some(what),
            });
        }
    }
    Ok(Verdict { runs, what: None })
}

/// Carries out a case with the plan at each call, until it isn't met.
fn with_plan(
    alloc: Global,
    case: &Case,
    in_pages: bool,
    shape: &PlanShape,
) -> Result<Verdict, AllocError> {
    let mut runs = 0usize;
    for call in 1..=MOST_CALLS {
        let plan = shape.line(alloc, call)?;
        let lefts = carried_out(alloc, case, in_pages, plan.as_str())?;
        runs = runs.saturating_add(lefts.len());
        let met = Turn {
            call: call as usize,
            is_met: true,
            in_turn: case.in_turn,
        };
        let Some(one) = compared(alloc, case, &lefts, met)? else {
            continue;
        };
        let unmet = Turn {
            is_met: false,
            ..met
        };
        let other = compared(alloc, case, &lefts, unmet)?;
        let what = what_differs(alloc, case, plan.as_str(), one, other, call - 1)?;
        return Ok(Verdict { runs, what });
    }
    Ok(Verdict {
        runs,
        what: Some(String::from_str(alloc, "each plan was met")?),
    })
}

/// What differs where the plan seems not to be met, after so many calls at which it was: the runs differ from those in which it is,
/// and maybe also from those in which it isn't. Of the two the difference counts that comes later in the trace.
fn what_differs(
    alloc: Global,
    case: &Case,
    plan: &str,
    met: Difference,
    unmet: Option<Difference>,
    calls: u32,
) -> Result<Option<String>, AllocError> {
    let Some(other) = unmet else {
        let least = case.least;
        if calls >= least {
            return Ok(None);
        }
        return Ok(Some(format!(in alloc;
            "the plan was met at {calls} calls, expected at least {least}"
        )?));
    };
    let later = if met.place > other.place {
        met.what
    } else {
        other.what
    };
    let what = later.as_str();
    Ok(Some(format!(in alloc; "with {plan}, {what}")?))
}

/// The first difference of all runs.
fn compared(
    alloc: Global,
    case: &Case,
    lefts: &[Left],
    turn: Turn,
) -> Result<Option<Difference>, AllocError> {
    let mut passed = 0usize;
    let mut number = 0usize;
    for (run, left) in case.runs.iter().zip(lefts) {
        number = number.saturating_add(1);
        if let Some(found) = first_difference(alloc, run, left, turn)? {
            let what = found.what.as_str();
            return Ok(Some(Difference {
                place: passed.saturating_add(found.place),
                what: format!(in alloc; "run {number}, {what}")?,
            }));
        }
        passed = passed.saturating_add(left.trace.len());
    }
    Ok(None)
}
