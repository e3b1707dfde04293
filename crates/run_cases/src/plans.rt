//! Plans of faults that are tried at one call of the memory after the other.

use script_form::{ScriptLine, read_line};
use std::alloc::{AllocError, Global};
use uicc_types::Plan;

/// The line of a plan, but for the number of its call.
#[derive(Drop)]
pub struct PlanShape {
    before: String,
    behind: String,
}

impl PlanShape {
    /// The shape that is written with `K` in place of the number.
    pub fn of(alloc: Global, text: &str) -> Result<Option<PlanShape>, AllocError> {
        let Some((before, behind)) = text.split_once('K') else {
            return Ok(None);
        };
        Ok(Some(PlanShape {
            before: String::from_str(alloc, before)?,
            behind: String::from_str(alloc, behind)?,
        }))
    }

    /// The line for the call of this number.
    pub fn line(&self, alloc: Global, call: u32) -> Result<String, AllocError> {
        let before = self.before.as_str();
        let behind = self.behind.as_str();
        format!(in alloc; "{before}{call}{behind}")
    }
}

/// The plan that a line of a script sets; no fault where it sets none.
pub fn plan_of(line: &str) -> Plan {
    match read_line(line.as_bytes(), 1) {
        Ok(ScriptLine::Cut(cut)) => Plan {
            cut: Some(cut),
            ..Plan::NONE
        },
        Ok(ScriptLine::Fail(fail)) => Plan {
            fail: Some(fail),
            ..Plan::NONE
        },
        Ok(ScriptLine::ReadFail(call)) => Plan {
            read_fail: Some(call),
            ..Plan::NONE
        },
        _ => Plan::NONE,
    }
}
