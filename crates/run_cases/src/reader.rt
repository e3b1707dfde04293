//! Reads a file of cases.

use crate::cases::{Calls, Case, Mistake, ScriptRun, Setup};
use crate::faults::Fault;
use crate::plans::PlanShape;
use crate::scripts::RunDraft;
use crate::values::{boxes_of, first_word, is_remark, number_of, numbers_of, patch_of, words_of};
use std::alloc::{AllocError, Global};
use std::mem;

/// The cases of a file.
pub fn read_cases(alloc: Global, text: &str) -> Result<Vec<Case>, AllocError> {
    let mut cases = Vec::new(alloc);
    let mut draft = CaseDraft::new(alloc, "a case without a name")?;
    let mut has_begun = false;
    let mut number = 0usize;
    for line in text.lines() {
        number = number.saturating_add(1);
        match line.strip_prefix("#case ") {
            Some(name) => {
                let whole = mem::replace(&mut draft, CaseDraft::new(alloc, name)?);
                if has_begun {
                    cases.push(whole.ended())?;
                }
                has_begun = true;
            }
            None => {
                draft.read(number, line)?;
                has_begun = has_begun || !(line.is_empty() || is_remark(first_word(line).0));
            }
        }
    }
    if has_begun {
        cases.push(draft.ended())?;
    }
    Ok(cases)
}

/// A case of which some lines were read.
#[derive(Drop)]
struct CaseDraft {
    alloc: Global,
    case: Case,
    /// What stands before the next run begins.
    setup: Setup,
    /// Whether a line said something of that.
    is_set_up: bool,
    /// The run that is being read.
    run: Option<RunDraft>,
}

impl CaseDraft {
    fn new(alloc: Global, name: &str) -> Result<CaseDraft, AllocError> {
        Ok(CaseDraft {
            alloc,
            case: Case::new(alloc, name)?,
            setup: Setup::new(alloc),
            is_set_up: false,
            run: None,
        })
    }

    /// Takes one more line. After a mistake all others are passed over.
    fn read(&mut self, line: usize, text: &str) -> Result<(), AllocError> {
        if self.case.mistake.is_some() {
            return Ok(());
        }
        match self.understand(text) {
            Ok(()) => Ok(()),
            Err(Fault::NoMemory) => Err(AllocError),
            Err(Fault::Mistake(what)) => {
                self.case.mistake = Some(Mistake { line, what });
                Ok(())
            }
        }
    }

    fn understand(&mut self, line: &str) -> Result<(), Fault> {
        let (word, rest) = first_word(line);
        match self.run.take() {
            None => self.set(word, rest),
            Some(run) if word == "#status" => {
                self.case.runs.push(run.ended(rest)?)?;
                Ok(())
            }
            Some(mut run) => {
                run.read(self.alloc, line)?;
                self.run = Some(run);
                Ok(())
            }
        }
    }

    /// Takes a line that stands before, between or after the runs.
    fn set(&mut self, word: &str, rest: &str) -> Result<(), Fault> {
        match (word, rest) {
            ("#run", words) => return self.begin(words),
            ("#blank", "") => self.setup.blank = true,
            ("#plan", "") => self.setup.armed = true,
            ("#power", "off") => self.setup.powered = false,
            ("#bytes", patch) => self.setup.patches.push(patch_of(self.alloc, patch)?)?,
            ("#boxes", boxes) => self.setup.boxes = boxes_of(self.alloc, boxes)?,
            ("#source", calls) => self.setup.source_fails = numbers_of(self.alloc, calls)?,
            ("#switch", lines) => self.setup.switches_at = Some(number_of(lines)?),
            ("#sink", calls) => self.setup.sink_fails = numbers_of(self.alloc, calls)?,
            _ => return self.set_case(word, rest),
        }
        self.is_set_up = true;
        Ok(())
    }

    fn begin(&mut self, words: &str) -> Result<(), Fault> {
        let setup = mem::replace(&mut self.setup, Setup::new(self.alloc));
        let words = words_of(self.alloc, words)?;
        self.run = Some(RunDraft::new(ScriptRun::new(self.alloc, setup, words)));
        self.is_set_up = false;
        Ok(())
    }

    /// Takes a line that says how the whole case is carried out, or what its last run must leave.
    fn set_case(&mut self, word: &str, rest: &str) -> Result<(), Fault> {
        match (word, rest) {
            ("#must", "differ") => self.case.must_differ = true,
            ("#stores", "both") => self.case.both_stores = true,
            ("#in-turn", "") => self.case.in_turn = true,
            ("#each", shapes) => return self.add_plans(shapes),
            ("#at-least", count) => self.case.least = number_of(count)?,
            ("#shows" | "#calls" | "#marks" | "#left", _) => return self.ask_of_last_run(
                word, rest,
            ),
            ("", "") => {}
            _ if is_remark(word) => {}
            _ => return Err(Fault::Mistake("no word of a case")),
        }
        Ok(())
    }

    fn add_plans(&mut self, shapes: &str) -> Result<(), Fault> {
        for text in shapes.split(" | ") {
            match PlanShape::of(self.alloc, text)? {
                Some(shape) => self.case.plans.push(shape)?,
                None => return Err(Fault::Mistake("a plan has K in place of its call")),
            }
        }
        Ok(())
    }

    /// Takes what the run that was read last must leave.
    fn ask_of_last_run(&mut self, word: &str, rest: &str) -> Result<(), Fault> {
        let Some(run) = self.case.runs.last_mut() else {
            return Err(Fault::Mistake("no run stands before it"));
        };
        match word {
            "#shows" => run.patches.push(patch_of(self.alloc, rest)?)?,
            "#marks" => run.marks = Some(String::from_str(self.alloc, rest)?),
            "#left" => run.left = Some(String::from_str(self.alloc, rest)?),
            _ => {
                let (takes, puts) = first_word(rest);
                run.calls = Some(Calls {
                    takes: u64::from(number_of(takes)?),
                    puts: u64::from(number_of(puts)?),
                });
            }
        }
        Ok(())
    }

    /// The whole case, or what it lacks.
    fn ended(self) -> Case {
        let CaseDraft {
            alloc: _,
            mut case,
            setup: _,
            is_set_up,
            run,
        } = self;
        if case.mistake.is_none() {
            case.mistake = lack_of(&case, run.is_some(), is_set_up);
        }
        case
    }
}

/// What a case lacks at its end: it must have a run, each run an end, what is set up a run, and a plan's place plans.
fn lack_of(case: &Case, is_in_run: bool, is_set_up: bool) -> Option<Mistake> {
    let what = if is_in_run || case.runs.is_empty() {
        "the case has no run, or a run no #status"
    } else if is_set_up {
        "no run follows what is set up"
    } else if case.plans.is_empty() && case.runs.iter().any(has_place) {
        "a #plan stands in a case without #each"
    } else {
        return None;
    };
    Some(Mistake { line: 0, what })
}

/// Whether a plan has a place in the run, or before it.
fn has_place(run: &ScriptRun) -> bool {
    run.plan_at.is_some() || run.setup.armed
}
