//! Whether what a run left is what its case says.

use crate::cases::{Calls, ScriptRun};
use crate::expectations::{Expectation, Shown, When};
use std::alloc::{AllocError, Global};
use std::str;

/// What a run left.
#[derive(Drop)]
pub struct Left {
    pub trace: Vec<u8>,
    pub status: u8,
    pub calls: Calls,
    /// Whether the device has the bytes that it must have.
    pub has_bytes: bool,
    /// What was noted of boxes and lines.
    pub marks: String,
    /// On which shelves boxes were handed back.
    pub left: String,
}

/// Where a run stands in a repetition.
#[derive(Clone, Copy)]
pub struct Turn {
    /// The number of the call that the plan names, counted from 1; 0 where there is no repetition.
    pub call: usize,
    /// Whether the plan is taken to be met.
    pub is_met: bool,
    /// Whether the n-th alternative of a line is the one that is shown in the n-th turn.
    pub in_turn: bool,
}

impl Turn {
    /// That of a run which is not repeated.
    pub const ALONE: Turn = Turn {
        call: 0,
        is_met: false,
        in_turn: false,
    };
}

/// Where a run differs from its case.
#[derive(Drop)]
pub struct Difference {
    /// How many lines of the trace are as they must be.
    pub place: usize,
    pub what: String,
}

/// Lines that follow each other, with the alternatives of each.
type Stretch<'a> = Vec<&'a [String]>;

/// A line of the trace that is not as it must be.
#[derive(Drop)]
struct Mismatch<'a> {
    place: usize,
    /// What may stand there; nothing where the trace must have ended.
    wanted: &'a [String],
}

/// The first difference between what a run left and what it must, if there is one.
pub fn first_difference(
    alloc: Global,
    run: &ScriptRun,
    left: &Left,
    turn: Turn,
) -> Result<Option<Difference>, AllocError> {
    let Some(lines) = lines_of(alloc, left.trace.as_slice())? else {
        let what = String::from_str(alloc, "the trace is no text of whole lines")?;
        return Ok(Some(Difference { place: 0, what }));
    };
    let stretches = stretches_of(alloc, run.expectations.as_slice(), turn)?;
    if let Some(mismatch) = first_mismatch(&stretches, &lines) {
        let place = mismatch.place;
        let what = told(alloc, &mismatch, &lines)?;
        return Ok(Some(Difference { place, what }));
    }
    let place = lines.len();
    match difference_at_end(alloc, run, left, turn, place)? {
        Some(what) => Ok(Some(Difference { place, what })),
        None => Ok(None),
    }
}

/// What differs where the trace, of so many lines, doesn't. Where no call of the sink fails, it is given each line by itself.
fn difference_at_end(
    alloc: Global,
    run: &ScriptRun,
    left: &Left,
    turn: Turn,
    lines: usize,
) -> Result<Option<String>, AllocError> {
    let status = if turn.is_met {
        run.met_status
    } else {
        run.status
    };
    let got = left.status;
    if u32::from(got) != status {
        return Ok(Some(format!(in alloc; "status {got}, expected {status}")?));
    }
    let Calls { takes, puts } = left.calls;
    let are_the_calls = match run.calls {
        Some(wanted) => left.calls == wanted,
        None => !run.setup.sink_fails.is_empty() || usize::try_from(puts) == Ok(lines),
    };
    if !are_the_calls {
        return Ok(Some(format!(in alloc; "{takes} calls of the source and {puts} of the sink")?));
    }
    if !left.has_bytes {
        return Ok(Some(String::from_str(alloc, "the device has other bytes")?));
    }
    if let Some(marks) = &run.marks
        && *marks != left.marks
    {
        let got = left.marks.as_str();
        return Ok(Some(format!(in alloc; "the marks are '{got}'")?));
    }
    if let Some(shelves) = &run.left
        && *shelves != left.left
    {
        let got = left.left.as_str();
        return Ok(Some(format!(in alloc; "the boxes that are left are '{got}'")?));
    }
    Ok(None)
}

/// The lines of a trace; none where it is no text of whole lines.
fn lines_of(alloc: Global, trace: &[u8]) -> Result<Option<Vec<&str>>, AllocError> {
    let mut lines = Vec::new(alloc);
    if trace.is_empty() {
        return Ok(Some(lines));
    }
    let Ok(text) = str::from_utf8(trace) else {
        return Ok(None);
    };
    let Some(whole) = text.strip_suffix('\n') else {
        return Ok(None);
    };
    for line in whole.split('\n') {
        lines.push(line)?;
    }
    Ok(Some(lines))
}

/// What must be shown, parted where any number of lines may stand.
fn stretches_of(
    alloc: Global,
    expectations: &[Expectation],
    turn: Turn,
) -> Result<Vec<Stretch<'_>>, AllocError> {
    let mut stretches = Vec::new(alloc);
    let mut stretch: Stretch<'_> = Vec::new(alloc);
    for expectation in expectations {
        if !is_wanted(expectation.when, turn) {
            continue;
        }
        match &expectation.shown {
            Shown::OneOf(lines) => stretch.push(permitted(lines, expectation.when, turn))?,
            Shown::AnyLines => {
                stretches.push(stretch)?;
                stretch = Vec::new(alloc);
            }
        }
    }
    stretches.push(stretch)?;
    Ok(stretches)
}

/// Whether what is shown then is shown in this turn.
fn is_wanted(when: When, turn: Turn) -> bool {
    match when {
        When::Always => true,
        When::Met => turn.is_met,
        When::Unmet => !turn.is_met,
    }
}

/// Those of the alternatives that may be shown. The alternatives of a line that stands in all turns are in order: the first is shown
/// in the first turn, and the last where the plan is not met. In turn, none may be where there are too few or too many.
fn permitted(lines: &[String], when: When, turn: Turn) -> &[String] {
    let Turn {
        call,
        is_met,
        in_turn,
    } = turn;
    let count = lines.len();
    if call == 0 || count < 2 || !matches!(when, When::Always) {
        return lines;
    }
    if in_turn && (call > count || (call == count) == is_met) {
        return &[];
    }
    if in_turn {
        return &lines[call - 1..call];
    }
    if !is_met {
        return &lines[count - 1..];
    }
    if call == 1 { &lines[..1] } else { lines }
}

/// The first line that is not as it must be. The first stretch stands at the beginning and the last at the end; each between them
/// stands where it is found first.
fn first_mismatch<'a>(stretches: &[Stretch<'a>], lines: &[&str]) -> Option<Mismatch<'a>> {
    let (first, others) = stretches.split_first()?;
    let mismatch = mismatch_at(first, lines, 0);
    if mismatch.is_some() {
        return mismatch;
    }
    let place = first.len();
    let Some((last, inner)) = others.split_last() else {
        return if place < lines.len() {
            Some(Mismatch { place, wanted: &[] })
        } else {
            None
        };
    };
    let mut from = place;
    for stretch in inner.iter().filter(|stretch| !stretch.is_empty()) {
        let found = (from..lines.len()).find(|at| mismatch_at(stretch, lines, *at).is_none());
        match found {
            Some(at) => from = at.saturating_add(stretch.len()),
            None => return mismatch_at(stretch, lines, from),
        }
    }
    let begins = lines.len().saturating_sub(last.len()).max(from);
    mismatch_at(last, lines, begins)
}

/// The first line of the stretch that doesn't stand where it must, if the stretch begins at this place of the trace.
fn mismatch_at<'a>(stretch: &Stretch<'a>, lines: &[&str], begins: usize) -> Option<Mismatch<'a>> {
    let mut place = begins;
    for wanted in stretch {
        if !is_shown(lines.get(place).copied(), wanted) {
            return Some(Mismatch { place, wanted });
        }
        place = place.saturating_add(1);
    }
    None
}

/// Whether the line is one of these, where `< *` stands for any answer.
fn is_shown(line: Option<&str>, wanted: &[String]) -> bool {
    let Some(shown) = line else {
        return false;
    };
    wanted.iter().any(|alternative| {
        let text = alternative.as_str();
        text == shown || (text == "< *" && shown.starts_with("< "))
    })
}

/// What was expected at a place of the trace, and what came.
fn told(alloc: Global, mismatch: &Mismatch<'_>, lines: &[&str]) -> Result<String, AllocError> {
    let place = mismatch.place;
    let mut expected = String::new(alloc);
    for alternative in mismatch.wanted {
        if !expected.is_empty() {
            expected.push_str(" | ")?;
        }
        expected.push_str(alternative.as_str())?;
    }
    let wanted = expected.as_str();
    let got = lines.get(place).copied().unwrap_or("");
    format!(in alloc; "behind {place} lines of the trace: expected '{wanted}', got '{got}'")
}
