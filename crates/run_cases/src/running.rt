//! Carries out the runs of a case over one device.

use crate::boxes::{Notes, Noting, NotingSink, marks_of};
use crate::cases::{Boxes, Calls, Case, ScriptRun};
use crate::devices::{blank, has_all, prepared, revive};
use crate::judging::Left;
use applet_trait::Applet;
use boxed_applets::boxed_applet;
use byte_streams::{ListSink, SliceSource};
use card_state::places::MEMORY_SIZE;
use card_state::sizes::ROW_COUNT;
use command_line::devices;
use eeprom_model::{Eeprom, SwitchedEeprom};
use std::alloc::{AllocError, Global};
use uicc_run::{device_size, fits, run};

/// The longest trace that a run may have.
const LONGEST_TRACE: usize = 1_048_576;

/// A status that no run ends with.
const NO_STATUS: u8 = 99;

/// What each of the case's runs leaves, with the line of this plan where one is to be put.
pub fn carried_out(
    alloc: Global,
    case: &Case,
    in_pages: bool,
    plan: &str,
) -> Result<Vec<Left>, AllocError> {
    let mut device = blank(alloc, MEMORY_SIZE)?;
    let mut all = Vec::new(alloc);
    for one in &case.runs {
        let words = command_line_of(alloc, one, in_pages)?;
        let size = size_for(&words, device.size());
        device = prepared(alloc, device, size, &one.setup, plan)?;
        let script = script_of(alloc, one, plan)?;
        let notes = Notes::new(one.setup.switches_at.unwrap_or(u32::MAX));
        let left = if one.setup.switches_at.is_some() {
            let new = blank(alloc, size)?;
            let switched = SwitchedEeprom::new(new, device, &notes.shows_other);
            device = blank(alloc, size)?;
            let (left, _switched) = played(
                alloc,
                one,
                &words,
                script.as_slice(),
                switched,
                &notes,
            )?;
            left
        } else {
            let (left, after) = played(alloc, one, &words, script.as_slice(), device, &notes)?;
            device = after;
            left
        };
        all.push(left)?;
    }
    Ok(all)
}

/// The words of the run's command line.
fn command_line_of(
    alloc: Global,
    one: &ScriptRun,
    in_pages: bool,
) -> Result<Vec<String>, AllocError> {
    let mut words = Vec::new(alloc);
    for word in &one.words {
        words.push(word.clone()?)?;
    }
    if in_pages {
        words.push(String::from_str(alloc, "--store")?)?;
        words.push(String::from_str(alloc, "pages")?)?;
    }
    Ok(words)
}

/// How large a device the words want. Words in no form are run over any.
fn size_for(words: &[String], size: usize) -> usize {
    match devices(words) {
        Some(made) => device_size(made.pages),
        None => size,
    }
}

/// The script with the line of the plan at its place.
fn script_of(alloc: Global, one: &ScriptRun, plan: &str) -> Result<Vec<u8>, AllocError> {
    let place = one.plan_at.unwrap_or(0).min(one.script.len());
    let (before, behind) = one.script.as_slice().split_at(place);
    let mut script = Vec::from_slice(alloc, before)?;
    if one.plan_at.is_some() {
        script.extend_from_slice(plan.as_bytes())?;
        script.push(b'\n')?;
    }
    script.extend_from_slice(behind)?;
    Ok(script)
}

/// Carries out one run, and hands back the device with power.
fn played<E: Eeprom + Drop>(
    alloc: Global,
    one: &ScriptRun,
    words: &[String],
    script: &[u8],
    device: E,
    notes: &Notes,
) -> Result<(Left, E), AllocError> {
    // No function may hand such boxes out, so they are made here.
    let mut cast = Vec::new(alloc);
    for (shelf, like) in (0..u8::MAX).zip(shelves_of(alloc, &one.setup.boxes)?) {
        cast.push(match like {
            Some(like) => Some(Noting::new(boxed_applet!(alloc, like), shelf, notes)),
            None => None,
        })?;
    }
    let mut source = SliceSource::new(script, one.setup.source_fails.as_slice());
    let fails = one.setup.sink_fails.as_slice();
    let mut sink = NotingSink {
        sink: ListSink::new(alloc, LONGEST_TRACE, fails).map_err(|_| AllocError)?,
        notes,
    };
    let (status, mut after, cast) = if fits(words, device.size()) && cast.len() <= ROW_COUNT {
        run(alloc, words, &mut source, &mut sink, device, cast)
    } else {
        (NO_STATUS, device, cast)
    };
    revive(&mut after);
    let has_lines = one
        .marks
        .as_ref()
        .is_some_and(|marks| marks.as_str().contains('.'));
    let left = Left {
        trace: Vec::from_slice(alloc, sink.sink.taken())?,
        status,
        calls: Calls {
            takes: source.calls(),
            puts: sink.sink.calls(),
        },
        has_bytes: has_all(&mut after, one.patches.as_slice()),
        marks: notes.text(alloc, has_lines)?,
        left: marks_of(alloc, cast.as_slice())?,
    };
    Ok((left, after))
}

/// Of which of the program's shelves the applets are, from shelf 0 on.
fn shelves_of(alloc: Global, boxes: &Boxes) -> Result<Vec<Option<usize>>, AllocError> {
    let mut shelves = Vec::new(alloc);
    match boxes {
        Boxes::From(given) => {
            for shelf in given {
                shelves.push(shelf.map(|shelf| shelf as usize))?;
            }
        }
        Boxes::All => {
            for shelf in 0..ROW_COUNT {
                shelves.push(Some(shelf))?;
            }
        }
    }
    Ok(shelves)
}
