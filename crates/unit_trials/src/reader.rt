//! Tables: which rows they have, and how many of them differ.

use crate::rows::Row;
use crate::units::{Bench, carry_out};
use std::alloc::AllocError;
use std::cell::Cell;
use std::fs::File;
use std::rt::{Env, Files};
use std::{env, fs, io};

/// How many rows there were, and how many differed.
#[derive(Drop)]
struct Tally {
    rows: u32,
    differing: u32,
}

/// Carries out the tables that the command line names, each on a new bench. Prints each row that differs, and at the end how many rows
/// there were and how many differed. With `--row TEXT` before the tables only rows count that have this text, and each of them is
/// printed with what it comes to.
pub fn run_tables<R: Env + Files<File = File> + Print + AllocGlobal>(rt: &R) -> io::Result<()> {
    let words: Vec<String> = env::args(rt)?.collect(rt.alloc())?;
    match words.as_slice() {
        [_, option, text, paths @ ..] if option.as_str() == "--row" => {
            go_over_all(rt, paths, Some(text.as_str()))
        }
        [_, paths @ ..] => go_over_all(rt, paths, None),
        [] => go_over_all(rt, &[], None),
    }
}

fn go_over_all<R: Files<File = File> + Print + AllocGlobal>(
    rt: &R,
    paths: &[String],
    wanted: Option<&str>,
) -> io::Result<()> {
    let shows_other = Cell::new(false);
    let mut tally = Tally {
        rows: 0,
        differing: 0,
    };
    for path in paths {
        let table = fs::read_to_string(rt, path.as_str())?;
        let Ok(mut bench) = Bench::new(rt.alloc(), &shows_other) else {
            return Err(io::Error::from(io::ErrorKind::OutOfMemory));
        };
        for line in table.as_str().lines() {
            go_over(rt, &mut bench, line, wanted, &mut tally)?;
        }
    }
    println!(rt; "{} rows, {} differ", tally.rows, tally.differing)
}

/// Carries out a line. An empty one and one that begins with `#` are no rows.
fn go_over<R: Files<File = File> + Print + AllocGlobal>(
    rt: &R,
    bench: &mut Bench<'_>,
    line: &str,
    wanted: Option<&str>,
    tally: &mut Tally,
) -> io::Result<()> {
    if line.is_empty() || line.starts_with('#') {
        return Ok(());
    }
    let (came, holds) = outcome_of(rt, bench, line)?;
    if !wanted.is_none_or(|text| line.contains(text)) {
        return Ok(());
    }
    tally.rows = tally.rows.saturating_add(1);
    if !holds {
        tally.differing = tally.differing.saturating_add(1);
    }
    if wanted.is_some() || !holds {
        println!(rt; "{line}")?;
        println!(rt; "    {came}")?;
    }
    Ok(())
}

/// What a row comes to, and whether it is to come to that: to what stands after ` => `, or to `ok` where nothing is said; or, after the
/// word `differs`, to anything else.
fn outcome_of<R: Files<File = File> + AllocGlobal>(
    rt: &R,
    bench: &mut Bench<'_>,
    line: &str,
) -> Result<(String, bool), AllocError> {
    let (given, wanted) = line.split_once(" => ").unwrap_or((line, "ok"));
    let (differs, given) = match given.strip_prefix("differs ") {
        Some(rest) => (true, rest),
        None => (false, given),
    };
    let mut row = Row::new(rt.alloc(), given);
    carry_out(rt, bench, &mut row);
    let (came, is_row) = row.finish()?;
    let holds = is_row && (came.as_str() == wanted) != differs;
    Ok((came, holds))
}
