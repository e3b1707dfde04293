//! `run_cases`: carries out files of cases, which are scripts with what each of their lines must show, and writes which differ.
#![tactic(auto)]

mod boxes;
mod cases;
mod devices;
mod expectations;
mod faults;
mod judging;
mod plans;
mod reader;
mod repeating;
mod running;
mod scripts;
mod values;

use crate::reader::read_cases;
use crate::repeating::verdict_of;
use std::process::ExitCode;
use std::rt::{Env, Files};
use std::{env, fs, io};

/// How many cases were carried out.
#[derive(Drop)]
struct Tally {
    cases: usize,
    runs: usize,
    differ: usize,
}

fn main(rt: HostRuntime) -> ExitCode {
    match carry_out_files(&rt) {
        Ok(0) => ExitCode::SUCCESS,
        Ok(_) => ExitCode::from(1),
        Err(error) => {
            let _ = eprintln!(rt; "{error}");
            ExitCode::from(2)
        }
    }
}

/// Carries out the files that the command line names, or else standard input, and answers how many cases differ. With `--case TEXT`
/// before the files it carries out those cases alone that have this text in their names.
fn carry_out_files<R: Env + Files + Input + Print + AllocGlobal>(rt: &R) -> io::Result<usize> {
    let arguments: Vec<String> = env::args(rt)?.collect(rt.alloc())?;
    match arguments.as_slice() {
        [_, option, text, paths @ ..] if option.as_str() == "--case" => {
            carry_out_all(rt, paths, text.as_str())
        }
        [_, paths @ ..] => carry_out_all(rt, paths, ""),
        [] => carry_out_all(rt, &[], ""),
    }
}

/// Carries out the cases of these files, or else of standard input, that have the wanted text in their names.
fn carry_out_all<R: Files + Input + Print + AllocGlobal>(
    rt: &R,
    paths: &[String],
    wanted: &str,
) -> io::Result<usize> {
    let mut tally = Tally {
        cases: 0,
        runs: 0,
        differ: 0,
    };
    for path in paths {
        let text = fs::read_to_string(rt, path.as_str())?;
        carry_out(rt, text.as_str(), wanted, &mut tally)?;
    }
    if paths.is_empty() {
        let text = io::read_to_string(rt.alloc(), rt.reader())?;
        carry_out(rt, text.as_str(), wanted, &mut tally)?;
    }
    let Tally {
        cases,
        runs,
        differ,
    } = tally;
    println!(rt; "{cases} cases, {runs} runs, {differ} differ")?;
    Ok(differ)
}

/// Carries out the cases of a file that have the wanted text in their names.
fn carry_out<R: Print + AllocGlobal>(
    rt: &R,
    text: &str,
    wanted: &str,
    tally: &mut Tally,
) -> io::Result<()> {
    for case in &read_cases(rt.alloc(), text)? {
        if !case.name.as_str().contains(wanted) {
            continue;
        }
        let found = verdict_of(rt.alloc(), case)?;
        tally.cases = tally.cases.saturating_add(1);
        tally.runs = tally.runs.saturating_add(found.runs);
        if found.what.is_some() != case.must_differ {
            tally.differ = tally.differ.saturating_add(1);
            let name = case.name.as_str();
            let why = found
                .what
                .as_ref()
                .map_or("nothing differs", |what| what.as_str());
            println!(rt; "{name}: {why}")?;
        }
    }
    Ok(())
}
