//! `uicc_run`: plays a script of commands, resets and planned faults to a simulated smart card of a mobile telephone (UICC), and
//! writes the trace of every command and answer.
#![tactic(auto)]

ghost use Rattle.std.specs.Prelude.{◌≡◌, ◌↔◌, [], IfOk, OnErr};
ghost use Rattle.boxed_applets.specs.Casts.{program_boxes};
ghost use Rattle.uicc_run.specs.Answering.{AnswersAsAsked};
ghost use Rattle.uicc_run.specs.Pages.{words_of};
ghost use Rattle.uicc_run.specs.Worlds.{outside};

use applet_trait::Applet;
use boxed_applets::{boxed_applet, put_on_shelf};
use byte_streams::{InputSource, OutputSink, Sink, Source};
use card_state::sizes::ROW_COUNT;
use std::alloc::AllocError;
use std::fs::File;
use std::io::ErrorKind;
use std::process::ExitCode;
use std::rt::{Env, Files};
use std::{env, io};
use uicc_run::{Ending, answer, close};

/// The words of the command line could not be had.
#[derive(Drop)]
enum NoWords {
    /// One of them is not UTF-8.
    NotText,
    NoMemory,
}

fn main(rt: HostRuntime) -> ExitCode {
    let mut script = InputSource::new(rt.reader());
    let mut output = OutputSink::new(io::writer(&rt));
    let served = match arguments_of(&rt) {
        Ok(arguments) => serve(&rt, &arguments, &mut script, &mut output),
        Err(NoWords::NotText) => serve(&rt, &[], &mut script, &mut output),
        Err(NoWords::NoMemory) => Err(AllocError),
    };
    let status = match served {
        Ok(status) => status,
        Err(AllocError) => close(&Ending::NoMemory, &mut output),
    };
    ExitCode::from(status)
}

/// Answers with an applet on each shelf, each in its box, and lets them go, or finds no memory for them.
fn serve<H: Files<File = File> + Eprint + AllocGlobal, R: Source, W: Sink>(
    rt: &H,
    arguments: &[String],
    script: &mut R,
    output: &mut W,
) -> Result<u8, AllocError>
    ensures answers { IfOk result (λ status. AnswersAsAsked (words_of arguments.now) status
        (outside R.Source W.Sink script.old output.old program_boxes)
        (outside R.Source W.Sink script.new output.new []) (script.new ≡ script.old)) }
    // Without memory for the applets nothing is read, and nothing is written.
    ensures unread { OnErr result (script.new ≡ script.old) }
    ensures unwritten { OnErr result (output.new ≡ output.old) }
{
    // No function may hand such boxes out, so they are made here.
    let mut cast: Vec<Option<Box<dyn Applet>>> = Vec::new(rt.alloc());
    for shelf in 0..ROW_COUNT {
        boxed_applet!(
            rt.alloc(),
            shelf,
            |applet| put_on_shelf(&mut cast, shelf, applet)?
        );
    }
    Ok(answer(rt, arguments, script, output, cast))
}

/// The program's name and the words after it.
fn arguments_of<R: Env + AllocGlobal>(rt: &R) -> Result<Vec<String>, NoWords> {
    match env::args(rt) {
        Ok(arguments) => arguments.collect(rt.alloc()).map_err(|_| NoWords::NoMemory),
        Err(error) => Err(no_words(error.kind())),
    }
}

/// Memory is what was missing only where the error says so. Otherwise an argument is no text.
fn no_words(kind: ErrorKind) -> NoWords
    ensures memory { (result ≡ NoWords.NoMemory) ↔ (kind ≡ ErrorKind.OutOfMemory) }
{
    match kind {
        ErrorKind::OutOfMemory => NoWords::NoMemory,
        _ => NoWords::NotText,
    }
}
