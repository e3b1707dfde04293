//! What the program answers to the words of its command line.
ghost use Rattle.std.specs.Prelude.{◌≡◌, ◌≤◌, ◌↔◌, ℕ, [], IsTrue, Some, None, length, map, option_map, slice_get, string_bytes};
ghost use Rattle.card_state.specs.declared.sizes.TheConstants.{ROW_COUNT};
ghost use Rattle.applet_trait.specs.Minds.{minds_of};
ghost use Rattle.uicc_run.specs.Answering.{AnswersAsAsked};
ghost use Rattle.uicc_run.specs.Pages.{words_of};
ghost use Rattle.uicc_run.specs.Worlds.{outside};
ghost use Rattle.uicc_run.specs.Stores.{IsSizeFor, size_of};

use crate::endings::Ending;
use crate::images::{image_file, use_of};
use crate::pages::{Page, page_of, show};
use crate::running::{close, run_for};
use applet_trait::Applet;
use byte_streams::{Sink, Source};
use card_state::places::MEMORY_SIZE;
use command_line::{asked_for, devices};
use eeprom_model::{BenchEeprom, FileEeprom};
use page_store::DEVICE_SIZE;
use std::fs::File;
use std::rt::Files;

/// Answers `--help` and `--version`, each alone after the program's name, with their pages. All other words are those of a run, with the
/// boxes of the applets on their shelves, over the device that they name: the file of an image, or else a memory of the bench. The device
/// and the boxes are let go at the end.
pub fn answer<H: Files<File = File> + Eprint + AllocGlobal, R: Source, W: Sink, B: Applet>(
    rt: &H,
    arguments: &[String],
    script: &mut R,
    output: &mut W,
    cast: Vec<Option<B>>,
) -> u8
    requires shelves { length cast.items ≤ ROW_COUNT }
    ensures { AnswersAsAsked (words_of arguments.now) result
        (outside R.Source W.Sink script.old output.old (minds_of B.mind cast.items))
        (outside R.Source W.Sink script.new output.new []) (script.new ≡ script.old) }
{
    let words = behind_name(arguments);
    match page_of(words) {
        Some(page) => show(page, output),
        None => match asked_for(words) {
            Some(asked) => {
                let size = device_size(asked.devices.pages);
                match image_path(words, asked.devices.image) {
                    Some(path) => {
                        let file = image_file(rt, path.as_str(), size, use_of(asked.mode));
                        let eeprom = FileEeprom::new(file, size);
                        let (status, _eeprom, _cast) = run_for(
                            rt.alloc(),
                            asked,
                            script,
                            output,
                            eeprom,
                            cast,
                        );
                        status
                    }
                    None => match BenchEeprom::new(rt.alloc(), size) {
                        Ok(eeprom) => {
                            let (status, _eeprom, _cast) = run_for(
                                rt.alloc(),
                                asked,
                                script,
                                output,
                                eeprom,
                                cast,
                            );
                            status
                        }
                        Err(_) => close(&Ending::NoMemory, output),
                    },
                }
            }
            None => close(&Ending::Usage, output),
        },
    }
}

/// How many bytes the device of a store has: of the one whose pages move, or else of the journal.
pub fn device_size(pages: bool) -> usize
    ensures { result ≡ size_of pages }
{
    if pages { DEVICE_SIZE } else { MEMORY_SIZE }
}

/// Whether a device of so many bytes is one for a run with these words, which is what `run` asks of it. Words in no form ask for none.
pub fn fits(words: &[String], size: usize) -> bool
    ensures { IsTrue result ↔ IsSizeFor (map string_bytes words.now) size }
{
    match devices(words) {
        Some(made) => size == device_size(made.pages),
        None => true,
    }
}

/// The path of the image, where one is named.
fn image_path(words: &[String], place: Option<usize>) -> Option<&String>
    ensures none { place ≡ None → result ≡ None }
    ensures named { (at : ℕ) → place ≡ Some at
        → option_map (λ word. string_bytes word.now) result ≡ slice_get (map string_bytes words.now) at }
{
    words.get(place?)
}

/// All arguments but the first.
fn behind_name(arguments: &[String]) -> &[String]
    ensures { map string_bytes result.now ≡ words_of arguments.now }
{
    match arguments {
        [_, words @ ..] => words,
        [] => &[],
    }
}
