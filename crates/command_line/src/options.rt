//! The options after a command: a store, an image, and a link, each at most once and in any order.
ghost use Rattle.std.specs.Prelude.{◌≡◌, ◌≤◌, ◌+◌, codes, length, map, string_bytes};
ghost use Rattle.script_form.specs.Reads.{Reads};
ghost use Rattle.command_line.specs.OptionForms.{AddsImage, AddsLink, AddsOption, AddsStore, AreOptions, devices_of};

use crate::requests::{Devices, Transport};

/// What the options of a command name.
#[derive(Clone, Copy)]
pub(crate) struct Options {
    /// Whether the store that is named is the one whose pages move.
    pub pages: Option<bool>,
    /// The place of the image's path among the words, counted from 0.
    pub image: Option<usize>,
    /// How a handset reaches its card: directly where no link is named.
    pub transport: Transport,
}

const NO_OPTIONS: Options = Options {
    pages: None,
    image: None,
    transport: Transport::Direct,
};

/// The most words that options have: a name and a value for each of the three.
const MOST_WORDS: usize = 6;

/// What a run is made over by its options: the journal where they name no store.
pub(crate) fn devices_of(options: Options) -> Devices
    ensures { result ≡ devices_of options }
{
    Devices {
        image: options.image,
        pages: options.pages.unwrap_or(false),
    }
}

/// What the options in these words name, which stand after so many others. None where the words are not options.
pub(crate) fn options_of(before: usize, words: &[String]) -> Option<Options>
    requires { before ≤ 3 }
    ensures { Reads (AreOptions before (map string_bytes words.now)) result }
{
    // A command line may be very long: where an option must come twice, no word is looked at.
    if words.len() > MOST_WORDS {
        None
    } else {
        read_options(before, words)
    }
}

fn read_options(before: usize, words: &[String]) -> Option<Options>
    requires { before + length words.now ≤ 9 }
    ensures { Reads (AreOptions before (map string_bytes words.now)) result }
{
    match words {
        [] => Some(NO_OPTIONS),
        [name, value, others @ ..] => match read_options(before + 2, others) {
            Some(options) => with_option(options, name.as_str(), value.as_str(), before + 1),
            None => None,
        },
        _ => None,
    }
}

/// These options and the one of this name, whose value stands at this place among all words. None where there is no such option,
/// or where they have it already.
fn with_option(others: Options, name: &str, value: &str, place: usize) -> Option<Options>
    ensures { Reads (AddsOption name.now value.now place others) result }
{
    match name {
        "--store" => with_store(others, value),
        "--image" => with_image(others, place),
        "--link" => with_link(others, value),
        _ => None,
    }
}

fn with_store(others: Options, value: &str) -> Option<Options>
    ensures { Reads (AddsStore (codes "--store") value.now others) result }
{
    match others.pages {
        Some(_) => None,
        None => match value {
            "journal" => Some(Options {
                pages: Some(false),
                ..others
            }),
            "pages" => Some(Options {
                pages: Some(true),
                ..others
            }),
            _ => None,
        },
    }
}

fn with_image(others: Options, place: usize) -> Option<Options>
    ensures { Reads (AddsImage (codes "--image") place others) result }
{
    match others.image {
        Some(_) => None,
        None => Some(Options {
            image: Some(place),
            ..others
        }),
    }
}

fn with_link(others: Options, value: &str) -> Option<Options>
    ensures { Reads (AddsLink (codes "--link") value.now others) result }
{
    match others.transport {
        Transport::T0 => None,
        Transport::Direct => match value {
            "t0" => Some(Options {
                transport: Transport::T0,
                ..others
            }),
            _ => None,
        },
    }
}
