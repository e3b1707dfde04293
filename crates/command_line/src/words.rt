//! The words after the program's name.
ghost use Rattle.std.specs.Prelude.{◌≡◌, ◌≤◌, ◌↔◌, ◌∷◌, IsTrue, codes, map, option_map, string_bytes};
ghost use Rattle.script_form.specs.Reads.{Reads};
ghost use Rattle.command_line.specs.Model.{AreChosen, IsBipWord, IsLoadWord, IsMadeFor, IsNamedWith, IsRequest};

use crate::options::{devices_of, options_of};
use crate::requests::{Devices, MOST_LINES, Mode, Request, Transport};
use script_form::number_of;

/// What the words ask for: `play`, `open`, `phone`, or `load` with two numbers; then `--store journal` or `--store pages`,
/// `--image PATH`, and after `phone` alone `--link t0`, each at most once and in any order; or `bip` alone. None where they are in
/// no such form.
pub fn asked_for(words: &[String]) -> Option<Request>
    ensures { Reads (IsRequest (map string_bytes words.now)) result }
{
    match words {
        [first, others @ ..] => request_of(first.as_str(), others),
        [] => None,
    }
}

/// What is to be made for a run with these words. None exactly where `asked_for` answers none.
pub fn devices(words: &[String]) -> Option<Devices>
    ensures { Reads (IsMadeFor (map string_bytes words.now)) result }
{
    match asked_for(words) {
        Some(asked) => Some(asked.devices),
        None => None,
    }
}

fn request_of(first: &str, others: &[String]) -> Option<Request>
    ensures { Reads (IsRequest (first.now ∷ map string_bytes others.now)) result }
{
    if is_load(first) {
        load_of(others)
    } else if is_bip(first) {
        bip_of(others)
    } else {
        named_of(first, others)
    }
}

fn is_load(word: &str) -> bool
    ensures { IsTrue result ↔ IsLoadWord word.now }
{
    word == "load"
}

fn is_bip(word: &str) -> bool
    ensures { IsTrue result ↔ IsBipWord word.now }
{
    word == "bip"
}

/// The request of `bip` with these words after it: it takes none.
fn bip_of(others: &[String]) -> Option<Request>
    ensures { Reads (IsRequest (codes "bip" ∷ map string_bytes others.now)) result }
{
    match others {
        [] => Some(Request {
            mode: Mode::Bip,
            devices: Devices {
                image: None,
                pages: false,
            },
        }),
        _ => None,
    }
}

/// The request of a command of one word.
fn named_of(first: &str, words: &[String]) -> Option<Request>
    requires not_load { IsLoadWord first.now → ⊥ }
    requires not_bip { IsBipWord first.now → ⊥ }
    ensures { Reads (IsRequest (first.now ∷ map string_bytes words.now)) result }
{
    match options_of(1, words) {
        Some(options) => match mode_named(first, options.transport) {
            Some(mode) => Some(Request {
                mode,
                devices: devices_of(options),
            }),
            None => None,
        },
        None => None,
    }
}

/// What a run of this word does, by this transport. None also where that word has no such transport.
fn mode_named(word: &str, transport: Transport) -> Option<Mode>
    ensures { Reads (IsNamedWith word.now transport) result }
{
    match (word, transport) {
        ("phone", _) => Some(Mode::Phone { transport }),
        ("play", Transport::Direct) => Some(Mode::Play),
        ("open", Transport::Direct) => Some(Mode::Open),
        _ => None,
    }
}

/// The request of `load` with these words after it.
fn load_of(others: &[String]) -> Option<Request>
    ensures { Reads (IsRequest (codes "load" ∷ map string_bytes others.now)) result }
{
    match others {
        [start, count, options @ ..] => load_by(start.as_str(), count.as_str(), options),
        _ => None,
    }
}

fn load_by(start: &str, count: &str, options: &[String]) -> Option<Request>
    ensures { Reads (IsRequest (codes "load" ∷ start.now ∷ count.now ∷ map string_bytes options.now)) result }
{
    match number_of(start.as_bytes(), 0, LARGEST_START) {
        Some(start) => match number_of(count.as_bytes(), 0, MOST_LINES) {
            Some(count) => load_on(start, count, devices_named(3, options)),
            None => None,
        },
        None => None,
    }
}

/// The request of `load` over these devices, if there are any.
fn load_on(start: u32, count: u32, devices: Option<Devices>) -> Option<Request>
    ensures { result ≡ option_map (λ made. record { mode = Mode.Load start count; devices = made }) devices }
{
    match devices {
        Some(devices) => Some(Request {
            mode: Mode::Load { start, count },
            devices,
        }),
        None => None,
    }
}

/// The largest number of nine digits.
const LARGEST_START: u32 = 999_999_999;

/// What a run is made over by the options in these words, which stand after so many others. None where they are no options, or
/// name a link.
fn devices_named(before: usize, words: &[String]) -> Option<Devices>
    requires { before ≤ 3 }
    ensures { Reads (AreChosen before (map string_bytes words.now) Transport.Direct) result }
{
    match options_of(before, words) {
        Some(options) => match options.transport {
            Transport::Direct => Some(devices_of(options)),
            Transport::T0 => None,
        },
        None => None,
    }
}
