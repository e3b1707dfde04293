//! The data of an installation (own coding): a count and as many different event codes, a length and the menu text, and
//! what is kept.
ghost use Rattle.std.specs.Prelude.{◌≡◌, Some, None, MatchOption};
ghost use Rattle.std.specs.List.{list_all};
ghost use Rattle.card_state.specs.Sections.{is_code, are_different, counted, installation_of};
ghost use Rattle.card_state.specs.Installations.{checked_parts, ReadsInstallation};

use crate::events::{events_of, has_code, is_event};
use crate::sizes::{KEPT_LIMIT, TEXT_LIMIT};
use uicc_types::{Kept, ShortText};

/// The events, the menu text and the kept bytes of a row that is to be installed.
#[derive(Debug, Drop)]
pub struct Installed {
    /// The events, one bit each.
    pub events: u16,
    pub text: ShortText,
    pub kept: Kept,
}

fn are_events(codes: &[u8]) -> bool
    ensures { result ≡ list_all is_code codes.now }
{
    codes.iter().all(|code| is_event(*code))
}

fn all_differ(codes: &[u8]) -> bool
    ensures { result ≡ are_different codes.now }
{
    match codes {
        [] => true,
        [code, rest @ ..] => !has_code(rest, *code) && all_differ(rest),
    }
}

// A length, so many bytes, and the others.
fn split_counted(bytes: &[u8]) -> Option<(&[u8], &[u8])>
    ensures { MatchOption result (counted bytes.now ≡ None)
        (λ parts. counted bytes.now ≡ Some (parts.0.now, parts.1.now)) }
{
    match bytes {
        [] => None,
        [count, rest @ ..] => {
            if usize::from(*count) <= rest.len() {
                Some(rest.split_at(usize::from(*count)))
            } else {
                None
            }
        }
    }
}

// What these parts are, if they may be those of an installation.
fn checked(codes: &[u8], text: &[u8], kept: &[u8]) -> Option<Installed>
    ensures { ReadsInstallation
        (checked_parts (record { codes = codes.now; text = text.now; kept = kept.now })) result }
{
    if !are_events(codes)
        || !all_differ(codes)
        || text.len() > TEXT_LIMIT
        || kept.len() > KEPT_LIMIT
    {
        return None;
    }
    Some(Installed {
        events: events_of(codes),
        text: ShortText::from_slice(text),
        kept: Kept::from_slice(kept),
    })
}

/// What the data of an installation say: a count and as many different codes, a length and the menu text, and what is
/// kept. Other data say nothing.
pub fn read_installation(content: &[u8]) -> Option<Installed>
    ensures { ReadsInstallation (installation_of content.now) result }
{
    let (codes, rest) = split_counted(content)?;
    let (text, kept) = split_counted(rest)?;
    checked(codes, text, kept)
}
