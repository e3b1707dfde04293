//! The terminal profile (ETSI TS 102 223, 5.2): which commands and events a terminal can do.
#![tactic(auto)]

mod profile;
mod profile_places;

pub use profile::Profile;
