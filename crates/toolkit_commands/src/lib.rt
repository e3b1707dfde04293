//! The vocabulary of the card toolkit (ETSI TS 102 223): proactive commands, terminal responses and envelopes, each
//! with the one spelling that is written and the reader that takes any.
#![tactic(auto)]

mod choices;
mod commands;
pub mod devices;
mod envelopes;
mod faults;
mod items;
pub mod kinds;
mod laws;
mod numbering;
pub mod qualifiers;
mod reading;
mod responses;
pub mod results;
mod spelling;
pub mod tags;
pub mod tones;
mod values;

pub use commands::{Details, Proactive, TimeValue};
pub use envelopes::{BadEnvelope, Envelope, EnvelopeRef, read_envelope, read_envelope_in_place};
pub use faults::ProactiveFault;
pub use items::{Item, Items};
pub use laws::{
    exact_commands, exact_envelopes, four_faults, lengths_of_commands, spelled_is_read,
};
pub use numbering::renumber;
pub use reading::{found_details, read_command, read_proactive};
pub use responses::{Mismatch, Response, ResponseRef, read_response, read_response_in_place};
pub use spelling::{TooLong, details_of, spell};
