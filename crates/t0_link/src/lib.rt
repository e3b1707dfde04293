//! The T=0 link between a terminal and a card: it takes TPDUs, passes APDUs to the card, and keeps the data of an answer until
//! GET RESPONSE fetches them (ISO 7816-3, protocol T=0; ETSI TS 102 221, 7.3.1.1). A terminal's side of it sends an APDU as TPDUs.
#![tactic(auto)]

mod answers;
mod commands;
mod endpoint;
pub mod instructions;
mod laws;
mod link;
mod tpdus;

pub use commands::is_carried;
pub use endpoint::{Endpoint, LinkFault};
pub use laws::commands_have_the_answer_of_the_card;
pub use link::Link;
pub use tpdus::{Transfer, is_passed};
