//! A handset that serves a card: what it sends goes to the card, and what the card answers goes back to it, until it rests; the
//! lines of a script, or those of a long run, carried out so.
#![tactic(auto)]

mod counting;
mod effects;
mod fetching;
mod handset_laws;
mod laws;
mod lines;
mod load_laws;
mod playing;
mod serving;

pub use counting::count_lines;
pub use effects::{LONGEST_SPAN, PhoneEffect, effect_on_phone};
pub use fetching::{
    announced_commands_are_fetched, details_are_read, responses_are_read, responses_are_taken,
};
pub use handset_laws::handsets_are_served;
pub use laws::{phone_runs_are_lawful, phone_runs_are_one};
pub use lines::{end_of, serve_line};
pub use load_laws::loads_are_one;
pub use playing::{hear_line, start_phone};
pub use serving::{Places, settle};
