//! A script of what happens to a terminal's channels of the bearer independent protocol: proactive commands, bytes that come back
//! from a far end, and links that are lost. The terminal carries it out and shows what it answers.
#![tactic(auto)]

mod effects;
mod happening;
mod serving;

pub use serving::serve;
