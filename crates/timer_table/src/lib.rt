//! The eight timers of the card application toolkit (ETSI TS 102 223, 6.4.21), and which applet holds each.
#![tactic(auto)]

mod timers;

pub use timers::Timers;
