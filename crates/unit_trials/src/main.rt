//! Carries out tables of units: of the wire, the toolkit's vocabulary, the applets, the text that goes in and out of a run, the layout,
//! memories that can be torn, and a handset. Each row is a call, its data, and what it must come to.
#![tactic(auto)]

mod apdus;
mod applets;
mod bip;
mod commands;
mod counting;
mod counts;
mod devices;
mod entries;
mod events;
mod handsets;
mod lines;
mod lists;
mod loads;
mod places;
mod plans;
mod profiles;
mod reader;
mod registry;
mod requests;
mod rows;
mod rules;
mod scripts;
mod sections;
mod spelled;
mod stands;
mod stored;
mod stores;
mod streams;
mod sweeps;
mod tables;
mod timers;
mod tlv;
mod traces;
mod turns;
mod units;
mod writes;
mod writing;

use reader::run_tables;
use std::io;

fn main(rt: HostRuntime) -> io::Result<()> {
    run_tables(&rt)
}
