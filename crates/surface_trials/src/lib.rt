//! Trials of what neither a script nor a table can show, and each public call of the card, the handset and what is below them, made once
//! with the types that its callers write: devices, stores, streams, applets and ends of a link of one's own too. There is no code beside
//! that of tests.
#![tactic(auto)]

#[cfg(test)]
mod apdus;
#[cfg(test)]
mod cards;
#[cfg(test)]
mod files;
#[cfg(test)]
mod handsets;
#[cfg(test)]
mod layouts;
#[cfg(test)]
mod lines;
#[cfg(test)]
mod links;
#[cfg(test)]
mod memories;
#[cfg(test)]
mod messages;
#[cfg(test)]
mod own;
#[cfg(test)]
mod pages;
#[cfg(test)]
mod resets;
#[cfg(test)]
mod runs;
#[cfg(test)]
mod sessions;
#[cfg(test)]
mod toolkits;
#[cfg(test)]
mod turns;
#[cfg(test)]
mod words;
