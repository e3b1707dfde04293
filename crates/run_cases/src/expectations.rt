//! What the lines of a trace must be.

use std::alloc::{AllocError, Global};

/// In which runs of a repetition something is shown.
#[derive(Clone, Copy)]
pub enum When {
    Always,
    /// Where the plan was met.
    Met,
    /// Where the plan was not met.
    Unmet,
}

/// What a trace shows at one place.
#[derive(Drop)]
pub struct Expectation {
    pub when: When,
    pub shown: Shown,
}

#[derive(Drop)]
pub enum Shown {
    /// Any number of lines.
    AnyLines,
    /// One of these lines.
    OneOf(Vec<String>),
}

/// The alternatives that are written in a line.
pub fn alternatives_of(alloc: Global, text: &str) -> Result<Vec<String>, AllocError> {
    let mut alternatives = Vec::new(alloc);
    for alternative in text.split(" | ") {
        alternatives.push(String::from_str(alloc, alternative)?)?;
    }
    Ok(alternatives)
}
