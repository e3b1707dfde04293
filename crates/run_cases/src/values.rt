//! The values that stand after the words of a case.

use crate::cases::{Boxes, Patch};
use crate::faults::Fault;
use std::alloc::{AllocError, Global};

/// The first word of a line, and what stands after it.
pub fn first_word(line: &str) -> (&str, &str) {
    line.split_once(' ').unwrap_or((line, ""))
}

/// Whether a line that begins with this word is an ordinary comment.
pub fn is_remark(word: &str) -> bool {
    word == "#" || word.starts_with("##")
}

pub fn words_of(alloc: Global, text: &str) -> Result<Vec<String>, AllocError> {
    let mut words = Vec::new(alloc);
    for word in text.split_whitespace() {
        words.push(String::from_str(alloc, word)?)?;
    }
    Ok(words)
}

pub fn number_of(word: &str) -> Result<u32, Fault> {
    word.parse::<u32>()
        .map_err(|_| Fault::Mistake("a number is wanted"))
}

pub fn numbers_of(alloc: Global, text: &str) -> Result<Vec<u32>, Fault> {
    let mut numbers = Vec::new(alloc);
    for word in text.split_whitespace() {
        numbers.push(number_of(word)?)?;
    }
    Ok(numbers)
}

/// The bytes that a word of hexadecimal digits says.
pub fn bytes_of(alloc: Global, word: &str) -> Result<Vec<u8>, Fault> {
    hex::decode(alloc, word).map_err(|_| Fault::Mistake("hexadecimal digits are wanted"))
}

/// A place and the bytes at it.
pub fn patch_of(alloc: Global, text: &str) -> Result<Patch, Fault> {
    let (at, bytes) = first_word(text);
    Ok(Patch {
        at: number_of(at)? as usize,
        bytes: bytes_of(alloc, bytes)?,
    })
}

/// The boxes that the words after `#boxes` name.
pub fn boxes_of(alloc: Global, text: &str) -> Result<Boxes, Fault> {
    match text {
        "all" => Ok(Boxes::All),
        "none" => Ok(Boxes::From(Vec::new(alloc))),
        _ => Ok(Boxes::From(shelves_of(alloc, text)?)),
    }
}

/// Numbers of shelves, where `-` stands for a place without a box.
fn shelves_of(alloc: Global, text: &str) -> Result<Vec<Option<u32>>, Fault> {
    let mut shelves = Vec::new(alloc);
    for word in text.split_whitespace() {
        shelves.push(if word == "-" {
            None
        } else {
            Some(number_of(word)?)
        })?;
    }
    Ok(shelves)
}
