//! Writing objects: a list of them, or a template that holds one.
ghost use Rattle.std.specs.Prelude.{◌≡◌, ◌+◌, ◌≤◌, ◌<◌, ◌↔◌, ◌++◌, ◌∷◌, [], List, length, IsOk, OnOk, OnErr, IfOk};
ghost use Rattle.comprehension_tlv.specs.Writing.{tagged, spelling};

use crate::objects::FLAG;
use std::marker::Model;
use uicc_types::{Full, Octets};

/// A list of objects that is being written, at most 255 bytes.
#[derive(Debug, Drop)]
pub struct TlvWriter {
    bytes: Octets,
}

impl Model for TlvWriter {
    ghost use Rattle.std.specs.Prelude.{List, ℕ};

    ghost Value = { List ℕ };

    ghost view = { λ writer. writer.bytes };
}

/// What comes before a length of one byte that is no length by itself.
const LONG_LENGTH: u8 = 0x81;

/// The most bytes of a list.
const MOST: usize = 255;

/// The greatest length that is written in one byte.
const SHORT_LENGTH: u8 = 0x7F;

impl TlvWriter {
    /// No objects yet.
    pub fn new() -> Self
        ensures { result ≡ [] }
    {
        TlvWriter {
            bytes: Octets::new(),
        }
    }

    /// Adds an object with the flag as asked, a tag from `01` to `7E` and the shortest length. `Full`, and no change,
    /// exactly where the list of objects would have more than 255 bytes.
    pub fn put(&mut self, tag: u16, flag: bool, value: &[u8]) -> Result<(), Full>
        requires low { 1 ≤ tag }
        requires high { tag ≤ 126 }
        ensures room { IsOk result
            ↔ (length self.old + length (spelling (record { flag = flag; tag = tag; value = value.now })) ≤ 255) }
        ensures ok { OnOk result (self.new
            ≡ self.old ++ spelling (record { flag = flag; tag = tag; value = value.now })) }
        ensures err { OnErr result (self.new ≡ self.old) }
    {
        let number = tag as u8;
        let first = if flag { FLAG + number } else { number };
        add(&mut self.bytes, first, value)
    }

    /// Adds an object whose value is a byte and the bytes after it, as `put` adds it.
    pub fn put_behind(&mut self, tag: u16, flag: bool, first: u8, rest: &[u8]) -> Result<(), Full>
        requires low { 1 ≤ tag }
        requires high { tag ≤ 126 }
        ensures room { IsOk result ↔ (length self.old
            + length (spelling (record { flag = flag; tag = tag; value = first ∷ rest.now })) ≤ 255) }
        ensures ok { OnOk result (self.new
            ≡ self.old ++ spelling (record { flag = flag; tag = tag; value = first ∷ rest.now })) }
        ensures err { OnErr result (self.new ≡ self.old) }
    {
        let number = tag as u8;
        let tag = if flag { FLAG + number } else { number };
        add_behind(&mut self.bytes, tag, first, rest)
    }

    /// Writes what `finish` gives where nothing was written before.
    pub fn finish_into(&self, template: u8, bytes: &mut Octets) -> Result<(), Full>
        requires { bytes.old ≡ [] }
        ensures room { IsOk result ↔ (length (tagged template self.now) ≤ 255) }
        ensures ok { OnOk result (bytes.new ≡ tagged template self.now) }
    {
        add(bytes, template, self.bytes.as_slice())
    }

    /// The template with the objects put in, with the shortest length. `Full` exactly where it would have more than 255
    /// bytes.
    pub fn finish(self, template: u8) -> Result<Octets, Full>
        ensures room { IsOk result ↔ (length (tagged template self) ≤ 255) }
        ensures ok { IfOk result (λ bytes. bytes ≡ tagged template self) }
    {
        let mut bytes = Octets::new();
        add(&mut bytes, template, self.bytes.as_slice())?;
        Ok(bytes)
    }

    /// The bytes of the objects put in, at most 255.
    pub fn as_slice(&self) -> &[u8]
        ensures value { result.now ≡ self.now }
        ensures fits { length result.now ≤ 255 }
    {
        self.bytes.as_slice()
    }

    /// The list of the objects put in, without a template, as a terminal response is.
    pub fn finish_list(self) -> Octets
        ensures { result ≡ self }
    {
        self.bytes
    }
}

/// Adds one byte of tag, the shortest length, and the value. `Full`, and no change, exactly where there would be more than
/// 255 bytes.
#[tactic(auto, unfolding(crate::specs::Writing::tagged))]
fn add(bytes: &mut Octets, tag: u8, value: &[u8]) -> Result<(), Full>
    ensures room { IsOk result ↔ (length bytes.old + length (tagged tag value.now) ≤ 255) }
    ensures ok { OnOk result (bytes.new ≡ bytes.old ++ tagged tag value.now) }
    ensures err { OnErr result (bytes.new ≡ bytes.old) }
{
    let Ok(length) = u8::try_from(value.len()) else {
        return Err(Full);
    };
    let used = bytes.as_slice().len() + value.len();
    if length > SHORT_LENGTH {
        if used + 3 > MOST {
            return Err(Full);
        }
        add_both(bytes, &[tag, LONG_LENGTH, length], value)
    } else {
        if used + 2 > MOST {
            return Err(Full);
        }
        add_both(bytes, &[tag, length], value)
    }
}

/// The same for a value that is a byte and the bytes after it.
#[tactic(auto, unfolding(crate::specs::Writing::tagged))]
fn add_behind(bytes: &mut Octets, tag: u8, first: u8, rest: &[u8]) -> Result<(), Full>
    ensures room { IsOk result ↔ (length bytes.old + length (tagged tag (first ∷ rest.now)) ≤ 255) }
    ensures ok { OnOk result (bytes.new ≡ bytes.old ++ tagged tag (first ∷ rest.now)) }
    ensures err { OnErr result (bytes.new ≡ bytes.old) }
{
    if rest.len() >= MOST {
        return Err(Full);
    }
    let length = rest.len() as u8 + 1;
    let used = bytes.as_slice().len() + rest.len() + 1;
    if length > SHORT_LENGTH {
        if used + 3 > MOST {
            return Err(Full);
        }
        add_both(bytes, &[tag, LONG_LENGTH, length, first], rest)
    } else {
        if used + 2 > MOST {
            return Err(Full);
        }
        add_both(bytes, &[tag, length, first], rest)
    }
}

/// Adds two parts for which there is room.
fn add_both(bytes: &mut Octets, head: &[u8], value: &[u8]) -> Result<(), Full>
    requires { length bytes.old + length head.now + length value.now ≤ 255 }
    ensures ok { IsOk result }
    ensures added { bytes.new ≡ bytes.old ++ head.now ++ value.now }
{
    match bytes.append(head) {
        Ok(()) => bytes.append(value),
        Err(Full) => unreachable!(),
    }
}
