//! The objects of a list, one after the other.
ghost use Rattle.std.specs.Prelude.{◌≡◌};
ghost use Rattle.comprehension_tlv.specs.Reading.{outline};
ghost use Rattle.comprehension_tlv.specs.Seen.{IsNext};

use crate::faults::TlvFault;
use crate::objects::{Part, read_object};
use std::marker::Model;

/// A walk over a list of objects. It hands out the parts in order.
#[derive(Debug, Drop)]
pub struct Walk<'a> {
    rest: &'a [u8],
    at: usize,
}

impl<'a> Model for Walk<'a> {
    ghost use Rattle.std.specs.Prelude.{◌+◌, ◌<◌, ◌^◌, length};
    ghost use Rattle.comprehension_tlv.specs.Reading.{Outline, outline_at};

    ghost Value = { Outline };

    ghost view = { λ walk. outline_at walk.at walk.rest.now };

    ghost invariant = { λ walk. walk.at + length walk.rest.now < 2 ^ 64 };
}

impl<'a> Walk<'a> {
    /// A walk from the front of the bytes.
    pub(crate) fn over(bytes: &'a [u8]) -> Self
        ensures { result ≡ outline bytes.now }
    {
        Walk { rest: bytes, at: 0 }
    }

    /// The next part: `Ok(None)` exactly at the end of the list. After a fault it answers the same fault again.
    #[inline(always)]
    pub fn next(&mut self) -> Result<Option<Part<'a>>, TlvFault>
        ensures { IsNext self.old result self.new }
    {
        if self.rest.is_empty() {
            return Ok(None);
        }
        let (part, rest) = read_object(self.rest, self.at)?;
        self.at += self.rest.len() - rest.len();
        self.rest = rest;
        Ok(Some(part))
    }
}
