//! What a command has beside its header (ISO 7816-4, 5.1).
ghost use Rattle.std.specs.Prelude.{◌≡◌};

use crate::commands::Command;

impl Command<'_> {
    ghost use Rattle.apdu_form.specs.Fields.{has_data, has_le_alone, has_no_data, has_no_parameters};

    /// P1 and P2 are 00.
    pub fn has_no_parameters(&self) -> bool
        ensures { result ≡ has_no_parameters self.now }
    {
        self.p1 == 0x00 && self.p2 == 0x00
    }

    /// No data; a Le may be there.
    pub fn has_no_data(&self) -> bool
        ensures { result ≡ has_no_data self.now }
    {
        self.body.is_empty()
    }

    /// Data; a Le may be there.
    pub fn has_data(&self) -> bool
        ensures { result ≡ has_data self.now }
    {
        !self.body.is_empty()
    }

    /// A Le alone.
    pub fn has_le_alone(&self) -> bool
        ensures { result ≡ has_le_alone self.now }
    {
        self.body.is_empty() && self.expected.is_some()
    }
}
