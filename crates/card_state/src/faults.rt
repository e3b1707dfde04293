//! What a line of a card section answers in place of being added.

use thiserror::Error;

/// Why a line was not added to a section. The section is as it was.
#[derive(Clone, Copy, Debug, PartialEq, Eq, Error)]
pub enum SectionFault {
    /// The line breaks a rule of its form.
    #[error("it breaks a rule of its form")]
    Bad,
    /// The files would need more bytes, or more entries, than the card has for them.
    #[error("there is no room for it")]
    NoRoom,
}
