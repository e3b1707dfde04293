//! What CREATE FILE asks for (ETSI TS 102 222, 6.3).

use crate::descriptors::RuleReference;
use card_state::Shape;
use uicc_types::FileId;

/// A file that is to be made in the current DF.
#[derive(Clone, Copy, Debug)]
pub enum NewFile {
    Df {
        id: FileId,
    },
    Ef {
        id: FileId,
        shape: Shape,
        /// The short file identifier, or 0 where it has none (ETSI TS 102 221, 11.1.1.4.8).
        short: u8,
        rule: Option<RuleReference>,
    },
}
