//! What is selected.

/// What is selected on a logical channel (ETSI TS 102 221, 8.4): the numbers of the current DF and of the current EF, and
/// the record pointer.
#[derive(Clone, Copy, Debug, PartialEq, Eq)]
pub struct Selection {
    pub df: u8,
    pub ef: Option<u8>,
    /// The number of the current record, from 1 on.
    pub pointer: Option<u8>,
}

impl Selection {
    /// The MF, no EF and no record.
    pub const AT_START: Selection = Selection {
        df: 0,
        ef: None,
        pointer: None,
    };
}
