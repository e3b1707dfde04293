//! What is known of a file without its contents, and by what a file is looked for.

use uicc_types::FileId;

/// What is known of a file without its contents (ETSI TS 102 221, 11.1.1.3).
#[derive(Clone, Copy, Debug, PartialEq, Eq)]
pub struct Descriptor {
    /// Its number among the files of the card. The MF is number 0.
    pub number: u8,
    /// The number of the DF that it lies in; the MF's is its own.
    pub parent: u8,
    /// The file descriptor byte (11.1.1.4.3).
    pub kind: u8,
    pub id: FileId,
    /// The short file identifier, or 0 where it has none (11.1.1.4.8).
    pub short: u8,
    /// The life cycle status (11.1.1.4.9). A DF is always activated.
    pub life: u8,
    /// What rules the access to it; without a rule everything is allowed.
    pub rule: Option<RuleReference>,
    /// How many bytes an EF has.
    pub size: u16,
    /// The length of a record, or 0 in a file without records.
    pub width: u8,
    /// How many records there are.
    pub count: u8,
}

/// A record of an EF_ARR (9.2.7).
#[derive(Clone, Copy, Debug, PartialEq, Eq)]
pub struct RuleReference {
    pub arr: FileId,
    /// The number of the record, from 1 on.
    pub number: u8,
}

/// What a file is looked for by.
#[derive(Clone, Copy, Debug, PartialEq, Eq)]
pub enum Wanted {
    /// The file with this number.
    Number(u8),
    /// The file with this number, if it has this identifier.
    Named { number: u8, id: FileId },
    /// The file with this identifier in the DF with this number.
    Child { df: u8, id: FileId },
    /// The DF with this identifier in the DF with this number.
    ChildDf { df: u8, id: FileId },
    /// The EF with this identifier in the DF with this number.
    ChildEf { df: u8, id: FileId },
    /// The EF with this short file identifier in the DF with this number.
    Short { df: u8, short: u8 },
}
