//! The commands on the tree of files, by their names.

/// A command that makes, deletes or resizes a file (ETSI TS 102 222, 6.3, 6.4 and 6.10).
#[derive(Clone, Copy, Debug, PartialEq, Eq)]
pub enum TreeCommand {
    Create,
    Delete,
    Resize,
}
