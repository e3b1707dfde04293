//! What a search for the next line comes to.

/// What the reader found.
#[derive(Debug, Clone, Copy, PartialEq, Eq)]
pub enum NextLine {
    /// A line, which `LineReader::line` gives.
    Line,
    /// The end of the input, with no further line.
    End,
    /// A line of more than 600 bytes, or the line that holds byte 16,777,217 of the input. The run ends with it.
    TooLong,
    /// The source failed.
    Failed,
}
