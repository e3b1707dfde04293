//! What is counted.

/// How many lines of some kinds a trace has. Each count stands still at 2^64 - 1.
#[derive(Clone, Copy, Debug, PartialEq, Eq)]
pub struct Counts {
    /// Commands that were sent.
    pub commands: u64,
    /// Those of them that are FETCH (ETSI TS 102 221, 11.2.3).
    pub fetches: u64,
    /// Those that are TERMINAL RESPONSE (11.2.4).
    pub responses: u64,
    /// Those that are ENVELOPE (11.2.2).
    pub envelopes: u64,
    /// Notes that the card was busy.
    pub busy: u64,
}
