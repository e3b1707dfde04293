//! What is counted in a trace.

use crate::rows::Row;
use byte_streams::Sink;
use long_runs::{CountingSink, Counts};

/// `counts TEXT`: the counts of a trace. However it is parted, they are the same: with parts of 1 to 39 bytes.
pub fn show_counts(row: &mut Row<'_>) {
    let text = row.text();
    let trace = text.as_bytes();
    let whole = counted(trace, trace.len());
    row.show_number("commands ", whole.commands);
    row.show_number(" fetches ", whole.fetches);
    row.show_number(" responses ", whole.responses);
    row.show_number(" envelopes ", whole.envelopes);
    row.show_number(" busy ", whole.busy);
    for size in 1..40u8 {
        if counted(trace, usize::from(size)) != whole {
            row.show_number(", others in parts of ", size);
        }
    }
}

fn counted(trace: &[u8], size: usize) -> Counts {
    let mut sink = CountingSink::new();
    for part in trace.chunks(size.max(1)) {
        let _ = sink.put(part);
    }
    sink.counts()
}
