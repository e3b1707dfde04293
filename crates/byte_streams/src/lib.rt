//! Where a script's bytes come from and where a trace's bytes go: sources and sinks, in memory and over standard input
//! and output, and the reader that cuts what a source hands on into lines.
#![tactic(auto)]

mod limits;
mod line_reader;
mod list_sink;
mod next_line;
mod planned;
mod slice_source;
mod standard;
mod streams;
mod window;

pub use limits::{LONGEST_LINE, MOST_BYTES};
pub use line_reader::LineReader;
pub use list_sink::ListSink;
pub use next_line::NextLine;
pub use slice_source::SliceSource;
pub use standard::{InputSource, OutputSink};
pub use streams::{Failed, Sink, Source};
