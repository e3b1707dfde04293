//! The text that goes in and out of a run: lines of a script, which are read, and lines of a trace, which are written.
#![tactic(auto)]

mod cursor;
mod files;
mod handset;
mod handset_reading;
mod keywords;
mod lines;
mod notes;
mod pins;
mod reading;
mod trace;
mod values;

pub use byte_streams::{Failed, InputSource, ListSink, OutputSink, Sink, SliceSource, Source};
pub use handset::{HandsetLine, Note, handset_line};
pub use lines::{DEEPEST, LineFault, Path, ScriptLine};
pub use reading::{read_line, read_line_into};
pub use trace::{TraceLine, write_answer, write_command, write_note, write_trace};
pub use values::number_of;
