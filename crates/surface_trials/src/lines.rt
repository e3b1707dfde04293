//! Lines of a script and of a trace.

use script_form::{
    Failed, LineFault, ListSink, Note, Path, ScriptLine, TraceLine, read_line, write_trace,
};

/// The path of a line that makes a DF.
fn path_in(line: &[u8]) -> Result<Option<Path>, LineFault> {
    let read: ScriptLine = read_line(line, 1)?;
    match read {
        ScriptLine::Df { path } => Ok(Some(path)),
        _ => Ok(None),
    }
}

fn write_note(trace: &mut ListSink, note: Note) -> Result<(), Failed> {
    write_trace(trace, &TraceLine::Note(note))
}
