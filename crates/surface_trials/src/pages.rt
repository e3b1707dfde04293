//! The pages that the program shows in place of a run.

use boxed_applets::Clock;
use byte_streams::{ListSink, SliceSource};
use std::rt::HostRuntime;
use std::test::Fail;
use uicc_run::answer;

/// The words of a command line, whether the sink fails in its first call, what is shown first, and the status.
type Page = (&'static str, &'static [u32], &'static str, u8);

const PAGES: [Page; 9] = [
    ("uicc_run --version", &[], "uicc_run 0.1.0\n", 0),
    ("uicc_run --version", &[1], "", 4),
    ("uicc_run --help", &[1], "", 4),
    ("uicc_run --help --version", &[], "usage\n", 1),
    ("uicc_run --help", &[2], "uicc_run plays a script to", 0),
    ("uicc_run --version play", &[], "usage\n", 1),
    ("uicc_run play --help", &[], "usage\n", 1),
    ("uicc_run", &[], "usage\n", 1),
    ("uicc_run", &[1], "", 4),
];

/// In none of these is the script asked for, and each is one call of the sink.
#[test]
fn a_page_is_shown_for_its_word_alone(rt: HostRuntime) -> Result<(), Fail> {
    for (command_line, fails, beginning, status) in PAGES {
        let mut arguments = Vec::new(rt.alloc());
        for word in command_line.split(' ') {
            arguments.push(String::from_str(rt.alloc(), word)?)?;
        }
        let mut source = SliceSource::new(b"start\n", &[]);
        let mut sink = ListSink::new(rt.alloc(), 8192, fails)?;
        let cast: Vec<Option<Clock>> = Vec::new(rt.alloc());
        let got = answer(&rt, &arguments, &mut source, &mut sink, cast);
        assert_eq!(rt; got, status, "{command_line}");
        assert!(rt;
            sink.taken().starts_with(beginning.as_bytes()),
            "{command_line}"
        );
        assert_eq!(rt; source.calls(), 0, "{command_line}");
        assert_eq!(rt; sink.calls(), 1, "{command_line}");
    }
    Ok(())
}
