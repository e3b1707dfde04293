//! Boxes and a sink that note what happens to them.

use applet_trait::{Act, Applet, Stimulus};
use byte_streams::{Failed, ListSink, Sink};
use std::alloc::{AllocError, Global};
use std::cell::Cell;
use uicc_types::Kept;

/// So many marks are noted, and none after them.
const MOST_MARKS: usize = 128;

/// The mark of a line of the trace, and of a shelf without a box.
const DOT: u8 = b'.';

/// The mark of a box that was let go.
const GONE: u8 = b'-';

#[derive(Clone, Copy)]
struct Marks {
    count: usize,
    bytes: [u8; MOST_MARKS],
}

/// What was noted: one mark after the other, and how many lines the trace has.
#[derive(Drop)]
pub struct Notes {
    marks: Cell<Marks>,
    lines: Cell<u32>,
    /// From so many lines on a switched memory shows the other bytes.
    switches_at: u32,
    pub shows_other: Cell<bool>,
}

impl Notes {
    pub fn new(switches_at: u32) -> Self {
        Notes {
            marks: Cell::new(Marks {
                count: 0,
                bytes: [DOT; MOST_MARKS],
            }),
            lines: Cell::new(0),
            switches_at,
            shows_other: Cell::new(switches_at == 0),
        }
    }

    /// The marks, in their order, with or without those of lines.
    pub fn text(&self, alloc: Global, has_lines: bool) -> Result<String, AllocError> {
        let marks = self.marks.get();
        let mut text = String::new(alloc);
        for mark in marks.bytes.iter().take(marks.count) {
            if has_lines || *mark != DOT {
                text.push(char::from(*mark))?;
            }
        }
        Ok(text)
    }

    fn add(&self, mark: u8) {
        let mut marks = self.marks.get();
        let count = marks.count;
        if let Some(place) = marks.bytes.get_mut(count) {
            *place = mark;
            marks.count = count.saturating_add(1);
            self.marks.set(marks);
        }
    }

    fn add_line(&self) {
        let lines = self.lines.get().saturating_add(1);
        self.lines.set(lines);
        self.add(DOT);
        if lines == self.switches_at {
            self.shows_other.set(true);
        }
    }
}

/// A box that notes its mark at each step, the first byte that it keeps where it is woken with one, and its end.
pub struct Noting<'a> {
    applet: Box<dyn Applet>,
    mark: u8,
    notes: &'a Notes,
}

impl<'a> Noting<'a> {
    /// The box of a shelf, whose mark is `A` on shelf 0, `B` on shelf 1, and so on.
    pub fn new(applet: Box<dyn Applet>, shelf: u8, notes: &'a Notes) -> Self {
        Noting {
            applet,
            mark: shelf.saturating_add(b'A'),
            notes,
        }
    }
}

impl Applet for Noting<'_> {
    ghost mind = { λ noting. (Applet-box noting.applet).mind noting.applet.value };

    fn kind(&self) -> u8 {
        self.applet.kind()
    }

    fn wake(&mut self, kept: &Kept) {
        if let [first, ..] = kept.as_slice() {
            self.notes.add(*first);
        }
        self.applet.wake(kept)
    }

    fn step(&mut self, stimulus: &Stimulus) -> Act {
        self.notes.add(self.mark);
        self.applet.step(stimulus)
    }
}

impl Drop for Noting<'_> {
    fn drop(self) {
        let Noting {
            applet: _,
            mark: _,
            notes,
        } = self;
        notes.add(GONE);
    }
}

/// The mark of the box on each shelf, with a dot where there is none, up to the last box.
pub fn marks_of(alloc: Global, cast: &[Option<Noting<'_>>]) -> Result<String, AllocError> {
    let mut marks = String::new(alloc);
    for place in cast {
        marks.push(match place {
            Some(noting) => char::from(noting.mark),
            None => char::from(DOT),
        })?;
    }
    String::from_str(alloc, marks.as_str().trim_end_matches('.'))
}

/// A sink that notes each line.
#[derive(Drop)]
pub struct NotingSink<'a> {
    pub sink: ListSink,
    pub notes: &'a Notes,
}

impl Sink for NotingSink<'_> {
    ghost faults = { λ noting. ⟦<ListSink as Sink>⟧.faults noting.sink };

    ghost taken = { λ noting. ⟦<ListSink as Sink>⟧.taken noting.sink };

    fn put(&mut self, part: &[u8]) -> Result<(), Failed> {
        self.notes.add_line();
        self.sink.put(part)
    }
}
