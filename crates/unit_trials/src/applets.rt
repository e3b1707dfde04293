//! The applets: one of each kind that stays from row to row, those of the shelves, and those in boxes.

use crate::rows::Row;
use crate::turns::{show_act, stimulus};
use applet_trait::Applet;
use boxed_applets::{
    Barrier, Clock, Greeter, Menu, Notebook, Table, Watcher, boxed_applet, in_box,
};
use std::alloc::AllocError;

/// An applet of each kind, and which of them woke last.
#[derive(Drop)]
pub struct Applets {
    greeter: Greeter,
    menu: Menu,
    clock: Clock,
    watcher: Watcher,
    barrier: Barrier,
    notebook: Notebook,
    table: Table,
    awake: Option<Kind>,
}

/// The kinds of applets.
#[derive(Clone, Copy)]
enum Kind {
    Greeter,
    Menu,
    Clock,
    Watcher,
    Barrier,
    Notebook,
    Table,
}

/// The kind with this name.
fn kind_named(name: &str) -> Option<Kind> {
    match name {
        "greeter" => Some(Kind::Greeter),
        "menu" => Some(Kind::Menu),
        "clock" => Some(Kind::Clock),
        "watcher" => Some(Kind::Watcher),
        "barrier" => Some(Kind::Barrier),
        "notebook" => Some(Kind::Notebook),
        "table" => Some(Kind::Table),
        _ => None,
    }
}

/// What a row asks of an applet.
#[derive(Clone, Copy)]
pub enum Asked {
    /// To wake with what it keeps, and to tell its kind.
    Wake,
    /// To take a stimulus.
    Turn,
}

impl Applets {
    /// One of each kind, of which none woke yet.
    pub fn new() -> Applets {
        Applets {
            greeter: Greeter::new(),
            menu: Menu::new(),
            clock: Clock::new(),
            watcher: Watcher::new(),
            barrier: Barrier::new(),
            notebook: Notebook::new(),
            table: Table::new(),
            awake: None,
        }
    }

    /// `applet KIND KEPT`: an applet of the kind wakes with the bytes that it keeps, as a new one does.
    pub fn wake_kind(&mut self, row: &mut Row<'_>) {
        self.awake = kind_named(row.word());
        self.show(Asked::Wake, row);
    }

    /// `wake KEPT`, `on STIMULUS`: what the applet that woke last does.
    pub fn show(&mut self, asked: Asked, row: &mut Row<'_>) {
        match self.awake {
            Some(Kind::Greeter) => show_asked(&mut self.greeter, asked, row),
            Some(Kind::Menu) => show_asked(&mut self.menu, asked, row),
            Some(Kind::Clock) => show_asked(&mut self.clock, asked, row),
            Some(Kind::Watcher) => show_asked(&mut self.watcher, asked, row),
            Some(Kind::Barrier) => show_asked(&mut self.barrier, asked, row),
            Some(Kind::Notebook) => show_asked(&mut self.notebook, asked, row),
            Some(Kind::Table) => show_asked(&mut self.table, asked, row),
            None => row.reject(),
        }
    }
}

fn show_asked<A: Applet>(applet: &mut A, asked: Asked, row: &mut Row<'_>) {
    match asked {
        Asked::Wake => {
            applet.wake(&row.list());
            row.show_number("kind ", applet.kind());
        }
        Asked::Turn => {
            let stimulus = stimulus(row);
            show_act(&applet.step(&stimulus), row);
        }
    }
}

/// `boxed KIND KEPT STIMULUS`: the kind of an applet in a box, and what it does once it woke.
pub fn show_boxed(row: &mut Row<'_>) -> Result<(), AllocError> {
    let alloc = row.alloc();
    let applet = match kind_named(row.word()) {
        Some(Kind::Greeter) => in_box!(alloc, Greeter::new()),
        Some(Kind::Menu) => in_box!(alloc, Menu::new()),
        Some(Kind::Clock) => in_box!(alloc, Clock::new()),
        Some(Kind::Watcher) => in_box!(alloc, Watcher::new()),
        Some(Kind::Barrier) => in_box!(alloc, Barrier::new()),
        Some(Kind::Notebook) => in_box!(alloc, Notebook::new()),
        Some(Kind::Table) => in_box!(alloc, Table::new()),
        None => return Ok(row.reject()),
    };
    show_turn(applet, row);
    Ok(())
}

/// `shelf NUMBER KEPT STIMULUS`: the same of the applet of the program's shelf of this number; `shelf NUMBER`: its kind alone.
pub fn show_shelf(row: &mut Row<'_>) -> Result<(), AllocError> {
    let shelf = usize::from(row.small_number());
    let applet = boxed_applet!(row.alloc(), shelf);
    show_turn(applet, row);
    Ok(())
}

fn show_turn(mut applet: Box<dyn Applet>, row: &mut Row<'_>) {
    row.show_number("kind ", applet.kind());
    if let Some(kept) = row.next() {
        applet.wake(&row.list_in(kept));
        row.show(", ");
        let stimulus = stimulus(row);
        show_act(&applet.step(&stimulus), row);
    }
}
