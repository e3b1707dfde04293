//! Which unit the first word of a row names, and what the rows of a table work on.

use crate::apdus::{show_answer, show_apdu, show_new_answer};
use crate::applets::{Applets, Asked, show_boxed, show_shelf};
use crate::bip::show_channels;
use crate::commands::{
    show_envelope, show_found_details, show_read_command, show_response, show_sameness,
};
use crate::counts::show_counts;
use crate::entries::show_entry;
use crate::events::show_event;
use crate::handsets::show_phone;
use crate::lines::{show_line, show_lines};
use crate::lists::show_list;
use crate::loads::{show_fixed, show_load, show_made_line};
use crate::places::{show_identifier, show_kind, show_place};
use crate::profiles::show_profile;
use crate::registry::{Change, make_registry, show_change, show_delete, show_install, show_menu};
use crate::requests::{show_made, show_request};
use crate::rows::Row;
use crate::rules::show_rule;
use crate::scripts::{show_box, show_script};
use crate::sections;
use crate::stands::{Stand, on_file};
use crate::streams::{show_input, show_output, show_reader, show_sink, show_source};
use crate::sweeps::show_sweep;
use crate::tables::{show_fault, show_table};
use crate::timers::show_timers;
use crate::tlv::{show_first, show_objects, show_template, show_written};
use crate::traces::{show_note, show_trace};
use crate::writes::show_writes;
use bip_channels::Bip;
use card_state::Loaded;
use layout_section::Section;
use std::alloc::Global;
use std::cell::Cell;
use std::fs::File;
use std::rt::Files;
use store_form::Writes;
use terminal_side::Phone;
use timer_table::Timers;
use uicc_types::OutOfMemory;

/// The values that stay from one row of a table to the next.
#[derive(Drop)]
pub struct Bench<'a> {
    applets: Applets,
    timers: Timers,
    /// The terminal's channels.
    channels: Bip,
    /// The card that is described.
    section: Section,
    /// The table of entries of a card.
    table: Loaded,
    writes: Writes,
    /// A device or a store.
    stand: Stand<'a>,
    /// Whether a switched device shows the other bytes.
    shows_other: &'a Cell<bool>,
    phone: Phone,
}

impl<'a> Bench<'a> {
    pub fn new(alloc: Global, shows_other: &'a Cell<bool>) -> Result<Bench<'a>, OutOfMemory> {
        Ok(Bench {
            applets: Applets::new(),
            timers: Timers::new(),
            channels: Bip::new(alloc)?,
            section: Section::new(alloc)?,
            table: Loaded::new(),
            writes: Writes::new(),
            stand: Stand::Nothing,
            shows_other,
            phone: Phone::new(),
        })
    }
}

/// Carries out a row: its unit is its first word.
pub fn carry_out<R: Files<File = File> + AllocGlobal>(
    rt: &R,
    bench: &mut Bench<'_>,
    row: &mut Row<'_>,
) {
    match row.word() {
        "image" => bench.stand.make_image(rt, row),
        "file" => on_file(rt, row),
        unit => on_wire(bench, unit, row),
    }
}

/// The units of the wire and of the toolkit's vocabulary.
fn on_wire(bench: &mut Bench<'_>, unit: &str, row: &mut Row<'_>) {
    match unit {
        "apdu" => show_apdu(row),
        "answer" => show_answer(row),
        "new-answer" => show_new_answer(row),
        "list" => show_list(row),
        "rule" => show_rule(row),
        "objects" => show_objects(row),
        "template" => show_template(row),
        "first" => show_first(row),
        "written" => show_written(row),
        "command" => show_read_command(row),
        "details" => show_found_details(row),
        "same" => show_sameness(row),
        "response" => show_response(row),
        "envelope" => show_envelope(row),
        "profile" => show_profile(row),
        _ => on_toolkit(bench, unit, row),
    }
}

/// The units of the toolkit and of the handset.
fn on_toolkit(bench: &mut Bench<'_>, unit: &str, row: &mut Row<'_>) {
    match unit {
        "timers" => show_timers(&mut bench.timers, row),
        "bip" => show_channels(&mut bench.channels, row),
        "applet" => bench.applets.wake_kind(row),
        "wake" => bench.applets.show(Asked::Wake, row),
        "on" => bench.applets.show(Asked::Turn, row),
        "boxed" => {
            let outcome = show_boxed(row);
            row.need(outcome);
        }
        "shelf" => {
            let outcome = show_shelf(row);
            row.need(outcome);
        }
        "registry" => make_registry(&mut bench.table, row),
        "install" => show_install(&mut bench.table, row),
        "delete" => show_delete(&mut bench.table, row),
        "register" => show_change(&mut bench.table, Change::Register, row),
        "deregister" => show_change(&mut bench.table, Change::Deregister, row),
        "menu" => show_menu(&bench.table, row),
        "phone" => {
            let outcome = show_phone(&mut bench.phone, row);
            row.need(outcome);
        }
        _ => on_text(bench, unit, row),
    }
}

/// The units of the text that goes in and out of a run.
fn on_text(bench: &mut Bench<'_>, unit: &str, row: &mut Row<'_>) {
    match unit {
        "line" => show_line(row),
        "lines" => show_lines(row),
        "trace" => {
            let outcome = show_trace(row);
            row.need(outcome);
        }
        "note" => {
            let outcome = show_note(row);
            row.need(outcome);
        }
        "reader" => show_reader(row),
        "source" => show_source(row),
        "input" => show_input(row),
        "sink" => show_sink(row),
        "output" => show_output(row),
        "words" => show_request(row),
        "made" => show_made(row),
        "script" => show_script(row),
        "box" => show_box(row),
        "counts" => show_counts(row),
        "made-line" => show_made_line(row),
        "load" => show_load(row),
        "fixed" => show_fixed(row),
        _ => on_layout(bench, unit, row),
    }
}

/// The units of the layout and of a memory.
fn on_layout(bench: &mut Bench<'_>, unit: &str, row: &mut Row<'_>) {
    match unit {
        "section" => sections::show_line(&mut bench.section, row),
        "table" => show_table(&bench.table, row),
        "fault" => show_fault(row),
        "entry" => show_entry(&mut bench.writes, row),
        "writes" => show_writes(&mut bench.writes, row),
        "event" => show_event(row),
        "kind" => show_kind(row),
        "identifier" => show_identifier(row),
        "place" => show_place(row),
        "sweep" => show_sweep(row),
        "bench" => bench.stand.make_bench(row),
        "switched" => bench.stand.make_switched(bench.shows_other, row),
        "show" => bench.shows_other.set(row.either("other", "own")),
        "journal" | "pages" | "down" => bench.stand.move_to(unit, row),
        _ => bench
            .stand
            .carry_out(&bench.section, &mut bench.table, unit, row),
    }
}
