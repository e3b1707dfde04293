//! How files are found, channels, and the commands on files and PINs.
ghost use Rattle.std.specs.Prelude.{◌≡◌, ◌≤◌, length, true, OnOk};
ghost use Rattle.apdu_form.specs.Classes.{channel_of};
ghost use Rattle.binary_commands.specs.Commands.{IsInPlace, IsSomeCommand};
ghost use Rattle.card_state.specs.Memory.{IsMounted, memory};
ghost use Rattle.file_model.specs.Channels.{is_open};
ghost use Rattle.file_model.specs.Files.{descriptors_of};
ghost use Rattle.file_model.specs.LawfulTrees.{AreSelected};

use access_rules::Verified;
use apdu_form::Command;
use card_layout::{Loaded, Section, format, mount};
use eeprom_model::BenchEeprom;
use file_admin::{create_file, delete_file, resize_file, room};
use file_commands::{
    activate, deactivate, increase, read_binary, read_record, search_record, select, status,
    update_binary, update_record,
};
use file_tree::{Channels, NotFound, Selection, by_path, by_short, find};
use pin_rules::pin_command;
use std::test::Fail;
use store_form::{Store, StoreFault};
use uicc_types::{Answer, FileId};
use update_journal::Journal;

const SEEN: Verified = Verified {
    pin1: false,
    pin2: false,
    adm1: false,
};

/// A command without data.
fn command(ins: u8) -> Command<'static>
    ensures { IsSomeCommand result }
{
    Command {
        class: 0,
        ins,
        p1: 0,
        p2: 0,
        body: &[],
        expected: None,
    }
}

// What the commands require of a mounted memory, of what is selected and of the channels holds in an open card, and isn't shown here
// from a mount alone. So it is required here too, and no test calls these two.

/// Carries out each command on the contents of files.
fn carried_out<S: Store>(
    store: &mut S,
    loaded: &mut Loaded,
    selection: &mut Selection,
    seen: &Verified,
    out: &mut Answer,
) -> Result<(), StoreFault>
    requires place { IsInPlace (memory S.Store store.old loaded.old) selection.old }
{
    select(store, loaded, selection, seen, &command(0xA4), out)?;
    status(store, loaded, selection, seen, &command(0xF2), out)?;
    read_binary(store, loaded, selection, seen, &command(0xB0), out)?;
    update_binary(store, loaded, selection, seen, &command(0xD6), out)?;
    read_record(store, loaded, selection, seen, &command(0xB2), out)?;
    update_record(store, loaded, selection, seen, &command(0xDC), out)?;
    search_record(store, loaded, selection, seen, &command(0xA2), out)?;
    increase(store, loaded, selection, seen, &command(0x32), out)?;
    deactivate(store, loaded, selection, seen, &command(0x04), out)?;
    activate(store, loaded, selection, seen, &command(0x44), out)
}

/// Carries out a command on PINs, or one that makes, deletes or resizes a file.
fn administered<S: Store>(
    store: &mut S,
    loaded: &mut Loaded,
    channels: &mut Channels,
    command: &Command<'_>,
    out: &mut Answer,
) -> Result<(), StoreFault>
    requires mounted { IsMounted (memory S.Store store.old loaded.old) }
    requires selected { AreSelected (descriptors_of loaded.old) channels.old }
    requires open { is_open channels.old (channel_of command.now.class) ≡ true }
    ensures mounted { OnOk result (IsMounted (memory S.Store store.new loaded.new)) }
{
    let mut verified = SEEN;
    match command.ins {
        0x20 => pin_command(store, loaded, &mut verified, command, out),
        0xE0 => create_file(store, loaded, channels, &SEEN, command, out),
        0xE4 => delete_file(store, loaded, channels, &SEEN, command, out),
        _ => resize_file(store, loaded, channels, &SEEN, command, out),
    }
}

/// Whether a card without files has none that is found, and room after its entries.
#[tactic(auto, using(file_tree::proofs::IsCardTableLemmas::files_are_full))]
fn is_blank<S: Store>(store: &mut S, section: &Section) -> bool
    requires { S.byte_count store.old ≡ 65536 }
{
    let mut loaded = Loaded::new();
    if format(store, section).is_err() || store.recover().is_err() {
        return false;
    }
    match mount(store, &mut loaded) {
        Ok(()) => {}
        Err(_) => return false,
    }
    let place: Option<u16> = room(&loaded, 10);
    let found: Result<u8, NotFound> = find(&loaded, &Selection::AT_START, FileId(0x2FE2));
    let by_number = by_path(&loaded, 0, &[0x2F, 0xE2]).or(by_short(&loaded, 0, 1));
    place == Some(3968) && found.is_err() && by_number.is_err()
}

#[test]
fn a_blank_card(rt: HostRuntime) -> Result<(), Fail> {
    let section = Section::new(rt.alloc())?;
    let mut store = Journal::new(BenchEeprom::new(rt.alloc(), 65_536)?);
    assert!(rt; is_blank(&mut store, &section));
    Ok(())
}

/// Opens a channel from the basic one, and answers its number.
fn opened(channels: &mut Channels) -> Option<u8>
    requires { is_open channels.old 0 ≡ true }
{
    channels.open(0)
}

fn is_channel_open(channels: &Channels, number: u8) -> bool {
    channels.is_open(number)
}

fn closed(channels: &mut Channels) -> bool {
    channels.close(1)
}

/// What is selected on the basic channel.
fn selected(channels: &mut Channels) -> (u8, Option<u8>, Option<u8>)
    requires { is_open channels.old 0 ≡ true }
{
    let Selection { df, ef, pointer } = *channels.selection(0);
    (df, ef, pointer)
}
