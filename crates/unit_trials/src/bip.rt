//! The terminal's channels of the bearer independent protocol, which stay from row to row.

use crate::rows::Row;
use bip_channels::Bip;
use uicc_types::Octets;

/// `bip new`, `bip command BYTES`, `bip echo CHANNEL COUNT`, `bip cut CHANNEL`: the response, or the event that the card is told of.
pub fn show_channels(channels: &mut Bip, row: &mut Row<'_>) {
    match row.word() {
        "new" => match Bip::new(row.alloc()) {
            Ok(new) => {
                *channels = new;
                row.show("no channel");
            }
            Err(fault) => row.need::<(), _>(Err(fault)),
        },
        "command" => {
            let mut command = Octets::new();
            if command.append(row.all_bytes().as_slice()).is_err() {
                row.reject();
            }
            row.show_bytes("", channels.command(command.as_slice()).as_slice());
        }
        "echo" => {
            let event = channels.echo(row.small_number(), row.number());
            show_told(&event, row);
        }
        "cut" => {
            let event = channels.cut_link(row.small_number());
            show_told(&event, row);
        }
        _ => row.reject(),
    }
}

fn show_told(event: &Option<Octets>, row: &mut Row<'_>) {
    match event {
        Some(event) => row.show_bytes("", event.as_slice()),
        None => row.show("nothing"),
    }
}
