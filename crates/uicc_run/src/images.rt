//! The file of an image, and what is told of it.

use command_line::Mode;
use eeprom_model::{Image, open_image};
use std::fs::File;
use std::io::{Error, ErrorKind};
use std::rt::Files;

/// Whether the card is made anew or is the one that the file holds.
#[derive(Clone, Copy, PartialEq, Eq)]
pub enum Use {
    Made,
    Opened,
}

/// What a run in this mode makes of its image.
pub fn use_of(mode: Mode) -> Use {
    match mode {
        Mode::Open => Use::Opened,
        Mode::Play | Mode::Phone { .. } | Mode::Load { .. } | Mode::Bip => Use::Made,
    }
}

/// Opens the file of an image. Standard error is told why it can't be opened, and what of it is made or written over.
pub fn image_file<H: Files<File = File> + Eprint>(
    rt: &H,
    path: &str,
    size: usize,
    wanted: Use,
) -> Option<File> {
    match open_image(rt, path, size) {
        Ok(image) => {
            tell(rt, path, size, wanted, &image);
            let Image { file, .. } = image;
            Some(file)
        }
        Err(error) => {
            refuse(rt, path, &error);
            None
        }
    }
}

fn tell<H: Eprint>(rt: &H, path: &str, size: usize, wanted: Use, image: &Image) {
    let length = image.length;
    let _ = match wanted {
        Use::Made if image.is_written => {
            eprintln!(rt; "uicc_run: {path}: what it held is written over by a new card")
        }
        Use::Opened if length == 0 => {
            eprintln!(rt;
                "uicc_run: {path}: it was not there, or empty, and is made; it holds no card"
            )
        }
        Use::Opened if length < size as u64 => {
            eprintln!(rt; "uicc_run: {path}: it is filled up from {length} to {size} bytes")
        }
        Use::Made | Use::Opened => Ok(()),
    };
}

fn refuse<H: Eprint>(rt: &H, path: &str, error: &Error) {
    let _ = match error.kind() {
        ErrorKind::WouldBlock => {
            eprintln!(rt; "uicc_run: {path}: another program has it open as the memory of a card")
        }
        _ => eprintln!(rt; "uicc_run: {path}: {error}"),
    };
}
