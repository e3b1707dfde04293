//! The file under a device: opened, or made, locked, and filled up.
use std::fs::{File, OpenOptions};
use std::io;
use std::io::{Read, Seek, SeekFrom, Write};
use std::rt::Files;

/// A file that is open as the memory of a card, and what was there before.
#[derive(Debug, Drop)]
pub struct Image {
    pub file: File,
    /// How many bytes it had: 0 also where it was made.
    pub length: u64,
    /// Whether something was written at its beginning.
    pub is_written: bool,
}

/// Opens the file at a path, or makes one, takes the lock on all of it, and fills it up with `FF` to `size` bytes. A longer file
/// stays as it is. Where another process holds the lock, nothing is read or written: two cards over one memory would tear it.
pub fn open_image<R: Files<File = File>>(files: &R, path: &str, size: usize) -> io::Result<Image> {
    let mut file = OpenOptions::new()
        .read(true)
        .write(true)
        .create(true)
        .open(files, path)?;
    file.try_lock()?;
    let is_written = is_written(&mut file)?;
    let length = file.seek(SeekFrom::End(0))?;
    fill_up(&mut file, length, size as u64)?;
    Ok(Image {
        file,
        length,
        is_written,
    })
}

/// A file is looked at and filled up in parts of so many bytes.
const PART_LENGTH: u64 = 512;

/// Whether one of the file's first bytes is not `FF`. What has no first byte to go to, as a pipe, is refused: a read would wait for
/// who writes into it.
fn is_written(file: &mut File) -> io::Result<bool> {
    let _start = file.seek(SeekFrom::Start(0))?;
    let mut part = [0xFF; PART_LENGTH as usize];
    let _length = file.read(&mut part)?;
    Ok(part.iter().any(|byte| *byte != 0xFF))
}

fn fill_up(file: &mut File, length: u64, size: u64) -> io::Result<()> {
    let part = [0xFF; PART_LENGTH as usize];
    let missing = size.saturating_sub(length);
    for _ in 0..missing / PART_LENGTH {
        file.write_all(&part)?;
    }
    file.write_all(&part[..(missing % PART_LENGTH) as usize])?;
    file.sync_all()
}
