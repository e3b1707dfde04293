//! The laws. The functions do nothing: each one's contract is the law.
ghost use Rattle.layout_laws.specs.ChangeLaws.{ChangesFile, AddsFile, RereadsFile, ChangesPin, AddsPin, RereadsPin, ChangesRow, AddsRow, InstallsRow, RereadsRow, ChangesKeptBytes, ChangesBytesApart, ChangesNextSequence, ReadsBytes, ReadsRecord, WritesBytes, WritesRecord, WritesNewestRecord, KeepsState};

use layout_entries::{
    commits_change_one_entry, commits_of_bytes_change_one_entry, pieces_change_their_bytes,
};

/// A commit of a file's entry changes, adds or removes that file.
pub fn commits_change_one_file()
    ensures changed { ChangesFile }
    ensures added { AddsFile }
    ensures reread { RereadsFile }
{
    commits_change_one_entry();
    commits_of_bytes_change_one_entry();
    pieces_change_their_bytes();
}

/// A commit of a PIN slot changes, adds or removes that PIN.
pub fn commits_change_one_pin()
    ensures changed { ChangesPin }
    ensures added { AddsPin }
    ensures reread { RereadsPin }
{
    commits_change_one_entry();
    commits_of_bytes_change_one_entry();
    pieces_change_their_bytes();
}

/// A commit of a row changes, adds or removes that row, and one of the next sequence number changes that.
pub fn commits_change_one_row()
    ensures changed { ChangesRow }
    ensures added { AddsRow }
    ensures installed { InstallsRow }
    ensures reread { RereadsRow }
    ensures kept { ChangesKeptBytes }
    ensures apart { ChangesBytesApart }
    ensures sequence { ChangesNextSequence }
{
    commits_change_one_entry();
    commits_of_bytes_change_one_entry();
    pieces_change_their_bytes();
}

/// A commit of bytes inside a file changes what that file holds; bytes of no file don't count.
pub fn commits_change_what_a_file_holds()
    ensures bytes { WritesBytes }
    ensures record { WritesRecord }
    ensures newest { WritesNewestRecord }
    ensures free { KeepsState }
{
    commits_change_one_entry();
    pieces_change_their_bytes();
}

/// The bytes at a file's place are what it holds: those of a transparent file from an offset on, and each record.
pub fn files_are_read()
    ensures bytes { ReadsBytes }
    ensures record { ReadsRecord }
{}
