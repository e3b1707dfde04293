//! The laws. The functions do nothing: each one's contract is the law.
ghost use Rattle.layout_laws.specs.StandingLaws.{ChangedFileStands, AddedFileStands, RemovedFileStands, LifeCycleStands, RereadFileStands, ChangedPinStands, AddedPinStands, RereadPinStands, ChangedRowStands, RemovedRowStands, CodesStand, WhatIsKeptStands, RereadRowStands, AddedRowStands, InstalledRowStands, NextSequenceStands, BytesAreRead, RecordIsRead, RingIsRead, WrittenBytesStand, WrittenRecordStands, NewestRecordStands, FreeBytesDontCount};
ghost use Rattle.layout_laws.specs.Known.{StandingIsCard, StandingIsOfTable, NodesAreFiles, SlotsArePins, RowsAreRegistrations, FoundByName, TextsOfTable, RangesAreFree};
ghost use Rattle.layout_laws.specs.Migrating.{LowEndsAreSeen, OthersStay, UpperRowsAreFree, WideVersionStands};
ghost use Rattle.layout_laws.specs.Stores.{AgreeingStands, WrittenStands, OneOfBothStands, PreparedStands, TornStands};

use crate::changes::{
    commits_change_one_file, commits_change_one_pin, commits_change_one_row,
    commits_change_what_a_file_holds, files_are_read,
};
use card_state::{event_bits_are_codes, states_are_of_entries};
use layout_entries::{commits_change_one_entry, entries_are_read_back, pieces_change_their_bytes};

/// The memory that stands for a state is a card with this state, and each of its entries that is used stands for a file, a PIN
/// or a row of it; under a number, a key and on a shelf the state has what the entry stands for, and nothing where it is not
/// used.
pub fn cards_are_known()
    ensures card { StandingIsCard }
    ensures table { StandingIsOfTable }
    ensures files { NodesAreFiles }
    ensures pins { SlotsArePins }
    ensures rows { RowsAreRegistrations }
    ensures names { FoundByName }
    ensures texts { TextsOfTable }
    ensures free { RangesAreFree }
{
    states_are_of_entries();
}

/// After a commit of a file's entry the memory stands for the state with that file, or without it.
pub fn files_stand()
    ensures changed { ChangedFileStands }
    ensures added { AddedFileStands }
    ensures removed { RemovedFileStands }
    ensures life { LifeCycleStands }
    ensures reread { RereadFileStands }
{
    pieces_change_their_bytes();
    commits_change_one_entry();
    commits_change_one_file();
}

/// After a commit of a PIN slot the memory stands for the state with that PIN, or without it.
pub fn pins_stand()
    ensures changed { ChangedPinStands }
    ensures added { AddedPinStands }
    ensures reread { RereadPinStands }
{
    pieces_change_their_bytes();
    commits_change_one_pin();
}

/// After a commit of a row the memory stands for the state with that row, or without it; and so it does for the next sequence
/// number.
pub fn rows_stand()
    ensures changed { ChangedRowStands }
    ensures removed { RemovedRowStands }
    ensures codes { CodesStand }
    ensures kept { WhatIsKeptStands }
    ensures reread { RereadRowStands }
    ensures added { AddedRowStands }
    ensures installed { InstalledRowStands }
    ensures sequence { NextSequenceStands }
{
    entries_are_read_back();
    event_bits_are_codes();
    pieces_change_their_bytes();
    commits_change_one_row();
}

/// The bytes at a file's place are what it holds: those of a transparent file from an offset on, and each record.
pub fn what_files_hold_is_read()
    ensures bytes { BytesAreRead }
    ensures record { RecordIsRead }
    ensures ring { RingIsRead }
{
    files_are_read();
}

/// After a commit of bytes of a file the memory stands for the state in which that file holds them; bytes of no file don't
/// count.
pub fn what_files_hold_stands()
    ensures bytes { WrittenBytesStand }
    ensures record { WrittenRecordStands }
    ensures newest { NewestRecordStands }
    ensures free { FreeBytesDontCount }
{
    pieces_change_their_bytes();
    commits_change_one_entry();
    commits_change_what_a_file_holds();
}

/// What a store stands for after a call: after an Ok of `commit` for the changed state, after a fault of it for that or for the
/// state as it was, and after `prepare` of bytes of no file, however it ended, for the state as it was.
pub fn stores_stand()
    ensures known { AgreeingStands }
    ensures written { WrittenStands }
    ensures fault { OneOfBothStands }
    ensures prepared { PreparedStands }
    ensures torn { TornStands }
{
    what_files_hold_stands();
}

/// A card of version 1 of the layout with files that end low enough is made one of version 2: the rows of the upper shelves are
/// prepared, which changes nothing, and with the version it stands for the migrated state. Any other stays as it is.
pub fn migration_stands()
    ensures seen { LowEndsAreSeen }
    ensures others { OthersStay }
    ensures free { UpperRowsAreFree }
    ensures wide { WideVersionStands }
{
    pieces_change_their_bytes();
    commits_change_one_entry();
    what_files_hold_stands();
}
