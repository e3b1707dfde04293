//! What holds of states and of tables of entries. The functions do nothing: each one's contract is the law.
ghost use Rattle.card_state.specs.Events.{SettingAddsCode, ClearingRemovesCode, CodesAreKnown};
ghost use Rattle.card_state.specs.NewFiles.{NewFilesAreBlank};
ghost use Rattle.card_state.specs.StateLaws.{FilesAreEntries, PinsAreEntries, RowsAreEntries, ComesFromEntries, StatesAreOfTables, FieldsAreOfTables, TextsAreCounted};

/// A bit of a row's events that is set adds its code to those of the row, and one that is cleared removes it; no other code
/// comes or goes.
pub fn event_bits_are_codes()
    ensures set { SettingAddsCode }
    ensures clear { ClearingRemovesCode }
{}

/// Bytes FF are what a new file of any structure holds.
pub fn new_files_are_blank()
    ensures { NewFilesAreBlank }
{}

/// What a state has under a number, a key and on a shelf is what the table's entry stands for, and there is none where the
/// entry is not used; each that it has is an entry's. Its PINs, its rows and all of a file but what it holds are the table's
/// alone.
pub fn states_are_of_entries()
    ensures files { FilesAreEntries }
    ensures pins { PinsAreEntries }
    ensures rows { RowsAreEntries }
    ensures from { ComesFromEntries }
    ensures tables { StatesAreOfTables }
    ensures fields { FieldsAreOfTables }
    ensures texts { TextsAreCounted }
{}

/// Whatever the bits of a row's events, its codes are of the table, ascending, each once.
pub fn event_codes_are_known()
    ensures { CodesAreKnown }
{}
