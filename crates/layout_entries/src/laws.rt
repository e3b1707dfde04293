//! What holds of the layout. The functions do nothing: each one's contract is the law.
ghost use Rattle.layout_entries.specs.Laws.{NodesAreReadBack, PinsAreReadBack, RowsAreReadBack, KeepsBytesBeside, ChangesBytesAround, ChangesOneNode, ChangesOnePin, ChangesOneRow, ChangesOneLongRow, ChangesWhatIsKept, RereadsOneNode, RereadsOnePin, RereadsOneRow, ChangesSequence, ChangesVersion, KeepsTable};

/// Each entry is read back from the bytes that it is spelled in.
pub fn entries_are_read_back()
    ensures nodes { NodesAreReadBack }
    ensures pins { PinsAreReadBack }
    ensures rows { RowsAreReadBack }
{}

/// A piece changes the bytes that it is put over, and no others.
pub fn pieces_change_their_bytes()
    ensures beside { KeepsBytesBeside }
    ensures around { ChangesBytesAround }
{}

/// A commit of what one writer adds changes that entry of the table in the fields that are written, and nothing else; a
/// commit of bytes of the files changes nothing of the table.
pub fn commits_change_one_entry()
    ensures node { ChangesOneNode }
    ensures pin { ChangesOnePin }
    ensures row { ChangesOneRow }
    ensures long_row { ChangesOneLongRow }
    ensures kept { ChangesWhatIsKept }
    ensures sequence { ChangesSequence }
    ensures version { ChangesVersion }
    ensures files { KeepsTable }
{}

/// A commit of any bytes that `node_write`, `pin_write` or `row_write` adds, also of some that cut a field, changes that
/// entry of the table to the one that its bytes then spell, and nothing else.
pub fn commits_of_bytes_change_one_entry()
    ensures node { RereadsOneNode }
    ensures pin { RereadsOnePin }
    ensures row { RereadsOneRow }
{}
