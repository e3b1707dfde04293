//! What is read of a journal. The function does nothing: its contract is the law.
ghost use Rattle.update_journal.specs.JournalLaws.{EntriesAreRead, NothingElseIsRead};

/// The bytes that spell the pieces of a commit in a journal are read back as just these pieces, and no other bytes are read so.
pub fn what_is_spelled_is_read()
    ensures entries { EntriesAreRead }
    ensures nothing_else { NothingElseIsRead }
{}
