//! Which contents stand for a state, and that it is sound. The functions do nothing: each one's contract is the law.
ghost use Rattle.card_state.specs.Holding.{StandingFilesHold, StandingFilesHaveBytes, StandingRecordsAreFull, StandingKeysAreOwn};
ghost use Rattle.card_state.specs.SoundnessLaws.{StandingIsSound, SoundStands, RecordsAreShort, RefusedAtFirst};

/// A content stands for no other state than that of its entries, and this is sound: what a card is opened with keeps the
/// rules of its files, PINs and registered applets.
pub fn standing_is_sound()
    ensures sound { StandingIsSound }
    ensures short_records { RecordsAreShort }
{}

/// A content stands exactly where it is well formed and the state of its entries is sound: no content with a sound state is
/// refused but for its first bytes and for what its entries say beside that state.
pub fn sound_stands()
    ensures { SoundStands }
{}

/// A content is refused with the place of the first check that fails, and only so.
pub fn refused_at_first()
    ensures { RefusedAtFirst }
{}

/// A file of a card that stands holds what its entry says: a transparent file as many bytes as its size, one with records
/// as many as fill its size, each of its record length. Its bytes are among those of the files.
pub fn standing_files_hold()
    ensures held { StandingFilesHold }
    ensures bytes { StandingFilesHaveBytes }
    ensures records { StandingRecordsAreFull }
{}

/// Each PIN of a card that stands is in the slot of its key.
pub fn standing_keys_are_own()
    ensures { StandingKeysAreOwn }
{}
