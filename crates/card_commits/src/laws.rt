//! What is known of a card whose table is known. The functions do nothing: each one's contract is the law.
ghost use Rattle.card_commits.specs.Laws.{TablesTellStates, BytesFillFiles, RecordsFillFiles};

use file_model::files_are_found;
use layout_laws::{cards_are_known, stores_stand};

/// Where a table agrees with its store, it tells of files, PINs and rows what the state tells that the store stands for.
pub fn tables_tell_states()
    ensures { TablesTellStates }
{
    stores_stand();
    cards_are_known();
    files_are_found();
}

/// A transparent file holds as many bytes as its size, and a file with records as many records of one length as it has room
/// for.
pub fn contents_are_whole()
    ensures bytes { BytesFillFiles }
    ensures records { RecordsFillFiles }
{
    stores_stand();
    cards_are_known();
    files_are_found();
}
