//! What the memory stands for after a file was made, resized or deleted. The function does nothing: its contract is the law.
ghost use Rattle.file_model.specs.Deleting.{deleted};
ghost use Rattle.file_admin.specs.WrittenFiles.{RoomsAreFree, MadeBytesAreFree, MadeFilesStand, GrownFilesStand, ShrunkFilesStand, DeletedFilesStand};

use card_state::states_stay_sound;
use layout_laws::{cards_are_known, files_stand, what_files_hold_stands};

/// A place at which bytes may stand is free for them. Once they are prepared there and the entry is committed, the memory stands
/// for the card with the file that is made or has grown; a file that shrinks and one that is deleted need the commit alone.
pub fn written_files_stand()
    ensures free { RoomsAreFree }
    ensures beside { MadeBytesAreFree }
    ensures made { MadeFilesStand }
    ensures grown { GrownFilesStand }
    ensures shrunk { ShrunkFilesStand }
    ensures deleted { DeletedFilesStand }
{
    cards_are_known();
    files_stand();
    what_files_hold_stands();
    states_stay_sound();
}
