//! What holds of the table of a card. The function does nothing.
ghost use Rattle.file_model.specs.Files.{descriptors_of};
ghost use Rattle.file_tree.specs.Tables.{IsCardTable};
ghost use Rattle.record_commands.specs.Tables.{HaveRecords};

use card_state::Loaded;
use file_model::files_are_found;

/// A file with records has at least one.
pub fn records_are_there(loaded: &Loaded)
    requires { IsCardTable loaded.now }
    ensures { HaveRecords (descriptors_of loaded.now) }
{
    files_are_found();
}
