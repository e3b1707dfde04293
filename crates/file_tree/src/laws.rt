//! What holds of the table of a card. The functions do nothing.
ghost use Rattle.file_model.specs.Files.{descriptors_of};
ghost use Rattle.file_model.specs.Selections.{IsSelection};
ghost use Rattle.file_tree.specs.Tables.{IsCardTable, HaveParentsFirst, MayBeSelected, HaveShortIds};

use card_state::Loaded;
use file_model::{Selection, files_are_found};

/// Each file but the MF lies in a DF with a smaller number.
pub fn parents_come_first(loaded: &Loaded)
    requires { IsCardTable loaded.now }
    ensures { HaveParentsFirst (descriptors_of loaded.now) }
{
    files_are_found();
}

/// Each file may be selected: an EF lies in a DF.
pub fn files_may_be_selected(loaded: &Loaded)
    requires { IsCardTable loaded.now }
    ensures { MayBeSelected (descriptors_of loaded.now) }
{
    files_are_found();
}

/// A short file identifier is at most 30.
pub fn short_identifiers_fit(loaded: &Loaded)
    requires { IsCardTable loaded.now }
    ensures { HaveShortIds (descriptors_of loaded.now) }
{
    files_are_found();
}

/// The MF is there to be selected.
pub fn start_is_lawful(loaded: &Loaded)
    requires { IsCardTable loaded.now }
    ensures { IsSelection (descriptors_of loaded.now) Selection.AT_START }
{
    files_are_found();
}
