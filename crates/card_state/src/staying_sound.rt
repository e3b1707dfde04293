//! Which changes leave a state sound. The function does nothing: its contract is the law.
ghost use Rattle.card_state.specs.StayingSound.{FileFits, FileMayGo, FileAnewFits, RowFits, InstalledRowFits, RowAnewFits, RowMayGo};

/// A sound state is sound still with one file more or less, and with one row more or less, where this file and this row have
/// room among the others.
pub fn states_stay_sound()
    ensures file { FileFits }
    ensures file_anew { FileAnewFits }
    ensures no_file { FileMayGo }
    ensures row { RowFits }
    ensures installed { InstalledRowFits }
    ensures row_anew { RowAnewFits }
    ensures no_row { RowMayGo }
{}
