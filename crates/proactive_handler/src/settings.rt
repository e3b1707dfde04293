//! What stays the same while one applet runs (`Setting` of `toolkit_model`). `running` makes it as the run begins; whether a command is
//! admitted, and what an act does, is told by it.

use terminal_profile::Profile;
use uicc_types::Shelf;

/// The shelf of the applet that runs, the profile that the handset sent, if it sent one, and whether call control began the run.
#[derive(Clone, Copy)]
pub struct Setting {
    pub shelf: Shelf,
    pub profile: Option<Profile>,
    pub in_call: bool,
}
