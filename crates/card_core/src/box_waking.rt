//! The boxes of the registered applets.
ghost use Rattle.std.specs.Prelude.{◌≡◌, length, All, IfSome, IfNone, option_map};
ghost use Rattle.card_state.specs.declared.sizes.TheConstants.{ROW_COUNT};
ghost use Rattle.card_state.specs.States.{rows_of};
ghost use Rattle.applet_trait.specs.Minds.{minds_of};
ghost use Rattle.toolkit_model.specs.Commands.{woken_boxes};
ghost use Rattle.card_model.specs.States.{HasBox, IsOfKnownKind, AreOfKnownKinds};
ghost use Rattle.card_core.specs.Boxes.{lacks_box, woken_beside, IsFirstWithoutBox};

use applet_trait::Applet;
use card_state::sizes::ROW_COUNT;
use card_state::{Loaded, Row, states_are_of_entries};

// Whether the applet of a row has no box of its kind. A box is asked for its kind also where no applet is registered, so that
// the kind is known.
fn lacks<B: Applet>(row: &Row, applet: &Option<B>) -> bool
    ensures value { result ≡ lacks_box row.now (option_map B.mind applet.now) }
    ensures kind { IfSome (option_map B.mind applet.now) IsOfKnownKind }
{
    match applet {
        Some(applet) => {
            let kind = applet.kind();
            row.used && kind != row.kind
        }
        None => row.used,
    }
}

/// The smallest shelf on which an applet is registered that has no box of its kind there. Where there is none, each box was asked
/// for its kind, which is a known one.
pub fn first_without_box<B: Applet>(loaded: &Loaded, boxes: &[Option<B>]) -> Option<u8>
    requires { length boxes.now ≡ ROW_COUNT }
    ensures found { IfSome result (IsFirstWithoutBox (rows_of loaded.now) (minds_of B.mind boxes.now)) }
    ensures all { IfNone result (All (HasBox (minds_of B.mind boxes.now)) (rows_of loaded.now)) }
    ensures kinds { IfNone result (AreOfKnownKinds (minds_of B.mind boxes.now)) }
{
    // This call is a law, and does nothing.
    states_are_of_entries();
    let rows = loaded.all_rows();
    for shelf in 0..ROW_COUNT as u8 {
        let at = usize::from(shelf);
        if lacks(&rows[at], &boxes[at]) {
            return Some(shelf);
        }
    }
    None
}

// Wakes the applet of a row, with what the row keeps.
fn wake<B: Applet>(row: &Row, applet: &mut Option<B>)
    ensures { option_map B.mind applet.new ≡ woken_beside row.now (option_map B.mind applet.old) }
{
    if row.used {
        if let Some(applet) = applet {
            applet.wake(&row.kept);
        }
    }
}

/// Wakes the applet of each row, with what the row keeps.
pub fn wake_boxes<B: Applet>(loaded: &Loaded, boxes: &mut [Option<B>])
    requires { length boxes.old ≡ ROW_COUNT }
    ensures { minds_of B.mind boxes.new ≡ woken_boxes (rows_of loaded.now) (minds_of B.mind boxes.old) }
{
    // This call is a law, and does nothing.
    states_are_of_entries();
    let rows = loaded.all_rows();
    for shelf in 0..ROW_COUNT {
        wake(&rows[shelf], &mut boxes[shelf]);
    }
}
