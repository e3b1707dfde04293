//! The applets that the program gives a card, each in its box.
ghost use Rattle.std.specs.Prelude.{◌≡◌, ◌≤◌, ◌+◌, ◌++◌, [], ◌∷◌, length, map, Some, OnOk};
ghost use Rattle.std.specs.List.{range_with_len};
ghost use Rattle.card_state.specs.declared.sizes.TheConstants.{LAST_KIND};
ghost use Rattle.applet_trait.specs.Minds.{minds_of};
ghost use Rattle.boxed_applets.specs.Casts.{applet_on, kind_for};

use applet_trait::Applet;
use card_state::sizes::{LAST_KIND, ROW_COUNT};
use std::alloc::AllocError;

/// How many kinds take the shelves in turn.
pub const IN_TURN: usize = 7;

/// The kind of the applet that the program has on a shelf, from 0 on: the first seven kinds in turn, kind 1 on shelf 0 and again on
/// shelf 7; each further kind has one shelf in their place, from the last one down.
#[tactic(auto, unfolding(crate::specs::Casts::kind_for))]
pub fn kind_for(shelf: usize) -> u8
    ensures value { result ≡ kind_for shelf }
    ensures from_1 { 1 ≤ result }
    ensures up_to_last { result ≤ LAST_KIND }
{
    if shelf < ROW_COUNT && ROW_COUNT + IN_TURN <= shelf + usize::from(LAST_KIND) {
        (ROW_COUNT + IN_TURN - shelf) as u8
    } else {
        (shelf % IN_TURN) as u8 + 1
    }
}

/// The applet of a shelf, of the kind that `kind_for` says, in a box that `$alloc` gives. It keeps nothing yet. With `|applet| ..` what
/// comes of it is done with the box, and else it is the box.
///
/// It is a macro, since a function may not make such a box and hand it out: who calls it makes the box, imports `Applet`, and answers
/// a Result, since there may be no memory for the box.
#[macro_export]
macro_rules! boxed_applet {
    ($alloc:expr, $shelf:expr) => {
        $crate::boxed_applet!($alloc, $shelf, |applet| applet)
    };
    ($alloc:expr, $shelf:expr, |$applet:ident| $does:expr) => {
        match $crate::kind_for($shelf) {
            1 => $crate::in_box!($alloc, $crate::Greeter::new(), |$applet| $does),
            2 => $crate::in_box!($alloc, $crate::Menu::new(), |$applet| $does),
            3 => $crate::in_box!($alloc, $crate::Clock::new(), |$applet| $does),
            4 => $crate::in_box!($alloc, $crate::Watcher::new(), |$applet| $does),
            5 => $crate::in_box!($alloc, $crate::Barrier::new(), |$applet| $does),
            6 => $crate::in_box!($alloc, $crate::Notebook::new(), |$applet| $does),
            _ => $crate::in_box!($alloc, $crate::Table::new(), |$applet| $does),
        }
    };
}

/// An applet in a box that `$alloc` gives; see `boxed_applet`.
#[macro_export]
macro_rules! in_box {
    ($alloc:expr, $new:expr) => {
        $crate::in_box!($alloc, $new, |applet| applet)
    };
    ($alloc:expr, $new:expr, |$applet:ident| $does:expr) => {{
        let $applet: Box<dyn Applet> = Box::new($alloc, $new)?;
        $does
    }};
}

/// Puts the applet of a shelf after those of the shelves before it.
#[tactic(auto, using(crate::proofs::CastsLemmas::one_more))]
pub fn put_on_shelf<B: Applet>(
    cast: &mut Vec<Option<B>>,
    shelf: usize,
    applet: B,
) -> Result<(), AllocError>
    requires next { length cast.old.items ≡ shelf }
    requires made { minds_of B.mind cast.old.items ≡ map applet_on (range_with_len 0 shelf) }
    requires kind { Some (B.mind applet) ≡ applet_on shelf }
    ensures next { OnOk result (length cast.new.items ≡ shelf + 1) }
    ensures made { OnOk result (minds_of B.mind cast.new.items ≡ map applet_on (range_with_len 0 (shelf + 1))) }
{
    push_applet(cast, applet)
}

fn push_applet<B: Applet>(cast: &mut Vec<Option<B>>, applet: B) -> Result<(), AllocError>
    ensures count { OnOk result (length cast.new.items ≡ length cast.old.items + 1) }
    ensures minds { OnOk result (minds_of B.mind cast.new.items
        ≡ minds_of B.mind cast.old.items ++ Some (B.mind applet) ∷ []) }
{
    cast.push(Some(applet))?;
    Ok(())
}
