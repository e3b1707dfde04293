//! What is written for a file that is made.
ghost use Rattle.std.specs.Prelude.{◌≡◌, ◌<◌, List, ℕ, IfSome, option_map};
ghost use Rattle.card_state.specs.Ranges.{HasNodeRanges};
ghost use Rattle.card_state.specs.States.{state_of};
ghost use Rattle.file_model.specs.Creating.{file_made, place_for, made_in};
ghost use Rattle.file_admin.specs.NewEntries.{node_made};

use crate::rooms::{free_number, room};
use card_state::sizes::NODE_COUNT;
use card_state::{Loaded, Node, new_df, new_ef, size_for};
use file_model::NewFile;

/// An entry, and the number of its file.
#[derive(Clone, Copy, Debug)]
pub struct NewEntry {
    pub number: u8,
    pub node: Node,
}

// The entry of a file in this DF, whose bytes, if it is an EF, begin at this place.
fn new_node(df: u8, place: u16, file: &NewFile) -> Node
    ensures value { result ≡ node_made df place file.now }
    ensures ranges { HasNodeRanges result }
{
    match *file {
        NewFile::Df { id } => new_df(df, id),
        NewFile::Ef {
            id,
            shape,
            short,
            rule,
        } => {
            let rule = match rule {
                Some(rule) => Some((rule.arr, rule.number)),
                None => None,
            };
            new_ef(place, df, id, shape, short, rule)
        }
    }
}

// Where there is room for its bytes. A DF has none, and 0 stands for its place.
fn place_for(loaded: &Loaded, file: &NewFile) -> Option<u16>
    ensures { (content : List ℕ) → result ≡ place_for (state_of loaded.now content) file.now }
{
    match *file {
        NewFile::Df { id: _ } => Some(0),
        NewFile::Ef {
            id: _,
            shape,
            short: _,
            rule: _,
        } => room(loaded, size_for(shape)),
    }
}

/// The entry that CREATE FILE writes for a file in this DF, and its number. None exactly where there is no room for it.
pub fn new_entry(loaded: &Loaded, df: u8, file: &NewFile) -> Option<NewEntry>
    ensures made { (content : List ℕ) → made_in (state_of loaded.now content) df file.now ≡ option_map
        (λ entry. file_made entry.number df entry.node.place file.now) result }
    ensures node { IfSome result (λ entry. entry.node ≡ node_made df entry.node.place file.now) }
    ensures ranges { IfSome result (λ entry. HasNodeRanges entry.node) }
    ensures low { IfSome result (λ entry. entry.number < NODE_COUNT) }
{
    let place = place_for(loaded, file)?;
    let number = free_number(loaded, df)?;
    Some(NewEntry {
        number,
        node: new_node(df, place, file),
    })
}
