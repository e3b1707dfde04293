//! The entry of a file.
ghost use Rattle.std.specs.Prelude.{◌≡◌, ◌<◌};
ghost use Rattle.card_state.specs.Used.{HasNode};
ghost use Rattle.file_model.specs.Files.{descriptor_of, descriptors_of};
ghost use Rattle.file_tree.specs.Tables.{IsNumbered};

use card_state::sizes::NODE_COUNT;
use card_state::{Loaded, Node};
use file_model::{Descriptor, files_are_found};

/// The entry of this file.
pub fn entry_of(loaded: &Loaded, file: &Descriptor) -> Node
    requires { IsNumbered (descriptors_of loaded.now) file.now }
    ensures has { HasNode loaded.now file.now.number result }
    ensures told { descriptor_of file.now.number result ≡ file.now }
    ensures low { file.now.number < NODE_COUNT }
{
    // This call is a law, and does nothing.
    files_are_found();
    let nodes = loaded.all_nodes();
    nodes[usize::from(file.number)]
}
