//! A shelf that leaves lists of shelves.
ghost use Rattle.std.specs.Prelude.{◌≡◌, ◌==◌, ◌<◌, [], length, map, slice_set, slice_index_or};
ghost use Rattle.std.specs.List.{position_from};
ghost use Rattle.event_dispatch.specs.Indexes.{left_by};

use crate::shelves::Shelves;
use uicc_types::Shelf;

/// The place of a shelf among others.
fn place_among(shelves: &[Shelf], shelf: Shelf) -> Option<usize>
    ensures { result ≡ position_from (λ other. other.0 == shelf.0) 0 shelves.now }
{
    shelves.iter().position(|other| other.0 == shelf.0)
}

/// Takes a shelf out of others, where it stands first; nothing changes where it doesn't.
pub(crate) fn leave(shelves: &mut Shelves, shelf: Shelf)
    ensures { shelves.new ≡ left_by shelf.0 shelves.old }
{
    if let Some(at) = place_among(shelves.as_slice(), shelf) {
        shelves.remove(at);
    }
}

/// Takes a shelf out of one of these lists, as `leave` does.
pub(crate) fn leave_at(lists: &mut [Shelves], at: usize, shelf: Shelf)
    requires { at < length lists.old }
    ensures { lists.new ≡ slice_set lists.old at (left_by shelf.0 (slice_index_or lists.old at [])) }
{
    leave(&mut lists[at], shelf);
}

/// Takes a shelf out of each of these lists, as `leave` does.
pub(crate) fn leave_all(lists: &mut [Shelves], shelf: Shelf)
    ensures { lists.new ≡ map (left_by shelf.0) lists.old }
{
    for shelves in lists.iter_mut() {
        leave(shelves, shelf);
    }
}
