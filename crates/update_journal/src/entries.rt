//! The pieces of a commit as the journal spells them in its own bytes.
ghost use Rattle.std.specs.Prelude.{◌≡◌, ◌+◌, ◌≤◌, ◌<◌, ◌++◌, length, [], Some, None, MatchOption, IfSome, OnOk, OnErr, All};
ghost use Rattle.store_form.specs.Pieces.{IsUsablePiece, IsWithinBounds};
ghost use Rattle.update_journal.specs.Entries.{entry, entries, first_piece, pieces_in, is_usable};

use store_form::{MOST_BYTES, MOST_PIECES, OWN_END, OWN_START, Writes};
use uicc_types::{ByteList, Full};

/// The entries of the largest commit have so many bytes: a count, and the pieces with four bytes before each.
pub const MOST_ENTRY_BYTES: usize = 1 + 4 * MOST_PIECES + MOST_BYTES;

fn add_entry<const N: usize>(
    spelled: &mut ByteList<N>,
    place: u16,
    bytes: &[u8],
) -> Result<(), Full>
    requires short { length bytes.now ≤ MOST_BYTES }
    ensures ok { OnOk result (spelled.new ≡ spelled.old ++ entry (record { place = place; bytes = bytes.now })) }
    ensures full { OnErr result (N < length spelled.old + 4 + length bytes.now) }
{
    spelled.append(&place.to_be_bytes())?;
    spelled.append(&(bytes.len() as u16).to_be_bytes())?;
    spelled.append(bytes)
}

/// Spells the entries of these writes in an empty list. `Full` exactly where they have more than `N` bytes; the list then
/// holds any.
pub fn spell<const N: usize>(writes: &Writes, spelled: &mut ByteList<N>) -> Result<(), Full>
    requires empty { spelled.old ≡ [] }
    ensures ok { OnOk result (spelled.new ≡ entries writes.now) }
    ensures full { OnErr result (N < length (entries writes.now)) }
    ensures fits { length (entries writes.now) ≤ MOST_ENTRY_BYTES }
    ensures bounds { IsWithinBounds writes.now }
{
    let count = writes.len();
    spelled.append(&[count as u8])?;
    for at in 0..count {
        let (place, bytes) = writes.piece(at);
        add_entry(spelled, place, bytes)?;
    }
    Ok(())
}

// The piece at the front of these bytes, and what stands after it.
fn read_entry(bytes: &[u8]) -> Option<(u16, &[u8], &[u8])>
    ensures { MatchOption result (first_piece bytes.now ≡ None)
        (λ read. first_piece bytes.now ≡ Some (record { place = read.0; bytes = read.1.now }, read.2.now)) }
{
    let [p0, p1, l0, l1, rest @ ..] = bytes else {
        return None;
    };
    let place = u16::from_be_bytes([*p0, *p1]);
    let length = usize::from(u16::from_be_bytes([*l0, *l1]));
    if rest.len() < length {
        return None;
    }
    let (piece, behind) = rest.split_at(length);
    Some((place, piece, behind))
}

// Whether a commit may have this piece in a memory of this size.
fn may_be_written(size: usize, place: u16, count: usize) -> bool
    ensures { result ≡ is_usable size place count }
{
    let start = usize::from(place);
    0 < count
        && count <= size
        && start <= size - count
        && (start + count <= OWN_START || OWN_END <= start)
}

/// The pieces that an entry area spells, if they are well formed in a memory of this size.
pub fn read_entries(area: &[u8], size: usize) -> Option<Writes>
    ensures value { result ≡ pieces_in size area.now }
    ensures usable { IfSome result (λ writes. All (IsUsablePiece size) writes) }
{
    let (count, mut rest) = area.split_first()?;
    if *count == 0 || usize::from(*count) > MOST_PIECES {
        return None;
    }
    let mut writes = Writes::new();
    for _ in 0..*count {
        let (place, bytes, behind) = read_entry(rest)?;
        if !may_be_written(size, place, bytes.len()) {
            return None;
        }
        match writes.add(place, bytes) {
            Ok(()) => rest = behind,
            Err(Full) => return None,
        }
    }
    Some(writes)
}
