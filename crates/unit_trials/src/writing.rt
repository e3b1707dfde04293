//! What may be asked of a store of 65,536 bytes. `stored` asks here before it calls a store, since a row may name any place: these say at run
//! time what the store asks for, and `Full` is also the answer to what may not be asked.
ghost use Rattle.std.specs.Prelude.{◌≡◌, ◌<◌, true, length, All, IfOk, OnOk};
ghost use Rattle.store_form.specs.Pieces.{IsUsable, IsUsablePiece};

use crate::plans::Piece;
use store_form::{OWN_END, OWN_START, Writes};
use uicc_types::Full;

/// The stores of the trials have so many bytes.
pub const SIZE: usize = 65_536;

/// Whether a caller may name so many bytes from this place on.
pub fn is_usable(at: usize, count: usize) -> bool
    ensures { result ≡ true → IsUsable SIZE at count }
{
    count <= SIZE && at <= SIZE - count && (count == 0 || at + count <= OWN_START || OWN_END <= at)
}

// Adds a piece that a commit may have.
fn add(writes: &mut Writes, piece: &Piece) -> Result<(), Full>
    requires { All (IsUsablePiece SIZE) writes.old }
    ensures usable { OnOk result (All (IsUsablePiece SIZE) writes.new) }
    ensures some { OnOk result (0 < length writes.new) }
{
    let bytes = piece.bytes.as_slice();
    if bytes.is_empty() || !is_usable(usize::from(piece.place), bytes.len()) {
        return Err(Full);
    }
    writes.add(piece.place, bytes)
}

/// The writes of a commit of these pieces, where there are any, all usable, and room for them.
pub fn writes_of(pieces: &[Piece]) -> Result<Writes, Full>
    ensures usable { IfOk result (All (IsUsablePiece SIZE)) }
    ensures some { IfOk result (λ writes. 0 < length writes) }
{
    let mut writes = Writes::new();
    for piece in pieces {
        add(&mut writes, piece)?;
    }
    if writes.len() == 0 {
        return Err(Full);
    }
    Ok(writes)
}
