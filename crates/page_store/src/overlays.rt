//! Pieces of a commit, as far as they lie in one page.
ghost use Rattle.std.specs.Prelude.{◌≡◌, ℕ, ◌+◌, ◌*◌, ◌≤◌, ◌<◌, List, length, slice_range, All};
ghost use Rattle.list_laws.specs.Patches.{patched};
ghost use Rattle.store_form.specs.Pieces.{applied, IsUsablePiece, IsWithinBounds};
ghost use Rattle.page_store.specs.Commits.{touches, is_touched, done_count, bytes_of_page};

use crate::places::{CONTENT_SIZE, PAGES};
use eeprom_model::PAGE_LENGTH;
use store_form::Writes;

// Whether some of these bytes lie in the page.
fn lies_in(page: usize, place: u16, bytes: &[u8]) -> bool
    requires { page < PAGES }
    ensures { result ≡ touches page (record { place = place; bytes = bytes.now }) }
{
    let start = PAGE_LENGTH * page;
    let place = usize::from(place);
    (start < place || start - place < bytes.len()) && place < start + PAGE_LENGTH
}

/// Whether a commit of these pieces touches the page.
pub fn is_touched(writes: &Writes, page: usize) -> bool
    requires { page < PAGES }
    ensures value { result ≡ is_touched writes.now page }
    ensures bounds { IsWithinBounds writes.now }
{
    for at in 0..writes.len() {
        let (place, bytes) = writes.piece(at);
        if lies_in(page, place, bytes) {
            return true;
        }
    }
    false
}

// Puts the bytes in that lie in the page.
fn put(page: &mut [u8; PAGE_LENGTH], start: usize, place: usize, bytes: &[u8])
    requires place { place + length bytes.now ≤ CONTENT_SIZE }
    requires start { start + PAGE_LENGTH ≤ CONTENT_SIZE }
    ensures { (held : List ℕ) → length held ≡ CONTENT_SIZE → page.old ≡ slice_range held start (start + PAGE_LENGTH)
        → page.new ≡ slice_range (patched place bytes.now held) start (start + PAGE_LENGTH) }
{
    let from = place.max(start);
    let to = (place + bytes.len()).min(start + PAGE_LENGTH);
    if to <= from {
        return;
    }
    page[from - start..to - start].copy_from_slice(&bytes[from - place..to - place]);
}

/// Puts in what the pieces have in the page.
pub fn put_pieces(bytes: &mut [u8; PAGE_LENGTH], page: usize, writes: &Writes)
    requires page { page < PAGES }
    requires usable { All (IsUsablePiece CONTENT_SIZE) writes.now }
    ensures { (held : List ℕ) → length held ≡ CONTENT_SIZE → bytes.old ≡ bytes_of_page held page
        → bytes.new ≡ bytes_of_page (applied writes.now held) page }
{
    for at in 0..writes.len() {
        let (place, piece) = writes.piece(at);
        put(bytes, PAGE_LENGTH * page, usize::from(place), piece);
    }
}

/// A commit touches at most so many pages that the map names.
pub const MOST_TOUCHED: usize = 17;

/// Does nothing. A commit touches at most 17 pages that the map names.
pub fn touches_few(writes: &Writes)
    ensures { done_count writes.now PAGES ≤ MOST_TOUCHED }
{
    let _count = writes.len();
}
