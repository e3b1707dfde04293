//! Ranges of a store that are prepared piece by piece, none over the end of a page of its memory.
ghost use Rattle.std.specs.Prelude.{◌+◌, ◌≤◌, ◌<◌, ◌%◌};
ghost use Rattle.list_laws.specs.Patches.{IsApart};
ghost use Rattle.card_commits.specs.Prepared.{filled, copied};
ghost use Rattle.card_commits.specs.Ranges.{IsStoreReady, IsAmongFiles, PreparesRange};

use store_form::{Store, StoreFault};

// A page of the memory has so many bytes.
const PAGE: usize = 64;

// How many of the bytes that are left come next: those up to the end of the page.
fn next_count(at: usize, left: usize) -> usize
    requires { 0 < left }
    ensures some { 0 < result }
    ensures few { result ≤ left }
    ensures one_page { at % PAGE + result ≤ PAGE }
{
    left.min(PAGE - at % PAGE)
}

// Prepares bytes FF of one page.
fn fill_part<S: Store>(store: &mut S, at: usize, count: usize) -> Result<(), StoreFault>
    requires ready { IsStoreReady S.Store store.old }
    requires range { IsAmongFiles at count }
    requires one_page { at % PAGE + count ≤ PAGE }
    ensures { PreparesRange S.Store store.old store.new result at count (filled at count) }
{
    let blank = [0xFF; PAGE];
    store.prepare(at, &blank[..count])
}

/// Prepares so many bytes FF.
pub fn fill<S: Store>(store: &mut S, at: usize, count: usize) -> Result<(), StoreFault>
    requires ready { IsStoreReady S.Store store.old }
    requires range { IsAmongFiles at count }
    ensures { PreparesRange S.Store store.old store.new result at count (filled at count) }
{
    let mut done = 0;
    while done < count {
        let part = next_count(at + done, count - done);
        fill_part(store, at + done, part)?;
        done += part;
    }
    Ok(())
}

// Prepares bytes of one page that stand elsewhere.
fn copy_part<S: Store>(
    store: &mut S,
    from: usize,
    at: usize,
    count: usize,
) -> Result<(), StoreFault>
    requires ready { IsStoreReady S.Store store.old }
    requires source { IsAmongFiles from count }
    requires range { IsAmongFiles at count }
    requires one_page { at % PAGE + count ≤ PAGE }
    ensures { PreparesRange S.Store store.old store.new result at count (copied from at count) }
{
    let mut page = [0; PAGE];
    let bytes = &mut page[..count];
    store.read(from, bytes)?;
    store.prepare(at, bytes)
}

/// Prepares so many bytes that stand elsewhere, in no byte of that range.
pub fn copy<S: Store>(store: &mut S, from: usize, at: usize, count: usize) -> Result<(), StoreFault>
    requires ready { IsStoreReady S.Store store.old }
    requires source { IsAmongFiles from count }
    requires range { IsAmongFiles at count }
    requires apart { IsApart from count at count }
    ensures { PreparesRange S.Store store.old store.new result at count (copied from at count) }
{
    let mut done = 0;
    while done < count {
        let to = at + done;
        let part = next_count(to, count - done);
        copy_part(store, from + done, to, part)?;
        done += part;
    }
    Ok(())
}
