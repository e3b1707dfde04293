//! The map and the free pages, as they are kept between calls.
ghost use Rattle.std.specs.Prelude.{◌≡◌, ◌+◌, ◌-◌, ◌*◌, ◌≤◌, ◌<◌, true, false, length, not, ◌&&◌, if◌then◌else◌, [], ◌∷◌, ◌++◌, slice_index, slice_index_or, slice_range, MatchOption};
ghost use Rattle.std.specs.Int.{w16, to_be_bytes};
ghost use Rattle.std.specs.List.{flat_map};
ghost use Rattle.page_store.specs.Pages.{is_in_pool, entries_of, is_well_formed, free_pages, page_of, place_of};
ghost use Rattle.page_store.specs.Tables.{moved, loaded, IsNaming, IsPool};

use crate::places::{
    CONTENT_SIZE, FIRST_MAPPED, FREE, MAP, MAP_END, MAPPED, PAGE_COUNT, PAGES, POOL,
};
use arrayvec::ArrayVec;
use eeprom_model::PAGE_LENGTH;
use std::marker::Model;
use uicc_types::{ByteList, Full};

/// The page in which each mapped page lies, and the free pages, the one that has been free longest first.
#[derive(Debug, Drop)]
pub struct Table {
    entries: [u16; MAPPED],
    free: ArrayVec<u16, FREE>,
}

impl Model for Table {
    ghost use Rattle.page_store.specs.Tables.{Kept};

    ghost Value = { Kept };

    ghost view = { λ table. record { entries = table.entries; free = table.free.items } };
}

// The pages that the bytes of a map name.
fn entries(bytes: &[u8; MAP_END - MAP]) -> [u16; MAPPED]
    ensures { result ≡ entries_of bytes.now }
{
    let mut entries = [0; MAPPED];
    for k in 0..MAPPED {
        entries[k] = u16::from_be_bytes([bytes[2 * k], bytes[2 * k + 1]]);
    }
    entries
}

// Whether the page is in the pool and isn't named yet.
fn is_new(named: &[bool; PAGE_COUNT], page: u16) -> bool
    ensures { result ≡ (is_in_pool page && not (slice_index_or named.now page false)) }
{
    let page = usize::from(page);
    POOL <= page && page < PAGE_COUNT && !named[page]
}

// Which pages these entries name, where they are a well formed map.
fn named(entries: &[u16; MAPPED]) -> Option<[bool; PAGE_COUNT]>
    ensures { MatchOption result (is_well_formed entries.now ≡ false) (IsNaming entries.now) }
{
    let mut named = [false; PAGE_COUNT];
    for k in 0..MAPPED {
        let page = entries[k];
        if !is_new(&named, page) {
            return None;
        }
        named[usize::from(page)] = true;
    }
    Some(named)
}

// Adds a page that isn't named.
fn add(free: &mut ArrayVec<u16, FREE>, page: u16, is_named: bool)
    requires room { is_named ≡ false → length free.old.items < FREE }
    ensures { free.new.items ≡ free.old.items ++ (if is_named then [] else page ∷ []) }
{
    if !is_named {
        free.push(page);
    }
}

// The pages of the pool that aren't named, in ascending order.
fn free(entries: &[u16; MAPPED], named: &[bool; PAGE_COUNT]) -> ArrayVec<u16, FREE>
    requires { IsNaming entries.now named.now }
    ensures { result.items ≡ free_pages entries.now }
{
    let mut free = ArrayVec::new();
    for page in POOL..PAGE_COUNT {
        add(&mut free, page as u16, named[page]);
    }
    free
}

/// The entries of the pages that one piece touches, as the map spells them.
pub type EntryBytes = ByteList<64>;

fn add_entry(spelled: &mut EntryBytes, entry: u16)
    requires { length spelled.old + 2 ≤ 64 }
    ensures { spelled.new ≡ spelled.old ++ to_be_bytes w16 entry }
{
    match spelled.append(&entry.to_be_bytes()) {
        Ok(()) => (),
        Err(Full) => unreachable!(),
    }
}

impl Table {
    /// The table of the map with these bytes, where that is well formed. The free pages stand in ascending order.
    pub fn load(bytes: &[u8; MAP_END - MAP]) -> Option<Table>
        ensures { MatchOption result (is_well_formed (entries_of bytes.now) ≡ false)
            (λ table. (is_well_formed (entries_of bytes.now) ≡ true) × (table ≡ loaded (entries_of bytes.now))) }
    {
        let entries = entries(bytes);
        let named = named(&entries)?;
        Some(Table {
            entries,
            free: free(&entries, &named),
        })
    }

    /// The page of the device in which a page of the content lies.
    pub fn page(&self, page: usize) -> usize
        requires pool { IsPool self.now }
        requires inside { page < PAGES }
        ensures { result ≡ page_of self.now.entries page }
    {
        if page < FIRST_MAPPED {
            page
        } else {
            usize::from(self.entries[page - FIRST_MAPPED])
        }
    }

    /// The place on the device of a byte of the content.
    #[tactic(auto, unfolding(crate::specs::Pages::place_of))]
    pub fn place(&self, at: usize) -> usize
        requires pool { IsPool self.now }
        requires inside { at < CONTENT_SIZE }
        ensures { result ≡ place_of self.now.entries at }
    {
        PAGE_LENGTH * self.page(at / PAGE_LENGTH) + at % PAGE_LENGTH
    }

    /// Some entries of the map, as it spells them.
    pub fn spelled(&self, first: usize, end: usize) -> EntryBytes
        requires pool { IsPool self.now }
        requires order { first ≤ end }
        requires inside { end ≤ MAPPED }
        requires few { 2 * (end - first) ≤ 64 }
        ensures { result ≡ flat_map (to_be_bytes w16) (slice_range self.now.entries first end) }
    {
        let mut spelled = EntryBytes::new();
        for k in first..end {
            add_entry(&mut spelled, self.entries[k]);
        }
        spelled
    }

    /// The page that has been free longest.
    pub fn oldest(&self) -> u16
        requires pool { IsPool self.now }
        ensures { result ≡ slice_index self.now.free 0 }
    {
        self.free.as_slice()[0]
    }

    /// A page of the content moves into the page that has been free longest.
    pub fn move_page(&mut self, page: usize)
        requires pool { IsPool self.old }
        requires from { FIRST_MAPPED ≤ page }
        requires to { page < PAGES }
        ensures { self.new ≡ moved page self.old }
    {
        let new = self.free.remove(0);
        let old = self.entries[page - FIRST_MAPPED];
        self.entries[page - FIRST_MAPPED] = new;
        self.free.push(old);
    }
}
