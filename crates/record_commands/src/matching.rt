//! Which of the records of a file match a search.
ghost use Rattle.std.specs.Prelude.{ℕ, List, ◌≡◌, ◌≤◌, ◌<◌, ◌+◌, ◌*◌, [], ◌∷◌, ◌++◌, All, if◌then◌else◌, false, IsTrue, IfOk, IfSome, OnOk, filter, length, take, drop};
ghost use Rattle.card_state.specs.Kinds.{has_records, linear_kind};
ghost use Rattle.card_state.specs.Memory.{IsMounted, Reads, held_by, memory};
ghost use Rattle.file_model.specs.Files.{descriptors_of};
ghost use Rattle.file_model.specs.Records.{has_within};
ghost use Rattle.file_tree.specs.Tables.{IsNumbered};
ghost use Rattle.record_commands.specs.Targets.{AreRecordsOf};
ghost use Rattle.record_commands.specs.Searching.{AreRecords, IsRecord, first_left, is_match, number_left, numbers_left};

use crate::holding::read_into;
use card_commits::read_records;
use card_state::Loaded;
use card_state::kinds::LINEAR;
use file_model::Descriptor;
use memchr::memchr;
use store_form::{Store, StoreFault};
use uicc_types::{AnswerData, Full};

// So many bytes are read together, or fewer; a record has no more.
const BLOCK: usize = 255;

// Whether a byte and the others stand one after the other in the first `width` bytes of what is held. The byte is looked for in
// all that is held: where that is as much as is looked at at once, it is quicker than to look at less.
fn stand_within(first: u8, others: &[u8], held: &[u8], width: usize) -> bool
    requires { width ≤ length held.now }
    ensures { result ≡ has_within (first ∷ others.now) (take width held.now) }
{
    let mut rest = held;
    let mut room = width;
    while let Some(at) = memchr(first, rest) {
        if room.saturating_sub(at) <= others.len() {
            return false;
        }
        let (_, behind) = rest.split_at(at + 1);
        if behind.starts_with(others) {
            return true;
        }
        rest = behind;
        room -= at + 1;
    }
    false
}

// Whether bytes stand one after the other in the first `width` bytes of what is held.
fn has_within(wanted: &[u8], held: &[u8], width: usize) -> bool
    requires { width ≤ length held.now }
    ensures { result ≡ has_within wanted.now (take width held.now) }
{
    match wanted.split_first() {
        Some((first, others)) => stand_within(*first, others, held, width),
        None => true,
    }
}

// Whether the first of the bytes that are looked for is there, without which they stand nowhere.
fn is_there(first: u8, held: &[u8]) -> bool
    ensures { result ≡ false → (others : List ℕ) (at width : ℕ)
        → has_within (first ∷ others) (take width (drop at held.now)) ≡ false }
{
    match memchr(first, held) {
        Some(_) => true,
        None => false,
    }
}

// Whether a record among these bytes may match.
fn may_match(wanted: &[u8], held: &[u8]) -> bool
    ensures { result ≡ false → (at width : ℕ) → has_within wanted.now (take width (drop at held.now)) ≡ false }
{
    match wanted.split_first() {
        Some((first, _)) => is_there(*first, held),
        None => true,
    }
}

// How many records of a file are read together: those of a cyclic one go round, and so are read one by one.
fn most_together(file: &Descriptor) -> u8
    ensures some { 1 ≤ result }
    ensures fits { result * file.now.width ≤ BLOCK }
    ensures in_a_row { 1 < result → file.now.kind ≡ linear_kind }
{
    let width = file.width.max(1);
    if file.kind == LINEAR {
        BLOCK as u8 / width
    } else {
        1
    }
}

// Reads records that stand one after the other into the whole of `out`. After a fault `out` holds any bytes.
fn read_together<S: Store>(
    store: &mut S,
    loaded: &Loaded,
    file: &Descriptor,
    first: u8,
    count: u8,
    out: &mut [u8],
) -> Result<(), StoreFault>
    requires mounted { IsMounted (memory S.Store store.old loaded.now) }
    requires target { AreRecordsOf (descriptors_of loaded.now) file.now first count }
    requires long { length out.old ≡ count * file.now.width }
    ensures read { OnOk result (IfSome (held_by S.Store store.old) (λ state. AreRecords state file.now first count out.new)) }
    ensures long { length out.new ≡ length out.old }
    ensures reads { Reads (memory S.Store store.old loaded.now) (memory S.Store store.new loaded.now) result }
{
    if file.kind == LINEAR {
        read_records(store, loaded, file.number, first - 1, out)
    } else {
        read_into(store, loaded, file, first, out)
    }
}

// The next of so many records, where so many of these are left.
fn number_left(is_forward: bool, first: u8, count: u8, left: u8) -> u8
    requires some { 1 ≤ left }
    requires few { left ≤ count }
    requires fits { first + count ≤ 256 }
    ensures value { result ≡ number_left is_forward first count left }
    ensures from { first ≤ result }
    ensures to { result < first + count }
{
    if is_forward {
        first + (count - left)
    } else {
        first + (left - 1)
    }
}

fn push(found: &mut AnswerData, number: u8)
    requires { length found.old < 256 }
    ensures { found.new ≡ found.old ++ number ∷ [] }
{
    match found.push(number) {
        Ok(()) => {}
        Err(Full) => unreachable!(),
    }
}

// Puts the number of a record after the others, if it matches.
fn push_if_match(wanted: &[u8], held: &[u8], width: usize, number: u8, found: &mut AnswerData)
    requires long { width ≤ length held.now }
    requires room { length found.old < 256 }
    ensures found { found.new ≡ found.old ++ (if has_within wanted.now (take width held.now) then number ∷ [] else []) }
    ensures few { length found.new ≤ length found.old + 1 }
{
    if has_within(wanted, held, width) {
        push(found, number);
    }
}

// Puts the numbers of those of some records that match after the others, in the order of the search. The records are read into `buffer`.
fn match_together<S: Store>(
    store: &mut S,
    loaded: &Loaded,
    file: &Descriptor,
    wanted: &[u8],
    is_forward: bool,
    first: u8,
    count: u8,
    buffer: &mut [u8; BLOCK],
    found: &mut AnswerData,
) -> Result<(), StoreFault>
    requires mounted { IsMounted (memory S.Store store.old loaded.now) }
    requires target { AreRecordsOf (descriptors_of loaded.now) file.now first count }
    requires fits { count * file.now.width ≤ BLOCK }
    requires room { length found.old + count ≤ 255 }
    requires few { file.now.count ≤ 255 }
    requires among { All (IsRecord file.now) found.old }
    ensures found { OnOk result (IfSome (held_by S.Store store.old) (λ state. found.new
        ≡ found.old ++ filter (is_match state file.now wanted.now) (numbers_left is_forward first count count))) }
    ensures few { length found.new ≤ length found.old + count }
    ensures among { All (IsRecord file.now) found.new }
    ensures reads { Reads (memory S.Store store.old loaded.now) (memory S.Store store.new loaded.now) result }
{
    let width = usize::from(file.width);
    let held = &mut buffer[..usize::from(count) * width];
    read_together(store, loaded, file, first, count, held)?;
    if !may_match(wanted, held) {
        return Ok(());
    }
    let mut left = count;
    while left > 0 {
        let number = number_left(is_forward, first, count, left);
        let at = usize::from(number - first) * width;
        push_if_match(wanted, &held[at..], width, number, found);
        left -= 1;
    }
    Ok(())
}

// The first of the records that are looked at next, so many of those that are left.
fn first_left(is_forward: bool, count: u8, left: u8, size: u8) -> u8
    requires some { 1 ≤ size }
    requires fits { size ≤ left }
    requires few { left ≤ count }
    ensures value { result ≡ first_left is_forward count left size }
    ensures from { 1 ≤ result }
    ensures to { result + size ≤ count + 1 }
{
    if is_forward {
        1 + (count - left)
    } else {
        1 + (left - size)
    }
}

/// The numbers of the records that match, of so many to the end of the search.
pub fn matches_of<S: Store>(
    store: &mut S,
    loaded: &Loaded,
    file: &Descriptor,
    wanted: &[u8],
    is_forward: bool,
    count: u8,
) -> Result<AnswerData, StoreFault>
    requires mounted { IsMounted (memory S.Store store.old loaded.now) }
    requires numbered { IsNumbered (descriptors_of loaded.now) file.now }
    requires kind { IsTrue (has_records file.now.kind) }
    requires few { count ≤ file.now.count }
    ensures found { IfOk result (λ found. IfSome (held_by S.Store store.old) (λ state.
        found ≡ filter (is_match state file.now wanted.now) (numbers_left is_forward 1 file.now.count count))) }
    ensures among { IfOk result (All (IsRecord file.now)) }
    ensures reads { Reads (memory S.Store store.old loaded.now) (memory S.Store store.new loaded.now) result }
{
    let most = most_together(file);
    let mut buffer = [0; BLOCK];
    let mut found = AnswerData::new();
    let mut left = count;
    while left > 0 {
        let size = left.min(most);
        let first = first_left(is_forward, file.count, left, size);
        match_together(
            store,
            loaded,
            file,
            wanted,
            is_forward,
            first,
            size,
            &mut buffer,
            &mut found,
        )?;
        left -= size;
    }
    Ok(found)
}
