//! The commits of the rows of applets.
ghost use Rattle.std.specs.Prelude.{◌≡◌, ◌⊎◌, ◌+◌, ◌≤◌, ◌<◌, [], ◌∷◌, ◌++◌, length, All, OnOk, OnErr, IsErrOf, option_map, is_some, filter, not, ◌==◌};
ghost use Rattle.uicc_types.specs.Counts.{Caused};
ghost use Rattle.store_form.specs.Pieces.{IsUsablePiece};
ghost use Rattle.card_state.specs.Places.{memory_size};
ghost use Rattle.card_state.specs.Persistent.{Persistent};
ghost use Rattle.card_state.specs.Used.{HasRow};
ghost use Rattle.card_state.specs.Kinds.{codes_of};
ghost use Rattle.card_state.specs.Sections.{sorted_codes};
ghost use Rattle.card_state.specs.States.{registration_of, rows_of};
ghost use Rattle.card_state.specs.Changes.{AddRow, TakeRow, PutEvents, PutKept};
ghost use Rattle.card_state.specs.Changing.{with_code_committed, without_code_committed, with_kept_committed};
ghost use Rattle.card_state.specs.Blank.{unused_row};
ghost use Rattle.card_state.specs.Memory.{Committed, IsMounted, held_by, memory};
ghost use Rattle.layout_entries.specs.Spelling.{row_part, sequence_part};
ghost use Rattle.layout_entries.specs.Adding.{HasRoom};
ghost use Rattle.layout_laws.specs.ChangeLaws.{kept_pieces};
ghost use Rattle.card_commits.specs.Commits.{Commits};
ghost use Rattle.card_commits.specs.Entries.{HasRowOn, row_at, with_row_at};
ghost use Rattle.card_commits.specs.Writing.{WritesChange, WritesEvents, WritesPieces};
ghost use Rattle.card_commits.specs.Rows.{MayInstall, with_row_installed, without_row_on, MayRegister, ChangesEvents, rows_alone};

use crate::commits::commit;
use crate::pieces::row_piece;
use card_state::events::{with_event, without_event};
use card_state::sizes::{KEPT_WIDTH, ROW_COUNT};
use card_state::{Loaded, Row, row_ranges, states_are_of_entries, states_stay_sound};
use layout_entries::{kept_write, sequence_write};
use layout_laws::{cards_are_known, rows_stand};
use store_form::{Store, StoreFault, Writes};
use uicc_types::{Full, Kept, Shelf};

// The row on this shelf.
fn row_of(loaded: &Loaded, shelf: Shelf) -> &Row
    requires { HasRowOn loaded.now shelf.0 }
    ensures value { result.now ≡ row_at loaded.now shelf.0 }
    ensures there { HasRow loaded.now shelf.0 result.now }
    ensures low { shelf.0 < ROW_COUNT }
{
    &loaded.all_rows()[usize::from(shelf.0)]
}

// The same row.
fn copy_of(row: &Row) -> Row
    ensures { result ≡ row.now }
{
    Row {
        used: row.used,
        kind: row.kind,
        priority: row.priority,
        sequence: row.sequence,
        events: row.events,
        text: row.text.copy(),
        kept: row.kept.copy(),
    }
}

// Commits these pieces, and then has the row on its shelf and the next sequence number in the table.
fn replace_row<S: Store>(
    store: &mut S,
    loaded: &mut Loaded,
    writes: &Writes,
    shelf: Shelf,
    row: Row,
    next: u16,
) -> Result<(), StoreFault>
    requires mounted { IsMounted (memory S.Store store.old loaded.old) }
    requires entry { shelf.0 < ROW_COUNT }
    requires some { 0 < length writes.now }
    requires usable { All (IsUsablePiece memory_size) writes.now }
    ensures committed { (change : Persistent → Persistent)
        → Commits (S.store_mark store.old) (S.stable store.old) loaded.old writes.now
        (record (with_row_at loaded.old shelf.0 row) { next = next }) change
        → Committed (memory S.Store store.old loaded.old) (memory S.Store store.new loaded.new) result change }
    ensures pieces { WritesPieces (memory S.Store store.old loaded.old) (memory S.Store store.new loaded.new) result writes.now }
    ensures table { OnOk result (loaded.new ≡ record (with_row_at loaded.old shelf.0 row) { next = next }) }
    ensures kept { OnErr result (loaded.new ≡ loaded.old) }
{
    commit(store, loaded, writes)?;
    loaded.rows[usize::from(shelf.0)] = row;
    loaded.next = next;
    Ok(())
}

// Commits the events of a row, and then has them in the table.
fn replace_events<S: Store>(
    store: &mut S,
    loaded: &mut Loaded,
    shelf: Shelf,
    events: u16,
) -> Result<(), StoreFault>
    requires mounted { IsMounted (memory S.Store store.old loaded.old) }
    requires row { HasRowOn loaded.old shelf.0 }
    ensures committed { (change : Persistent → Persistent)
        → Commits (S.store_mark store.old) (S.stable store.old) loaded.old
        (row_part shelf.0 (record (row_at loaded.old shelf.0) { events = events }) 5 7 ∷ [])
        (with_row_at loaded.old shelf.0 (record (row_at loaded.old shelf.0) { events = events })) change
        → Committed (memory S.Store store.old loaded.old) (memory S.Store store.new loaded.new) result change }
    ensures writes { WritesChange (memory S.Store store.old loaded.old) (memory S.Store store.new loaded.new) result
        (PutEvents shelf.0 events) }
    ensures table { OnOk result
        (loaded.new ≡ with_row_at loaded.old shelf.0 (record (row_at loaded.old shelf.0) { events = events })) }
    ensures kept { OnErr result (loaded.new ≡ loaded.old) }
{
    let row = Row {
        events,
        ..copy_of(row_of(loaded, shelf))
    };
    let mut writes = Writes::new();
    row_piece(shelf, &row, 5, 7, &mut writes);
    let next = loaded.next;
    replace_row(store, loaded, &writes, shelf, row, next)
}

// Adds what a row keeps beyond 32 bytes, if it does.
fn add_kept(shelf: Shelf, row: &Row, writes: &mut Writes)
    requires entry { shelf.0 < ROW_COUNT }
    requires room { HasRoom writes.old 32 }
    ensures { writes.new ≡ writes.old ++ kept_pieces shelf.0 row.now }
{
    if row.kept.as_slice().len() <= KEPT_WIDTH {
        return;
    }
    match kept_write(shelf, row, writes) {
        Ok(()) => (),
        Err(Full) => unreachable!(),
    }
}

// Makes a whole row and the next sequence number the first pieces.
fn installed_pieces(shelf: Shelf, row: &Row, next: u16, writes: &mut Writes)
    requires empty { writes.old ≡ [] }
    requires entry { shelf.0 < ROW_COUNT }
    ensures { writes.new ≡ row_part shelf.0 row.now 0 51 ∷ sequence_part next ∷ kept_pieces shelf.0 row.now }
{
    row_piece(shelf, row, 0, 51, writes);
    match sequence_write(next, writes) {
        Ok(()) => (),
        Err(Full) => unreachable!(),
    }
    add_kept(shelf, row, writes);
}

/// Commits a new row together with the next sequence number, which it takes, and then has both in the table. After a fault
/// the table is as it was.
pub fn install_row<S: Store>(
    store: &mut S,
    loaded: &mut Loaded,
    shelf: Shelf,
    row: Row,
) -> Result<(), StoreFault>
    requires mounted { IsMounted (memory S.Store store.old loaded.old) }
    requires row { MayInstall loaded.old shelf.0 row }
    ensures committed { Committed (memory S.Store store.old loaded.old) (memory S.Store store.new loaded.new) result
        (with_row_installed (registration_of shelf.0 row)) }
    ensures writes { WritesChange (memory S.Store store.old loaded.old) (memory S.Store store.new loaded.new) result
        (AddRow shelf.0 row) }
    ensures table { OnOk result
        (loaded.new ≡ record (with_row_at loaded.old shelf.0 row) { next = loaded.old.next + 1 }) }
    ensures kept { OnErr result (loaded.new ≡ loaded.old) }
    ensures rows { OnOk result
        (rows_of loaded.new ≡ (with_row_installed (registration_of shelf.0 row) (rows_alone loaded.old)).rows) }
{
    // These calls are laws, and do nothing.
    cards_are_known();
    states_stay_sound();
    rows_stand();
    row_ranges(&row);
    let next = loaded.next + 1;
    let mut writes = Writes::new();
    installed_pieces(shelf, &row, next, &mut writes);
    replace_row(store, loaded, &writes, shelf, row, next)
}

/// Commits that there is no row on this shelf any more, and then has none in the table. After a fault the table is as it was.
pub fn remove_row<S: Store>(
    store: &mut S,
    loaded: &mut Loaded,
    shelf: Shelf,
) -> Result<(), StoreFault>
    requires mounted { IsMounted (memory S.Store store.old loaded.old) }
    requires row { HasRowOn loaded.old shelf.0 }
    ensures committed { Committed (memory S.Store store.old loaded.old) (memory S.Store store.new loaded.new) result
        (without_row_on shelf.0) }
    ensures writes { WritesChange (memory S.Store store.old loaded.old) (memory S.Store store.new loaded.new) result
        (TakeRow shelf.0) }
    ensures table { OnOk result (loaded.new ≡ with_row_at loaded.old shelf.0 unused_row) }
    ensures kept { OnErr result (loaded.new ≡ loaded.old) }
    ensures rows { OnOk result (rows_of loaded.new ≡ (without_row_on shelf.0 (rows_alone loaded.old)).rows) }
{
    // These calls are laws, and do nothing.
    cards_are_known();
    rows_stand();
    states_are_of_entries();
    let row = Row {
        used: false,
        ..copy_of(row_of(loaded, shelf))
    };
    let mut writes = Writes::new();
    row_piece(shelf, &row, 0, 1, &mut writes);
    let next = loaded.next;
    replace_row(store, loaded, &writes, shelf, Row::unused(), next)
}

/// Commits that the row is registered for this event too, and then has it so in the table. After a fault the table is as it
/// was.
pub fn register<S: Store>(
    store: &mut S,
    loaded: &mut Loaded,
    shelf: Shelf,
    code: u8,
) -> Result<(), StoreFault>
    requires mounted { IsMounted (memory S.Store store.old loaded.old) }
    requires row { HasRowOn loaded.old shelf.0 }
    requires event { MayRegister loaded.old shelf.0 code }
    ensures committed { Committed (memory S.Store store.old loaded.old) (memory S.Store store.new loaded.new) result
        (with_code_committed shelf.0 code) }
    ensures writes { WritesEvents (memory S.Store store.old loaded.old) (memory S.Store store.new loaded.new) result shelf.0
        (sorted_codes (code ∷ codes_of (row_at loaded.old shelf.0).events)) }
    ensures table { OnOk result (ChangesEvents loaded.old shelf.0 loaded.new) }
    ensures kept { OnErr result (loaded.new ≡ loaded.old) }
    ensures rows { OnOk result (rows_of loaded.new ≡ (with_code_committed shelf.0 code (rows_alone loaded.old)).rows) }
{
    // These calls are laws, and do nothing.
    cards_are_known();
    rows_stand();
    states_are_of_entries();
    let events = with_event(row_of(loaded, shelf).events, code);
    replace_events(store, loaded, shelf, events)
}

/// Commits that the row is not registered for this event, and then has it so in the table. After a fault the table is as it
/// was.
pub fn deregister<S: Store>(
    store: &mut S,
    loaded: &mut Loaded,
    shelf: Shelf,
    code: u8,
) -> Result<(), StoreFault>
    requires mounted { IsMounted (memory S.Store store.old loaded.old) }
    requires row { HasRowOn loaded.old shelf.0 }
    ensures committed { Committed (memory S.Store store.old loaded.old) (memory S.Store store.new loaded.new) result
        (without_code_committed shelf.0 code) }
    ensures writes { WritesEvents (memory S.Store store.old loaded.old) (memory S.Store store.new loaded.new) result shelf.0
        (filter (λ other. not (other == code)) (codes_of (row_at loaded.old shelf.0).events)) }
    ensures table { OnOk result (ChangesEvents loaded.old shelf.0 loaded.new) }
    ensures kept { OnErr result (loaded.new ≡ loaded.old) }
    ensures rows { OnOk result (rows_of loaded.new
        ≡ (without_code_committed shelf.0 code (rows_alone loaded.old)).rows) }
{
    // These calls are laws, and do nothing.
    cards_are_known();
    rows_stand();
    states_are_of_entries();
    let events = without_event(row_of(loaded, shelf).events, code);
    replace_events(store, loaded, shelf, events)
}

/// Commits what the row keeps, at most 32 bytes, and then has it in the table. After a fault the table is as it was.
pub fn keep_bytes<S: Store>(
    store: &mut S,
    loaded: &mut Loaded,
    shelf: Shelf,
    kept: &[u8],
) -> Result<(), StoreFault>
    requires mounted { IsMounted (memory S.Store store.old loaded.old) }
    requires row { HasRowOn loaded.old shelf.0 }
    requires few { length kept.now ≤ 32 }
    ensures committed { Committed (memory S.Store store.old loaded.old) (memory S.Store store.new loaded.new) result
        (with_kept_committed shelf.0 kept.now) }
    ensures writes { WritesChange (memory S.Store store.old loaded.old) (memory S.Store store.new loaded.new) result
        (PutKept shelf.0 kept.now) }
    ensures table { OnOk result
        (loaded.new ≡ with_row_at loaded.old shelf.0 (record (row_at loaded.old shelf.0) { kept = kept.now })) }
    ensures kept { OnErr result (loaded.new ≡ loaded.old) }
    ensures rows { OnOk result (rows_of loaded.new
        ≡ (with_kept_committed shelf.0 kept.now (rows_alone loaded.old)).rows) }
{
    // These calls are laws, and do nothing.
    cards_are_known();
    rows_stand();
    states_are_of_entries();
    let row = Row {
        kept: Kept::from_slice(kept),
        ..copy_of(row_of(loaded, shelf))
    };
    let mut writes = Writes::new();
    row_piece(shelf, &row, 18, 19 + kept.len() as u8, &mut writes);
    let next = loaded.next;
    replace_row(store, loaded, &writes, shelf, row, next)
}
