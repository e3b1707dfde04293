//! The migration of a card of version 1 of the layout.
ghost use Rattle.std.specs.Prelude.{◌≡◌, ◌⊎◌, true, false, OnOk, OnErr, option_map};
ghost use Rattle.list_laws.specs.Patches.{patched, Torn};
ghost use Rattle.uicc_types.specs.Told.{Becomes};
ghost use Rattle.store_form.specs.Faults.{with_commit};
ghost use Rattle.card_state.specs.Migration.{entry_ends_low, entries_end_low, migrated, no_upper_rows};
ghost use Rattle.card_state.specs.Places.{memory_size, data_end};
ghost use Rattle.card_state.specs.Memory.{Committed, IsMounted, Keeps, held_by, memory};
ghost use Rattle.layout_entries.specs.Laws.{after};
ghost use Rattle.layout_entries.specs.Spelling.{version_part};
ghost use Rattle.layout_mount.specs.Mounted.{unread};
ghost use Rattle.card_core.specs.Migrations.{migrated_table, with_migration, KeepsMigrating};

use card_state::kinds::is_ef;
use card_state::places::UPPER_ROWS;
use card_state::{Loaded, Node};
use layout_entries::version_write;
use layout_laws::{migration_stands, stores_stand};
use store_form::{Store, StoreFault, Writes};
use uicc_types::Full;

// Whether the bytes of a file lie below those that a wide card has after its files.
fn ends_low(node: &Node) -> bool
    ensures { result ≡ entry_ends_low node.now }
{
    let is_ef = node.used && is_ef(node.kind);
    !is_ef || u32::from(node.place) + u32::from(node.size) <= u32::from(UPPER_ROWS)
}

// Whether those of all files do.
#[tactic(auto, unfolding(card_state::specs::Migration::entries_end_low))]
fn all_end_low(loaded: &Loaded) -> bool
    ensures { result ≡ entries_end_low loaded.now }
{
    loaded.nodes.iter().all(|node| ends_low(node))
}

// Commits the version of a wide card.
fn commit_wide<S: Store>(store: &mut S) -> Result<(), StoreFault>
    requires recovered { S.recovered store.old ≡ true }
    requires size { S.byte_count store.old ≡ memory_size }
    ensures ok { OnOk result (S.stable store.new ≡ option_map (after (version_part true)) (S.stable store.old)) }
    ensures whole { OnErr result ((S.stable store.new ≡ S.stable store.old)
        ⊎ (S.stable store.new ≡ option_map (after (version_part true)) (S.stable store.old))) }
    ensures commits { S.commits store.new ≡ with_commit result (S.commits store.old) }
    ensures keeps { KeepsMigrating (unread S.Store store.old) (unread S.Store store.new) result }
{
    let mut writes = Writes::new();
    match version_write(true, &mut writes) {
        Ok(()) => store.commit(&writes),
        Err(Full) => unreachable!(),
    }
}

// Prepares the rows of the upper shelves, of which none is used.
#[tactic(auto, unfolding(card_state::specs::Migration::no_upper_rows))]
fn prepare_upper_rows<S: Store>(store: &mut S) -> Result<(), StoreFault>
    requires recovered { S.recovered store.old ≡ true }
    requires size { S.byte_count store.old ≡ memory_size }
    ensures ok { OnOk result (S.stable store.new
        ≡ option_map (patched (data_end true) no_upper_rows) (S.stable store.old)) }
    ensures torn { OnErr result (Becomes (Torn (data_end true) 1024) (S.stable store.old) (S.stable store.new)) }
    ensures commits { S.commits store.new ≡ S.commits store.old }
    ensures keeps { KeepsMigrating (unread S.Store store.old) (unread S.Store store.new) result }
{
    store.prepare(UPPER_ROWS as usize, &[0; 1024])
}

// Makes a narrow card wide whose files leave room for it.
fn widen<S: Store>(store: &mut S, loaded: &mut Loaded) -> Result<(), StoreFault>
    requires mounted { IsMounted (memory S.Store store.old loaded.old) }
    requires narrow { loaded.old.wide ≡ false }
    requires low { entries_end_low loaded.old ≡ true }
    ensures committed { Committed (memory S.Store store.old loaded.old) (memory S.Store store.new loaded.new)
        result migrated }
    ensures table { OnOk result (loaded.new ≡ record loaded.old { wide = true }) }
    ensures stays { OnErr result (loaded.new ≡ loaded.old) }
{
    // These two calls are laws, and do nothing.
    migration_stands();
    stores_stand();
    prepare_upper_rows(store)?;
    match commit_wide(store) {
        Ok(()) => {
            loaded.wide = true;
            Ok(())
        }
        Err(fault) => Err(fault),
    }
}

/// Makes a card of version 1 of the layout one of version 2, where the files leave room for it: the rows of the upper shelves are
/// prepared, and then the version is committed. Whenever a fault ends that, the store stands for the state as it was or for the
/// migrated one. Any other card stays as it is.
pub fn migrate<S: Store>(store: &mut S, loaded: &mut Loaded) -> Result<(), StoreFault>
    requires mounted { IsMounted (memory S.Store store.old loaded.old) }
    ensures migrated { OnOk result (held_by S.Store store.new ≡ option_map migrated (held_by S.Store store.old)) }
    ensures whole { OnErr result ((held_by S.Store store.new ≡ held_by S.Store store.old)
        ⊎ (held_by S.Store store.new ≡ option_map migrated (held_by S.Store store.old))) }
    ensures table { OnOk result (loaded.new ≡ migrated_table loaded.old) }
    ensures stays { OnErr result (loaded.new ≡ loaded.old) }
    ensures commits { S.commits store.new ≡ with_migration loaded.old result (S.commits store.old) }
    ensures keeps { Keeps (memory S.Store store.old loaded.old) (memory S.Store store.new loaded.new) result }
{
    // This call is a law, and does nothing.
    migration_stands();
    if loaded.wide {
        return Ok(());
    }
    if !all_end_low(loaded) {
        return Ok(());
    }
    widen(store, loaded)
}
