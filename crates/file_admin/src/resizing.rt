//! RESIZE FILE.
ghost use Rattle.std.specs.Prelude.{◌≡◌, ◌<◌, List, Option, true, IsTrue, IsOk, OnOk};
ghost use Rattle.card_state.specs.Kinds.{transparent_kind};
ghost use Rattle.card_state.specs.Memory.{IsMounted, memory};
ghost use Rattle.apdu_form.specs.Classes.{channel_of};
ghost use Rattle.file_model.specs.Channels.{is_open};
ghost use Rattle.file_model.specs.Files.{descriptors_of};
ghost use Rattle.file_model.specs.declared.selections.Selection.{Selection};
ghost use Rattle.file_model.specs.LawfulTrees.{AreSelected};
ghost use Rattle.file_model.specs.Resizing.{may_have, resized_if_room};
ghost use Rattle.file_tree.specs.Tables.{IsNumbered};
ghost use Rattle.file_admin.specs.Outcomes.{PerformsTree, AnswersTree, CommitsTree, IfNothingPasses, EndsTree, ChangesNodes, IsDone, changes_by, resizing_by};
ghost use Rattle.file_admin.specs.Writes.{WritesTree};

use crate::entries::entry_of;
use crate::growing::grow;
use crate::refusals::{size_asked, try_resizing};
use crate::rooms::room;
use crate::written_files::written_files_stand;
use access_rules::Verified;
use apdu_form::Command;
use card_commits::commit_node;
use card_state::{Loaded, Node, node_ranges};
use file_model::{Descriptor, files_are_found, rooms_are_smallest, selections_stay};
use file_tree::Channels;
use layout_laws::{cards_are_known, stores_stand};
use store_form::{Store, StoreFault};
use uicc_types::{Answer, StatusWord};

// Gives a transparent file fewer bytes, and answers the status.
fn shrink_to<S: Store>(
    store: &mut S,
    loaded: &mut Loaded,
    file: &Descriptor,
    size: u16,
) -> Result<StatusWord, StoreFault>
    requires mounted { IsMounted (memory S.Store store.old loaded.old) }
    requires numbered { IsNumbered (descriptors_of loaded.old) file.now }
    requires kind { file.now.kind ≡ transparent_kind }
    requires may { IsTrue (may_have size) }
    requires fewer { size < file.now.size }
    ensures done { (channels : List (Option Selection))
        → IsDone result (memory S.Store store.old loaded.old) (memory S.Store store.new loaded.new) channels channels
        (λ state. resized_if_room state channels size file.now) }
    ensures writes { (channels : List (Option Selection))
        → WritesTree result (memory S.Store store.old loaded.old) (memory S.Store store.new loaded.new)
        (λ state. changes_by channels (resized_if_room state channels size file.now)) }
    ensures still { (channels : List (Option Selection))
        → IfNothingPasses loaded.old channels (λ state. resized_if_room state channels size file.now)
        (IsOk result × (store.new ≡ store.old) × (loaded.new ≡ loaded.old)) }
    ensures ends { ChangesNodes result loaded.old loaded.new }
{
    // These calls are laws, and do nothing.
    cards_are_known();
    stores_stand();
    written_files_stand();
    let old = entry_of(loaded, file);
    node_ranges(&old);
    let node = Node { size, ..old };
    match commit_node(store, loaded, file.number, node, 12, 14) {
        Ok(()) => Ok(StatusWord::DONE),
        Err(fault) => Err(fault),
    }
}

// Gives a transparent file more bytes where there is room for them, and answers the status.
fn grow_to<S: Store>(
    store: &mut S,
    loaded: &mut Loaded,
    file: &Descriptor,
    size: u16,
) -> Result<StatusWord, StoreFault>
    requires mounted { IsMounted (memory S.Store store.old loaded.old) }
    requires numbered { IsNumbered (descriptors_of loaded.old) file.now }
    requires kind { file.now.kind ≡ transparent_kind }
    requires may { IsTrue (may_have size) }
    requires more { file.now.size < size }
    ensures done { (channels : List (Option Selection))
        → IsDone result (memory S.Store store.old loaded.old) (memory S.Store store.new loaded.new) channels channels
        (λ state. resized_if_room state channels size file.now) }
    ensures writes { (channels : List (Option Selection))
        → WritesTree result (memory S.Store store.old loaded.old) (memory S.Store store.new loaded.new)
        (λ state. changes_by channels (resized_if_room state channels size file.now)) }
    ensures still { (channels : List (Option Selection))
        → IfNothingPasses loaded.old channels (λ state. resized_if_room state channels size file.now)
        (IsOk result × (store.new ≡ store.old) × (loaded.new ≡ loaded.old)) }
    ensures ends { ChangesNodes result loaded.old loaded.new }
{
    // These calls are laws, and do nothing.
    cards_are_known();
    stores_stand();
    written_files_stand();
    rooms_are_smallest();
    let node = entry_of(loaded, file);
    node_ranges(&node);
    match room(loaded, size) {
        Some(place) => match grow(store, loaded, file.number, &node, place, size) {
            Ok(()) => Ok(StatusWord::DONE),
            Err(fault) => Err(fault),
        },
        None => Ok(StatusWord::NO_ROOM),
    }
}

// Gives a transparent file this size, and answers the status.
fn resize_to<S: Store>(
    store: &mut S,
    loaded: &mut Loaded,
    file: &Descriptor,
    size: u16,
) -> Result<StatusWord, StoreFault>
    requires mounted { IsMounted (memory S.Store store.old loaded.old) }
    requires numbered { IsNumbered (descriptors_of loaded.old) file.now }
    requires kind { file.now.kind ≡ transparent_kind }
    requires may { IsTrue (may_have size) }
    ensures done { (channels : List (Option Selection))
        → IsDone result (memory S.Store store.old loaded.old) (memory S.Store store.new loaded.new) channels channels
        (λ state. resized_if_room state channels size file.now) }
    ensures writes { (channels : List (Option Selection))
        → WritesTree result (memory S.Store store.old loaded.old) (memory S.Store store.new loaded.new)
        (λ state. changes_by channels (resized_if_room state channels size file.now)) }
    ensures still { (channels : List (Option Selection))
        → IfNothingPasses loaded.old channels (λ state. resized_if_room state channels size file.now)
        (IsOk result × (store.new ≡ store.old) × (loaded.new ≡ loaded.old)) }
    ensures ends { ChangesNodes result loaded.old loaded.new }
{
    // These calls are laws, and do nothing.
    cards_are_known();
    stores_stand();
    if size < file.size {
        return shrink_to(store, loaded, file, size);
    }
    if file.size < size {
        return grow_to(store, loaded, file, size);
    }
    Ok(StatusWord::DONE)
}

// Gives the file that the command names the size that it asks for, and answers the status.
fn try_resize<S: Store>(
    store: &mut S,
    loaded: &mut Loaded,
    channels: &Channels,
    seen: &Verified,
    command: &Command<'_>,
) -> Result<StatusWord, StoreFault>
    requires mounted { IsMounted (memory S.Store store.old loaded.old) }
    ensures done { IsDone result (memory S.Store store.old loaded.old) (memory S.Store store.new loaded.new)
        channels.now channels.now (resizing_by command.now seen.now channels.now) }
    ensures writes { WritesTree result (memory S.Store store.old loaded.old) (memory S.Store store.new loaded.new)
        (λ state. changes_by channels.now (resizing_by command.now seen.now channels.now state)) }
    ensures still { IfNothingPasses loaded.old channels.now (resizing_by command.now seen.now channels.now)
        (IsOk result × (store.new ≡ store.old) × (loaded.new ≡ loaded.old)) }
    ensures ends { ChangesNodes result loaded.old loaded.new }
{
    // These calls are laws, and do nothing.
    cards_are_known();
    files_are_found();
    stores_stand();
    let channel = command.channel();
    match try_resizing(loaded, seen, channels, channel, command) {
        Ok(file) => resize_to(store, loaded, &file, size_asked(command)),
        Err(status) => Ok(status),
    }
}

/// Gives a transparent file of the current DF of the command's channel another size (ETSI TS 102 222, 6.10). One that grows moves
/// to the smallest place where there is room for all of it; one that has the size already is left alone. It answers no data. After a fault table and
/// channels are as they were, and the card as it was or as the command leaves it.
pub fn resize_file<S: Store>(
    store: &mut S,
    loaded: &mut Loaded,
    channels: &mut Channels,
    seen: &Verified,
    command: &Command<'_>,
    out: &mut Answer,
) -> Result<(), StoreFault>
    requires mounted { IsMounted (memory S.Store store.old loaded.old) }
    requires selected { AreSelected (descriptors_of loaded.old) channels.old }
    requires open { is_open channels.old (channel_of command.now.class) ≡ true }
    ensures performs { PerformsTree result (memory S.Store store.old loaded.old) (memory S.Store store.new loaded.new)
        out.new channels.old channels.new (resizing_by command.now seen.now channels.old) }
    ensures writes { WritesTree result (memory S.Store store.old loaded.old) (memory S.Store store.new loaded.new)
        (λ state. changes_by channels.old (resizing_by command.now seen.now channels.old state)) }
    ensures answers { OnOk result (AnswersTree loaded.old loaded.new out.new.status channels.old channels.new
        (resizing_by command.now seen.now channels.old)) }
    ensures still { IfNothingPasses loaded.old channels.old (resizing_by command.now seen.now channels.old)
        (IsOk result × (store.new ≡ store.old) × (loaded.new ≡ loaded.old)) }
    ensures commits { CommitsTree result (memory S.Store store.old loaded.old) (memory S.Store store.new loaded.new)
        channels.old (resizing_by command.now seen.now channels.old) }
    ensures ends { EndsTree result (memory S.Store store.old loaded.old) (memory S.Store store.new loaded.new)
        out.new channels.old channels.new }
{
    // These calls are laws, and do nothing.
    cards_are_known();
    files_are_found();
    stores_stand();
    selections_stay();
    out.body.clear();
    match try_resize(store, loaded, channels, seen, command) {
        Ok(status) => {
            out.status = status;
            Ok(())
        }
        Err(fault) => Err(fault),
    }
}
