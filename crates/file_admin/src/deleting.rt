//! DELETE FILE.
ghost use Rattle.std.specs.Prelude.{◌≡◌, [], ◌∷◌, true, false, Ok, IsOk, OnOk};
ghost use Rattle.card_state.specs.Changes.{TakeFile};
ghost use Rattle.card_state.specs.Memory.{IsMounted, memory};
ghost use Rattle.apdu_form.specs.Classes.{channel_of};
ghost use Rattle.file_model.specs.Channels.{is_open};
ghost use Rattle.file_model.specs.Files.{descriptors_of};
ghost use Rattle.file_model.specs.Deleting.{is_in_use, deleting};
ghost use Rattle.file_model.specs.LawfulTrees.{AreSelected};
ghost use Rattle.card_commits.specs.Performing.{WritesAll};
ghost use Rattle.file_tree.specs.Tables.{IsNumbered};
ghost use Rattle.file_admin.specs.Outcomes.{PerformsTree, AnswersTree, CommitsTree, IfNothingPasses, EndsTree, ChangesNodes, IsDone, IsNamedIn, changes_by, deletion_by};

use crate::channels::leave;
use crate::entries::entry_of;
use crate::refusals::try_deletion;
use crate::written_files::written_files_stand;
use access_rules::Verified;
use apdu_form::Command;
use card_commits::commit_node;
use card_state::{Loaded, Node};
use file_model::{Descriptor, files_are_found, selections_stay};
use file_tree::Channels;
use layout_laws::{cards_are_known, stores_stand};
use store_form::{Store, StoreFault};
use uicc_types::{Answer, StatusWord};

// Deletes this file, and answers the status.
fn delete<S: Store>(
    store: &mut S,
    loaded: &mut Loaded,
    channels: &mut Channels,
    file: &Descriptor,
) -> Result<StatusWord, StoreFault>
    requires mounted { IsMounted (memory S.Store store.old loaded.old) }
    requires numbered { IsNumbered (descriptors_of loaded.old) file.now }
    requires named { IsNamedIn (descriptors_of loaded.old) file.now }
    requires unused { is_in_use (descriptors_of loaded.old) channels.old file.now ≡ false }
    ensures done { IsDone result (memory S.Store store.old loaded.old) (memory S.Store store.new loaded.new)
        channels.old channels.new (λ state. Ok (deleting state channels.old file.now)) }
    ensures writes { WritesAll result (memory S.Store store.old loaded.old) (memory S.Store store.new loaded.new)
        (λ state. TakeFile file.now.number ∷ []) }
    ensures still { IfNothingPasses loaded.old channels.old (λ state. Ok (deleting state channels.old file.now))
        (IsOk result × (store.new ≡ store.old) × (loaded.new ≡ loaded.old)) }
    ensures ends { ChangesNodes result loaded.old loaded.new }
{
    // These calls are laws, and do nothing.
    cards_are_known();
    files_are_found();
    stores_stand();
    written_files_stand();
    let node = Node {
        used: false,
        ..entry_of(loaded, file)
    };
    match commit_node(store, loaded, file.number, node, 0, 1) {
        Ok(()) => {
            leave(channels, file.number);
            Ok(StatusWord::DONE)
        }
        Err(fault) => Err(fault),
    }
}

// Deletes the file that the command names, and answers the status.
fn try_delete<S: Store>(
    store: &mut S,
    loaded: &mut Loaded,
    channels: &mut Channels,
    seen: &Verified,
    command: &Command<'_>,
) -> Result<StatusWord, StoreFault>
    requires mounted { IsMounted (memory S.Store store.old loaded.old) }
    ensures done { IsDone result (memory S.Store store.old loaded.old) (memory S.Store store.new loaded.new)
        channels.old channels.new (deletion_by command.now seen.now channels.old) }
    ensures writes { WritesAll result (memory S.Store store.old loaded.old) (memory S.Store store.new loaded.new)
        (λ state. changes_by channels.old (deletion_by command.now seen.now channels.old state)) }
    ensures still { IfNothingPasses loaded.old channels.old (deletion_by command.now seen.now channels.old)
        (IsOk result × (store.new ≡ store.old) × (loaded.new ≡ loaded.old)) }
    ensures ends { ChangesNodes result loaded.old loaded.new }
{
    // These calls are laws, and do nothing.
    cards_are_known();
    files_are_found();
    stores_stand();
    let channel = command.channel();
    match try_deletion(loaded, seen, channels, channel, command) {
        Ok(file) => delete(store, loaded, channels, &file),
        Err(status) => Ok(status),
    }
}

/// Deletes a file of the current DF of the command's channel (ETSI TS 102 222, 6.4), and takes an EF off each channel that has it
/// selected. It answers no data. After a fault table and
/// channels are as they were, and the card as it was or as the command leaves it.
pub fn delete_file<S: Store>(
    store: &mut S,
    loaded: &mut Loaded,
    channels: &mut Channels,
    seen: &Verified,
    command: &Command<'_>,
    out: &mut Answer,
) -> Result<(), StoreFault>
    requires mounted { IsMounted (memory S.Store store.old loaded.old) }
    requires selected { AreSelected (descriptors_of loaded.old) channels.old }
    requires open { is_open channels.old (channel_of command.now.class) ≡ true }
    ensures performs { PerformsTree result (memory S.Store store.old loaded.old) (memory S.Store store.new loaded.new)
        out.new channels.old channels.new (deletion_by command.now seen.now channels.old) }
    ensures writes { WritesAll result (memory S.Store store.old loaded.old) (memory S.Store store.new loaded.new)
        (λ state. changes_by channels.old (deletion_by command.now seen.now channels.old state)) }
    ensures answers { OnOk result (AnswersTree loaded.old loaded.new out.new.status channels.old channels.new
        (deletion_by command.now seen.now channels.old)) }
    ensures still { IfNothingPasses loaded.old channels.old (deletion_by command.now seen.now channels.old)
        (IsOk result × (store.new ≡ store.old) × (loaded.new ≡ loaded.old)) }
    ensures commits { CommitsTree result (memory S.Store store.old loaded.old) (memory S.Store store.new loaded.new)
        channels.old (deletion_by command.now seen.now channels.old) }
    ensures ends { EndsTree result (memory S.Store store.old loaded.old) (memory S.Store store.new loaded.new)
        out.new channels.old channels.new }
{
    // These calls are laws, and do nothing.
    cards_are_known();
    files_are_found();
    stores_stand();
    selections_stay();
    out.body.clear();
    match try_delete(store, loaded, channels, seen, command) {
        Ok(status) => {
            out.status = status;
            Ok(())
        }
        Err(fault) => Err(fault),
    }
}
