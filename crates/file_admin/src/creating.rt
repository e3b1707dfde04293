//! CREATE FILE.
ghost use Rattle.std.specs.Prelude.{◌≡◌, true, false, IsTrue, IsOk, OnOk, IsSomeAnd};
ghost use Rattle.card_state.specs.Memory.{IsMounted, memory};
ghost use Rattle.apdu_form.specs.Classes.{channel_of};
ghost use Rattle.file_model.specs.Channels.{is_open};
ghost use Rattle.file_model.specs.Files.{descriptors_of, file_found, is_df};
ghost use Rattle.file_model.specs.declared.descriptors.Wanted.TheVariants.{Number};
ghost use Rattle.file_model.specs.Creating.{is_there, created_if_room};
ghost use Rattle.file_model.specs.LawfulTrees.{AreSelected};
ghost use Rattle.file_model.specs.TreeOutcomes.{df_on};
ghost use Rattle.file_model.specs.Templates.{may_be_made};
ghost use Rattle.file_admin.specs.Outcomes.{PerformsTree, AnswersTree, CommitsTree, IfNothingPasses, EndsTree, ChangesNodes, IsDone, changes_by, creation_by};
ghost use Rattle.file_admin.specs.Writes.{WritesTree};

use crate::adding::add_file;
use crate::channels::{df_on, selection_of};
use crate::new_entries::new_entry;
use crate::refusals::try_creation;
use crate::written_files::written_files_stand;
use access_rules::Verified;
use apdu_form::Command;
use card_state::Loaded;
use file_model::{NewFile, files_are_found, selections_stay};
use file_tree::Channels;
use layout_laws::{cards_are_known, stores_stand};
use store_form::{Store, StoreFault};
use uicc_types::{Answer, StatusWord};

// Makes this file in the current DF of the channel where there is room for it, and answers the status.
fn create<S: Store>(
    store: &mut S,
    loaded: &mut Loaded,
    channels: &mut Channels,
    channel: u8,
    file: &NewFile,
) -> Result<StatusWord, StoreFault>
    requires mounted { IsMounted (memory S.Store store.old loaded.old) }
    requires open { is_open channels.old channel ≡ true }
    requires df { IsSomeAnd (file_found (descriptors_of loaded.old) (Number (df_on channels.old channel)))
        (λ it. IsTrue (is_df it)) }
    requires may { IsTrue (may_be_made file.now) }
    requires new { is_there (descriptors_of loaded.old) (df_on channels.old channel) file.now ≡ false }
    ensures done { IsDone result (memory S.Store store.old loaded.old) (memory S.Store store.new loaded.new)
        channels.old channels.new (λ state. created_if_room state channels.old channel file.now) }
    ensures writes { WritesTree result (memory S.Store store.old loaded.old) (memory S.Store store.new loaded.new)
        (λ state. changes_by channels.old (created_if_room state channels.old channel file.now)) }
    ensures still { IfNothingPasses loaded.old channels.old
        (λ state. created_if_room state channels.old channel file.now)
        (IsOk result × (store.new ≡ store.old) × (loaded.new ≡ loaded.old)) }
    ensures ends { ChangesNodes result loaded.old loaded.new }
{
    // These calls are laws, and do nothing.
    cards_are_known();
    files_are_found();
    stores_stand();
    written_files_stand();
    let df = df_on(channels, channel);
    match new_entry(loaded, df, file) {
        Some(entry) => match add_file(store, loaded, entry.number, &entry.node) {
            Ok(()) => {
                channels.set(channel, selection_of(entry.number, df, file));
                Ok(StatusWord::DONE)
            }
            Err(fault) => Err(fault),
        },
        None => Ok(StatusWord::NO_ROOM),
    }
}

// Makes the file that the command asks for, and answers the status.
fn try_create<S: Store>(
    store: &mut S,
    loaded: &mut Loaded,
    channels: &mut Channels,
    seen: &Verified,
    command: &Command<'_>,
) -> Result<StatusWord, StoreFault>
    requires mounted { IsMounted (memory S.Store store.old loaded.old) }
    requires selected { AreSelected (descriptors_of loaded.old) channels.old }
    requires open { is_open channels.old (channel_of command.now.class) ≡ true }
    ensures done { IsDone result (memory S.Store store.old loaded.old) (memory S.Store store.new loaded.new)
        channels.old channels.new (creation_by command.now seen.now channels.old) }
    ensures writes { WritesTree result (memory S.Store store.old loaded.old) (memory S.Store store.new loaded.new)
        (λ state. changes_by channels.old (creation_by command.now seen.now channels.old state)) }
    ensures still { IfNothingPasses loaded.old channels.old (creation_by command.now seen.now channels.old)
        (IsOk result × (store.new ≡ store.old) × (loaded.new ≡ loaded.old)) }
    ensures ends { ChangesNodes result loaded.old loaded.new }
{
    // These calls are laws, and do nothing.
    cards_are_known();
    files_are_found();
    stores_stand();
    let channel = command.channel();
    match try_creation(loaded, seen, channels, channel, command) {
        Ok(file) => create(store, loaded, channels, channel, &file),
        Err(status) => Ok(status),
    }
}

/// Makes a file in the current DF of the command's channel (ETSI TS 102 222, 6.3), at the smallest place where it has room and under
/// the smallest number that is free, and selects it there. It answers no data. After a fault table and
/// channels are as they were, and the card as it was or as the command leaves it.
pub fn create_file<S: Store>(
    store: &mut S,
    loaded: &mut Loaded,
    channels: &mut Channels,
    seen: &Verified,
    command: &Command<'_>,
    out: &mut Answer,
) -> Result<(), StoreFault>
    requires mounted { IsMounted (memory S.Store store.old loaded.old) }
    requires selected { AreSelected (descriptors_of loaded.old) channels.old }
    requires open { is_open channels.old (channel_of command.now.class) ≡ true }
    ensures performs { PerformsTree result (memory S.Store store.old loaded.old) (memory S.Store store.new loaded.new)
        out.new channels.old channels.new (creation_by command.now seen.now channels.old) }
    ensures writes { WritesTree result (memory S.Store store.old loaded.old) (memory S.Store store.new loaded.new)
        (λ state. changes_by channels.old (creation_by command.now seen.now channels.old state)) }
    ensures answers { OnOk result (AnswersTree loaded.old loaded.new out.new.status channels.old channels.new
        (creation_by command.now seen.now channels.old)) }
    ensures still { IfNothingPasses loaded.old channels.old (creation_by command.now seen.now channels.old)
        (IsOk result × (store.new ≡ store.old) × (loaded.new ≡ loaded.old)) }
    ensures commits { CommitsTree result (memory S.Store store.old loaded.old) (memory S.Store store.new loaded.new)
        channels.old (creation_by command.now seen.now channels.old) }
    ensures ends { EndsTree result (memory S.Store store.old loaded.old) (memory S.Store store.new loaded.new)
        out.new channels.old channels.new }
{
    // These calls are laws, and do nothing.
    cards_are_known();
    files_are_found();
    stores_stand();
    selections_stay();
    out.body.clear();
    match try_create(store, loaded, channels, seen, command) {
        Ok(status) => {
            out.status = status;
            Ok(())
        }
        Err(fault) => Err(fault),
    }
}
