//! What commands are refused for: those on files on any state, and every command on a good card. The functions do nothing: their contracts are the laws.
ghost use Rattle.std.specs.Prelude.{◌++◌};
ghost use Rattle.access_rules.specs.declared.rules.Op.TheVariants.{Activate, Deactivate, Increase, ReadBinary, ReadRecord, Search, UpdateBinary, UpdateRecord};
ghost use Rattle.file_model.specs.Creating.{created};
ghost use Rattle.file_model.specs.Deleting.{deleted};
ghost use Rattle.file_model.specs.Resizing.{resized};
ghost use Rattle.file_model.specs.Binaries.{binary_read, binary_updated, short_in_p1};
ghost use Rattle.file_model.specs.LifeCycles.{file_activated, file_deactivated};
ghost use Rattle.file_model.specs.Records.{increased, record_read, record_updated, searched, short_in_p2, short_to_increase};
ghost use Rattle.file_model.specs.Selecting.{file_selected, status_told};
ghost use Rattle.card_laws.specs.CardRefusalLaws.{ConditionsRefuse, RefusesInOrder};
ghost use Rattle.card_laws.specs.RefusalLaws.{IsDoneByAdm, IsDoneByLeave, IsDoneByRule, IsRefusedFor, IsTreeRefusedFor};
ghost use Rattle.card_laws.specs.Refusals.{refusals_of_create, refusals_of_delete, refusals_of_increase, refusals_of_life_cycle, refusals_of_read_binary, refusals_of_read_record, refusals_of_resize, refusals_of_search_record, refusals_of_select, refusals_of_status, refusals_of_update_binary, refusals_of_update_record, without_current_df};

use crate::toolkit_laws::{answers_with_applets_are_lawful, cards_stay_good};
use file_model::{commands_on_files_are_lawful, commands_on_trees_are_lawful};

/// Each of these commands has a list of conditions with their status, and is refused with that of the first that holds; where none
/// holds it is carried out.
pub fn the_first_condition_refuses()
    ensures read_binary { IsRefusedFor refusals_of_read_binary binary_read }
    ensures update_binary { IsRefusedFor refusals_of_update_binary binary_updated }
    ensures read_record { IsRefusedFor refusals_of_read_record record_read }
    ensures update_record { IsRefusedFor refusals_of_update_record record_updated }
    ensures search_record { IsRefusedFor refusals_of_search_record searched }
    ensures increase { IsRefusedFor refusals_of_increase increased }
{}

/// So has each command that selects a file or tells of one, that is on its life cycle, or that makes, deletes or resizes it.
pub fn the_first_condition_refuses_on_files()
    ensures select { IsRefusedFor refusals_of_select (λ state seen. file_selected state) }
    ensures status { IsRefusedFor
        (λ state seen selection apdu. refusals_of_status state seen selection apdu ++ without_current_df state selection)
        (λ state seen. status_told state) }
    ensures deactivate { IsRefusedFor (refusals_of_life_cycle Deactivate) file_deactivated }
    ensures activate { IsRefusedFor (refusals_of_life_cycle Activate) file_activated }
    ensures create { IsTreeRefusedFor refusals_of_create created }
    ensures delete { IsTreeRefusedFor refusals_of_delete deleted }
    ensures resize { IsTreeRefusedFor refusals_of_resize resized }
{}

/// Where a file is made, deleted or resized, the key ADM1 counts as verified, as one does that is disabled, too.
pub fn files_are_made_by_leave()
    ensures create { IsDoneByAdm created }
    ensures delete { IsDoneByAdm deleted }
    ensures resize { IsDoneByAdm resized }
{}

/// Where one of these commands is carried out, the rule of its file lets this be done, and the file is activated, but for the last two.
pub fn what_is_done_was_allowed()
    ensures read_binary { IsDoneByLeave ReadBinary short_in_p1 binary_read }
    ensures update_binary { IsDoneByLeave UpdateBinary short_in_p1 binary_updated }
    ensures read_record { IsDoneByLeave ReadRecord short_in_p2 record_read }
    ensures update_record { IsDoneByLeave UpdateRecord short_in_p2 record_updated }
    ensures search_record { IsDoneByLeave Search short_in_p2 searched }
    ensures increase { IsDoneByLeave Increase short_to_increase increased }
    ensures deactivate { IsDoneByRule Deactivate file_deactivated }
    ensures activate { IsDoneByRule Activate file_activated }
{}

/// All that a card can be told has one list of conditions, each with its status, in the written order: the form, the class, the channel and
/// the instruction, and then those of the command. A good card refuses a command with the status of the first that holds, and refuses
/// none for which no condition holds. A refusal has no data and changes nothing, or the tries and the mark of the key that the command names.
pub fn cards_refuse_in_order()
    ensures order { RefusesInOrder }
    ensures keeps { ConditionsRefuse }
{
    // These calls are laws, and do nothing.
    commands_on_files_are_lawful();
    commands_on_trees_are_lawful();
    cards_stay_good();
    answers_with_applets_are_lawful();
}
