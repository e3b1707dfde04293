//! How a command is carried out.
ghost use Rattle.std.specs.Prelude.{◌≡◌, ◌≢◌, [], true, Some, Ok, Err, IsOk, OnOk, OnErr};
ghost use Rattle.apdu_form.specs.Model.{cut_to};
ghost use Rattle.card_state.specs.States.{pins_of};
ghost use Rattle.card_state.specs.Memory.{IsMounted, memory};
ghost use Rattle.file_model.specs.declared.descriptors.Descriptor.{Descriptor};
ghost use Rattle.file_model.specs.Access.{keys_seen};
ghost use Rattle.file_model.specs.Binaries.{binary_to_read};
ghost use Rattle.file_model.specs.Files.{descriptors_of};
ghost use Rattle.file_model.specs.Outcomes.{settled_file};
ghost use Rattle.apdu_form.specs.Classes.{channel_of};
ghost use Rattle.file_model.specs.Channels.{is_open};
ghost use Rattle.file_model.specs.Commands.{contents_outcome, file_addressed, file_outcome};
ghost use Rattle.file_model.specs.LawfulTrees.{AreSelected};
ghost use Rattle.card_commits.specs.Performing.{Performs, WritesAll};
ghost use Rattle.binary_commands.specs.Commands.{IsSomeCommand, IsInPlace};
ghost use Rattle.binary_commands.specs.Ends.{EndsWell};
ghost use Rattle.binary_commands.specs.Reads.{access_reads, ReadsOnce};
ghost use Rattle.binary_commands.specs.Targets.{IsRefused};
ghost use Rattle.record_commands.specs.Tables.{KeepsOtherFiles};
ghost use Rattle.file_admin.specs.Outcomes.{PerformsTree, IfNothingPasses, EndsTree};
ghost use Rattle.card_model.specs.Answers.{settled, carried_out, carried_with, told_pending};
ghost use Rattle.card_model.specs.Instructions.{instruction_tried, is_known};
ghost use Rattle.card_core.specs.Commands.{tree_by};
ghost use Rattle.card_core.specs.Serving.{TellsOfFiles, TellsOfTree};

use crate::cards::CardOver;
use crate::channels::manage;
use crate::instructions::instruction_of;
use crate::keys::keys_seen;
use crate::laws::{keys_are_own, tables_have_rows, the_mf_is_there};
use crate::sessions::told_pending;
use crate::toolkit::{by_toolkit, leaving};
use access_rules::Verified;
use apdu_form::{Command, WrongLength, read_command};
use applet_trait::Applet;
use binary_commands::{read_binary, select, status, update_binary};
use card_commits::tables_tell_states;
use card_laws::cards_go_on;
use card_model::{CatCommand, Instruction};
use card_state::{Loaded, states_are_of_entries};
use cat_commands::poll;
use file_admin::{create_file, delete_file, resize_file};
use file_model::{ContentsCommand, FileCommand, PinCommand, Selection, TreeCommand};
use file_tree::Channels;
use pin_rules::named_pin_command;
use record_commands::{activate, deactivate, increase, read_record, search_record, update_record};
use store_form::{Store, StoreFault};
use uicc_types::{Answer, AnswerData, StatusWord};

// A command on what a file holds, which its access rule may forbid, over what is selected on its channel.
#[inline(always)]
#[tactic(auto, unfolding(file_model::specs::Commands::contents_outcome, file_model::specs::Commands::file_addressed))]
fn on_contents<S: Store>(
    command: ContentsCommand,
    store: &mut S,
    loaded: &mut Loaded,
    selection: &mut Selection,
    seen: &Verified,
    apdu: &Command<'_>,
    out: &mut Answer,
) -> Result<(), StoreFault>
    requires place { IsInPlace (memory S.Store store.old loaded.old) selection.old }
    requires apdu { IsSomeCommand apdu.now }
    ensures performs { Performs result (memory S.Store store.old loaded.old) (memory S.Store store.new loaded.new)
        out.new selection.new (λ state. settled_file selection.old
        (contents_outcome command state seen.now selection.old apdu.now)) }
    ensures writes { WritesAll result (memory S.Store store.old loaded.old) (memory S.Store store.new loaded.new) (λ state.
        (settled_file selection.old (contents_outcome command state seen.now selection.old apdu.now)).changes) }
    ensures denied { (status : StatusWord)
        → file_addressed command (descriptors_of loaded.old) selection.old apdu.now ≡ Err status
        → IsOk result × IsRefused status out.new selection.old selection.new
        × (memory S.Store store.new loaded.new ≡ memory S.Store store.old loaded.old) }
    ensures files { KeepsOtherFiles loaded.old loaded.new }
    ensures asks { command ≡ ContentsCommand.ReadBinary → (file : Descriptor)
        → binary_to_read (descriptors_of loaded.old) selection.old apdu.now ≡ Ok file
        → ReadsOnce result out.new (access_reads (descriptors_of loaded.old) file) (S.reads store.old)
        (S.reads store.new) }
    ensures ends { EndsWell result (memory S.Store store.old loaded.old) (memory S.Store store.new loaded.new)
        out.new selection.new }
{
    match command {
        ContentsCommand::ReadBinary => read_binary(store, loaded, selection, seen, apdu, out),
        ContentsCommand::UpdateBinary => update_binary(store, loaded, selection, seen, apdu, out),
        ContentsCommand::ReadRecord => read_record(store, loaded, selection, seen, apdu, out),
        ContentsCommand::UpdateRecord => update_record(store, loaded, selection, seen, apdu, out),
        ContentsCommand::SearchRecord => search_record(store, loaded, selection, seen, apdu, out),
        ContentsCommand::Increase => increase(store, loaded, selection, seen, apdu, out),
        ContentsCommand::Deactivate => deactivate(store, loaded, selection, seen, apdu, out),
        ContentsCommand::Activate => activate(store, loaded, selection, seen, apdu, out),
    }
}

// A command on files, over what is selected on its channel. The keys are looked at where access is tested.
#[inline(always)]
#[tactic(auto, unfolding(file_model::specs::Commands::file_outcome))]
fn on_files<S: Store>(
    command: FileCommand,
    store: &mut S,
    loaded: &mut Loaded,
    selection: &mut Selection,
    verified: &Verified,
    apdu: &Command<'_>,
    out: &mut Answer,
) -> Result<(), StoreFault>
    requires place { IsInPlace (memory S.Store store.old loaded.old) selection.old }
    requires apdu { IsSomeCommand apdu.now }
    ensures performs { Performs result (memory S.Store store.old loaded.old) (memory S.Store store.new loaded.new)
        out.new selection.new (λ state. settled_file selection.old
        (file_outcome command state (keys_seen (pins_of loaded.old) verified.now) selection.old apdu.now)) }
    ensures writes { WritesAll result (memory S.Store store.old loaded.old) (memory S.Store store.new loaded.new)
        (λ state. (settled_file selection.old
        (file_outcome command state (keys_seen (pins_of loaded.old) verified.now)
        selection.old apdu.now)).changes) }
    ensures tells { TellsOfFiles result command apdu.now verified.now
        (memory S.Store store.old loaded.old) (memory S.Store store.new loaded.new)
        selection.old selection.new out.new }
    ensures files { KeepsOtherFiles loaded.old loaded.new }
    ensures asks { command ≡ FileCommand.Contents ContentsCommand.ReadBinary → (file : Descriptor)
        → binary_to_read (descriptors_of loaded.old) selection.old apdu.now ≡ Ok file
        → ReadsOnce result out.new (access_reads (descriptors_of loaded.old) file) (S.reads store.old)
        (S.reads store.new) }
    ensures ends { EndsWell result (memory S.Store store.old loaded.old) (memory S.Store store.new loaded.new)
        out.new selection.new }
{
    match command {
        FileCommand::Select => select(store, loaded, selection, verified, apdu, out),
        FileCommand::Status => status(store, loaded, selection, verified, apdu, out),
        FileCommand::Contents(command) => {
            // This call is a law, and does nothing.
            keys_are_own();
            let seen = keys_seen(loaded, verified);
            on_contents(command, store, loaded, selection, &seen, apdu, out)
        }
    }
}

// A command that makes, deletes or resizes a file, over what is selected on each channel. The keys are looked at where access is
// tested.
#[tactic(auto, unfolding(file_model::specs::TreeCommands::tree_outcome))]
fn on_tree<S: Store>(
    command: TreeCommand,
    store: &mut S,
    loaded: &mut Loaded,
    channels: &mut Channels,
    verified: &Verified,
    apdu: &Command<'_>,
    out: &mut Answer,
) -> Result<(), StoreFault>
    requires mounted { IsMounted (memory S.Store store.old loaded.old) }
    requires selected { AreSelected (descriptors_of loaded.old) channels.old }
    requires open { is_open channels.old (channel_of apdu.now.class) ≡ true }
    ensures performs { PerformsTree result (memory S.Store store.old loaded.old) (memory S.Store store.new loaded.new)
        out.new channels.old channels.new
        (tree_by command apdu.now (keys_seen (pins_of loaded.old) verified.now) channels.old) }
    ensures tells { TellsOfTree result (memory S.Store store.old loaded.old) (memory S.Store store.new loaded.new)
        channels.old channels.new out.new.status
        (tree_by command apdu.now (keys_seen (pins_of loaded.old) verified.now) channels.old) }
    ensures still { IfNothingPasses loaded.old channels.old
        (tree_by command apdu.now (keys_seen (pins_of loaded.old) verified.now) channels.old)
        (IsOk result × (store.new ≡ store.old) × (loaded.new ≡ loaded.old)) }
    ensures ends { EndsTree result (memory S.Store store.old loaded.old) (memory S.Store store.new loaded.new)
        out.new channels.old channels.new }
{
    // This call is a law, and does nothing.
    keys_are_own();
    let seen = keys_seen(loaded, verified);
    match command {
        TreeCommand::Create => create_file(store, loaded, channels, &seen, apdu, out),
        TreeCommand::Delete => delete_file(store, loaded, channels, &seen, apdu, out),
        TreeCommand::Resize => resize_file(store, loaded, channels, &seen, apdu, out),
    }
}

// Le bounds the data of the answer (ISO 7816-4, 5.1).
fn cut(expected: Option<u16>, out: &mut Answer)
    ensures body { out.new.body ≡ cut_to expected out.old.body }
    ensures status { out.new.status ≡ out.old.status }
{
    if let Some(expected) = expected {
        let most = usize::from(expected);
        let told = out.body.as_slice();
        if most < told.len() {
            out.body = AnswerData::from_slice(&told[..most]);
        }
    }
}

impl<S: Store, B: Applet> CardOver<S, B> {
    ghost use Rattle.card_core.specs.Cards.{parts_of};
    ghost use Rattle.card_core.specs.AnyStore.{command_named};
    ghost use Rattle.card_core.specs.Acting.{ActsOn, ActsAlone, ChangesNothing, TellsApplets, StopsToolkit, in_form, in_bytes, in_whole, ActsAs};
    ghost use Rattle.card_core.specs.Moves.{IsAnswered, polled_on};
    ghost use Rattle.card_core.specs.BinaryReads.{ReadsFileOnce, ReadsBinaryOnce};
    ghost use Rattle.card_core.specs.Underway.{IsUnderway, IsOnChannel, GoesOn};

    // A command on files, over what is selected on its channel. The other channels stay as they are. Inlined, since the command is known
    // where it is called.
    #[inline(always)]
    fn carry_out_on_files(
        &mut self,
        command: FileCommand,
        apdu: &Command<'_>,
        out: &mut Answer,
    ) -> Result<(), StoreFault>
        requires underway { IsUnderway (parts_of S.Store B.Applet self.old) }
        requires apdu { IsOnChannel (parts_of S.Store B.Applet self.old) apdu.now }
        ensures usual { OnOk result (out.new.status.0 ≢ StatusWord.MEMORY_PROBLEM.0) }
        ensures empty { OnErr result (out.new.body ≡ []) }
        ensures acts { ActsAlone result (Instruction.File command) apdu.now (parts_of S.Store B.Applet self.old)
            (parts_of S.Store B.Applet self.new) out.new }
        ensures still { command ≡ FileCommand.Status → ChangesNothing result (parts_of S.Store B.Applet self.old)
            (parts_of S.Store B.Applet self.new) }
        ensures table { OnErr result ((parts_of S.Store B.Applet self.new).table
            ≡ (parts_of S.Store B.Applet self.old).table) }
        ensures asks { command ≡ FileCommand.Contents ContentsCommand.ReadBinary
            → ReadsFileOnce result (parts_of S.Store B.Applet self.old) (parts_of S.Store B.Applet self.new) apdu.now out.new }
        ensures goes_on { GoesOn result (parts_of S.Store B.Applet self.old) (parts_of S.Store B.Applet self.new) }
    {
        // These calls are laws, and do nothing.
        tables_tell_states();
        tables_have_rows();
        cards_go_on();
        let channel = apdu.channel();
        let Some(mut selection) = self.channels.selected(channel) else {
            unreachable!()
        };
        match on_files(
            command,
            &mut self.store,
            &mut self.loaded,
            &mut selection,
            &self.verified,
            apdu,
            out,
        ) {
            Ok(()) => {
                self.channels.set(channel, selection);
                Ok(())
            }
            Err(fault) => Err(fault),
        }
    }

    // A command that makes, deletes or resizes a file. Where a fault stops it, the table and what is selected are left as they were.
    fn carry_out_on_tree(
        &mut self,
        command: TreeCommand,
        apdu: &Command<'_>,
        out: &mut Answer,
    ) -> Result<(), StoreFault>
        requires underway { IsUnderway (parts_of S.Store B.Applet self.old) }
        requires open { is_open self.old.channels (channel_of apdu.now.class) ≡ true }
        ensures usual { OnOk result (out.new.status.0 ≢ StatusWord.MEMORY_PROBLEM.0) }
        ensures empty { OnErr result (out.new.body ≡ []) }
        ensures acts { ActsAlone result (Instruction.Tree command) apdu.now (parts_of S.Store B.Applet self.old)
            (parts_of S.Store B.Applet self.new) out.new }
        ensures table { OnErr result ((parts_of S.Store B.Applet self.new).table
            ≡ (parts_of S.Store B.Applet self.old).table) }
        ensures goes_on { GoesOn result (parts_of S.Store B.Applet self.old) (parts_of S.Store B.Applet self.new) }
    {
        // These calls are laws, and do nothing.
        tables_tell_states();
        tables_have_rows();
        cards_go_on();
        match on_tree(
            command,
            &mut self.store,
            &mut self.loaded,
            &mut self.channels,
            &self.verified,
            apdu,
            out,
        ) {
            Ok(()) => Ok(()),
            Err(fault) => Err(fault),
        }
    }

    // A command on PINs, which all channels share. What is selected stays as it is, and so does the
    // table where a fault stops it, whatever was committed.
    fn carry_out_on_pins(
        &mut self,
        command: PinCommand,
        apdu: &Command<'_>,
        out: &mut Answer,
    ) -> Result<(), StoreFault>
        requires underway { IsUnderway (parts_of S.Store B.Applet self.old) }
        ensures usual { OnOk result (out.new.status.0 ≢ StatusWord.MEMORY_PROBLEM.0) }
        ensures empty { OnErr result (out.new.body ≡ []) }
        ensures acts { ActsAlone result (Instruction.Pin command) apdu.now (parts_of S.Store B.Applet self.old)
            (parts_of S.Store B.Applet self.new) out.new }
        ensures table { OnErr result ((parts_of S.Store B.Applet self.new).table
            ≡ (parts_of S.Store B.Applet self.old).table) }
        ensures goes_on { GoesOn result (parts_of S.Store B.Applet self.old) (parts_of S.Store B.Applet self.new) }
    {
        // These calls are laws, and do nothing.
        tables_tell_states();
        tables_have_rows();
        cards_go_on();
        let before = self.loaded.pins;
        match named_pin_command(
            command,
            &mut self.store,
            &mut self.loaded,
            &mut self.verified,
            apdu,
            out,
        ) {
            Ok(()) => Ok(()),
            Err(fault) => {
                self.loaded.pins = before;
                Err(fault)
            }
        }
    }

    // MANAGE CHANNEL, in which the store has no part.
    fn manage_channel(&mut self, apdu: &Command<'_>, out: &mut Answer) -> Result<(), StoreFault>
        requires underway { IsUnderway (parts_of S.Store B.Applet self.old) }
        requires open { is_open self.old.channels (channel_of apdu.now.class) ≡ true }
        requires empty { out.old.body ≡ [] }
        ensures usual { OnOk result (out.new.status.0 ≢ StatusWord.MEMORY_PROBLEM.0) }
        ensures empty { OnErr result (out.new.body ≡ []) }
        ensures acts { ActsAlone result Instruction.ManageChannel apdu.now (parts_of S.Store B.Applet self.old)
            (parts_of S.Store B.Applet self.new) out.new }
        ensures ok { IsOk result }
        ensures goes_on { GoesOn result (parts_of S.Store B.Applet self.old) (parts_of S.Store B.Applet self.new) }
    {
        // This call is a law, and does nothing.
        the_mf_is_there();
        match manage(&mut self.channels, apdu) {
            Ok(Some(number)) => {
                out.body = AnswerData::from_slice(&[number]);
                out.status = StatusWord::DONE;
            }
            Ok(None) => out.status = StatusWord::DONE,
            Err(status) => out.status = status,
        }
        Ok(())
    }

    // A command of the toolkit. Where a fault stops it, the table has what was committed. Where one stops a DELETE, its applet leaves:
    // its box goes once its row is known to be gone.
    fn serve_toolkit(
        &mut self,
        command: CatCommand,
        apdu: &Command<'_>,
        out: &mut Answer,
    ) -> Result<(), StoreFault>
        requires underway { IsUnderway (parts_of S.Store B.Applet self.old) }
        requires apdu { IsSomeCommand apdu.now }
        ensures usual { OnOk result (out.new.status.0 ≢ StatusWord.MEMORY_PROBLEM.0) }
        ensures empty { OnErr result (out.new.body ≡ []) }
        ensures acts { ActsAlone result (Instruction.Toolkit command) apdu.now (parts_of S.Store B.Applet self.old)
            (parts_of S.Store B.Applet self.new) out.new }
        ensures stopped { OnErr result (StopsToolkit (parts_of S.Store B.Applet self.old)
            (parts_of S.Store B.Applet self.new)
            (λ card. (settled card (carried_out (Instruction.Toolkit command) card apdu.now)).commits)) }
        ensures before { self.new.before ≡ self.old.before }
        ensures goes_on { GoesOn result (parts_of S.Store B.Applet self.old) (parts_of S.Store B.Applet self.new) }
    {
        // These calls are laws, and do nothing.
        tables_tell_states();
        tables_have_rows();
        cards_go_on();
        states_are_of_entries();
        match by_toolkit(
            command,
            &mut self.store,
            &mut self.loaded,
            &mut self.index,
            &mut self.boxes,
            &mut self.session,
            &self.verified,
            apdu,
            out,
        ) {
            Ok(()) => Ok(()),
            Err(fault) => {
                self.leaving = leaving(command, apdu);
                Err(fault)
            }
        }
    }

    // A command of the toolkit. One that a fault stops leaves the table as it was, whatever was committed.
    fn carry_out_by_toolkit(
        &mut self,
        command: CatCommand,
        apdu: &Command<'_>,
        out: &mut Answer,
    ) -> Result<(), StoreFault>
        requires underway { IsUnderway (parts_of S.Store B.Applet self.old) }
        requires apdu { IsSomeCommand apdu.now }
        ensures usual { OnOk result (out.new.status.0 ≢ StatusWord.MEMORY_PROBLEM.0) }
        ensures empty { OnErr result (out.new.body ≡ []) }
        ensures acts { ActsAlone result (Instruction.Toolkit command) apdu.now (parts_of S.Store B.Applet self.old)
            (parts_of S.Store B.Applet self.new) out.new }
        ensures table { OnErr result ((parts_of S.Store B.Applet self.new).table
            ≡ (parts_of S.Store B.Applet self.old).table) }
        ensures goes_on { GoesOn result (parts_of S.Store B.Applet self.old) (parts_of S.Store B.Applet self.new) }
    {
        // These calls are laws, and do nothing.
        tables_tell_states();
        tables_have_rows();
        cards_go_on();
        states_are_of_entries();
        // FETCH meets no fault.
        if command == CatCommand::Fetch {
            return self.serve_toolkit(command, apdu, out);
        }
        self.before.note(&self.loaded);
        match self.serve_toolkit(command, apdu, out) {
            Ok(()) => Ok(()),
            Err(fault) => {
                self.before.put_back(&mut self.loaded);
                Err(fault)
            }
        }
    }

    // The applets that are registered for STATUS are told of it. Where a fault stops that, the table has what was committed.
    fn serve_status(&mut self, out: &mut Answer) -> Result<(), StoreFault>
        requires underway { IsUnderway (parts_of S.Store B.Applet self.old) }
        ensures out { OnOk result (out.new ≡ out.old) }
        ensures empty { OnErr result (out.new.body ≡ []) }
        ensures acts { TellsApplets result (parts_of S.Store B.Applet self.old) (parts_of S.Store B.Applet self.new) }
        ensures stopped { OnErr result (StopsToolkit (parts_of S.Store B.Applet self.old)
            (parts_of S.Store B.Applet self.new)
            (λ card. (polled_on card).commits)) }
        ensures before { self.new.before ≡ self.old.before }
        ensures goes_on { GoesOn result (parts_of S.Store B.Applet self.old) (parts_of S.Store B.Applet self.new) }
    {
        // These calls are laws, and do nothing.
        tables_tell_states();
        tables_have_rows();
        cards_go_on();
        states_are_of_entries();
        match poll(
            &mut self.store,
            &mut self.loaded,
            &mut self.index,
            &mut self.boxes,
            &mut self.session,
        ) {
            Ok(()) => Ok(()),
            Err(fault) => {
                out.body.clear();
                Err(fault)
            }
        }
    }

    // The applets that are registered for STATUS are told of it. Where a fault stops that, the table is left as it was.
    fn tell_applets(&mut self, out: &mut Answer) -> Result<(), StoreFault>
        requires underway { IsUnderway (parts_of S.Store B.Applet self.old) }
        ensures out { OnOk result (out.new ≡ out.old) }
        ensures empty { OnErr result (out.new.body ≡ []) }
        ensures acts { TellsApplets result (parts_of S.Store B.Applet self.old) (parts_of S.Store B.Applet self.new) }
        ensures table { OnErr result ((parts_of S.Store B.Applet self.new).table
            ≡ (parts_of S.Store B.Applet self.old).table) }
        ensures goes_on { GoesOn result (parts_of S.Store B.Applet self.old) (parts_of S.Store B.Applet self.new) }
    {
        // These calls are laws, and do nothing.
        tables_tell_states();
        tables_have_rows();
        cards_go_on();
        states_are_of_entries();
        self.before.note(&self.loaded);
        match self.serve_status(out) {
            Ok(()) => Ok(()),
            Err(fault) => {
                self.before.put_back(&mut self.loaded);
                Err(fault)
            }
        }
    }

    // STATUS. Where it is done the applets are told of it.
    fn tell_status(&mut self, apdu: &Command<'_>, out: &mut Answer) -> Result<(), StoreFault>
        requires underway { IsUnderway (parts_of S.Store B.Applet self.old) }
        requires apdu { IsOnChannel (parts_of S.Store B.Applet self.old) apdu.now }
        ensures usual { OnOk result (out.new.status.0 ≢ StatusWord.MEMORY_PROBLEM.0) }
        ensures empty { OnErr result (out.new.body ≡ []) }
        ensures acts { ActsOn result (Instruction.File FileCommand.Status) apdu.now
            (parts_of S.Store B.Applet self.old) (parts_of S.Store B.Applet self.new) out.new
            (λ card. settled card (carried_with true (Instruction.File FileCommand.Status) card apdu.now))
            (λ status. status) }
        ensures table { OnErr result ((parts_of S.Store B.Applet self.new).table
            ≡ (parts_of S.Store B.Applet self.old).table) }
        ensures goes_on { GoesOn result (parts_of S.Store B.Applet self.old) (parts_of S.Store B.Applet self.new) }
    {
        match self.carry_out_on_files(FileCommand::Status, apdu, out) {
            Ok(()) if out.status.0 == StatusWord::DONE.0 => self.tell_applets(out),
            Ok(()) => Ok(()),
            Err(fault) => Err(fault),
        }
    }

    // A command whose form is known: the class, the channel and the instruction come first, and then the command's own refusals.
    fn take(&mut self, apdu: &Command<'_>, out: &mut Answer) -> Result<(), StoreFault>
        requires underway { IsUnderway (parts_of S.Store B.Applet self.old) }
        requires apdu { IsSomeCommand apdu.now }
        requires empty { out.old.body ≡ [] }
        ensures usual { OnOk result (out.new.status.0 ≢ StatusWord.MEMORY_PROBLEM.0) }
        ensures empty { OnErr result (out.new.body ≡ []) }
        ensures untouched { (status : StatusWord)
            → instruction_tried is_known self.old.channels apdu.now.class apdu.now.ins ≡ Err status
            → self.new ≡ self.old }
        ensures acts { ActsAs result (parts_of S.Store B.Applet self.old) (parts_of S.Store B.Applet self.new) out.new
            (in_form (parts_of S.Store B.Applet self.old) apdu.now) }
        ensures asks { instruction_tried is_known self.old.channels apdu.now.class apdu.now.ins
            ≡ Ok (Instruction.File (FileCommand.Contents ContentsCommand.ReadBinary))
            → ReadsFileOnce result (parts_of S.Store B.Applet self.old) (parts_of S.Store B.Applet self.new) apdu.now out.new }
        ensures goes_on { GoesOn result (parts_of S.Store B.Applet self.old) (parts_of S.Store B.Applet self.new) }
    {
        match instruction_of(&self.channels, apdu) {
            Ok(Instruction::File(FileCommand::Status)) => self.tell_status(apdu, out),
            Ok(Instruction::File(FileCommand::Select)) => {
                self.carry_out_on_files(FileCommand::Select, apdu, out)
            }
            Ok(Instruction::File(FileCommand::Contents(command))) => {
                self.carry_out_on_files(FileCommand::Contents(command), apdu, out)
            }
            Ok(Instruction::Pin(command)) => self.carry_out_on_pins(command, apdu, out),
            Ok(Instruction::ManageChannel) => self.manage_channel(apdu, out),
            Ok(Instruction::Toolkit(command)) => self.carry_out_by_toolkit(command, apdu, out),
            Ok(Instruction::Tree(command)) => self.carry_out_on_tree(command, apdu, out),
            Err(status) => {
                out.status = status;
                Ok(())
            }
        }
    }

    // A command in bytes, without what the answer tells of a command to be fetched.
    fn attempt(&mut self, bytes: &[u8], out: &mut Answer) -> Result<(), StoreFault>
        requires underway { IsUnderway (parts_of S.Store B.Applet self.old) }
        requires empty { out.old.body ≡ [] }
        ensures usual { OnOk result (out.new.status.0 ≢ StatusWord.MEMORY_PROBLEM.0) }
        ensures empty { OnErr result (out.new.body ≡ []) }
        ensures untouched { (status : StatusWord) → command_named self.old.channels bytes.now ≡ Err status → self.new
            ≡ self.old }
        ensures acts { ActsAs result (parts_of S.Store B.Applet self.old) (parts_of S.Store B.Applet self.new) out.new
            (in_bytes (parts_of S.Store B.Applet self.old) bytes.now) }
        ensures asks { ReadsBinaryOnce result (parts_of S.Store B.Applet self.old) (parts_of S.Store B.Applet self.new) bytes.now out.new }
        ensures goes_on { GoesOn result (parts_of S.Store B.Applet self.old) (parts_of S.Store B.Applet self.new) }
    {
        match read_command(bytes) {
            Ok(apdu) => match self.take(&apdu, out) {
                Ok(()) => {
                    cut(apdu.expected, out);
                    Ok(())
                }
                Err(fault) => Err(fault),
            },
            Err(WrongLength) => {
                out.status = StatusWord::WRONG_LENGTH;
                Ok(())
            }
        }
    }

    /// Carries out a command, or refuses it, and tells of a command that is to be fetched. No recovery is due, and the answer has no
    /// data yet.
    pub(crate) fn carry_out(&mut self, bytes: &[u8], out: &mut Answer) -> Result<(), StoreFault>
        requires underway { IsUnderway (parts_of S.Store B.Applet self.old) }
        requires empty { out.old.body ≡ [] }
        ensures answered { IsAnswered result (parts_of S.Store B.Applet self.old) (parts_of S.Store B.Applet self.new)
            bytes.now out.new }
        ensures untouched { (status : StatusWord) → command_named self.old.channels bytes.now ≡ Err status → self.new
            ≡ self.old }
        ensures acts { ActsAs result (parts_of S.Store B.Applet self.old) (parts_of S.Store B.Applet self.new) out.new
            (in_whole (parts_of S.Store B.Applet self.old) bytes.now) }
        ensures asks { ReadsBinaryOnce result (parts_of S.Store B.Applet self.old) (parts_of S.Store B.Applet self.new) bytes.now out.new }
        ensures goes_on { GoesOn result (parts_of S.Store B.Applet self.old) (parts_of S.Store B.Applet self.new) }
    {
        match self.attempt(bytes, out) {
            Ok(()) => {
                out.status = told_pending(self.session.unfetched(), out.status);
                Ok(())
            }
            Err(fault) => Err(fault),
        }
    }
}
