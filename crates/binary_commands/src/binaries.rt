//! READ BINARY and UPDATE BINARY.
ghost use Rattle.std.specs.Prelude.{◌≡◌, ◌≢◌, ◌+◌, ◌≤◌, [], ◌∷◌, ◌==◌, ◌||◌, true, if◌then◌else◌, length, take, drop, Err, IfOk, IfSome, IsOk, Ok, OnOk, OnErr};
ghost use Rattle.uicc_types.specs.Counts.{raised};
ghost use Rattle.card_state.specs.Changes.{PutBytes};
ghost use Rattle.card_state.specs.Memory.{IsMounted, Reads, held_by, memory};
ghost use Rattle.file_model.specs.declared.descriptors.Descriptor.{Descriptor};
ghost use Rattle.file_model.specs.Files.{descriptors_of};
ghost use Rattle.file_model.specs.Holdings.{bytes_in};
ghost use Rattle.file_model.specs.Binaries.{offset_of, binary_to_read, binary_to_update, read_from, binary_read, update_in, binary_updated};
ghost use Rattle.apdu_form.specs.Fields.{has_data};
ghost use Rattle.file_model.specs.Outcomes.{settled_file};
ghost use Rattle.card_commits.specs.Performing.{Performs, StaysStill, WritesAll};
ghost use Rattle.binary_commands.specs.Commands.{IsSomeCommand, IsInPlace, IsBinaryFile, IsBinaryTarget};
ghost use Rattle.binary_commands.specs.Ends.{EndsTry, EndsWell, GivesTried, Passes, Puts};
ghost use Rattle.binary_commands.specs.Reads.{access_reads, ReadsFile, ReadsOnce};
ghost use Rattle.binary_commands.specs.Targets.{IsRefused};

use crate::access::is_allowed;
use crate::settling::settle;
use crate::targets::{binary_file, offset_in, pointer_in, worked_on};
use crate::telling::append;
use access_rules::{Op, Verified};
use apdu_form::Command;
use card_commits::{contents_are_whole, read_bytes, tables_tell_states, write_bytes};
use card_state::Loaded;
use file_model::{Descriptor, Selection};
use store_form::{Store, StoreFault};
use uicc_types::{Answer, AnswerData, StatusWord};

// Has so many bytes of the file from this offset on, or those that there are, in an answer that is empty before.
fn read_part<S: Store>(
    store: &mut S,
    loaded: &Loaded,
    file: &Descriptor,
    offset: u16,
    count: u16,
    body: &mut AnswerData,
) -> Result<(), StoreFault>
    requires mounted { IsMounted (memory S.Store store.old loaded.now) }
    requires file { IsBinaryFile (descriptors_of loaded.now) file.now }
    requires offset { offset ≤ file.now.size }
    requires count { count ≤ 256 }
    requires empty { body.old ≡ [] }
    ensures read { OnOk result (IfSome (held_by S.Store store.old) (λ state.
        body.new ≡ take count (drop offset (bytes_in state file.now.number)))) }
    ensures unread { OnErr result (body.new ≡ body.old) }
    ensures reads { Reads (memory S.Store store.old loaded.now) (memory S.Store store.new loaded.now) result }
    ensures once { S.reads store.new ≡ raised (S.reads store.old) }
{
    // This call is a law, and does nothing.
    contents_are_whole();
    let mut buffer = [0; 256];
    let bytes = &mut buffer[..usize::from(count.min(file.size - offset))];
    read_bytes(store, loaded, file.number, offset, bytes)?;
    append(body, bytes);
    Ok(())
}

// The end of the file was reached, unless so many bytes as there are were asked for.
fn status_of_part(count: u16, length: usize) -> StatusWord
    ensures value { result ≡ (if count == 256 || length == count then StatusWord.DONE else StatusWord.END_OF_FILE) }
    ensures usual { result.0 ≢ StatusWord.MEMORY_PROBLEM.0 }
    ensures granted { result.0 ≢ StatusWord.SECURITY_NOT_SATISFIED.0 }
{
    if count == 256 || length == usize::from(count) {
        StatusWord::DONE
    } else {
        StatusWord::END_OF_FILE
    }
}

// Reads from the EF that the command works on, and has the answer in `out`, which is empty before.
#[tactic(auto, unfolding(file_model::specs::Binaries::read_from, file_model::specs::Binaries::reading, file_model::specs::Chains::refused_if))]
fn read_file<S: Store>(
    store: &mut S,
    loaded: &Loaded,
    selection: &Selection,
    seen: &Verified,
    command: &Command<'_>,
    file: &Descriptor,
    out: &mut Answer,
) -> Result<Result<Selection, StatusWord>, StoreFault>
    requires mounted { IsMounted (memory S.Store store.old loaded.now) }
    requires target { IsBinaryTarget (descriptors_of loaded.now) selection.now command.now file.now }
    requires command { IsSomeCommand command.now }
    requires empty { out.old.body ≡ [] }
    ensures gives { GivesTried result (memory S.Store store.old loaded.now) (memory S.Store store.new loaded.now)
        out.new (λ state. read_from state seen.now selection.now command.now file.now) }
    ensures ends { EndsTry result (memory S.Store store.old loaded.now) (memory S.Store store.new loaded.now)
        out.old out.new }
    ensures reads { Reads (memory S.Store store.old loaded.now) (memory S.Store store.new loaded.now) result }
    ensures asks { ReadsFile result (access_reads (descriptors_of loaded.now) file.now) (S.reads store.old)
        (S.reads store.new) }
    ensures usual { IfOk result (λ tried. OnOk tried (out.new.status.0 ≢ StatusWord.SECURITY_NOT_SATISFIED.0)) }
{
    if !is_allowed(store, loaded, file, Op::ReadBinary, seen)? {
        return Ok(Err(StatusWord::SECURITY_NOT_SATISFIED));
    }
    let offset = offset_in(command);
    if file.size <= offset {
        return Ok(Err(StatusWord::WRONG_OFFSET));
    }
    let count = command.expected.unwrap_or(0);
    read_part(store, loaded, file, offset, count, &mut out.body)?;
    out.status = status_of_part(count, out.body.as_slice().len());
    Ok(Ok(worked_on(selection, file, pointer_in(selection, command))))
}

// Reads, and has the answer in `out`, which is empty before.
fn try_read<S: Store>(
    store: &mut S,
    loaded: &Loaded,
    selection: &Selection,
    seen: &Verified,
    command: &Command<'_>,
    out: &mut Answer,
) -> Result<Result<Selection, StatusWord>, StoreFault>
    requires place { IsInPlace (memory S.Store store.old loaded.now) selection.now }
    requires command { IsSomeCommand command.now }
    requires empty { out.old.body ≡ [] }
    ensures gives { GivesTried result (memory S.Store store.old loaded.now) (memory S.Store store.new loaded.now)
        out.new (λ state. binary_read state seen.now selection.now command.now) }
    ensures refused { (status : StatusWord)
        → binary_to_read (descriptors_of loaded.now) selection.now command.now ≡ Err status
        → (result ≡ Ok (Err status)) × (store.new ≡ store.old) }
    ensures ends { EndsTry result (memory S.Store store.old loaded.now) (memory S.Store store.new loaded.now)
        out.old out.new }
    ensures reads { Reads (memory S.Store store.old loaded.now) (memory S.Store store.new loaded.now) result }
    ensures asks { (file : Descriptor)
        → binary_to_read (descriptors_of loaded.now) selection.now command.now ≡ Ok file
        → ReadsFile result (access_reads (descriptors_of loaded.now) file) (S.reads store.old) (S.reads store.new) }
    ensures usual { IfOk result (λ tried. OnOk tried (out.new.status.0 ≢ StatusWord.SECURITY_NOT_SATISFIED.0)) }
{
    // This call is a law, and does nothing.
    tables_tell_states();
    match binary_file(loaded, selection, command, command.has_le_alone()) {
        Ok(file) => read_file(store, loaded, selection, seen, command, &file, out),
        Err(status) => Ok(Err(status)),
    }
}

// Writes into the EF that the command works on, and has the answer in `out`.
#[tactic(auto, unfolding(file_model::specs::Binaries::update_in, file_model::specs::Binaries::updating, file_model::specs::Chains::refused_if))]
fn update_file<S: Store>(
    store: &mut S,
    loaded: &Loaded,
    selection: &Selection,
    seen: &Verified,
    command: &Command<'_>,
    file: &Descriptor,
    out: &mut Answer,
) -> Result<Result<Selection, StatusWord>, StoreFault>
    requires mounted { IsMounted (memory S.Store store.old loaded.now) }
    requires empty { out.old.body ≡ [] }
    requires target { IsBinaryTarget (descriptors_of loaded.now) selection.now command.now file.now }
    requires command { IsSomeCommand command.now }
    requires some { has_data command.now ≡ true }
    ensures gives { GivesTried result (memory S.Store store.old loaded.now) (memory S.Store store.new loaded.now)
        out.new (λ state. update_in state seen.now selection.now command.now file.now) }
    ensures passes { Passes result (memory S.Store store.old loaded.now) (memory S.Store store.new loaded.now)
        selection.now (λ state. update_in state seen.now selection.now command.now file.now) }
    ensures puts { Puts result (memory S.Store store.old loaded.now) (memory S.Store store.new loaded.now)
        (λ state. PutBytes file.now.number (offset_of command.now) command.now.body ∷ []) }
    ensures ends { EndsTry result (memory S.Store store.old loaded.now) (memory S.Store store.new loaded.now)
        out.old out.new }
{
    if !is_allowed(store, loaded, file, Op::UpdateBinary, seen)? {
        return Ok(Err(StatusWord::SECURITY_NOT_SATISFIED));
    }
    let offset = offset_in(command);
    if usize::from(file.size) < usize::from(offset) + command.body.len() {
        return Ok(Err(StatusWord::WRONG_OFFSET));
    }
    write_bytes(store, loaded, file.number, offset, command.body)?;
    out.status = StatusWord::DONE;
    Ok(Ok(worked_on(selection, file, pointer_in(selection, command))))
}

// Writes, and has the answer in `out`, which is empty before.
fn try_update<S: Store>(
    store: &mut S,
    loaded: &Loaded,
    selection: &Selection,
    seen: &Verified,
    command: &Command<'_>,
    out: &mut Answer,
) -> Result<Result<Selection, StatusWord>, StoreFault>
    requires place { IsInPlace (memory S.Store store.old loaded.now) selection.now }
    requires empty { out.old.body ≡ [] }
    requires command { IsSomeCommand command.now }
    ensures gives { GivesTried result (memory S.Store store.old loaded.now) (memory S.Store store.new loaded.now)
        out.new (λ state. binary_updated state seen.now selection.now command.now) }
    ensures passes { Passes result (memory S.Store store.old loaded.now) (memory S.Store store.new loaded.now)
        selection.now (λ state. binary_updated state seen.now selection.now command.now) }
    ensures writes { WritesAll result (memory S.Store store.old loaded.now) (memory S.Store store.new loaded.now)
        (λ state. (settled_file selection.now (binary_updated state seen.now selection.now command.now)).changes) }
    ensures refused { (status : StatusWord)
        → binary_to_update (descriptors_of loaded.now) selection.now command.now ≡ Err status
        → (result ≡ Ok (Err status)) × (store.new ≡ store.old) }
    ensures ends { EndsTry result (memory S.Store store.old loaded.now) (memory S.Store store.new loaded.now)
        out.old out.new }
{
    // This call is a law, and does nothing.
    tables_tell_states();
    match binary_file(loaded, selection, command, command.has_data()) {
        Ok(file) => update_file(store, loaded, selection, seen, command, &file, out),
        Err(status) => Ok(Err(status)),
    }
}

/// READ BINARY (11.1.3): answers bytes of a transparent EF. The bytes of the memory stay as they are, and after a fault the
/// answer is empty. Beside the reads that tell whether access is granted the store is asked for just one where data are answered,
/// for none where access isn't granted, and else for one at most.
pub fn read_binary<S: Store>(
    store: &mut S,
    loaded: &mut Loaded,
    selection: &mut Selection,
    seen: &Verified,
    command: &Command<'_>,
    out: &mut Answer,
) -> Result<(), StoreFault>
    requires place { IsInPlace (memory S.Store store.old loaded.old) selection.old }
    requires command { IsSomeCommand command.now }
    ensures performs { Performs result (memory S.Store store.old loaded.old) (memory S.Store store.new loaded.new)
        out.new selection.new
        (λ state. settled_file selection.old (binary_read state seen.now selection.old command.now)) }
    ensures ends { EndsWell result (memory S.Store store.old loaded.old) (memory S.Store store.new loaded.new)
        out.new selection.new }
    ensures table { loaded.new ≡ loaded.old }
    ensures reads { Reads (memory S.Store store.old loaded.old) (memory S.Store store.new loaded.new) result }
    ensures asks { (file : Descriptor)
        → binary_to_read (descriptors_of loaded.old) selection.old command.now ≡ Ok file
        → ReadsOnce result out.new (access_reads (descriptors_of loaded.old) file) (S.reads store.old) (S.reads store.new) }
    ensures refused { (status : StatusWord)
        → binary_to_read (descriptors_of loaded.old) selection.old command.now ≡ Err status
        → IsOk result × IsRefused status out.new selection.old selection.new × (store.new ≡ store.old) }
{
    out.body.clear();
    let tried = try_read(store, loaded, selection, seen, command, out)?;
    settle(tried, selection, out);
    Ok(())
}

/// UPDATE BINARY (11.1.4): commits bytes of a transparent EF, once. After a fault the answer is empty, and they are written or
/// not. A command that has to be refused leaves the bytes of the memory as they are, also where it meets a fault.
pub fn update_binary<S: Store>(
    store: &mut S,
    loaded: &mut Loaded,
    selection: &mut Selection,
    seen: &Verified,
    command: &Command<'_>,
    out: &mut Answer,
) -> Result<(), StoreFault>
    requires place { IsInPlace (memory S.Store store.old loaded.old) selection.old }
    requires command { IsSomeCommand command.now }
    ensures performs { Performs result (memory S.Store store.old loaded.old) (memory S.Store store.new loaded.new)
        out.new selection.new
        (λ state. settled_file selection.old (binary_updated state seen.now selection.old command.now)) }
    ensures still { StaysStill (memory S.Store store.old loaded.old) (memory S.Store store.new loaded.new)
        (λ state. (settled_file selection.old (binary_updated state seen.now selection.old command.now)).passed) }
    ensures writes { WritesAll result (memory S.Store store.old loaded.old) (memory S.Store store.new loaded.new)
        (λ state. (settled_file selection.old (binary_updated state seen.now selection.old command.now)).changes) }
    ensures ends { EndsWell result (memory S.Store store.old loaded.old) (memory S.Store store.new loaded.new)
        out.new selection.new }
    ensures table { loaded.new ≡ loaded.old }
    ensures refused { (status : StatusWord)
        → binary_to_update (descriptors_of loaded.old) selection.old command.now ≡ Err status
        → IsOk result × IsRefused status out.new selection.old selection.new × (store.new ≡ store.old) }
{
    out.body.clear();
    let tried = try_update(store, loaded, selection, seen, command, out)?;
    settle(tried, selection, out);
    Ok(())
}
