//! What refuses the commands before room is looked for.
ghost use Rattle.std.specs.Prelude.{◌≡◌, ◌≢◌, ◌≤◌, ◌+◌, ◌==◌, ◌&&◌, false, length, Some, Ok, Err, IsTrue, IfOk, IfErr, IfSome};
ghost use Rattle.std.specs.List.{list_any};
ghost use Rattle.card_state.specs.Decoding.{number_at};
ghost use Rattle.card_state.specs.Kinds.{transparent_kind};
ghost use Rattle.file_model.specs.Files.{descriptor_of, descriptors_of, lies_in};
ghost use Rattle.file_model.specs.Creating.{is_there, has_id, has_short, created_if_room, created};
ghost use Rattle.file_model.specs.Deleting.{is_in_use, deleting, deleted};
ghost use Rattle.file_model.specs.TreeOutcomes.{df_on, child_named};
ghost use Rattle.file_model.specs.Resizing.{size_asked, may_have, resized_if_room, resized};
ghost use Rattle.file_model.specs.Templates.{may_be_made};
ghost use Rattle.file_tree.specs.Tables.{IsCardTable, IsNumbered};
ghost use Rattle.file_admin.specs.Outcomes.{WithFilesOf};

use crate::channels::{df_on, is_current};
use crate::templates::read_template;
use access_rules::Verified;
use apdu_form::Command;
use card_state::kinds::{DEACTIVATED, DF, TRANSPARENT};
use card_state::sizes::{NODE_COUNT, SIZE_LIMIT};
use card_state::{Loaded, Node};
use file_model::{Descriptor, NewFile, Wanted};
use file_tree::{Channels, first_file};
use uicc_types::{FileId, StatusWord};

// The number in two of the bytes.
fn number_at(bytes: &[u8], at: usize) -> u16
    requires { at + 2 ≤ length bytes.now }
    ensures { result ≡ number_at bytes.now at }
{
    u16::from_be_bytes([bytes[at], bytes[at + 1]])
}

// ---- CREATE FILE

#[tactic(auto, using(file_tree::proofs::IsCardTableLemmas::files_are_full))]
fn has_id(loaded: &Loaded, df: u8, id: FileId) -> bool
    requires { IsCardTable loaded.now }
    ensures { result ≡ has_id (descriptors_of loaded.now) df id.0 }
{
    first_file(loaded, Wanted::Child { df, id }).is_some()
}

#[tactic(auto, using(file_tree::proofs::IsCardTableLemmas::files_are_full))]
fn has_short(loaded: &Loaded, df: u8, short: u8) -> bool
    requires { IsCardTable loaded.now }
    ensures { result ≡ has_short (descriptors_of loaded.now) df short }
{
    short != 0 && first_file(loaded, Wanted::Short { df, short }).is_some()
}

// Whether the DF has a file with this identifier or this short file identifier.
fn is_there(loaded: &Loaded, df: u8, file: &NewFile) -> bool
    requires { IsCardTable loaded.now }
    ensures { result ≡ is_there (descriptors_of loaded.now) df file.now }
{
    match *file {
        NewFile::Df { id } => has_id(loaded, df, id),
        NewFile::Ef { id, short, .. } => has_id(loaded, df, id) || has_short(loaded, df, short),
    }
}

/// The file that CREATE FILE asks for in the current DF of this channel. Refused are, in this order, wrong P1 and P2, no data, no
/// ADM1, other data than the template of a file that may be made, and one that the DF has already.
#[tactic(auto, unfolding(file_model::specs::Creating::created, file_model::specs::Chains::refused_if, file_model::specs::Chains::given))]
pub fn try_creation(
    loaded: &Loaded,
    seen: &Verified,
    channels: &Channels,
    channel: u8,
    command: &Command<'_>,
) -> Result<NewFile, StatusWord>
    requires table { IsCardTable loaded.now }
    ensures refused { IfErr result (λ status. WithFilesOf loaded.now
        (λ state. created state seen.now channels.now channel command.now ≡ Err status)) }
    ensures found { IfOk result (λ file. WithFilesOf loaded.now (λ state.
        created state seen.now channels.now channel command.now
        ≡ created_if_room state channels.now channel file)) }
    ensures may { IfOk result (λ file. IsTrue (may_be_made file)) }
    ensures new { IfOk result (λ file. is_there (descriptors_of loaded.now) (df_on channels.now channel) file ≡ false) }
    ensures usual { IfErr result (λ status. status.0 ≢ StatusWord.MEMORY_PROBLEM.0) }
{
    if !command.has_no_parameters() {
        return Err(StatusWord::WRONG_PARAMETERS);
    }
    if !command.has_data() {
        return Err(StatusWord::WRONG_LENGTH);
    }
    if !seen.adm1 {
        return Err(StatusWord::SECURITY_NOT_SATISFIED);
    }
    match read_template(command.body) {
        Some(file) => {
            if is_there(loaded, df_on(channels, channel), &file) {
                return Err(StatusWord::FILE_ALREADY_THERE);
            }
            Ok(file)
        }
        None => Err(StatusWord::WRONG_DATA),
    }
}

// ---- the file that is named

// The child of this DF whose identifier stands first in the data.
#[tactic(auto, using(file_tree::proofs::IsCardTableLemmas::files_are_full))]
fn child_named(loaded: &Loaded, df: u8, bytes: &[u8]) -> Option<Descriptor>
    requires table { IsCardTable loaded.now }
    requires long { 2 ≤ length bytes.now }
    ensures value { result ≡ child_named (descriptors_of loaded.now) df bytes.now }
    ensures numbered { IfSome result (IsNumbered (descriptors_of loaded.now)) }
{
    let id = FileId(number_at(bytes, 0));
    first_file(loaded, Wanted::Child { df, id })
}

// ---- DELETE FILE

// Whether the file of an entry lies in this DF.
#[tactic(auto, unfolding(file_model::specs::Files::descriptor_of))]
fn lies_in(df: u8, number: u8, node: &Node) -> bool
    ensures { result ≡ (node.now.used && lies_in df (descriptor_of number node.now)) }
{
    node.used && node.parent == df && number != 0
}

// Whether a file lies in this DF.
fn has_children(loaded: &Loaded, df: u8) -> bool
    ensures { result ≡ list_any (lies_in df) (descriptors_of loaded.now) }
{
    let nodes = loaded.all_nodes();
    for number in 0..NODE_COUNT as u8 {
        if lies_in(df, number, &nodes[usize::from(number)]) {
            return true;
        }
    }
    false
}

// Whether it is a DF in which a file lies, or that is the current one of some channel.
fn is_in_use(loaded: &Loaded, channels: &Channels, file: &Descriptor) -> bool
    ensures { result ≡ is_in_use (descriptors_of loaded.now) channels.now file.now }
{
    file.kind == DF && (has_children(loaded, file.number) || is_current(channels, file.number))
}

/// The file that DELETE FILE deletes, of those in the current DF of this channel. Refused are, in this order, wrong P1 and P2, a
/// wrong length, no such file, no ADM1, and a DF that is in use.
#[tactic(auto, unfolding(file_model::specs::Deleting::deleted, file_model::specs::Chains::refused_if, file_model::specs::Chains::given))]
pub fn try_deletion(
    loaded: &Loaded,
    seen: &Verified,
    channels: &Channels,
    channel: u8,
    command: &Command<'_>,
) -> Result<Descriptor, StatusWord>
    requires table { IsCardTable loaded.now }
    ensures refused { IfErr result (λ status. WithFilesOf loaded.now
        (λ state. deleted state seen.now channels.now channel command.now ≡ Err status)) }
    ensures found { IfOk result (λ file. WithFilesOf loaded.now (λ state.
        deleted state seen.now channels.now channel command.now
        ≡ Ok (deleting state channels.now file))) }
    ensures numbered { IfOk result (IsNumbered (descriptors_of loaded.now)) }
    ensures named { IfOk result (λ file.
        child_named (descriptors_of loaded.now) (df_on channels.now channel) command.now.body ≡ Some file) }
    ensures unused { IfOk result (λ file. is_in_use (descriptors_of loaded.now) channels.now file ≡ false) }
    ensures usual { IfErr result (λ status. status.0 ≢ StatusWord.MEMORY_PROBLEM.0) }
{
    if !command.has_no_parameters() {
        return Err(StatusWord::WRONG_PARAMETERS);
    }
    if command.body.len() != 2 {
        return Err(StatusWord::WRONG_LENGTH);
    }
    match child_named(loaded, df_on(channels, channel), command.body) {
        Some(file) => {
            if !seen.adm1 {
                return Err(StatusWord::SECURITY_NOT_SATISFIED);
            }
            if is_in_use(loaded, channels, &file) {
                return Err(StatusWord::CONDITIONS_NOT_SATISFIED);
            }
            Ok(file)
        }
        None => Err(StatusWord::FILE_NOT_FOUND),
    }
}

// ---- RESIZE FILE

/// How many bytes RESIZE FILE asks for.
pub fn size_asked(command: &Command<'_>) -> u16
    requires { length command.now.body ≡ 4 }
    ensures { result ≡ size_asked command.now }
{
    number_at(command.body, 2)
}

fn may_have(size: u16) -> bool
    ensures { result ≡ may_have size }
{
    1 <= size && size <= SIZE_LIMIT
}

/// The file that RESIZE FILE resizes, of those in the current DF of this channel. Refused are, in this order, wrong P1 and P2, a
/// wrong length, no such file, one that isn't transparent or is out of use, no ADM1, and a size that no file may have.
#[tactic(auto, unfolding(file_model::specs::Resizing::resized, file_model::specs::Chains::refused_if, file_model::specs::Chains::given))]
pub fn try_resizing(
    loaded: &Loaded,
    seen: &Verified,
    channels: &Channels,
    channel: u8,
    command: &Command<'_>,
) -> Result<Descriptor, StatusWord>
    requires table { IsCardTable loaded.now }
    ensures refused { IfErr result (λ status. WithFilesOf loaded.now
        (λ state. resized state seen.now channels.now channel command.now ≡ Err status)) }
    ensures found { IfOk result (λ file. WithFilesOf loaded.now (λ state.
        resized state seen.now channels.now channel command.now
        ≡ resized_if_room state channels.now (size_asked command.now) file)) }
    ensures numbered { IfOk result (IsNumbered (descriptors_of loaded.now)) }
    ensures long { IfOk result (λ file. length command.now.body ≡ 4) }
    ensures kind { IfOk result (λ file. file.kind ≡ transparent_kind) }
    ensures may { IfOk result (λ file. IsTrue (may_have (size_asked command.now))) }
    ensures usual { IfErr result (λ status. status.0 ≢ StatusWord.MEMORY_PROBLEM.0) }
{
    if !command.has_no_parameters() {
        return Err(StatusWord::WRONG_PARAMETERS);
    }
    if command.body.len() != 4 {
        return Err(StatusWord::WRONG_LENGTH);
    }
    match child_named(loaded, df_on(channels, channel), command.body) {
        Some(file) => {
            if file.kind != TRANSPARENT {
                return Err(StatusWord::WRONG_STRUCTURE);
            }
            if file.life == DEACTIVATED {
                return Err(StatusWord::CONDITIONS_NOT_SATISFIED);
            }
            if !seen.adm1 {
                return Err(StatusWord::SECURITY_NOT_SATISFIED);
            }
            if !may_have(size_asked(command)) {
                return Err(StatusWord::WRONG_DATA);
            }
            Ok(file)
        }
        None => Err(StatusWord::FILE_NOT_FOUND),
    }
}
