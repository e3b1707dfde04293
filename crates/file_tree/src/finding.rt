//! How SELECT and the commands on files find a file (ETSI TS 102 221, 8.4).
ghost use Rattle.std.specs.Prelude.{◌≡◌, ◌%◌, ◌==◌, ◌∷◌, [], None, if◌then◌else◌, length, option_map, IfSome};
ghost use Rattle.std.specs.Result.{result_ok};
ghost use Rattle.file_model.specs.declared.descriptors.Wanted.TheVariants.{ChildDf, Named, Number, Short};
ghost use Rattle.file_model.specs.Files.{descriptors_of, file_found};
ghost use Rattle.file_model.specs.Selections.{parent_of, ids_of, chosen_by_identifier, chosen_by_path, chosen_above, current_ef};
ghost use Rattle.file_model.specs.Access.{arr_found};
ghost use Rattle.file_tree.specs.Tables.{HasFullFiles, HasNoneBetween, IsCardTable, IsNumbered, first_found};

use crate::laws::parents_come_first;
use crate::searching::{first_by_id, first_file, first_with, has_all_nodes, only_file};
use card_state::Loaded;
use card_state::sizes::NODE_COUNT;
use file_model::{Descriptor, Selection, Wanted, files_are_found};
use uicc_types::FileId;

/// There is no such file.
#[derive(Clone, Copy, Debug, PartialEq, Eq)]
pub struct NotFound;

fn number_of(found: Option<Descriptor>) -> Result<u8, NotFound>
    ensures { result_ok result ≡ option_map (λ file. file.number) found }
{
    match found {
        Some(file) => Ok(file.number),
        None => Err(NotFound),
    }
}

/// The number of the file that SELECT by file identifier finds: of the MF, the current DF, the files in it, the DF that it
/// lies in and the DFs beside it, the first that has the identifier. `NotFound` exactly where none has it.
pub fn find(nodes: &Loaded, selection: &Selection, id: FileId) -> Result<u8, NotFound>
    requires { HasFullFiles nodes.now }
    ensures { result_ok result ≡ option_map (λ file. file.number)
        (chosen_by_identifier (descriptors_of nodes.now) selection.now.df id) }
{
    number_of(chosen_by_identifier(nodes, selection.df, id))
}

/// The number of the file at a path, two bytes for each identifier, from the DF `from` on; an empty path names `from`.
/// `NotFound` exactly where an identifier names no file in the DF before it, or one but the last no DF.
pub fn by_path(nodes: &Loaded, from: u8, path: &[u8]) -> Result<u8, NotFound>
    requires files { HasFullFiles nodes.now }
    requires even { length path.now % 2 ≡ 0 }
    ensures { result_ok result ≡ option_map (λ file. file.number)
        (chosen_by_path (descriptors_of nodes.now) from (ids_of path.now)) }
{
    number_of(chosen_by_path(nodes, from, path))
}

/// The number of the EF in the DF `df` that has this short file identifier, 1 to 30. `NotFound` exactly where there is none,
/// and for 0, which stands for none.
pub fn by_short(nodes: &Loaded, df: u8, short: u8) -> Result<u8, NotFound>
    requires { HasFullFiles nodes.now }
    ensures { result_ok result ≡ (if short == 0 then None else option_map (λ file. file.number)
        (file_found (descriptors_of nodes.now) (Short df short))) }
{
    if short == 0 {
        return Err(NotFound);
    }
    number_of(first_file(nodes, Wanted::Short { df, short }))
}

// The number of the DF that this one lies in; the MF lies in itself.
fn parent_of(loaded: &Loaded, df: u8) -> u8
    requires { HasFullFiles loaded.now }
    ensures { result ≡ parent_of (descriptors_of loaded.now) df }
{
    match only_file(loaded, Wanted::Number(df), df) {
        Some(file) => file.parent,
        None => 0,
    }
}

/// The file that SELECT by file identifier finds where this is the current DF.
pub fn chosen_by_identifier(loaded: &Loaded, df: u8, id: FileId) -> Option<Descriptor>
    requires { HasFullFiles loaded.now }
    ensures value { result ≡ chosen_by_identifier (descriptors_of loaded.now) df id }
    ensures numbered { IfSome result (IsNumbered (descriptors_of loaded.now)) }
{
    // This call is a law, and does nothing.
    files_are_found();
    has_all_nodes(loaded);
    let from = first_with(loaded, id);
    if usize::from(from) == NODE_COUNT {
        return None;
    }
    let main = only_file(loaded, Wanted::Named { number: 0, id }, 0);
    if main.is_some() {
        return main;
    }
    let current = only_file(loaded, Wanted::Named { number: df, id }, df);
    if current.is_some() {
        return current;
    }
    let child = first_by_id(loaded, Wanted::Child { df, id }, id, from);
    if child.is_some() {
        return child;
    }
    chosen_beside(loaded, df, id, from)
}

// The DF that this one lies in, or one beside it, by its identifier, which no entry before this one has.
fn chosen_beside(loaded: &Loaded, df: u8, id: FileId, from: u8) -> Option<Descriptor>
    requires files { HasFullFiles loaded.now }
    requires passed { HasNoneBetween loaded.now.nodes id.0 0 from }
    ensures value { result ≡ first_found (descriptors_of loaded.now)
        (Named (parent_of (descriptors_of loaded.now) df) id ∷ ChildDf
        (parent_of (descriptors_of loaded.now) df) id ∷ []) }
    ensures numbered { IfSome result (IsNumbered (descriptors_of loaded.now)) }
{
    let above = parent_of(loaded, df);
    let own = only_file(loaded, Wanted::Named { number: above, id }, above);
    if own.is_some() {
        return own;
    }
    first_by_id(loaded, Wanted::ChildDf { df: above, id }, id, from)
}

/// The file at a path from this DF on.
pub fn chosen_by_path(loaded: &Loaded, df: u8, path: &[u8]) -> Option<Descriptor>
    requires files { HasFullFiles loaded.now }
    requires even { length path.now % 2 ≡ 0 }
    ensures value { result ≡ chosen_by_path (descriptors_of loaded.now) df (ids_of path.now) }
    ensures numbered { IfSome result (IsNumbered (descriptors_of loaded.now)) }
{
    match path {
        [high, low] => {
            let id = FileId(u16::from_be_bytes([*high, *low]));
            first_file(loaded, Wanted::Child { df, id })
        }
        [high, low, rest @ ..] => {
            let id = FileId(u16::from_be_bytes([*high, *low]));
            match first_file(loaded, Wanted::ChildDf { df, id }) {
                Some(next) => chosen_by_path(loaded, next.number, rest),
                None => None,
            }
        }
        _ => first_file(loaded, Wanted::Number(df)),
    }
}

/// The DF that this one lies in; the MF lies in none.
pub fn above(loaded: &Loaded, df: u8) -> Option<Descriptor>
    requires { HasFullFiles loaded.now }
    ensures value { result ≡ chosen_above (descriptors_of loaded.now) df }
    ensures numbered { IfSome result (IsNumbered (descriptors_of loaded.now)) }
{
    if df == 0 {
        return None;
    }
    first_file(loaded, Wanted::Number(parent_of(loaded, df)))
}

/// The current EF, if there is one.
pub fn current_ef(loaded: &Loaded, selection: &Selection) -> Option<Descriptor>
    requires { HasFullFiles loaded.now }
    ensures value { result ≡ current_ef (descriptors_of loaded.now) selection.now }
    ensures numbered { IfSome result (IsNumbered (descriptors_of loaded.now)) }
{
    let number = selection.ef?;
    only_file(loaded, Wanted::Number(number), number)
}

/// The EF with this identifier in this DF, or else in the nearest DF above it that has one (9.2.7).
#[tactic(auto, using(crate::proofs::IsCardTableLemmas::files_are_full))]
pub fn nearest_ef(loaded: &Loaded, df: u8, id: FileId) -> Option<Descriptor>
    requires { IsCardTable loaded.now }
    ensures value { result ≡ arr_found (descriptors_of loaded.now) df id }
    ensures numbered { IfSome result (IsNumbered (descriptors_of loaded.now)) }
{
    // This call is a law, and does nothing.
    files_are_found();
    parents_come_first(loaded);
    let mut df = df;
    loop {
        let found = first_file(loaded, Wanted::ChildEf { df, id });
        if found.is_some() || df == 0 {
            return found;
        }
        df = parent_of(loaded, df);
    }
}
