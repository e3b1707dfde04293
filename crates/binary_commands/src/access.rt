//! Who may do what with a file (ETSI TS 102 221, 9.2.7).
ghost use Rattle.std.specs.Prelude.{◌≡◌, IfOk, IfSome, true};
ghost use Rattle.uicc_types.specs.Counts.{raised_by};
ghost use Rattle.card_state.specs.Kinds.{linear_kind};
ghost use Rattle.card_state.specs.Memory.{IsMounted, Reads, held_by, memory};
ghost use Rattle.file_model.specs.Files.{descriptors_of};
ghost use Rattle.file_model.specs.Access.{arr_found, granted_by, record_numbered, ruling_record, may};
ghost use Rattle.file_model.specs.Holdings.{records_in};
ghost use Rattle.file_tree.specs.Tables.{IsNumbered};
ghost use Rattle.binary_commands.specs.Reads.{access_reads, arr_reads, record_reads};

use access_rules::{Op, Verified, allowed};
use card_commits::{contents_are_whole, read_record, tables_tell_states};
use card_state::Loaded;
use card_state::kinds::LINEAR;
use file_model::{Descriptor, RuleReference};
use file_tree::nearest_ef;
use store_form::{Store, StoreFault};

/// Whether this may be done with the file where these keys' conditions are satisfied: by the record of the nearest EF_ARR that
/// rules it, or always where there is no rule.
#[tactic(auto, unfolding(file_model::specs::Access::may, crate::specs::Reads::access_reads))]
pub fn is_allowed<S: Store>(
    store: &mut S,
    loaded: &Loaded,
    file: &Descriptor,
    op: Op,
    seen: &Verified,
) -> Result<bool, StoreFault>
    requires mounted { IsMounted (memory S.Store store.old loaded.now) }
    ensures value { IfOk result (λ truth. IfSome (held_by S.Store store.old) (λ state.
        truth ≡ may state op seen.now file.now)) }
    ensures unruled { file.now.rule ≡ None → result ≡ Ok true }
    ensures reads { Reads (memory S.Store store.old loaded.now) (memory S.Store store.new loaded.now) result }
    ensures asks { S.reads store.new
        ≡ raised_by (access_reads (descriptors_of loaded.now) file.now) (S.reads store.old) }
{
    match file.rule {
        Some(rule) => is_granted(store, loaded, file, rule, op, seen),
        None => Ok(true),
    }
}

// Whether the record that rules the file grants it; one that isn't there grants nothing. Most files have no rule, and their way is
// kept short.
#[inline(never)]
#[tactic(auto, unfolding(file_model::specs::Access::ruling_record))]
fn is_granted<S: Store>(
    store: &mut S,
    loaded: &Loaded,
    file: &Descriptor,
    rule: RuleReference,
    op: Op,
    seen: &Verified,
) -> Result<bool, StoreFault>
    requires mounted { IsMounted (memory S.Store store.old loaded.now) }
    ensures value { IfOk result (λ truth. IfSome (held_by S.Store store.old) (λ state.
        truth ≡ granted_by (ruling_record state file.now rule) op seen.now)) }
    ensures reads { Reads (memory S.Store store.old loaded.now) (memory S.Store store.new loaded.now) result }
    ensures asks { S.reads store.new ≡ raised_by (arr_reads rule.number
        (arr_found (descriptors_of loaded.now) file.now.parent rule.arr)) (S.reads store.old) }
{
    // This call is a law, and does nothing.
    tables_tell_states();
    match nearest_ef(loaded, file.parent, rule.arr) {
        Some(arr) if arr.kind == LINEAR => {
            is_granted_by(store, loaded, &arr, rule.number, op, seen)
        }
        _ => Ok(false),
    }
}

// Whether the record of this number in a linear fixed EF grants it.
fn is_granted_by<S: Store>(
    store: &mut S,
    loaded: &Loaded,
    arr: &Descriptor,
    number: u8,
    op: Op,
    seen: &Verified,
) -> Result<bool, StoreFault>
    requires mounted { IsMounted (memory S.Store store.old loaded.now) }
    requires numbered { IsNumbered (descriptors_of loaded.now) arr.now }
    requires linear { arr.now.kind ≡ linear_kind }
    ensures value { IfOk result (λ truth. IfSome (held_by S.Store store.old) (λ state.
        truth ≡ granted_by (record_numbered (records_in state arr.now.number) number) op seen.now)) }
    ensures reads { Reads (memory S.Store store.old loaded.now) (memory S.Store store.new loaded.now) result }
    ensures asks { S.reads store.new ≡ raised_by (record_reads number arr.now) (S.reads store.old) }
{
    // This call is a law, and does nothing.
    contents_are_whole();
    if number == 0 || arr.count < number {
        return Ok(false);
    }
    let mut record = [0; 255];
    let rule = &mut record[..usize::from(arr.width)];
    read_record(store, loaded, arr.number, number - 1, rule)?;
    Ok(allowed(rule, op, seen))
}
