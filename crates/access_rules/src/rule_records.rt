//! What a record allows.
ghost use Rattle.std.specs.Prelude.{◌≡◌, ◌↔◌, ◌<◌, ℕ, List, ◌++◌, length, replicate, IsTrue, Some, IfSome, IsSomeAnd};
ghost use Rattle.std.specs.List.{list_any};
ghost use Rattle.access_rules.specs.Conditions.{IsProper};
ghost use Rattle.access_rules.specs.Reading.{grants};
ghost use Rattle.access_rules.specs.Rules.{IsGranted, IsRecord, Mode, mode_tag, mode_value, names, Pair, pair_grants, spelled_pair};

use crate::conditions::condition_at;
use crate::objects::object_at;
use crate::rules::{Op, Verified};

/// How deep A0 and AF may be nested.
const LEVELS: u8 = 4;

/// What stands in a record after its last pair.
const FILLING: u8 = 0xFF;

/// Whether the rule `rule`, a record of an EF_ARR, allows `op` where the keys' conditions are as in `seen`. A record of
/// another form allows nothing.
pub fn allowed(rule: &[u8], op: Op, seen: &Verified) -> bool
    ensures meaning { IsTrue result ↔ IsGranted rule.now op seen.now }
    ensures value { result ≡ grants rule.now op seen.now }
{
    granted(rule, op, seen).unwrap_or(false)
}

/// Whether some pair of a record grants the operation.
fn granted(rule: &[u8], op: Op, seen: &Verified) -> Option<bool>
    ensures found { IfSome result (λ truth. (pairs : List Pair) × (filling : ℕ) × IsRecord pairs filling rule.now
        × (truth ≡ list_any (pair_grants op seen.now) pairs)) }
    ensures only { (pairs : List Pair) (filling : ℕ) → IsRecord pairs filling rule.now
        → result ≡ Some (list_any (pair_grants op seen.now) pairs) }
{
    let mut truth = false;
    let mut rest = rule;
    while !is_filling(rest) {
        let (grants, behind) = pair_at(rest, op, seen)?;
        truth = truth || grants;
        rest = behind;
    }
    Some(truth)
}

/// The pair at the front: whether it grants the operation, and the bytes after it.
fn pair_at<'a>(bytes: &'a [u8], op: Op, seen: &Verified) -> Option<(bool, &'a [u8])>
    ensures shorter { IfSome result (λ found. length found.1.now < length bytes.now) }
    ensures found { IfSome result (λ found. (pair : Pair) × IsProper pair.condition 4
        × (bytes.now ≡ spelled_pair pair ++ found.1.now) × (found.0 ≡ pair_grants op seen.now pair)) }
    ensures only { (pair : Pair) (rest : List ℕ) → IsProper pair.condition 4 → bytes.now ≡ spelled_pair pair ++ rest
        → IsSomeAnd result (λ found. (found.0 ≡ pair_grants op seen.now pair) × (found.1.now ≡ rest)) }
{
    let mode = object_at(bytes)?;
    let named = is_named(mode.tag, mode.value, op)?;
    let (holds, rest) = condition_at(mode.rest, LEVELS, seen)?;
    Some((named && holds, rest))
}

/// Whether an access mode object names the operation.
fn is_named(tag: u8, value: &[u8], op: Op) -> Option<bool>
    ensures found { IfSome result (λ named. (mode : Mode) × (tag ≡ mode_tag mode) × (value.now ≡ mode_value mode) ×
        (named ≡ names mode op)) }
    ensures only { (mode : Mode) → tag ≡ mode_tag mode → value.now ≡ mode_value mode → result ≡ Some (names mode op) }
{
    match (tag, value) {
        (0x80, [bits]) => Some(*bits & op.mode_bit() != 0),
        (0x84, [instruction]) => Some(*instruction == op.instruction()),
        _ => None,
    }
}

/// Whether nothing but filling is left.
fn is_filling(bytes: &[u8]) -> bool
    ensures { IsTrue result ↔ (bytes.now ≡ replicate (length bytes.now) FILLING) }
{
    bytes.iter().all(|byte| *byte == FILLING)
}
