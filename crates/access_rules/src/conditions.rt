//! Whether a condition holds.
ghost use Rattle.std.specs.Prelude.{◌≡◌, ℕ, ◌<◌, List, ◌∷◌, ◌++◌, [], length, Some, IfSome, IsSomeAnd};
ghost use Rattle.access_rules.specs.Conditions.{Condition, Conditions, IsProper, AreProper, tag_of, value_of, condition_object, spelled_all, holds, is_satisfied, key};
ghost use Rattle.access_rules.specs.Needs.{Says, IsGroup, hold_by, joined, neutral};

use crate::objects::object_at;
use crate::rules::Verified;
use uicc_types::keys;

/// How many of the conditions in a group have to hold.
#[derive(Clone, Copy)]
pub enum Needs {
    One,
    Each,
}

impl Needs {
    /// What a group of no conditions would say.
    fn neutral(self) -> bool
        ensures { result ≡ neutral self }
    {
        match self {
            Needs::One => false,
            Needs::Each => true,
        }
    }

    fn join(self, first: bool, second: bool) -> bool
        ensures { result ≡ joined self first second }
    {
        match self {
            Needs::One => first || second,
            Needs::Each => first && second,
        }
    }
}

/// The condition at the front, with A0 and AF at most `levels` deep: whether it holds, and the bytes after it.
#[cycle(conditions)]
pub fn condition_at<'a>(bytes: &'a [u8], levels: u8, seen: &Verified) -> Option<(bool, &'a [u8])>
    ensures shorter { IfSome result (λ found. length found.1.now < length bytes.now) }
    ensures found { IfSome result (λ found. (condition : Condition) × IsProper condition levels
        × (bytes.now ≡ condition_object condition ++ found.1.now) × (found.0 ≡ holds condition seen.now)) }
    ensures only { (condition : Condition) (rest : List ℕ) → IsProper condition levels
        → bytes.now ≡ condition_object condition ++ rest
        → IsSomeAnd result (λ found. (found.0 ≡ holds condition seen.now) × (found.1.now ≡ rest)) }
{
    let object = object_at(bytes)?;
    let holds = condition_holds(object.tag, object.value, levels, seen)?;
    Some((holds, object.rest))
}

/// Whether a condition holds, by its tag (ISO 7816-4, 5.4.3.2): 90 is always, 97 never, A4 a key's, A0 some of its
/// conditions, AF all of them. `None` where the value isn't one of such a condition.
#[cycle(conditions)]
fn condition_holds(tag: u8, value: &[u8], levels: u8, seen: &Verified) -> Option<bool>
    requires { length value.now < 256 }
    ensures found { IfSome result (Says tag value.now levels seen.now) }
    ensures only { (condition : Condition) → IsProper condition levels → tag ≡ tag_of condition
        → value.now ≡ value_of condition
        → result ≡ Some (holds condition seen.now) }
{
    match tag {
        0x90 => if_empty(value, true),
        0x97 => if_empty(value, false),
        0xA4 => key_holds(value, seen),
        0xA0 => group_holds(value, levels, Needs::One, seen),
        0xAF => group_holds(value, levels, Needs::Each, seen),
        _ => None,
    }
}

/// A group inside A0 or AF: one or more conditions, of which one or each has to hold.
#[cycle(conditions)]
fn group_holds(value: &[u8], levels: u8, needs: Needs, seen: &Verified) -> Option<bool>
    requires { length value.now < 256 }
    ensures found { IfSome result (λ truth. (conditions : Conditions) × IsGroup conditions levels
        × (value.now ≡ spelled_all conditions) × (truth ≡ hold_by needs conditions seen.now)) }
    ensures only { (conditions : Conditions) → IsGroup conditions levels → value.now ≡ spelled_all conditions
        → result ≡ Some (hold_by needs conditions seen.now) }
{
    let inner = levels.checked_sub(1)?;
    if value.is_empty() {
        return None;
    }
    conditions_hold(value, inner, needs, seen)
}

/// Conditions up to the end of the bytes.
#[cycle(conditions)]
fn conditions_hold(value: &[u8], levels: u8, needs: Needs, seen: &Verified) -> Option<bool>
    ensures found { IfSome result (λ truth. (conditions : Conditions) × AreProper conditions levels
        × (value.now ≡ spelled_all conditions) × (truth ≡ hold_by needs conditions seen.now)) }
    ensures only { (conditions : Conditions) → AreProper conditions levels → value.now ≡ spelled_all conditions
        → result ≡ Some (hold_by needs conditions seen.now) }
{
    let mut truth = needs.neutral();
    let mut rest = value;
    while !rest.is_empty() {
        let (holds, behind) = condition_at(rest, levels, seen)?;
        truth = needs.join(truth, holds);
        rest = behind;
    }
    Some(truth)
}

fn if_empty(value: &[u8], truth: bool) -> Option<bool>
    ensures found { IfSome result (λ found. (value.now ≡ []) × (found ≡ truth)) }
    ensures only { value.now ≡ [] → result ≡ Some truth }
{
    if value.is_empty() { Some(truth) } else { None }
}

/// Whether the condition of the key that a control reference template names is satisfied.
fn key_holds(value: &[u8], seen: &Verified) -> Option<bool>
    ensures found { IfSome result (λ truth. (reference : ℕ) × (value.now ≡ value_of (key reference)) ×
        (truth ≡ is_satisfied reference seen.now)) }
    ensures only { (reference : ℕ) → value.now ≡ value_of (key reference)
        → result ≡ Some (is_satisfied reference seen.now) }
{
    match value {
        [0x83, 0x01, reference, 0x95, 0x01, 0x08] => Some(key_satisfied(*reference, seen)),
        _ => None,
    }
}

fn key_satisfied(reference: u8, seen: &Verified) -> bool
    ensures { result ≡ is_satisfied reference seen.now }
{
    match reference {
        keys::PIN_1 => seen.pin1,
        keys::PIN_2 => seen.pin2,
        keys::ADM_1 => seen.adm1,
        _ => false,
    }
}
