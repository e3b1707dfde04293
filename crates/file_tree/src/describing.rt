//! What the entry of a file tells of it.
ghost use Rattle.std.specs.Prelude.{◌≡◌, ◌==◌, ◌/◌, if◌then◌else◌, IsTrue};
ghost use Rattle.card_state.specs.Kinds.{has_records};
ghost use Rattle.card_state.specs.Holding.{HasFullRecords};
ghost use Rattle.file_model.specs.Files.{descriptor_of, reference_of};

use card_state::Node;
use card_state::kinds::{self, ACTIVATED, DF};
use file_model::{Descriptor, RuleReference};

fn reference_of(node: &Node) -> Option<RuleReference>
    ensures { result ≡ reference_of node.now }
{
    if node.rule == 0 {
        None
    } else {
        Some(RuleReference {
            arr: node.arr,
            number: node.rule,
        })
    }
}

// How long a record is, and how many there are; 0 in a file without records.
fn records_of(node: &Node) -> (u8, u8)
    requires { IsTrue (has_records node.now.kind) → HasFullRecords node.now }
    ensures width { result.0 ≡ (if has_records node.now.kind then node.now.length else 0) }
    ensures count { result.1 ≡ (if has_records node.now.kind then node.now.size / node.now.length else 0) }
{
    if kinds::has_records(node.kind) {
        (node.length, (node.size / u16::from(node.length)) as u8)
    } else {
        (0, 0)
    }
}

/// What is known of the file of an entry. The records of an EF fill it. Inlined, what isn't asked of a file costs nothing.
#[inline(always)]
#[tactic(auto, unfolding(file_model::specs::Files::descriptor_of))]
pub fn descriptor_of(number: u8, node: &Node) -> Descriptor
    requires { IsTrue (has_records node.now.kind) → HasFullRecords node.now }
    ensures { result ≡ descriptor_of number node.now }
{
    if node.kind == DF {
        return Descriptor {
            number,
            parent: node.parent,
            kind: node.kind,
            id: node.id,
            short: 0,
            life: ACTIVATED,
            rule: None,
            size: 0,
            width: 0,
            count: 0,
        };
    }
    let (width, count) = records_of(node);
    Descriptor {
        number,
        parent: node.parent,
        kind: node.kind,
        id: node.id,
        short: node.short,
        life: node.life,
        rule: reference_of(node),
        size: node.size,
        width,
        count,
    }
}
