//! The entries of new files.
ghost use Rattle.std.specs.Prelude.{◌≡◌};
ghost use Rattle.card_state.specs.Sections.{kind_of, size_of, is_shape};
ghost use Rattle.card_state.specs.NewFiles.{df_node, ef_node, width_of, rule_holds};
ghost use Rattle.card_state.specs.Ranges.{HasNodeRanges};

use crate::entries::Node;
use crate::kinds::{ACTIVATED, CYCLIC, DF, LINEAR, TRANSPARENT};
use crate::shapes::Shape;
use crate::sizes::{RECORD_LIMIT, SIZE_LIMIT};
use uicc_types::FileId;

/// The entry of a DF.
pub fn new_df(parent: u8, id: FileId) -> Node
    ensures value { result ≡ df_node parent id }
    ensures ranges { HasNodeRanges result }
{
    Node {
        used: true,
        kind: DF,
        id,
        parent,
        life: ACTIVATED,
        ..Node::UNUSED
    }
}

fn kind_for(shape: Shape) -> u8
    ensures { result ≡ kind_of shape }
{
    match shape {
        Shape::Transparent { size: _ } => TRANSPARENT,
        Shape::Linear {
            length: _,
            count: _,
        } => LINEAR,
        Shape::Cyclic {
            length: _,
            count: _,
        } => CYCLIC,
    }
}

/// How many bytes an EF of this shape has.
pub fn size_for(shape: Shape) -> u16
    ensures { result ≡ size_of shape }
{
    match shape {
        Shape::Transparent { size } => size,
        Shape::Linear { length, count } => u16::from(length) * u16::from(count),
        Shape::Cyclic { length, count } => u16::from(length) * u16::from(count),
    }
}

fn length_for(shape: Shape) -> u8
    ensures { result ≡ width_of shape }
{
    match shape {
        Shape::Transparent { size: _ } => 0,
        Shape::Linear { length, count: _ } => length,
        Shape::Cyclic { length, count: _ } => length,
    }
}

/// Whether there may be an EF of this shape: 1 to 32,767 bytes, or 1 to 254 records of at least one byte.
pub fn may_be_shape(shape: Shape) -> bool
    ensures { result ≡ is_shape shape }
{
    match shape {
        Shape::Transparent { size } => 1 <= size && size <= SIZE_LIMIT,
        Shape::Linear { length, count } => 1 <= length && 1 <= count && count <= RECORD_LIMIT,
        Shape::Cyclic { length, count } => 1 <= length && 1 <= count && count <= RECORD_LIMIT,
    }
}

/// Whether a rule's record has a number from 1 to 254.
pub fn may_be_rule(rule: Option<(FileId, u8)>) -> bool
    ensures { result ≡ rule_holds rule }
{
    match rule {
        None => true,
        Some((_, record)) => 1 <= record && record <= RECORD_LIMIT,
    }
}

/// The entry of an EF whose bytes begin at this place.
pub fn new_ef(
    place: u16,
    parent: u8,
    id: FileId,
    shape: Shape,
    short: u8,
    rule: Option<(FileId, u8)>,
) -> Node
    ensures value { result ≡ ef_node place parent id shape short rule }
    ensures ranges { HasNodeRanges result }
{
    let (arr, record) = match rule {
        Some(pair) => pair,
        None => (FileId(0), 0),
    };
    Node {
        used: true,
        kind: kind_for(shape),
        id,
        parent,
        short,
        life: ACTIVATED,
        rule: record,
        arr,
        place,
        size: size_for(shape),
        length: length_for(shape),
        head: 0,
    }
}
