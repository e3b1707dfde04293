//! The template of CREATE FILE (ETSI TS 102 222, 6.3), written and read. What its bytes say is read at their places, and
//! written again: a template is taken where both are the same, so exactly the templates are.
ghost use Rattle.std.specs.Prelude.{◌≡◌, ◌+◌, ◌≤◌, ◌++◌, length, slice_index, Some, IsTrue, IfSome};
ghost use Rattle.card_state.specs.Decoding.{number_at};
ghost use Rattle.access_rules.specs.Objects.{object};
ghost use Rattle.file_model.specs.Fcp.{rule_object};
ghost use Rattle.file_model.specs.Templates.{ef_kind_bytes, short_value, template_objects, template, may_rule, has_short_records, may_be_made, IsInRange, id_place, rule_told, size_place, shape_told, short_told, new_file_told, asked_in};

use card_state::kinds::{self, CYCLIC, DF, LINEAR, TRANSPARENT};
use card_state::sizes::RECORD_LIMIT;
use card_state::{Shape, may_be_shape, size_for};
use file_model::{NewFile, RuleReference};
use uicc_types::{ByteList, FileId, Full};

// How many bytes there is room for; a template has at most 25.
const ROOM: usize = 32;

// The bytes of a template.
type TemplateBytes = ByteList<ROOM>;

fn put(out: &mut TemplateBytes, part: &[u8])
    requires { length out.old + length part.now ≤ ROOM }
    ensures { out.new ≡ out.old ++ part.now }
{
    match out.append(part) {
        Ok(()) => {}
        Err(Full) => unreachable!(),
    }
}

#[tactic(auto, unfolding(access_rules::specs::Objects::object))]
fn put_object(out: &mut TemplateBytes, tag: u8, value: &[u8])
    requires { length out.old + length value.now + 2 ≤ ROOM }
    ensures value { out.new ≡ out.old ++ object tag value.now }
    ensures long { length out.new ≡ length out.old + length value.now + 2 }
{
    put(out, &[tag, value.len() as u8]);
    put(out, value);
}

fn put_kind(out: &mut TemplateBytes, shape: Shape)
    requires { length out.old ≤ 16 }
    ensures value { out.new ≡ out.old ++ object 0x82 (ef_kind_bytes shape) }
    ensures long { length out.new ≤ length out.old + 7 }
{
    match shape {
        Shape::Transparent { size: _ } => put_object(out, 0x82, &[TRANSPARENT, 0x21]),
        Shape::Linear { length, count } => {
            put_object(out, 0x82, &[LINEAR, 0x21, 0x00, length, count]);
        }
        Shape::Cyclic { length, count } => {
            put_object(out, 0x82, &[CYCLIC, 0x21, 0x00, length, count]);
        }
    }
}

fn put_rule(out: &mut TemplateBytes, rule: Option<RuleReference>)
    requires { length out.old ≤ 16 }
    ensures value { out.new ≡ out.old ++ rule_object rule }
    ensures long { length out.new ≤ length out.old + 5 }
{
    if let Some(rule) = rule {
        let [high, low] = rule.arr.0.to_be_bytes();
        put_object(out, 0x8B, &[high, low, rule.number]);
    }
}

fn put_short(out: &mut TemplateBytes, short: u8)
    requires short { short ≤ 30 }
    requires room { length out.old ≤ 20 }
    ensures value { out.new ≡ out.old ++ object 0x88 (short_value short) }
    ensures long { length out.new ≤ length out.old + 3 }
{
    if short == 0 {
        put_object(out, 0x88, &[]);
    } else {
        put_object(out, 0x88, &[short * 8]);
    }
}

fn spell_objects(file: &NewFile) -> TemplateBytes
    requires { IsTrue (may_be_made file.now) }
    ensures value { result ≡ template_objects file.now }
    ensures long { length result ≤ 23 }
{
    let mut objects = TemplateBytes::new();
    match *file {
        NewFile::Df { id } => {
            put_object(&mut objects, 0x82, &[DF, 0x21]);
            put_object(&mut objects, 0x83, &id.0.to_be_bytes());
            objects
        }
        NewFile::Ef {
            id,
            shape,
            short,
            rule,
        } => {
            put_kind(&mut objects, shape);
            put_object(&mut objects, 0x83, &id.0.to_be_bytes());
            put_rule(&mut objects, rule);
            put_object(&mut objects, 0x80, &size_for(shape).to_be_bytes());
            put_short(&mut objects, short);
            objects
        }
    }
}

// The template of a file that may be made.
#[tactic(auto, unfolding(file_model::specs::Templates::template))]
fn spell_template(file: &NewFile) -> TemplateBytes
    requires { IsTrue (may_be_made file.now) }
    ensures { result ≡ template file.now }
{
    let objects = spell_objects(file);
    let mut bytes = TemplateBytes::new();
    put_object(&mut bytes, 0x62, objects.as_slice());
    bytes
}

fn may_rule(rule: Option<RuleReference>) -> bool
    ensures { result ≡ may_rule rule }
{
    match rule {
        None => true,
        Some(rule) => 1 <= rule.number && rule.number <= RECORD_LIMIT,
    }
}

// The length of a record is a byte. Does nothing.
fn records_are_short(shape: Shape)
    ensures { IsTrue (has_short_records shape) }
{
    match shape {
        Shape::Transparent { size: _ } => {}
        Shape::Linear { length, count: _ } => {
            let _length = length;
        }
        Shape::Cyclic { length, count: _ } => {
            let _length = length;
        }
    }
}

// Whether a file may be made so: its identifier is none that only the MF or the current application has, it has bytes, its
// short file identifier is one of 1 to 30 or none, and its rule can be named.
fn may_be_made(file: &NewFile) -> bool
    ensures { result ≡ may_be_made file.now }
{
    match *file {
        NewFile::Df { id } => kinds::is_free_id(id),
        NewFile::Ef {
            id,
            shape,
            short,
            rule,
        } => {
            records_are_short(shape);
            kinds::is_free_id(id) && may_be_shape(shape) && short <= 30 && may_rule(rule)
        }
    }
}

fn byte_at(bytes: &[u8], at: usize) -> u8
    ensures { result ≡ slice_index bytes.now at }
{
    match bytes.get(at) {
        Some(byte) => *byte,
        None => 0,
    }
}

fn number_at(bytes: &[u8], at: usize) -> u16
    requires { at ≤ ROOM }
    ensures { result ≡ number_at bytes.now at }
{
    u16::from_be_bytes([byte_at(bytes, at), byte_at(bytes, at + 1)])
}

// Where the identifier stands.
fn id_place(bytes: &[u8]) -> usize
    ensures value { result ≡ id_place bytes.now }
    ensures low { result ≤ 11 }
{
    if kinds::has_records(byte_at(bytes, 4)) {
        11
    } else {
        8
    }
}

fn rule_told(bytes: &[u8], behind: usize) -> Option<RuleReference>
    requires { behind ≤ 13 }
    ensures { result ≡ rule_told bytes.now behind }
{
    if byte_at(bytes, behind) != 0x8B {
        return None;
    }
    Some(RuleReference {
        arr: FileId(number_at(bytes, behind + 2)),
        number: byte_at(bytes, behind + 4),
    })
}

fn size_place(bytes: &[u8], behind: usize) -> usize
    requires { behind ≤ 13 }
    ensures value { result ≡ size_place bytes.now behind }
    ensures low { result ≤ 20 }
{
    if byte_at(bytes, behind) == 0x8B {
        behind + 7
    } else {
        behind + 2
    }
}

fn shape_told(bytes: &[u8], at: usize) -> Shape
    requires { at ≤ 20 }
    ensures { result ≡ shape_told bytes.now at }
{
    let length = byte_at(bytes, 7);
    let count = byte_at(bytes, 8);
    match byte_at(bytes, 4) {
        LINEAR => Shape::Linear { length, count },
        CYCLIC => Shape::Cyclic { length, count },
        _ => Shape::Transparent {
            size: number_at(bytes, at),
        },
    }
}

fn short_told(bytes: &[u8], at: usize) -> u8
    requires { at ≤ 20 }
    ensures { result ≡ short_told bytes.now at }
{
    if byte_at(bytes, at + 3) == 0 {
        0
    } else {
        byte_at(bytes, at + 4) / 8
    }
}

// What the bytes at the places of a template say, whether they are one or not.
#[tactic(auto, unfolding(file_model::specs::Templates::new_file_told))]
fn told(bytes: &[u8]) -> NewFile
    ensures { result ≡ new_file_told bytes.now }
{
    let place = id_place(bytes);
    let id = FileId(number_at(bytes, place));
    if byte_at(bytes, 4) == DF {
        return NewFile::Df { id };
    }
    let at = size_place(bytes, place + 2);
    NewFile::Ef {
        id,
        shape: shape_told(bytes, at),
        short: short_told(bytes, at),
        rule: rule_told(bytes, place + 2),
    }
}

// What they say, where they are written just as its template is and it may be made.
#[tactic(auto, unfolding(file_model::specs::Templates::asked_in))]
fn asked_in(bytes: &[u8]) -> Option<NewFile>
    ensures { result ≡ asked_in bytes.now }
{
    let file = told(bytes);
    if !may_be_made(&file) {
        return None;
    }
    if spell_template(&file).as_slice() == bytes {
        Some(file)
    } else {
        None
    }
}

/// The file that these bytes ask for. None exactly where they are no template of a file that may be made.
pub fn read_template(bytes: &[u8]) -> Option<NewFile>
    ensures value { result ≡ asked_in bytes.now }
    ensures found { IfSome result (λ file. IsTrue (may_be_made file) × (bytes.now ≡ template file)) }
    ensures only { (file : NewFile) → IsTrue (may_be_made file) → IsInRange file → bytes.now ≡ template file
        → result ≡ Some file }
{
    asked_in(bytes)
}
