//! The file control parameters (ETSI TS 102 221, 11.1.1.3).
ghost use Rattle.std.specs.Prelude.{◌≡◌, ◌+◌, ◌*◌, ◌≤◌, [], ◌++◌, ◌==◌, if◌then◌else◌, length};
ghost use Rattle.std.specs.Int.{to_be_bytes};
ghost use Rattle.card_state.specs.States.{pins_of};
ghost use Rattle.access_rules.specs.Objects.{object};
ghost use Rattle.file_model.specs.Files.{is_df};
ghost use Rattle.file_model.specs.Fcp.{kind_bytes, rule_object, enabled_bits, pin_object, df_objects, ef_objects, fcp};
ghost use Rattle.binary_commands.specs.Telling.{key_objects, file_objects, pin_told};

use card_state::kinds::{self, DF};
use card_state::{Loaded, PinSlot};
use file_model::{Descriptor, RuleReference};
use uicc_types::{AnswerData, Full};

/// Puts bytes at the end of an answer, which must have room for them.
pub fn append(out: &mut AnswerData, part: &[u8])
    requires { length out.old + length part.now ≤ 256 }
    ensures { out.new ≡ out.old ++ part.now }
{
    match out.append(part) {
        Ok(()) => {}
        Err(Full) => unreachable!(),
    }
}

// Puts an object at the end.
#[tactic(auto, unfolding(access_rules::specs::Objects::object))]
fn put(out: &mut AnswerData, tag: u8, value: &[u8])
    requires short { length value.now ≤ 127 }
    requires room { length out.old + length value.now + 2 ≤ 256 }
    ensures value { out.new ≡ out.old ++ object tag value.now }
    ensures long { length out.new ≡ length out.old + length value.now + 2 }
{
    append(out, &[tag, value.len() as u8]);
    append(out, value);
}

// Puts the file descriptor.
fn put_kind(out: &mut AnswerData, file: &Descriptor)
    requires { length out.old ≤ 64 }
    ensures value { out.new ≡ out.old ++ object 0x82 (kind_bytes file.now) }
    ensures long { length out.new ≤ length out.old + 7 }
{
    if kinds::has_records(file.kind) {
        let [high, low] = u16::from(file.width).to_be_bytes();
        put(out, 0x82, &[file.kind, 0x21, high, low, file.count]);
    } else {
        put(out, 0x82, &[file.kind, 0x21]);
    }
}

// Puts the reference to the rule, if there is one.
fn put_rule(out: &mut AnswerData, rule: Option<RuleReference>)
    requires { length out.old ≤ 64 }
    ensures value { out.new ≡ out.old ++ rule_object rule }
    ensures long { length out.new ≤ length out.old + 5 }
{
    if let Some(rule) = rule {
        let [high, low] = rule.arr.0.to_be_bytes();
        put(out, 0x8B, &[high, low, rule.number]);
    }
}

// What a DF and an EF tell alike.
fn put_file(out: &mut AnswerData, file: &Descriptor)
    requires { length out.old ≤ 32 }
    ensures value { out.new ≡ out.old ++ file_objects file.now }
    ensures long { length out.new ≤ length out.old + 19 }
{
    put_kind(out, file);
    put(out, 0x83, &file.id.0.to_be_bytes());
    put(out, 0x8A, &[file.life]);
    put_rule(out, file.rule);
}

// What an EF tells besides.
fn put_ef(out: &mut AnswerData, file: &Descriptor)
    requires short { file.now.short ≤ 30 }
    requires room { length out.old ≤ 64 }
    ensures value { out.new ≡ out.old ++ ef_objects file.now }
    ensures long { length out.new ≤ length out.old + 7 }
{
    put(out, 0x80, &file.size.to_be_bytes());
    if file.short == 0 {
        put(out, 0x88, &[]);
    } else {
        put(out, 0x88, &[file.short * 8]);
    }
}

// Which of the PINs so far are enabled, the bit of the next one, and the keys so far.
#[derive(Drop)]
struct PinStatus {
    enabled: u8,
    weight: u8,
    keys: AnswerData,
}

// Tells of a PIN, if it is there.
fn tell_pin(told: &mut PinStatus, pin: &PinSlot)
    requires bits { told.old.enabled + told.old.weight * 2 ≤ 256 }
    requires room { length told.old.keys ≤ 64 }
    ensures { told.new ≡ pin_told told.old pin.now }
{
    if pin.key != 0 {
        put(&mut told.keys, 0x83, &[pin.key]);
        if pin.enabled {
            told.enabled += told.weight;
        }
        told.weight /= 2;
    }
}

// The status of the PINs that are there.
fn tell_pins(loaded: &Loaded) -> PinStatus
    ensures enabled { result.enabled ≡ enabled_bits 0x80 (pins_of loaded.now) }
    ensures keys { result.keys ≡ key_objects (pins_of loaded.now) }
    ensures long { length result.keys ≤ 9 }
{
    let mut told = PinStatus {
        enabled: 0,
        weight: 0x80,
        keys: AnswerData::new(),
    };
    for pin in loaded.all_pins() {
        tell_pin(&mut told, pin);
    }
    told
}

// Puts the status of the PINs that are there.
fn put_pins(out: &mut AnswerData, loaded: &Loaded)
    requires { length out.old ≤ 64 }
    ensures value { out.new ≡ out.old ++ pin_object (pins_of loaded.now) }
    ensures long { length out.new ≤ length out.old + 14 }
{
    let told = tell_pins(loaded);
    let mut value = AnswerData::new();
    put(&mut value, 0x90, &[told.enabled]);
    append(&mut value, told.keys.as_slice());
    put(out, 0xC6, value.as_slice());
}

// Puts what a DF tells, or an EF.
fn put_rest(out: &mut AnswerData, loaded: &Loaded, file: &Descriptor)
    requires short { file.now.short ≤ 30 }
    requires room { length out.old ≤ 64 }
    ensures value { out.new
        ≡ out.old ++ (if is_df file.now then df_objects (pins_of loaded.now) else ef_objects file.now) }
    ensures long { length out.new ≤ length out.old + 14 }
{
    if file.kind == DF {
        put_pins(out, loaded);
    } else {
        put_ef(out, file);
    }
}

/// Puts the file control parameters of a file into an answer that is empty before.
#[inline(never)]
#[tactic(auto, unfolding(file_model::specs::Fcp::fcp))]
pub fn put_parameters(out: &mut AnswerData, loaded: &Loaded, file: &Descriptor)
    requires short { file.now.short ≤ 30 }
    requires empty { out.old ≡ [] }
    ensures { out.new ≡ fcp (pins_of loaded.now) file.now }
{
    let mut objects = AnswerData::new();
    put_file(&mut objects, file);
    put_rest(&mut objects, loaded, file);
    put(out, 0x62, objects.as_slice());
}
