//! Reading a command APDU.
ghost use Rattle.std.specs.Prelude.{◌≡◌, ◌≤◌, ◌%◌, ◌+◌, ◌<◌, ◌∷◌, List, ℕ, Option, length, option_map, IfOk, IsOkAnd};
ghost use Rattle.std.specs.Result.{result_ok};

use std::marker::Model;

/// A command in the four cases of the short form.
#[derive(Debug, Drop)]
pub struct Command<'a> {
    pub class: u8,
    pub ins: u8,
    pub p1: u8,
    pub p2: u8,
    /// The data, at most 255 bytes; none in cases 1 and 2.
    pub body: &'a [u8],
    /// Ne: how many bytes of data the answer may have, 1 to 256; none in cases 1 and 3.
    pub expected: Option<u16>,
}

impl<'a> Model for Command<'a> {
    ghost use Rattle.apdu_form.specs.Model.{Apdu};

    ghost Value = { Apdu };

    ghost view = { λ c. record { class = c.class; ins = c.ins; p1 = c.p1; p2 = c.p2; body = c.body.now; expected = c.expected } };
}

/// The length of a command, or its Lc, fits none of the four cases.
#[derive(Clone, Copy, Debug, PartialEq, Eq)]
pub struct WrongLength;

ghost use Rattle.apdu_form.specs.Model.{Apdu, IsCommand, IsFields, command_in, data_in, fields_in, ne_of};

/// Reads a command. Four bytes are case 1 and five are case 2. Otherwise byte 4 is Lc, at least 1, and Lc bytes of data
/// follow (case 3), and then Le (case 4). `WrongLength` comes exactly where none of these fits.
#[tactic(auto, unfolding(crate::specs::Model::command_in))]
pub fn read_command(bytes: &[u8]) -> Result<Command<'_>, WrongLength>
    ensures found { IfOk result (IsCommand bytes.now) }
    ensures only { (apdu : Apdu) → IsCommand bytes.now apdu → IsOkAnd result (λ c. c ≡ apdu) }
    ensures value { result_ok result ≡ command_in bytes.now }
    // No bytes have two readings as a command.
    ensures one_reading { (a b : Apdu) → IsCommand bytes.now a → IsCommand bytes.now b → a ≡ b }
{
    let [class, ins, p1, p2, fields @ ..] = bytes else {
        return Err(WrongLength);
    };
    let (body, expected) = read_fields(fields)?;
    Ok(Command {
        class: *class,
        ins: *ins,
        p1: *p1,
        p2: *p2,
        body,
        expected,
    })
}

/// Reads what follows the header: the data and Ne.
#[tactic(auto, unfolding(crate::specs::Model::fields_in))]
fn read_fields(fields: &[u8]) -> Result<(&[u8], Option<u16>), WrongLength>
    ensures found { IfOk result (λ f. IsFields fields.now f.0.now f.1) }
    ensures only { (body : List ℕ) (ne : Option ℕ) → IsFields fields.now body ne
        → IsOkAnd result (λ f. (f.0.now ≡ body) × (f.1 ≡ ne)) }
    ensures value { option_map (λ f. (f.0.now, f.1)) (result_ok result) ≡ fields_in fields.now }
{
    match fields {
        [] => Ok((&[], None)),
        [le] => Ok((&[], Some(expected_of(*le)))),
        [0, ..] => Err(WrongLength),
        [lc, rest @ ..] => split_data(*lc, rest),
    }
}

/// Reads what follows Lc.
fn split_data(lc: u8, rest: &[u8]) -> Result<(&[u8], Option<u16>), WrongLength>
    requires nonzero { 0 < lc }
    requires more { 0 < length rest.now }
    ensures found { IfOk result (λ f. IsFields (lc ∷ rest.now) f.0.now f.1) }
    ensures only { (body : List ℕ) (ne : Option ℕ) → IsFields (lc ∷ rest.now) body ne
        → IsOkAnd result (λ f. (f.0.now ≡ body) × (f.1 ≡ ne)) }
    ensures value { option_map (λ f. (f.0.now, f.1)) (result_ok result) ≡ data_in lc rest.now }
{
    let lc = usize::from(lc);
    if rest.len() == lc {
        Ok((rest, None))
    } else if rest.len() == lc + 1 {
        Ok((&rest[..lc], Some(expected_of(rest[lc]))))
    } else {
        Err(WrongLength)
    }
}

/// Ne of a byte Le, where `00` stands for 256.
fn expected_of(le: u8) -> u16
    ensures within { result ≤ 256 }
    ensures least { 1 ≤ result }
    ensures spelling { result % 256 ≡ le }
    ensures value { result ≡ ne_of le }
{
    if le == 0 { 256 } else { u16::from(le) }
}
