//! The values of a script line, each read from one word.
ghost use Rattle.std.specs.Prelude.{◌≡◌, ◌≤◌, ◌<◌, ◌/◌, ◌^◌, ◌↔◌, length, IsSome, IfSome};
ghost use Rattle.std.specs.Char.{is_ascii_digit};
ghost use Rattle.std.specs.List.{list_all};
ghost use Rattle.std.specs.Str.Parse.{AllDigits, digits_value};
ghost use Rattle.script_form.specs.Reads.{Reads, ReadsInto};
ghost use Rattle.script_form.specs.Values.{IsByte, IsDialled, IsHex, IsNumber, IsSized, IsTyped, is_printable as is_shown};

use hex::{FromHex, decode_to_slice};
use uicc_types::{ByteList, Octets};

/// A number from `least` to `most`, which has at most nine digits.
pub fn number_of(word: &[u8], least: u32, most: u32) -> Option<u32>
    requires { most < 10 ^ 9 }
    ensures { Reads (IsNumber least most word.now) result }
{
    let number = decimal_of(word)?;
    if least <= number && number <= most {
        Some(number)
    } else {
        None
    }
}

/// A number of at most nine digits.
fn decimal_of(word: &[u8]) -> Option<u32>
    ensures { Reads (IsNumber 0 999999999 word.now) result }
{
    if word.is_empty() || word.len() > 9 {
        return None;
    }
    if word[0] == b'0' {
        return if word.len() == 1 { Some(0) } else { None };
    }
    digits_value_of(word)
}

/// The number that the digits write, leading zeros or not.
fn digits_value_of(digits: &[u8]) -> Option<u32>
    requires { length digits.now ≤ 9 }
    ensures all { IsSome result ↔ AllDigits 10 digits.now }
    ensures value { IfSome result (λ number. number ≡ digits_value 10 digits.now) }
{
    let mut number = 0;
    for digit in digits {
        if !digit.is_ascii_digit() {
            return None;
        }
        number = number * 10 + u32::from(*digit - b'0');
    }
    Some(number)
}

/// A text of at most 30 printable bytes, which may have spaces.
pub fn typed_of(written: &[u8]) -> Option<Octets>
    ensures { Reads (IsTyped written.now) result }
{
    if written.len() > 30 || !are_printable(written) {
        return None;
    }
    Some(Octets::from_slice(written))
}

/// Whether a byte is shown as it is.
pub fn is_printable(byte: u8) -> bool
    ensures { result ≡ is_shown byte }
{
    b' ' <= byte && byte <= b'~'
}

fn are_printable(bytes: &[u8]) -> bool
    ensures { result ≡ list_all is_shown bytes.now }
{
    bytes.iter().all(|byte| is_printable(*byte))
}

/// One to 20 decimal digits, as they stand.
pub fn dialled_of(word: &[u8]) -> Option<Octets>
    ensures { Reads (IsDialled word.now) result }
{
    if word.is_empty() || word.len() > 20 || !are_digits(word) {
        return None;
    }
    Some(Octets::from_slice(word))
}

fn are_digits(bytes: &[u8]) -> bool
    ensures { result ≡ list_all is_ascii_digit bytes.now }
{
    bytes.iter().all(|byte| byte.is_ascii_digit())
}

/// One to `N` bytes.
pub fn bytes_of<const N: usize>(word: &[u8]) -> Option<ByteList<N>>
    ensures { Reads (IsHex N word.now) result }
{
    let mut bytes = ByteList::new();
    read_bytes(word, &mut bytes)?;
    Some(bytes)
}

/// Reads one to `N` bytes into a list, in place of those that it has. Where they can't be read it holds any bytes. Most lines pass through
/// it, so it is inlined.
#[inline(always)]
pub fn read_bytes<const N: usize>(word: &[u8], bytes: &mut ByteList<N>) -> Option<()>
    ensures { ReadsInto (IsHex N word.now) result bytes.new }
{
    let count = word.len() / 2;
    if count == 0 || count > N {
        return None;
    }
    bytes.resize(count);
    let places = bytes.as_mut_slice();
    if count == NO_DATA {
        read_places::<N>(word, places)
    } else {
        read_others::<N>(word, places)
    }
}

/// The bytes of a command that has no data and asks for some (ISO 7816-4, 5.1): four of its header, and Le. Many words have as many, and
/// are read without a loop.
const NO_DATA: usize = 5;

/// Reads any other number of bytes.
#[inline(never)]
fn read_others<const N: usize>(word: &[u8], places: &mut [u8]) -> Option<()>
    requires filled { 1 ≤ length places.old }
    requires fits { length places.old ≤ N }
    requires count { length places.old ≡ length word.now / 2 }
    ensures read { ReadsInto (IsHex N word.now) result places.new }
    ensures size { length places.new ≡ length places.old }
{
    read_places::<N>(word, places)
}

/// Reads a byte into each of the places, at most `N`.
#[inline(always)]
fn read_places<const N: usize>(word: &[u8], places: &mut [u8]) -> Option<()>
    requires filled { 1 ≤ length places.old }
    requires fits { length places.old ≤ N }
    requires count { length places.old ≡ length word.now / 2 }
    ensures read { ReadsInto (IsHex N word.now) result places.new }
    ensures size { length places.new ≡ length places.old }
{
    match decode_to_slice(word, places) {
        Ok(()) => Some(()),
        Err(_) => None,
    }
}

/// Exactly `N` bytes.
pub fn sized_of<const N: usize>(word: &[u8]) -> Option<[u8; N]>
    ensures { Reads (IsSized N word.now) result }
{
    match <[u8; N]>::from_hex(word) {
        Ok(bytes) => Some(bytes),
        Err(_) => None,
    }
}

/// One byte.
pub fn byte_of(word: &[u8]) -> Option<u8>
    ensures { Reads (IsByte word.now) result }
{
    let [byte] = sized_of::<1>(word)?;
    Some(byte)
}
