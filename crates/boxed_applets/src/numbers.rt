//! The numbers of addresses (TS 102 223, 8.1).
ghost use Rattle.std.specs.Prelude.{◌≡◌, ◌≤◌, ◌<◌, ◌+◌, ◌++◌, length};
ghost use Rattle.applet_trait.specs.Tables.{halves, is_digit_half, address_digits, is_barred};
ghost use Rattle.boxed_applets.specs.Numbers.{digit_of, digits_of, digits_up_to, has_two_digits};

use uicc_types::ByteList;

/// The digits of an address, two a byte.
type Number = ByteList<508>;

/// The half byte that ends a number.
const FILLER: u8 = 0xF;

/// Adds the digit of a half byte. Whether the number goes on.
fn put_half(number: &mut Number, half: u8) -> bool
    requires room { length number.old < 508 }
    requires half { half < 16 }
    ensures goes_on { result ≡ is_digit_half half }
    ensures after { number.new ≡ number.old ++ digit_of half }
{
    if half == FILLER {
        return false;
    }
    match number.push(b'0' + half) {
        Ok(()) => true,
        Err(_) => unreachable!(),
    }
}

/// Adds the digits of a byte, the lower half first. Whether the number goes on.
fn put_byte(number: &mut Number, byte: u8) -> bool
    requires { length number.old + 2 ≤ 508 }
    ensures goes_on { result ≡ has_two_digits byte }
    ensures after { number.new ≡ number.old ++ digits_up_to (halves byte) }
{
    put_half(number, byte % 16) && put_half(number, byte / 16)
}

/// The digits of the bytes after the type of an address.
fn digits_of(bytes: &[u8]) -> Number
    requires { length bytes.now ≤ 254 }
    ensures { result ≡ digits_of bytes.now }
{
    let mut number = Number::new();
    for byte in bytes {
        if !put_byte(&mut number, *byte) {
            return number;
        }
    }
    number
}

/// The number of an address.
#[tactic(auto, unfolding(applet_trait::specs::Tables::address_digits, crate::specs::Numbers::digits_up_to))]
fn number_of(address: &[u8]) -> Number
    requires { length address.now ≤ 255 }
    ensures { result ≡ address_digits address.now }
{
    match address.split_first() {
        Some((_, digits)) => digits_of(digits),
        None => Number::new(),
    }
}

/// Whether the number begins with the kept digits, of which there are some.
pub fn is_barred(kept: &[u8], address: &[u8]) -> bool
    requires { length address.now ≤ 255 }
    ensures { result ≡ is_barred kept.now address.now }
{
    match kept {
        [] => false,
        digits => number_of(address).as_slice().starts_with(digits),
    }
}
