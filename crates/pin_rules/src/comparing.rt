//! How a value that is presented is compared.
ghost use Rattle.std.specs.Prelude.{◌≡◌, length};
ghost use Rattle.std.specs.Str.{bytes_eq};

use uicc_types::Pin8;

/// Whether the eight bytes that are presented are this value. Every pair of bytes is compared, whatever the ones before came
/// to: there is no early exit, and `&` evaluates both sides, so that each pair of values takes the same steps. It stands by itself, so that
/// the value is compared where it lies.
#[inline(never)]
pub fn is_value(presented: &[u8], value: &Pin8) -> bool
    requires { length presented.now ≡ 8 }
    ensures { result ≡ bytes_eq presented.now value.now.0 }
{
    let mut is_same = true;
    for index in 0..8usize {
        is_same &= presented[index] == value.0[index];
    }
    is_same
}
