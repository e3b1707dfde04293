//! Reading BER-TLV objects with lengths below 256.
ghost use Rattle.std.specs.Prelude.{◌≡◌, ℕ, ◌<◌, List, [], ◌∷◌, ◌++◌, length, MatchOption, IfSome, IsSomeAnd};
ghost use Rattle.access_rules.specs.Objects.{length_bytes, object};

/// An object at the front of some bytes, and the bytes after it.
#[derive(Clone, Copy)]
pub struct Object<'a> {
    pub tag: u8,
    pub value: &'a [u8],
    pub rest: &'a [u8],
}

/// The object at the front, if one stands there. A length has a spelling of one byte up to 127, else `81` and a byte.
pub fn object_at(bytes: &[u8]) -> Option<Object<'_>>
    ensures shorter { IfSome result (λ found. length found.rest.now < length bytes.now) }
    ensures fits { IfSome result (λ found. length found.value.now < 256) }
    ensures found { IfSome result (λ found. bytes.now ≡ object found.tag found.value.now ++ found.rest.now) }
    ensures only { (tag : ℕ) (value rest : List ℕ) → length value < 256 → bytes.now ≡ object tag value ++ rest
        → IsSomeAnd result (λ found. (found.tag ≡ tag) × (found.value.now ≡ value) × (found.rest.now ≡ rest)) }
{
    let (tag, bytes) = byte_at(bytes)?;
    let (length, bytes) = length_at(bytes)?;
    let (value, rest) = bytes.split_at_checked(usize::from(length))?;
    Some(Object { tag, value, rest })
}

fn length_at(bytes: &[u8]) -> Option<(u8, &[u8])>
    ensures found { IfSome result (λ found. bytes.now ≡ length_bytes found.0 ++ found.1.now) }
    ensures only { (n : ℕ) (rest : List ℕ) → n < 256 → bytes.now ≡ length_bytes n ++ rest
        → IsSomeAnd result (λ found. (found.0 ≡ n) × (found.1.now ≡ rest)) }
{
    match byte_at(bytes)? {
        (length @ 0..=0x7F, rest) => Some((length, rest)),
        (0x81, bytes) => long_length_at(bytes),
        _ => None,
    }
}

/// The byte after `81`, which is 128 at least.
fn long_length_at(bytes: &[u8]) -> Option<(u8, &[u8])>
    ensures found { IfSome result (λ found. (127 < found.0) × (bytes.now ≡ found.0 ∷ found.1.now)) }
    ensures only { (n : ℕ) (rest : List ℕ) → 127 < n → bytes.now ≡ n ∷ rest
        → IsSomeAnd result (λ found. (found.0 ≡ n) × (found.1.now ≡ rest)) }
{
    match byte_at(bytes)? {
        (0..=0x7F, _) => None,
        found => Some(found),
    }
}

fn byte_at(bytes: &[u8]) -> Option<(u8, &[u8])>
    ensures { MatchOption result (bytes.now ≡ []) (λ found. bytes.now ≡ found.0 ∷ found.1.now) }
{
    let (first, rest) = bytes.split_first()?;
    Some((*first, rest))
}
