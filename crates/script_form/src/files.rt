//! How a script line names a file and describes it, each value in one word.
ghost use Rattle.std.specs.Prelude.{◌≡◌, ◌+◌, ◌<◌, ◌≤◌, ◌++◌, ◌∷◌, List, ℕ, length, IfSome, IsSomeAnd};
ghost use Rattle.uicc_types.specs.declared.identifiers.FileId.{FileId as AnIdentifier};
ghost use Rattle.script_form.specs.Reads.{Reads};
ghost use Rattle.script_form.specs.Values.{IsFourDigits, IsFree, IsNamedRule, IsPath, IsRule, IsShort, SpellsPath, identifier_bytes};

use crate::lines::{LONGEST_PATH, Path};
use crate::values::{bytes_of, number_of, sized_of};
use uicc_types::FileId;

/// The path of a file.
pub fn path_of(word: &[u8]) -> Option<Path>
    ensures { Reads (IsPath word.now) result }
{
    let bytes = bytes_of::<LONGEST_PATH>(word)?;
    path_in(bytes.as_slice())
}

/// The path whose identifiers these bytes are.
fn path_in(bytes: &[u8]) -> Option<Path>
    requires { length bytes.now ≤ LONGEST_PATH }
    ensures { Reads (SpellsPath bytes.now) result }
{
    let (first, mut rest) = identifier_at(bytes)?;
    let mut path = Path::new(first);
    while !rest.is_empty() {
        let (identifier, behind) = identifier_at(rest)?;
        path.push(identifier);
        rest = behind;
    }
    Some(path)
}

/// The identifier at the front, if a file may have it, and the bytes after it.
fn identifier_at(bytes: &[u8]) -> Option<(FileId, &[u8])>
    ensures shorter { IfSome result (λ found. length found.1.now + 2 ≡ length bytes.now) }
    ensures found { IfSome result (λ found. IsFree found.0 × (bytes.now ≡ identifier_bytes found.0 ++ found.1.now)) }
    ensures only { (identifier : AnIdentifier) (rest : List ℕ) → IsFree identifier
        → bytes.now ≡ identifier_bytes identifier ++ rest
        → IsSomeAnd result (λ found. (found.0 ≡ identifier) × (found.1.now ≡ rest)) }
{
    let [high, low, rest @ ..] = bytes else {
        return None;
    };
    let identifier = FileId(u16::from_be_bytes([*high, *low]));
    if identifier == FileId::MF || identifier == FileId::CURRENT_ADF {
        return None;
    }
    Some((identifier, rest))
}

/// The short file identifier of an EF, or none for a dash.
pub fn short_of(word: &[u8]) -> Option<Option<u8>>
    ensures { Reads (IsShort word.now) result }
{
    match word {
        b"-" => Some(None),
        _ => {
            let short = number_of(word, 1, 30)?;
            Some(Some(short as u8))
        }
    }
}

/// The access rule of a file: an EF_ARR's identifier and a record in it, or none for a dash.
pub fn rule_of(word: &[u8]) -> Option<Option<(FileId, u8)>>
    ensures { Reads (IsRule word.now) result }
{
    match word {
        b"-" => Some(None),
        _ => {
            let rule = named_rule_of(word)?;
            Some(Some(rule))
        }
    }
}

/// Four digits, a colon and the number of a record.
fn named_rule_of(word: &[u8]) -> Option<(FileId, u8)>
    ensures { Reads (IsNamedRule word.now) result }
{
    let (file, number) = rule_parts(word)?;
    let file = four_digits_of(file)?;
    let number = number_of(number, 1, 254)?;
    let number = number as u8;
    Some((file, number))
}

/// What stands before and after the colon, which is the fifth byte.
fn rule_parts(word: &[u8]) -> Option<(&[u8], &[u8])>
    ensures found { IfSome result (λ parts. (length parts.0.now ≡ 4) × (word.now ≡ parts.0.now ++ 58 ∷ parts.1.now)) }
    ensures only { (file number : List ℕ) → length file ≡ 4 → word.now ≡ file ++ 58 ∷ number
        → IsSomeAnd result (λ parts. (parts.0.now ≡ file) × (parts.1.now ≡ number)) }
{
    let (file, rest) = word.split_at_checked(4)?;
    let (first, number) = rest.split_first()?;
    if *first == b':' {
        Some((file, number))
    } else {
        None
    }
}

fn four_digits_of(word: &[u8]) -> Option<FileId>
    ensures { Reads (IsFourDigits word.now) result }
{
    let bytes = sized_of::<2>(word)?;
    Some(FileId(u16::from_be_bytes(bytes)))
}
