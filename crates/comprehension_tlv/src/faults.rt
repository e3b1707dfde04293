//! What can be wrong with bytes that should hold objects.

/// The first fault of a list of objects or of a template. Each number is the place of the object's first byte, or, for
/// `Trailing`, that of the first byte after the template.
#[derive(Clone, Copy, Debug, PartialEq, Eq)]
pub enum TlvFault {
    /// The object begins with `00`, `80` or `FF`, which are no tags.
    NoTag(usize),
    /// The length begins with `80` or with `83` to `FF`. The form of four bytes, which begins with `83`, isn't taken.
    BadLength(usize),
    /// The bytes end inside the tag, the length or the value.
    CutShort(usize),
    /// Bytes follow the template.
    Trailing(usize),
}
