//! The kinds of files by their file descriptor bytes, the life cycle states, and the identifiers that no file but the MF may
//! have.
ghost use Rattle.std.specs.Prelude.{◌≡◌};
ghost use Rattle.card_state.specs.Kinds.{has_records, is_ef_kind};
ghost use Rattle.card_state.specs.Checks.{is_free_id};

use uicc_types::FileId;

/// A DF (ETSI TS 102 221, 11.1.1.4.3).
pub const DF: u8 = 0x78;

/// A transparent EF.
pub const TRANSPARENT: u8 = 0x41;

/// A linear fixed EF.
pub const LINEAR: u8 = 0x42;

/// A cyclic EF.
pub const CYCLIC: u8 = 0x46;

/// The life cycle status of a file that is in use (11.1.1.4.9).
pub const ACTIVATED: u8 = 0x05;

/// The life cycle status of an EF that is out of use.
pub const DEACTIVATED: u8 = 0x04;

/// Whether a file of this kind has records.
pub fn has_records(kind: u8) -> bool
    ensures { result ≡ has_records kind }
{
    kind == LINEAR || kind == CYCLIC
}

/// Whether a file of this kind is an EF.
pub fn is_ef(kind: u8) -> bool
    ensures { result ≡ is_ef_kind kind }
{
    kind == TRANSPARENT || has_records(kind)
}

/// Whether a file other than the MF may have this identifier.
pub fn is_free_id(id: FileId) -> bool
    ensures { result ≡ is_free_id id.0 }
{
    id != FileId::MF && id != FileId::CURRENT_ADF
}
