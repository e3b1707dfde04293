//! What a slice of bytes has.
ghost use Rattle.uicc_types.specs.Told.{AreBytes};

/// Does nothing. What a slice of bytes has are bytes.
pub fn are_bytes(slice: &[u8])
    ensures { AreBytes slice.now }
{
    let _slice = slice;
}
