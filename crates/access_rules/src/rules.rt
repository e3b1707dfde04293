//! What a rule is asked: an operation, and the keys.

/// An operation on an EF that an access rule may allow (ETSI TS 102 221, 9.2.4 and 11.1).
#[derive(Clone, Copy, Debug, PartialEq, Eq)]
pub enum Op {
    ReadBinary,
    ReadRecord,
    Search,
    UpdateBinary,
    UpdateRecord,
    Increase,
    Deactivate,
    Activate,
}

/// The keys PIN1, PIN2 and ADM1 (ETSI TS 102 221, 9.5.1): a field is true where the key's condition is satisfied.
#[derive(Clone, Copy, Debug, PartialEq, Eq)]
pub struct Verified {
    pub pin1: bool,
    pub pin2: bool,
    pub adm1: bool,
}

impl Op {
    ghost use Rattle.std.specs.Prelude.{◌≡◌};
    ghost use Rattle.access_rules.specs.Rules.{naming};

    /// The bit of an access mode byte that stands for the operation; 0 where none does.
    pub(crate) fn mode_bit(self) -> u8
        ensures { result ≡ (naming self).bit }
    {
        match self {
            Op::ReadBinary | Op::ReadRecord | Op::Search => 0x01,
            Op::UpdateBinary | Op::UpdateRecord => 0x02,
            Op::Increase => 0,
            Op::Deactivate => 0x08,
            Op::Activate => 0x10,
        }
    }

    /// The instruction byte of the operation.
    pub(crate) fn instruction(self) -> u8
        ensures { result ≡ (naming self).instruction }
    {
        match self {
            Op::ReadBinary => 0xB0,
            Op::ReadRecord => 0xB2,
            Op::Search => 0xA2,
            Op::UpdateBinary => 0xD6,
            Op::UpdateRecord => 0xDC,
            Op::Increase => 0x32,
            Op::Deactivate => 0x04,
            Op::Activate => 0x44,
        }
    }
}
