//! What can be wrong with the bytes of a proactive command.
use comprehension_tlv::TlvFault;
use uicc_types::Full;

/// Why bytes are no proactive command. The faults are tested in this order.
#[derive(Clone, Copy, Debug, PartialEq, Eq)]
pub enum ProactiveFault {
    /// They are no template `D0` that holds a list of objects.
    Tlv,
    /// The command details, the device identities or an object of the command aren't there.
    Missing,
    /// No command of the table has this type.
    UnknownType(u8),
    /// Anything else isn't as the table has it.
    BadData,
}

impl From<TlvFault> for ProactiveFault {
    ghost use Rattle.std.specs.Prelude.{◌≡◌};
    ghost use Rattle.toolkit_commands.specs.declared.faults.ProactiveFault.TheVariants.{Tlv};

    ghost from_gives = { λ _ fault. fault ≡ Tlv };

    fn from(_: TlvFault) -> Self {
        ProactiveFault::Tlv
    }
}

impl From<Full> for ProactiveFault {
    ghost use Rattle.std.specs.Prelude.{◌≡◌};
    ghost use Rattle.toolkit_commands.specs.declared.faults.ProactiveFault.TheVariants.{BadData};

    ghost from_gives = { λ _ fault. fault ≡ BadData };

    fn from(_: Full) -> Self {
        ProactiveFault::BadData
    }
}
