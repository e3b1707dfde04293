//! What holds of the tables themselves.
ghost use Rattle.std.specs.Prelude.{◌≡◌, ◌≤◌, ◌<◌, ◌↔◌, ℕ, List, length, All, Ok, Err, Some};
ghost use Rattle.comprehension_tlv.specs.Model.{Object};
ghost use Rattle.toolkit_commands.specs.Table.{details_of, spelled, IsProper, HasWritableTime};
ghost use Rattle.toolkit_commands.specs.Reading.{proactive_of};
ghost use Rattle.toolkit_commands.specs.Matching.{IsCommand, IsBounded, IsShort, IsEnvelope};
ghost use Rattle.toolkit_commands.specs.Faults.{HoldsList, Lacks, IsOfNoType, HasCommand};
ghost use Rattle.toolkit_commands.specs.Envelopes.{envelope_of};
ghost use Rattle.toolkit_commands.specs.declared.envelopes.Envelope.{Envelope};
ghost use Rattle.toolkit_commands.specs.declared.commands.Details.{Details};
ghost use Rattle.toolkit_commands.specs.declared.commands.Proactive.{Proactive};
ghost use Rattle.toolkit_commands.specs.declared.faults.ProactiveFault.TheVariants.{Tlv, Missing, UnknownType, BadData};

/// What is spelled has the objects of its row, and is read as that command with its number.
pub fn spelled_is_read()
    ensures has_its_objects { (command : Proactive) (number : ℕ)
        → length (spelled command number) ≤ 255 → IsCommand (spelled command number) command number }
    ensures read_back { (command : Proactive) (number : ℕ)
        → IsProper command → IsBounded command → length (spelled command number) ≤ 255
        → proactive_of (spelled command number) ≡ Ok (details_of command number, command) }
{}

/// Reading gives exactly what the table has: bytes with the objects of a proper command are read as that command with
/// its number, and what is read as a command has the objects of that command.
pub fn exact_commands()
    ensures all { (bytes : List ℕ) (command : Proactive) (number : ℕ)
        → IsProper command → IsBounded command → IsCommand bytes command number
        → proactive_of bytes ≡ Ok (details_of command number, command) }
    ensures no_others { (bytes : List ℕ) (details : Details) (command : Proactive)
        → All (λ byte. byte < 256) bytes → proactive_of bytes ≡ Ok (details, command)
        → IsCommand bytes command details.number × (details ≡ details_of command details.number) }
    ensures fit { (bytes : List ℕ) (details : Details) (command : Proactive)
        → proactive_of bytes ≡ Ok (details, command) → IsProper command × IsBounded command }
{}

/// Each fault comes exactly where the bytes are so, the earlier ones first: there is no list of objects; an object that
/// has to be there isn't; the type is in no row; no command has these objects.
pub fn four_faults()
    ensures tlv { (bytes : List ℕ) → All (λ byte. byte < 256) bytes
        → (proactive_of bytes ≡ Err Tlv) ↔ ((list : List Object) → HoldsList bytes list → ⊥) }
    ensures missing { (bytes : List ℕ) → All (λ byte. byte < 256) bytes
        → (proactive_of bytes ≡ Err Missing) ↔ ((list : List Object) × HoldsList bytes list × Lacks list) }
    ensures unknown_type { (bytes : List ℕ) (kind : ℕ) → All (λ byte. byte < 256) bytes
        → (proactive_of bytes ≡ Err (UnknownType kind))
        ↔ ((list : List Object) × HoldsList bytes list × (Lacks list → ⊥) × IsOfNoType list kind) }
    ensures bad_data { (bytes : List ℕ) → All (λ byte. byte < 256) bytes
        → (proactive_of bytes ≡ Err BadData)
        ↔ ((list : List Object) × HoldsList bytes list × (Lacks list → ⊥)
        × ((kind : ℕ) → IsOfNoType list kind → ⊥) × (HasCommand list → ⊥)) }
{}

/// How long the bytes of a command are, whatever its number, and which commands can be spelled.
pub fn lengths_of_commands()
    ensures any_number { (command : Proactive) (number other : ℕ)
        → length (spelled command number) ≡ length (spelled command other) }
    ensures short { (command : Proactive) (number : ℕ)
        → IsShort command → length (spelled command number) ≤ 255 }
    ensures writable { (command : Proactive) → IsProper command → HasWritableTime command }
{}

/// The same of envelopes.
pub fn exact_envelopes()
    ensures all { (bytes : List ℕ) (envelope : Envelope) → IsEnvelope bytes envelope
        → envelope_of bytes ≡ Some envelope }
    ensures no_others { (bytes : List ℕ) (envelope : Envelope)
        → All (λ byte. byte < 256) bytes → envelope_of bytes ≡ Some envelope → IsEnvelope bytes envelope }
{}
