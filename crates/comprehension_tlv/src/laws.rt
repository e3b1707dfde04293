//! What holds of the grammar itself, whatever is read or written.
ghost use Rattle.std.specs.Prelude.{◌≡◌, ◌<◌, ◌^◌, ◌++◌, ℕ, List, length, Ok, Some, All};
ghost use Rattle.std.specs.List.{AllByRecursion};
ghost use Rattle.comprehension_tlv.specs.Model.{Object, IsObject, IsObjects, IsTemplate};
ghost use Rattle.comprehension_tlv.specs.Reading.{IsEnding, objects_of, template_of};
ghost use Rattle.comprehension_tlv.specs.Writing.{tagged, spellings, IsWritableObject};
ghost use Rattle.comprehension_tlv.specs.declared.faults.TlvFault.{TlvFault};

/// No bytes have two readings, neither as a list of objects nor as a template.
pub fn one_reading()
    ensures objects { (bytes : List ℕ) (some others : List Object)
        → IsObjects bytes some → IsObjects bytes others → some ≡ others }
    ensures template { (bytes content others : List ℕ) (tag number : ℕ)
        → IsTemplate bytes tag content → IsTemplate bytes number others → (tag ≡ number) × (content ≡ others) }
{}

/// Reading from the left gives exactly what the grammar has: all of what is spelled, and nothing else.
pub fn exact_reading()
    ensures objects { (bytes : List ℕ) (objects : List Object) → IsObjects bytes objects
        → objects_of bytes ≡ Ok objects }
    ensures no_others { (bytes : List ℕ) (objects : List Object)
        → All (λ byte. byte < 256) bytes → objects_of bytes ≡ Ok objects → IsObjects bytes objects }
    ensures template { (bytes content : List ℕ) (tag : ℕ) → IsTemplate bytes tag content
        → template_of bytes ≡ Ok (tag, content) }
    ensures no_other { (bytes content : List ℕ) (tag : ℕ) → template_of bytes ≡ Ok (tag, content)
        → IsTemplate bytes tag content }

    // At the place of a fault no object begins.
    ensures fault { (at : ℕ) (rest : List ℕ) (fault : TlvFault) (first others : List ℕ) (object : Object)
        → IsEnding at rest (Some fault) → rest ≡ first ++ others → IsObject first object → ⊥ }
{}

/// What is written is in the grammar, with the objects and the content that were put in.
pub fn exact_writing()
    ensures objects { (objects : List Object) → AllByRecursion IsWritableObject objects
        → IsObjects (spellings objects) objects }
    ensures template { (tag : ℕ) (content : List ℕ) → length content < 2 ^ 16
        → IsTemplate (tagged tag content) tag content }
{}
