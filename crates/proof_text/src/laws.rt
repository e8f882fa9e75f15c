//! Laws of proof texts, each the contract of a function that does nothing.
ghost use Rattle.std.specs.Prelude.{◌≡◌, ◌⊎◌, ℕ, List};
ghost use Rattle.step_types.specs.declared.names.Names.{Names as TextNames};
ghost use Rattle.proof_text.specs.declared.fault.ProofFault.{ProofFault};
ghost use Rattle.proof_text.specs.Told.{Told, TextOf};
ghost use Rattle.proof_text.specs.Faults.{IsFault};
ghost use Rattle.proof_text.specs.Outcome.{AreOfText};

/// For the names and steps of a text, bytes are the text of one proof or have one fault, and not both.
pub fn one_outcome()
    ensures one_proof { (names : TextNames) (steps bytes : List ℕ) (p q : Told) → AreOfText names steps →
        TextOf names steps bytes p → TextOf names steps bytes q → p ≡ q }
    ensures one_fault { (names : TextNames) (steps bytes : List ℕ) (fault other : ProofFault) → AreOfText names steps →
        IsFault names steps bytes fault → IsFault names steps bytes other → fault ≡ other }
    ensures not_both { (names : TextNames) (steps bytes : List ℕ) (p : Told) (fault : ProofFault) → AreOfText names steps →
        TextOf names steps bytes p → IsFault names steps bytes fault → ⊥ }
    ensures either { (names : TextNames) (steps bytes : List ℕ) → AreOfText names steps →
        ((p : Told) × TextOf names steps bytes p) ⊎ ((fault : ProofFault) × IsFault names steps bytes fault) }
{}
