//! Laws of the grammar, each the contract of a function that does nothing.

ghost use Rattle.std.specs.Prelude.{◌≡◌, ◌⊎◌, ℕ, List, sum_by};
ghost use Rattle.construction_reader.specs.declared.fault.TextFault.{TextFault};
ghost use Rattle.construction_reader.specs.Rules.{Rules};
ghost use Rattle.construction_reader.specs.Said.{Sentence, Account, sentences_of};
ghost use Rattle.construction_reader.specs.Grammar.{conclusions, EndsBy, EndsOnce, IsAccount, IsGiven};
ghost use Rattle.construction_reader.specs.TextOf.{TextOf};
ghost use Rattle.construction_reader.specs.Faults.{IsFault};
ghost use Rattle.construction_reader.specs.Printed.{printed, renumbered};

/// Each text gives one construction or has one fault, and not both.
pub fn one_outcome()
    ensures one_construction { (text : List ℕ) (c d : Account) → TextOf text c → TextOf text d → c ≡ d }
    ensures one_fault { (text : List ℕ) (fault other : TextFault) →
        IsFault text fault → IsFault text other → fault ≡ other }
    ensures not_both { (text : List ℕ) (c : Account) (fault : TextFault) →
        TextOf text c → IsFault text fault → ⊥ }
    ensures either { (text : List ℕ) →
        ((c : Account) × TextOf text c) ⊎ ((fault : TextFault) × IsFault text fault) }
{}

/// What is printed of an account gives it again, on the lines 3, 4, 5 and so on.
pub fn printed_text()
    ensures { (c : Account) → IsAccount c.rank (sentences_of c.rows) → TextOf (printed c) (renumbered c) }
{}

/// What a construction keeps as its invariant is so exactly where a text gives it.
pub fn given_by_text()
    ensures given { (text : List ℕ) (c : Account) → TextOf text c → IsGiven c }
    ensures some_text { (c : Account) → IsGiven c → (text : List ℕ) × TextOf text c }
{}

/// A text of version 1 has one conclusion. What has one, by the rules of any version, ends with it.
pub fn one_conclusion()
    ensures one { (c : Account) → IsGiven c → sum_by conclusions (sentences_of c.rows) ≡ 1 }
    ensures last { (rules : Rules) (sentences : List Sentence) →
        EndsBy rules sentences → sum_by conclusions sentences ≡ 1 → EndsOnce sentences }
{}
