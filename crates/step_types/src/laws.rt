//! Laws of the step rules, each the contract of a function that does nothing.

ghost use Rattle.std.specs.Prelude.{◌≡◌, ◌⊎◌, ◌++◌, ◌∷◌, ◌↔◌, ℕ, ◌<◌, List};
ghost use Rattle.std.specs.List.{AllByRecursion};
ghost use Rattle.construction_reader.specs.Said.{Row, Account};
ghost use Rattle.step_types.specs.declared.fault.StepFault.{StepFault};
ghost use Rattle.step_types.specs.Checks.{IsGood, IsFault, objects_of};
ghost use Rattle.step_types.specs.Good.{IsFirstFault, IsFaultless, IsSized, names_of, all_made};

/// A construction is good or has one fault, that of its first faulty statement, and not both.
pub fn one_result()
    ensures either { (c : Account) → IsGood c ⊎ ((fault : StepFault) × IsFault c fault) }
    ensures not_both { (c : Account) (fault : StepFault) → IsGood c → IsFault c fault → ⊥ }
    ensures first { (c : Account) (fault : StepFault) → IsFault c fault ↔ IsFirstFault c fault }
{}

/// In a good construction each statement is within the limits and speaks of objects that were made before it, and each
/// object that is made has its step and size.
pub fn good_construction()
    ensures statements { (c : Account) (front : List Row) (row : Row) (back : List Row) →
        IsGood c → c.rows ≡ front ++ row ∷ back → IsFaultless c front row }
    ensures objects { (c : Account) → IsGood c → names_of (objects_of c) ≡ all_made c.rows }
    ensures sizes { (c : Account) → 1 < c.rank → IsGood c →
        AllByRecursion (λ entry. IsSized c.rank entry.1) (objects_of c) }
{}
