//! Laws of programs, each the contract of a function that does nothing.

ghost use Rattle.cayley_terms.specs.ProgramLaws.{EachIsInner, LastIsLast, EachHasMeasure, EachHasObject, StepsAgree};
ghost use Rattle.cayley_terms.specs.Values.{ConclusionAtPlacement, ConclusionPutIn};

/// In a program each instruction is made of earlier ones, as its place requires, and has the step of its object.
pub fn programs()
    ensures inner { EachIsInner }
    ensures last { LastIsLast }
    ensures measures { EachHasMeasure }
    ensures objects { EachHasObject }
    ensures steps { StepsAgree }
{}

/// The value of a conclusion polynomial, at a placement or with polynomials put in for its variables, is the conclusion
/// of the points and parameters that are placed or put in.
pub fn conclusions()
    ensures placed { ConclusionAtPlacement }
    ensures put_in { ConclusionPutIn }
{}
