//! The laws of the checker. The functions do nothing; their clauses are the laws.
ghost use Rattle.log_checker.specs.Bounds.{RefusalIsWithin};
ghost use Rattle.log_checker.specs.Checked.{ReadObjects, ReadClaims};
ghost use Rattle.log_checker.specs.ProofLaws.{ProofNotBoth, OneRefusal, ProofEither, AcceptedProofConcludes};
ghost use Rattle.log_checker.specs.SectionLaws.{SectionNotBoth, OneSectionFault, SectionEither, AcceptedKeepsValue};

use coordinate_model::laws::{homogeneous_syzygies, polynomials, syzygies, values};

/// A section is accepted or has one fault. Where it is accepted its end has the value of its start.
pub fn sections()
    ensures not_both { SectionNotBoth }
    ensures one_fault { OneSectionFault }
    ensures either { SectionEither }
    ensures value { AcceptedKeepsValue }
{
    polynomials();
    values();
    syzygies();
}

/// A proof is accepted for a program or has one refusal. Where it is accepted its last end has the value of the
/// conclusion. The key of a refusal has points and parameters of the program and of the proof alone.
pub fn proofs()
    ensures not_both { ProofNotBoth }
    ensures one_refusal { OneRefusal }
    ensures either { ProofEither }
    ensures concludes { AcceptedProofConcludes }
    ensures within { RefusalIsWithin }
{
    sections();
    homogeneous_syzygies();
}

/// What `read_proof` answers for the steps of a program meets what `check_proof` asks of objects.
pub fn readings()
    ensures objects { ReadObjects }
    ensures claims { ReadClaims }
{}
