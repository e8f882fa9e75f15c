//! Checking a proof.
ghost use Rattle.std.specs.Prelude.{◌≡◌, ◌↔◌, ℕ, List, [], ◌∷◌, ◌++◌, IsTrue, OnOk, IfOk, IfErr};
ghost use Rattle.std.specs.List.{AllByRecursion};
ghost use Rattle.coordinate_model.specs.Key.{key_cmp};
ghost use Rattle.coordinate_model.specs.Polynomial.{Polynomials};
ghost use Rattle.coordinate_model.specs.Sums.{empty};
ghost use Rattle.cayley_terms.specs.Kept.{polynomial_of};
ghost use Rattle.proof_text.specs.Outcome.{IsCountable};
ghost use Rattle.log_checker.specs.Accepted.{IsProofAccepted};
ghost use Rattle.log_checker.specs.Bounds.{HasNumbers, IsClaimWithin, IsRefusalWithin};
ghost use Rattle.log_checker.specs.Checked.{AreObjectsOf, UnlessMemory};
ghost use Rattle.log_checker.specs.Claims.{Claim, object_claims};
ghost use Rattle.log_checker.specs.ProofLaws.{Concludes};
ghost use Rattle.log_checker.specs.ProofRefused.{IsProofRefused};

use crate::laws;
use crate::progress::Progress;
use crate::refusal::ProofRefusal;
use bracket_poly::ObjectLog;
use cayley_terms::Program;
use coordinate_model::laws::independence;
use proof_text::Proof;
use std::alloc::Global;

/// Accepts exactly where the scalars and starts of each object are those that the ends of earlier objects give within
/// the limits, and each section is accepted. The answer is whether the end of the conclusion is zero.
///
/// Else the first refusal is told: of the first object that has one its starts, its scalars, and then its sections in
/// order, each with its start, its uses and its end.
pub fn check_proof<const D: usize>(
    alloc: Global,
    program: &Program,
    proof: &Proof<D>,
) -> Result<bool, ProofRefusal<D>>
    requires rank { program.now.rank ≡ D }
    requires objects { AreObjectsOf program.now proof.now.objects }
    requires countable { IsCountable proof.now }
    ensures accepted { OnOk result (IsProofAccepted program.now (object_claims proof.now.objects)) }
    ensures concludes { OnOk result (Concludes program.now (object_claims proof.now.objects)) }
    // The answer is whether the conclusion polynomial is zero.
    ensures zero { IfOk result (λ zero. IsTrue zero ↔ (polynomial_of program.now ≡ Polynomials.𝟘)) }
    ensures refused { IfErr result (UnlessMemory (IsProofRefused program.now (object_claims proof.now.objects))) }
    ensures within { (n m : ℕ) → AllByRecursion (HasNumbers n m) program.now.instrs
        → AllByRecursion (AllByRecursion (IsClaimWithin n m)) (object_claims proof.now.objects)
        → IfErr result (IsRefusalWithin n m) }
{
    laws::proofs();
    independence();
    let objects = proof.objects.items();
    let steps = program.steps.items();
    let mut progress = Progress::new(alloc);
    for (number, instr) in program.instrs.items().iter().enumerate() {
        progress.check(*instr, steps[number], objects)?;
    }
    Ok(is_last_zero(objects))
}

/// Whether the end of the first section of the last object is zero.
fn is_last_zero<const D: usize>(objects: &[ObjectLog<D>]) -> bool
    ensures { (front : List (List Claim)) (last : Claim) → object_claims objects.now ≡ front ++ (last ∷ []) ∷ []
        → (IsTrue result ↔ (last.end ≡ empty key_cmp)) }
{
    let Some(object) = objects.last() else {
        return true;
    };
    let Some(section) = object.sections.items().first() else {
        return true;
    };
    match &section.end {
        Some(end) => end.len() == 0,
        None => true,
    }
}
