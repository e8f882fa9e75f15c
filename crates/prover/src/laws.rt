//! Laws of the answer, each the contract of a function that does nothing.

ghost use Rattle.std.specs.Prelude.{◌≡◌, ℕ, List};
ghost use Rattle.prover.specs.Answer.{Answer};
ghost use Rattle.prover.specs.Cuts.{IsSeparator, IsCut};
ghost use Rattle.prover.specs.Modes.{IsAnswer, StatusHasCause};
ghost use Rattle.prover.specs.WrittenLaws.{RunIsAccepted, RunIsProof, WrittenIsAccepted, WrittenIsChecked};

use cayley_run::laws::runs;
use log_checker::laws::proofs;

/// Each list of words and each input has one answer.
pub fn one_answer()
    ensures some { (words : List (List ℕ)) (input : List ℕ) → (answer : Answer) × IsAnswer words input answer }
    ensures unique { (words : List (List ℕ)) (input : List ℕ) (a b : Answer) →
        IsAnswer words input a → IsAnswer words input b → a ≡ b }
{}

/// Each input has one cut at each separator.
pub fn one_cut()
    ensures some { (separator input : List ℕ) → IsSeparator separator
        → (first : List ℕ) × (rest : List ℕ) × IsCut separator input first rest }
    ensures unique { (separator input a r b s : List ℕ) → IsSeparator separator
        → IsCut separator input a r → IsCut separator input b s → (a ≡ b) × (r ≡ s) }
{}

/// The status of each answer is the one that has a cause in the words and the input.
pub fn causes()
    ensures { StatusHasCause }
{
    runs();
    proofs();
}

/// What the run of a program wrote, where nothing stopped it, is accepted for the program, and is a proof within the limits
/// of a text. So what `prove` answers at a verdict is accepted behind its text, with the same verdict, by `check` too.
pub fn written_proofs()
    ensures run { RunIsAccepted }
    ensures told { RunIsProof }
    ensures accepted { WrittenIsAccepted }
    ensures checked { WrittenIsChecked }
{
    runs();
}
