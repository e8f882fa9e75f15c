//! The mode that proves or refutes the conclusion of a text, and writes the whole proof.

ghost use Rattle.std.specs.Prelude.{◌≡◌, ◌≤◌, ◌∷◌, [], length, IfOk};
ghost use Rattle.construction_reader.specs.Seen.{account};
ghost use Rattle.step_types.specs.Checks.{IsGood};
ghost use Rattle.proof_text.specs.Forms.{verdict_word};
ghost use Rattle.proof_text.specs.Writes.{Writes};
ghost use Rattle.prover.specs.Answer.{IsVerdict};
ghost use Rattle.prover.specs.Modes.Prove.{verdict, IsProveAnswer, ProveDecides, IsProofOf, ProofDecides};
ghost use Rattle.prover.specs.Outcome.{Tells, PutsAnswer};
ghost use Rattle.prover.specs.declared.mode.Mode.TheVariants as mode;

use crate::ending::{put_stop, status_of};
use crate::parts::{Part, put_fault, read_part};
use crate::status::Status;
use cay_base::Sink;
use cayley_run::{IntoError, Options, run_into};
use cayley_terms::lower;
use proof_text::{WriteError, write_head, write_verdict};
use std::alloc::Global;
use step_types::Checked;

/// Writes the proof that the text's conclusion is zero or not, or where the run stopped, or why the text is refused.
pub fn prove<K: Sink>(alloc: Global, options: Options, input: &[u8], sink: &mut K) -> Status
    requires { length input.now ≤ 1048576 }
    ensures { Tells (mode.Prove options) input.now result
        (K.held sink.old) (K.held sink.new) (K.faults sink.old) (K.faults sink.new) }
{
    status_of(put_answer(alloc, options, input, sink))
}

/// Puts the answer to a text.
fn put_answer<K: Sink>(
    alloc: Global,
    options: Options,
    input: &[u8],
    sink: &mut K,
) -> Result<Status, WriteError>
    requires { length input.now ≤ 1048576 }
    ensures { PutsAnswer (IsProveAnswer options input.now) IsVerdict (ProveDecides input.now) result
        (K.held sink.old) (K.held sink.new) (K.faults sink.old) (K.faults sink.new) }
{
    match read_part(alloc, input)? {
        Part::Good(checked) => put_proof(alloc, options, &checked, sink),
        Part::Faulty(fault) => {
            put_fault(alloc, "", fault, sink)?;
            Ok(Status::TextRefused)
        }
    }
}

/// Puts the proof on a construction, in its rank.
fn put_proof<K: Sink>(
    alloc: Global,
    options: Options,
    checked: &Checked,
    sink: &mut K,
) -> Result<Status, WriteError>
    ensures { PutsAnswer (IsProofOf options (account checked.now)) IsVerdict (ProofDecides (account checked.now))
        result (K.held sink.old) (K.held sink.new) (K.faults sink.old) (K.faults sink.new) }
{
    match checked.construction().rank {
        3 => put_proof_in::<3, K>(alloc, options, checked, sink),
        _ => put_proof_in::<4, K>(alloc, options, checked, sink),
    }
}

/// Puts the head of a proof, its objects with their sections as they come, and the verdict or the stop.
fn put_proof_in<const D: usize, K: Sink>(
    alloc: Global,
    options: Options,
    checked: &Checked,
    sink: &mut K,
) -> Result<Status, WriteError>
    requires rank { (account checked.now).rank ≡ D }
    requires good { IsGood (account checked.now) }
    ensures { PutsAnswer (IsProofOf options (account checked.now)) IsVerdict (ProofDecides (account checked.now))
        result (K.held sink.old) (K.held sink.new) (K.faults sink.old) (K.faults sink.new) }
{
    let program = lower(alloc, checked)?;
    write_head(alloc, checked.names(), sink)?;
    match run_into::<D, K>(alloc, &program, checked.names(), options, sink) {
        Ok(summary) => put_verdict(alloc, summary.end.len() == 0, sink),
        Err(IntoError::Stop(kind)) => put_stop(alloc, kind, sink),
        Err(IntoError::Write) => Err(WriteError::Write),
        Err(IntoError::Memory) => Err(WriteError::Memory),
    }
}

/// Puts the verdict.
fn put_verdict<K: Sink>(alloc: Global, zero: bool, sink: &mut K) -> Result<Status, WriteError>
    ensures status { IfOk result (λ status. status ≡ verdict zero) }
    ensures written { Writes (K.held sink.old) (K.held sink.new) (K.faults sink.old) (K.faults sink.new)
        result (verdict_word zero ∷ []) }
{
    write_verdict(alloc, zero, sink)?;
    Ok(if zero {
        Status::Proved
    } else {
        Status::Refuted
    })
}
