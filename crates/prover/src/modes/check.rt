//! The mode that checks the proof behind a text, apart from how it was made.

ghost use Rattle.std.specs.Prelude.{◌≡◌, ◌≤◌, ◌∷◌, [], length, string_bytes, IfOk};
ghost use Rattle.std.specs.List.{AllByRecursion};
ghost use Rattle.construction_reader.specs.Seen.{account};
ghost use Rattle.step_types.specs.Checks.{IsGood};
ghost use Rattle.cayley_terms.specs.Kept.{IsNamed};
ghost use Rattle.proof_text.specs.Outcome.{HaveMetTerms, IsCountable, told_of};
ghost use Rattle.proof_text.specs.Told.{IsProof};
ghost use Rattle.proof_text.specs.Writes.{Writes};
ghost use Rattle.log_checker.specs.Objects.{program_steps};
ghost use Rattle.prover.specs.Answer.{IsVerdict};
ghost use Rattle.prover.specs.Modes.Check.{IsCheckAnswer, CheckDecides, IsTextAnswer, TextDecides, BytesDecide};
ghost use Rattle.prover.specs.Modes.Check.{IsBytesAnswer, IsProgramAnswer, ProgramDecides, accepted, accepted_line};
ghost use Rattle.prover.specs.Modes.Prove.{verdict};
ghost use Rattle.prover.specs.Outcome.{Tells, PutsAnswer};
ghost use Rattle.prover.specs.Parts.{IsPart};
ghost use Rattle.prover.specs.declared.mode.Mode.TheVariants as mode;

use crate::cut::cut;
use crate::ending::status_of;
use crate::lines::put_line;
use crate::parts::{Part, put_fault, put_long, read_part};
use crate::refusals::{is_memory, put_proof_fault, put_refusal};
use crate::status::Status;
use crate::steps::program_steps;
use cay_base::Sink;
use cayley_terms::{Program, lower};
use log_checker::check_proof;
use log_checker::laws::readings;
use proof_text::{Proof, ProofError, WriteError, read_proof};
use std::alloc::Global;
use step_types::{Checked, Names};

/// The line with which the proof begins.
const SEPARATOR: &[u8] = b"proof 1";

/// The most bytes of a construction text.
const LONGEST_TEXT: usize = 1_048_576;

/// Writes whether the proof behind the text is accepted, and its verdict, or why the text or the proof is refused.
pub fn check<K: Sink>(alloc: Global, input: &[u8], sink: &mut K) -> Status
    requires { length input.now ≤ 1073741824 }
    ensures { Tells mode.Check input.now result
        (K.held sink.old) (K.held sink.new) (K.faults sink.old) (K.faults sink.new) }
{
    status_of(put_answer(alloc, input, sink))
}

/// Puts the answer to an input.
fn put_answer<K: Sink>(alloc: Global, input: &[u8], sink: &mut K) -> Result<Status, WriteError>
    requires { length input.now ≤ 1073741824 }
    ensures { PutsAnswer (IsCheckAnswer input.now) IsVerdict (CheckDecides input.now) result
        (K.held sink.old) (K.held sink.new) (K.faults sink.old) (K.faults sink.new) }
{
    let (text, bytes) = cut(input, SEPARATOR);
    put_text_answer(alloc, text, bytes, sink)
}

/// Puts the answer to a construction text and the bytes behind it.
fn put_text_answer<K: Sink>(
    alloc: Global,
    text: &[u8],
    bytes: &[u8],
    sink: &mut K,
) -> Result<Status, WriteError>
    requires { length bytes.now ≤ 1073741824 }
    ensures { PutsAnswer (IsTextAnswer text.now bytes.now) IsVerdict (TextDecides text.now bytes.now) result
        (K.held sink.old) (K.held sink.new) (K.faults sink.old) (K.faults sink.new) }
{
    if text.len() > LONGEST_TEXT {
        put_long(alloc, sink)
    } else {
        put_part_answer(alloc, text, bytes, sink)
    }
}

/// Puts the answer to a construction text that is not too long and the bytes behind it.
fn put_part_answer<K: Sink>(
    alloc: Global,
    text: &[u8],
    bytes: &[u8],
    sink: &mut K,
) -> Result<Status, WriteError>
    requires text { length text.now ≤ 1048576 }
    requires bytes { length bytes.now ≤ 1073741824 }
    ensures { PutsAnswer (IsPart [] text.now (IsBytesAnswer bytes.now)) IsVerdict (TextDecides text.now bytes.now)
        result (K.held sink.old) (K.held sink.new) (K.faults sink.old) (K.faults sink.new) }
{
    match read_part(alloc, text)? {
        Part::Good(checked) => put_checked(alloc, &checked, bytes, sink),
        Part::Faulty(fault) => {
            put_fault(alloc, "", fault, sink)?;
            Ok(Status::TextRefused)
        }
    }
}

/// Puts the answer to the bytes behind the text of a construction, in its rank.
fn put_checked<K: Sink>(
    alloc: Global,
    checked: &Checked,
    bytes: &[u8],
    sink: &mut K,
) -> Result<Status, WriteError>
    requires { length bytes.now ≤ 1073741824 }
    ensures { PutsAnswer (IsBytesAnswer bytes.now (account checked.now)) IsVerdict
        (BytesDecide bytes.now (account checked.now)) result
        (K.held sink.old) (K.held sink.new) (K.faults sink.old) (K.faults sink.new) }
{
    match checked.construction().rank {
        3 => put_checked_in::<3, K>(alloc, checked, bytes, sink),
        _ => put_checked_in::<4, K>(alloc, checked, bytes, sink),
    }
}

/// Reads the bytes as a proof for the construction, and puts the answer.
fn put_checked_in<const D: usize, K: Sink>(
    alloc: Global,
    checked: &Checked,
    bytes: &[u8],
    sink: &mut K,
) -> Result<Status, WriteError>
    requires rank { (account checked.now).rank ≡ D }
    requires good { IsGood (account checked.now) }
    requires short { length bytes.now ≤ 1073741824 }
    ensures { PutsAnswer (IsBytesAnswer bytes.now (account checked.now)) IsVerdict
        (BytesDecide bytes.now (account checked.now)) result
        (K.held sink.old) (K.held sink.new) (K.faults sink.old) (K.faults sink.new) }
{
    let program = lower(alloc, checked)?;
    let steps = program_steps(alloc, &program)?;
    match read_proof::<D>(alloc, bytes, checked.names(), &steps) {
        Ok(proof) => put_verdict(alloc, &program, checked.names(), &proof, sink),
        Err(ProofError::Fault(fault)) => put_proof_fault(alloc, fault, sink),
        Err(ProofError::Memory) => Err(WriteError::Memory),
    }
}

/// Checks a proof that was read for a program, and puts its verdict or why it is refused.
fn put_verdict<const D: usize, K: Sink>(
    alloc: Global,
    program: &Program,
    names: &Names,
    proof: &Proof<D>,
    sink: &mut K,
) -> Result<Status, WriteError>
    requires rank { program.now.rank ≡ D }
    requires named { AllByRecursion (IsNamed names.now) program.now.instrs }
    requires same { names.now.rank ≡ D }
    requires told { IsProof names.now (program_steps program.now) (told_of proof.now) }
    requires met { HaveMetTerms proof.now }
    requires countable { IsCountable proof.now }
    ensures { PutsAnswer (IsProgramAnswer D names.now program.now (told_of proof.now)) IsVerdict
        (ProgramDecides program.now (told_of proof.now)) result
        (K.held sink.old) (K.held sink.new) (K.faults sink.old) (K.faults sink.new) }
{
    readings();
    match check_proof(alloc, program, proof) {
        Ok(_) => put_accepted(alloc, proof.proved, sink),
        Err(refusal) => {
            if is_memory(&refusal) {
                return Err(WriteError::Memory);
            }
            put_refusal(alloc, names, &refusal, sink)
        }
    }
}

/// Puts the verdict of a proof that is accepted.
fn put_accepted<K: Sink>(alloc: Global, proved: bool, sink: &mut K) -> Result<Status, WriteError>
    ensures status { IfOk result (λ status. status ≡ verdict proved) }
    ensures written { Writes (K.held sink.old) (K.held sink.new) (K.faults sink.old) (K.faults sink.new)
        result (accepted_line proved ∷ []) }
{
    put_line(alloc, accepted_line(proved), sink)?;
    Ok(if proved {
        Status::Proved
    } else {
        Status::Refuted
    })
}

/// The line of a proof that is accepted, by its verdict.
fn accepted_line(proved: bool) -> &'static [u8]
    ensures { result.now ≡ accepted_line proved }
{
    if proved {
        b"accepted proved"
    } else {
        b"accepted refuted"
    }
}
