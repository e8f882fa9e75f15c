//! The mode that runs the sample construction of a number, and tells what the run came to.

ghost use Rattle.std.specs.Prelude.{◌≡◌, ◌≤◌, ◌∷◌, ◌==◌, [], codes, string_bytes, IfOk};
ghost use Rattle.construction_reader.specs.Seen.{account};
ghost use Rattle.step_types.specs.Checks.{IsGood};
ghost use Rattle.sample_maker.specs.Sample.{sample_of};
ghost use Rattle.proof_text.specs.Forms.{verdict_word};
ghost use Rattle.proof_text.specs.Writes.{Writes};
ghost use Rattle.prover.specs.Modes.Sample.{counted, sample_answer, SampleDecides};
ghost use Rattle.prover.specs.Outcome.{Tells, PutsAnswer};
ghost use Rattle.prover.specs.declared.mode.Mode.TheVariants as mode;

use crate::ending::{put_stop, status_of};
use crate::lines::put_line;
use crate::nowhere::Nowhere;
use crate::status::Status;
use cay_base::{NoMemory, Sink};
use cayley_run::{IntoError, Options, run_into};
use cayley_terms::lower;
use proof_text::{WriteError, write_verdict};
use std::alloc::Global;
use step_types::{Checked, check};

/// Writes how many turns the run of the sample makes, how many terms its end has, and whether that is zero; or where
/// the run stopped. The input is not looked at.
pub fn sample<K: Sink>(
    alloc: Global,
    number: u32,
    budget: u64,
    input: &[u8],
    sink: &mut K,
) -> Status
    requires least { 1 ≤ number }
    requires most { number ≤ 12 }
    ensures { Tells (mode.Sample number budget) input.now result
        (K.held sink.old) (K.held sink.new) (K.faults sink.old) (K.faults sink.new) }
{
    status_of(put_sample(alloc, number, budget, sink))
}

/// Puts the answer to the number of a sample.
fn put_sample<K: Sink>(
    alloc: Global,
    number: u32,
    budget: u64,
    sink: &mut K,
) -> Result<Status, WriteError>
    requires least { 1 ≤ number }
    requires most { number ≤ 12 }
    ensures { PutsAnswer (λ answer. answer ≡ sample_answer number budget) (λ status. status ≡ Status.Done)
        (SampleDecides number) result (K.held sink.old) (K.held sink.new) (K.faults sink.old) (K.faults sink.new) }
{
    let checked = checked_sample(alloc, number)?;
    let program = lower(alloc, &checked)?;
    put_count(alloc, "sample", u64::from(number), sink)?;
    let options = Options {
        budget,
        contract: false,
    };
    match run_into::<3, Nowhere>(alloc, &program, checked.names(), options, &mut Nowhere) {
        Ok(summary) => put_summary(alloc, summary.turns, summary.end.len() as u64, sink),
        Err(IntoError::Stop(kind)) => put_stop(alloc, kind, sink),
        // Writing nowhere does not fail.
        Err(IntoError::Write | IntoError::Memory) => Err(WriteError::Memory),
    }
}

/// The sample of a number, which keeps the step rules.
fn checked_sample(alloc: Global, number: u32) -> Result<Checked, NoMemory>
    requires least { 1 ≤ number }
    requires most { number ≤ 12 }
    ensures { IfOk result (λ checked. account checked ≡ sample_of number) }
{
    match check(alloc, sample_maker::sample(alloc, number)?) {
        Ok(checked) => Ok(checked),
        // A sample has no fault.
        Err(_) => Err(NoMemory),
    }
}

/// Puts the lines of a run that ended: its turns, the terms of its end, and whether that is zero.
fn put_summary<K: Sink>(
    alloc: Global,
    turns: u64,
    terms: u64,
    sink: &mut K,
) -> Result<Status, WriteError>
    ensures status { IfOk result (λ status. status ≡ Status.Done) }
    ensures written { Writes (K.held sink.old) (K.held sink.new) (K.faults sink.old) (K.faults sink.new) result
        (counted (codes "turns") turns ∷ counted (codes "terms") terms ∷ verdict_word (terms == 0) ∷ []) }
{
    put_count(alloc, "turns", turns, sink)?;
    put_count(alloc, "terms", terms, sink)?;
    write_verdict(alloc, terms == 0, sink)?;
    Ok(Status::Done)
}

/// Puts a line of a word and a number.
fn put_count<K: Sink>(
    alloc: Global,
    word: &str,
    number: u64,
    sink: &mut K,
) -> Result<(), WriteError>
    ensures { Writes (K.held sink.old) (K.held sink.new) (K.faults sink.old) (K.faults sink.new) result
        (counted word.now number ∷ []) }
{
    let text = count_text(alloc, word, number)?;
    put_line(alloc, text.as_bytes(), sink)
}

fn count_text(alloc: Global, word: &str, number: u64) -> Result<String, NoMemory>
    ensures { IfOk result (λ text. string_bytes text ≡ counted word.now number) }
{
    Ok(format!(in alloc; "{word} {number}")?)
}
