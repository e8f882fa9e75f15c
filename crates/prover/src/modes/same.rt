//! The mode that compares the conclusions of two texts.

ghost use Rattle.std.specs.Prelude.{◌≡◌, ◌≤◌, ◌∷◌, [], codes, length, IfOk};
ghost use Rattle.construction_reader.specs.Seen.{account};
ghost use Rattle.step_types.specs.Checks.{names_of};
ghost use Rattle.proof_text.specs.Writes.{Writes};
ghost use Rattle.prover.specs.Alike.{AreAlike};
ghost use Rattle.prover.specs.Answer.{IsVerdict};
ghost use Rattle.prover.specs.Ends.{IsEnd, IsEndNamed, lines_of};
ghost use Rattle.prover.specs.Modes.Prove.{verdict};
ghost use Rattle.prover.specs.Modes.Same.{AreShort, IsSameAnswer, IsTextsAnswer, IsShortAnswer, IsSecondAnswer};
ghost use Rattle.prover.specs.Modes.Same.{IsPairAnswer, comparison, unlike, run_lines, equal_word};
ghost use Rattle.prover.specs.Modes.Same.{SameDecides, TextsDecide, SecondDecides, PairDecides};
ghost use Rattle.prover.specs.Outcome.{Tells, PutsAnswer};
ghost use Rattle.prover.specs.Parts.{refused_at};
ghost use Rattle.prover.specs.Runs.{log_of};
ghost use Rattle.prover.specs.declared.mode.Mode.TheVariants as mode;

use crate::cut::{behind_separator, cut};
use crate::difference::{Difference, first_difference};
use crate::ending::{status_of, stop_of};
use crate::ends::{End, end_of, same_terms};
use crate::lines::put_line;
use crate::parts::{Fault, Part, put_fault, put_long, read_part};
use crate::status::Status;
use cay_base::Sink;
use cayley_run::Options;
use proof_text::{WriteError, write_stop, write_terms};
use std::alloc::Global;
use step_types::{Checked, Names};

/// The line between the texts.
const SEPARATOR: &[u8] = b"and";

/// The most bytes that a text may have.
const LONGEST_TEXT: usize = 1_048_576;

/// Writes the normal polynomials of both conclusions and whether they are equal; or where a run stopped, in what the
/// texts differ, or why one is refused.
pub fn same<K: Sink>(alloc: Global, options: Options, input: &[u8], sink: &mut K) -> Status
    ensures { Tells (mode.Same options) input.now result
        (K.held sink.old) (K.held sink.new) (K.faults sink.old) (K.faults sink.new) }
{
    status_of(put_answer(alloc, options, input, sink))
}

/// Puts the answer to the input.
fn put_answer<K: Sink>(
    alloc: Global,
    options: Options,
    input: &[u8],
    sink: &mut K,
) -> Result<Status, WriteError>
    ensures { PutsAnswer (IsSameAnswer options input.now) IsVerdict (SameDecides input.now) result
        (K.held sink.old) (K.held sink.new) (K.faults sink.old) (K.faults sink.new) }
{
    let (first, rest) = cut(input, SEPARATOR);
    put_texts(
        alloc,
        options,
        first,
        behind_separator(rest, SEPARATOR),
        sink,
    )
}

/// Puts the answer to two texts.
fn put_texts<K: Sink>(
    alloc: Global,
    options: Options,
    first: &[u8],
    second: &[u8],
    sink: &mut K,
) -> Result<Status, WriteError>
    ensures { PutsAnswer (IsTextsAnswer options first.now second.now) IsVerdict (TextsDecide first.now second.now) result
        (K.held sink.old) (K.held sink.new) (K.faults sink.old) (K.faults sink.new) }
{
    if first.len().max(second.len()) > LONGEST_TEXT {
        put_long(alloc, sink)
    } else {
        put_first(alloc, options, first, second, sink)
    }
}

/// Puts the answer to two texts that are not too long.
fn put_first<K: Sink>(
    alloc: Global,
    options: Options,
    first: &[u8],
    second: &[u8],
    sink: &mut K,
) -> Result<Status, WriteError>
    requires { AreShort first.now second.now }
    ensures { PutsAnswer (IsShortAnswer options first.now second.now) IsVerdict (TextsDecide first.now second.now) result
        (K.held sink.old) (K.held sink.new) (K.faults sink.old) (K.faults sink.new) }
{
    match read_part(alloc, first)? {
        Part::Good(checked) => put_second(alloc, options, &checked, second, sink),
        Part::Faulty(fault) => put_refusal(alloc, "first ", fault, sink),
    }
}

/// Puts the answer to a first text that is good and a second one.
fn put_second<K: Sink>(
    alloc: Global,
    options: Options,
    first: &Checked,
    second: &[u8],
    sink: &mut K,
) -> Result<Status, WriteError>
    requires { length second.now ≤ 1048576 }
    ensures { PutsAnswer (IsSecondAnswer options (account first.now) second.now) IsVerdict
        (SecondDecides (account first.now) second.now) result
        (K.held sink.old) (K.held sink.new) (K.faults sink.old) (K.faults sink.new) }
{
    match read_part(alloc, second)? {
        Part::Good(checked) => put_pair(alloc, options, first, &checked, sink),
        Part::Faulty(fault) => put_refusal(alloc, "second ", fault, sink),
    }
}

/// Refuses a text for this fault, which is told behind the prefix.
fn put_refusal<K: Sink>(
    alloc: Global,
    prefix: &str,
    fault: Fault,
    sink: &mut K,
) -> Result<Status, WriteError>
    ensures status { IfOk result (λ status. status ≡ Status.TextRefused) }
    ensures written { Writes (K.held sink.old) (K.held sink.new) (K.faults sink.old) (K.faults sink.new) result
        (refused_at prefix.now fault).lines }
{
    put_fault(alloc, prefix, fault, sink)?;
    Ok(Status::TextRefused)
}

/// Puts the answer to two constructions.
fn put_pair<K: Sink>(
    alloc: Global,
    options: Options,
    first: &Checked,
    second: &Checked,
    sink: &mut K,
) -> Result<Status, WriteError>
    ensures { PutsAnswer (IsPairAnswer options (account first.now) (account second.now)) IsVerdict
        (PairDecides (account first.now) (account second.now)) result
        (K.held sink.old) (K.held sink.new) (K.faults sink.old) (K.faults sink.new) }
{
    match first_difference(first.names(), second.names()) {
        Some(difference) => put_unlike(alloc, difference, sink),
        None => put_comparison(alloc, options, first, second, sink),
    }
}

/// Puts in what two constructions differ.
fn put_unlike<K: Sink>(
    alloc: Global,
    difference: Difference,
    sink: &mut K,
) -> Result<Status, WriteError>
    ensures status { IfOk result (λ status. status ≡ Status.Unlike) }
    ensures written { Writes (K.held sink.old) (K.held sink.new) (K.faults sink.old) (K.faults sink.new) result
        (unlike difference).lines }
{
    match difference {
        Difference::Rank => put_line(alloc, b"unlike rank", sink)?,
        Difference::Free => put_line(alloc, b"unlike free", sink)?,
        Difference::Params => put_line(alloc, b"unlike params", sink)?,
    }
    Ok(Status::Unlike)
}

/// Compares two constructions that are alike, in their rank.
fn put_comparison<K: Sink>(
    alloc: Global,
    options: Options,
    first: &Checked,
    second: &Checked,
    sink: &mut K,
) -> Result<Status, WriteError>
    requires { AreAlike (names_of (account first.now)) (names_of (account second.now)) }
    ensures { PutsAnswer (λ answer. answer ≡ comparison options (account first.now) (account second.now)) IsVerdict
        (PairDecides (account first.now) (account second.now)) result
        (K.held sink.old) (K.held sink.new) (K.faults sink.old) (K.faults sink.new) }
{
    match first.construction().rank {
        3 => put_comparison_in::<3, K>(alloc, options, first, second, sink),
        _ => put_comparison_in::<4, K>(alloc, options, first, second, sink),
    }
}

/// Puts the ends of both runs, and whether they are equal; or the end of the first up to a stop.
fn put_comparison_in<const D: usize, K: Sink>(
    alloc: Global,
    options: Options,
    first: &Checked,
    second: &Checked,
    sink: &mut K,
) -> Result<Status, WriteError>
    requires rank { (account first.now).rank ≡ D }
    requires alike { AreAlike (names_of (account first.now)) (names_of (account second.now)) }
    ensures { PutsAnswer (λ answer. answer ≡ comparison options (account first.now) (account second.now)) IsVerdict
        (PairDecides (account first.now) (account second.now)) result
        (K.held sink.old) (K.held sink.new) (K.faults sink.old) (K.faults sink.new) }
{
    let first_end = put_run::<D, K>(alloc, b"first", options, first, sink)?;
    let End::Normal(polynomial) = first_end else {
        return Ok(Status::Stopped);
    };
    let second_end = put_run::<D, K>(alloc, b"second", options, second, sink)?;
    let End::Normal(other) = second_end else {
        return Ok(Status::Stopped);
    };
    put_verdict(alloc, same_terms(&polynomial, &other), sink)
}

/// Puts a title, runs a construction, and puts to what the run came.
fn put_run<const D: usize, K: Sink>(
    alloc: Global,
    title: &[u8],
    options: Options,
    checked: &Checked,
    sink: &mut K,
) -> Result<End<D>, WriteError>
    requires { (account checked.now).rank ≡ D }
    ensures written { Writes (K.held sink.old) (K.held sink.new) (K.faults sink.old) (K.faults sink.new) result
        (title.now ∷ run_lines (names_of (account checked.now)) (log_of options (account checked.now))) }
    ensures end { IfOk result (IsEnd options (account checked.now)) }
{
    put_line(alloc, title, sink)?;
    let end = end_of::<D>(alloc, options, checked)?;
    put_end(alloc, checked.names(), &end, sink)?;
    Ok(end)
}

/// Puts the terms of an end, or the line of a stop.
fn put_end<const D: usize, K: Sink>(
    alloc: Global,
    names: &Names,
    end: &End<D>,
    sink: &mut K,
) -> Result<(), WriteError>
    requires { IsEndNamed names.now end.now }
    ensures { Writes (K.held sink.old) (K.held sink.new) (K.faults sink.old) (K.faults sink.new) result
        (lines_of names.now end.now) }
{
    match end {
        End::Normal(poly) => write_terms(alloc, names, poly, sink),
        End::Stopped(kind) => write_stop(alloc, stop_of(*kind), sink),
    }
}

/// Puts whether the polynomials are equal.
fn put_verdict<K: Sink>(alloc: Global, equal: bool, sink: &mut K) -> Result<Status, WriteError>
    ensures status { IfOk result (λ status. status ≡ verdict equal) }
    ensures written { Writes (K.held sink.old) (K.held sink.new) (K.faults sink.old) (K.faults sink.new) result
        (equal_word equal ∷ []) }
{
    if equal {
        put_line(alloc, b"equal", sink)?;
        Ok(Status::Proved)
    } else {
        put_line(alloc, b"different", sink)?;
        Ok(Status::Refuted)
    }
}
