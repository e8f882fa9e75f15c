//! Reads lines, each a call of a library and its numbers, and writes each with what the call answers.
#![tactic(auto)]

mod failure;
mod passes;
mod polynomials;
mod printing;
mod reading;
mod streams;
mod tableaux;
mod texts;
mod turns;
mod unranked;
mod values;

ghost use Rattle.coordinate_model.specs.Sequences.{IsRank};

use cay_base::{Sink, Source, StdSink, StdSource, read_all};
use failure::Failure;
use std::alloc::Global;
use std::process::ExitCode;
use std::str;

/// The most bytes that the lines may have.
const LONGEST: u64 = 1_048_576;

fn main(rt: HostRuntime) -> ExitCode {
    let mut source = StdSource::new(rt.stdin());
    let mut sink = StdSink::new(rt.stdout());
    match answer_all(rt.alloc(), &mut source, &mut sink) {
        Ok(()) => ExitCode::SUCCESS,
        Err(_) => ExitCode::FAILURE,
    }
}

/// Writes each line with its answer, up to the first line that has none.
fn answer_all<S: Source, K: Sink>(
    alloc: Global,
    source: &mut S,
    sink: &mut K,
) -> Result<(), Failure> {
    let Ok(bytes) = read_all(alloc, source, LONGEST) else {
        return Err(Failure::Stream);
    };
    let Ok(text) = str::from_utf8(&bytes) else {
        return Err(Failure::Line);
    };
    for line in text.lines() {
        answer_line(alloc, line, sink)?;
    }
    Ok(())
}

fn answer_line<K: Sink>(alloc: Global, line: &str, sink: &mut K) -> Result<(), Failure> {
    let mut out = String::new(alloc);
    write!(&mut out, "{line}:")?;
    match answer(alloc, &mut out, line) {
        Ok(()) => (),
        Err(Failure::Limit(limit)) => write!(&mut out, " {limit}")?,
        Err(failure) => return Err(failure),
    }
    writeln!(&mut out, "")?;
    match sink.put(out.as_bytes()) {
        Ok(()) => Ok(()),
        Err(_) => Err(Failure::Stream),
    }
}

/// The answer to a line: a call, its rank or `-`, and what it is called with.
fn answer(alloc: Global, out: &mut String, line: &str) -> Result<(), Failure> {
    let (call, rest) = reading::pair(line, ' ')?;
    let (rank, words) = reading::pair(rest, ' ')?;
    match rank {
        "2" => answer_in::<2>(alloc, out, call, words),
        "3" => answer_in::<3>(alloc, out, call, words),
        "4" => answer_in::<4>(alloc, out, call, words),
        _ => answer_unranked(alloc, out, call, words),
    }
}

/// The answer of a call that has no rank, or one alone.
fn answer_unranked(
    alloc: Global,
    out: &mut String,
    call: &str,
    words: &str,
) -> Result<(), Failure> {
    match call {
        "print" => texts::show_print(alloc, out, words),
        "lower" => texts::show_lower(alloc, out, words),
        "split" => unranked::show_splits(out, words),
        "Splits::<4,2>" => unranked::show_constant_splits(out),
        "join_points" => unranked::show_join_points(out, words),
        "conic" => values::show_conic(alloc, out, words),
        _ => answer_stream(alloc, out, call, words),
    }
}

/// The answer of a call over a source or a sink.
fn answer_stream(alloc: Global, out: &mut String, call: &str, words: &str) -> Result<(), Failure> {
    match call {
        "read_all" => streams::show_source(alloc, out, words),
        "whole_source" => streams::show_whole_source(alloc, out, words),
        "reader" => streams::show_reader(alloc, out, words),
        "sink" => streams::show_sink(alloc, out, words),
        "whole_sink" => streams::show_whole_sink(alloc, out, words),
        "full_stream" => streams::show_full_stream(out, words),
        _ => Err(Failure::Line),
    }
}

/// The answer of a call in rank `D`.
fn answer_in<const D: usize>(
    alloc: Global,
    out: &mut String,
    call: &str,
    words: &str,
) -> Result<(), Failure>
    requires { IsRank D }
{
    match call {
        "sort" => tableaux::show_sort::<D>(out, words),
        "violation" => tableaux::show_violation::<D>(alloc, out, words),
        "merge" => tableaux::show_merge::<D>(alloc, out, words),
        "store" => tableaux::show_store::<D>(alloc, out, words),
        "add" => polynomials::show_add::<D>(alloc, out, words),
        "mul_add" => polynomials::show_mul_add::<D>(alloc, out, words),
        "arena" => polynomials::show_arena::<D>(alloc, out, words),
        "join" => values::show_join::<D>(alloc, out, words),
        "meet" => values::show_meet::<D>(alloc, out, words),
        "on" => values::show_on::<D>(alloc, out, words),
        "bracket" => values::show_bracket::<D>(alloc, out, words),
        _ => answer_turns::<D>(alloc, out, call, words),
    }
}

/// The answer of a call that makes polynomials normal, in rank `D`.
fn answer_turns<const D: usize>(
    alloc: Global,
    out: &mut String,
    call: &str,
    words: &str,
) -> Result<(), Failure>
    requires { IsRank D }
{
    match call {
        "syzygy" => turns::show_syzygy::<D>(alloc, out, words),
        "at_place" => turns::show_place::<D>(alloc, out, words),
        "add_multiple" => turns::show_multiples::<D>(alloc, out, words),
        "queue" => turns::show_queue::<D>(alloc, out, words),
        "straighten" => turns::show_straighten::<D>(alloc, out, words),
        "straighten_in" => turns::show_straighten_in::<D>(alloc, out, words),
        "contract" => passes::show_contract::<D>(alloc, out, words),
        _ => Err(Failure::Line),
    }
}
