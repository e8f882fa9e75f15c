//! Calls on a case of which something is changed in turn, and how many answers come to what.

use crate::answer::{Answer, answer_to};
use crate::case::Case;
use cay_base::NoMemory;
use prover::Status;
use std::alloc::{AllocError, AllocFailed, Global};

/// How many calls of a source or a sink are tried at most.
const MOST_CALLS: u32 = 1_000;

/// What is changed in turn.
#[derive(Clone, Copy, Debug)]
pub enum Change {
    /// The input ends before each place from this one on.
    Cut(usize),
    /// The byte at each place from this one on is a `0`.
    Zero(usize),
    /// Each call of the source fails, until no failure is met.
    Source,
    /// Each call of the sink fails, until no failure is met.
    Sink,
}

/// How many answers came to what.
#[derive(Clone, Copy, Debug)]
pub struct Tally {
    /// How many have each number as their status.
    pub statuses: [u32; 10],
    /// How many are neither the whole answer nor have a front of its output.
    pub other: u32,
}

impl Tally {
    /// Counts an answer to a changed case beside the answer to the case as it stands.
    fn count(&mut self, answer: &Answer, whole: &Answer) {
        if let Some(count) = self.statuses.get_mut(usize::from(answer.status.number())) {
            *count = count.saturating_add(1);
        }
        if !whole.output.starts_with(&answer.output) {
            self.other = self.other.saturating_add(1);
        }
    }
}

/// What the answers to the case come to, of which this is changed in turn.
pub fn tally_of(alloc: Global, case: &Case, change: Change) -> Result<Tally, NoMemory> {
    match change {
        Change::Cut(from) | Change::Zero(from) => tally_inputs(alloc, case, change, from),
        Change::Source | Change::Sink => tally_faults(alloc, case, change),
    }
}

/// What they come to where the input is changed at each place from this one on.
fn tally_inputs(
    alloc: Global,
    case: &Case,
    change: Change,
    from: usize,
) -> Result<Tally, NoMemory> {
    let whole = answer_to(alloc, case)?;
    let mut tally = Tally {
        statuses: [0; 10],
        other: 0,
    };
    for place in from..case.input.len() {
        let mut changed = same_call(alloc, case)?;
        change_input(&mut changed.input, change, place);
        tally.count(&answer_to(alloc, &changed)?, &whole);
    }
    Ok(tally)
}

/// Changes the input at a place.
fn change_input(input: &mut Vec<u8>, change: Change, place: usize) {
    match change {
        Change::Cut(_) => input.truncate(place),
        _ => {
            if let Some(byte) = input.get_mut(place) {
                *byte = b'0';
            }
        }
    }
}

/// What they come to where each call of the source or of the sink fails, until one is not met.
fn tally_faults(alloc: Global, case: &Case, change: Change) -> Result<Tally, NoMemory> {
    let whole = answer_to(alloc, case)?;
    let mut tally = Tally {
        statuses: [0; 10],
        other: 0,
    };
    for call in 0..MOST_CALLS {
        let answer = answer_to(alloc, &failing(alloc, case, change, call)?)?;
        tally.count(&answer, &whole);
        if answer.status != Status::ReadFault && answer.status != Status::WriteFault {
            return Ok(tally);
        }
    }
    Ok(tally)
}

/// The case with this call of the source or of the sink failing.
fn failing(alloc: Global, case: &Case, change: Change, call: u32) -> Result<Case, NoMemory> {
    let mut changed = same_call(alloc, case)?;
    match change {
        Change::Source => changed.plan.source_fails.push(call)?,
        _ => changed.plan.sink_fails.push(call)?,
    }
    Ok(changed)
}

/// The case with nothing changed yet.
fn same_call(alloc: Global, case: &Case) -> Result<Case, AllocError> {
    let mut same = case.again(alloc, "")?;
    same.plan.most = case.plan.most;
    Ok(same)
}
