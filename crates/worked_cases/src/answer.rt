//! The top call on a case.

use crate::case::Case;
use cay_base::{MemSink, MemSource, NoMemory, WholeSink, WholeSource};
use prover::{Status, run};
use std::alloc::Global;

/// How many bytes an output may have.
const ROOM: usize = 33_554_432;

/// The status and the output of a call.
#[derive(Drop)]
pub struct Answer {
    pub status: Status,
    pub output: Vec<u8>,
}

/// What the program answers to the case.
pub fn answer_to(alloc: Global, case: &Case) -> Result<Answer, NoMemory> {
    if case.is_plain() {
        plain_answer(alloc, case)
    } else {
        planned_answer(alloc, case)
    }
}

/// The answer over a source and a sink that never fail.
fn plain_answer(alloc: Global, case: &Case) -> Result<Answer, NoMemory> {
    let mut source = WholeSource::new(case.input.clone()?);
    let mut sink = WholeSink::with_room(alloc, ROOM)?;
    let status = run(alloc, &case.words, &mut source, &mut sink);
    Ok(Answer {
        status,
        output: Vec::from_slice(alloc, sink.bytes())?,
    })
}

/// The answer over a source and a sink that keep to the case's plan.
fn planned_answer(alloc: Global, case: &Case) -> Result<Answer, NoMemory> {
    let plan = &case.plan;
    let mut source = MemSource::new(case.input.clone()?, plan.most, plan.source_fails.clone()?);
    let mut sink = MemSink::with_room(alloc, ROOM, plan.sink_fails.clone()?)?;
    let status = run(alloc, &case.words, &mut source, &mut sink);
    Ok(Answer {
        status,
        output: Vec::from_slice(alloc, sink.bytes())?,
    })
}
