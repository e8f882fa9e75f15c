//! How a call ends.

ghost use Rattle.std.specs.Prelude.{◌≡◌, ◌∷◌, [], IfOk};
ghost use Rattle.cayley_run.specs.Results as results;
ghost use Rattle.proof_text.specs.Forms.{stop_line};
ghost use Rattle.proof_text.specs.Writes.{Writes};
ghost use Rattle.prover.specs.Outcome.{status_of};
ghost use Rattle.prover.specs.Runs.{stop_kind};

use crate::status::Status;
use cay_base::Sink;
use cayley_run::StopKind;
use proof_text::{Stop, WriteError, write_stop};
use std::alloc::Global;

/// The status of an answer whose lines were put, or why they were not.
pub fn status_of(written: Result<Status, WriteError>) -> Status
    ensures { result ≡ status_of written }
{
    match written {
        Ok(status) => status,
        Err(WriteError::Write) => Status::WriteFault,
        Err(WriteError::Memory) => Status::Memory,
    }
}

/// Puts the line of a stop.
pub fn put_stop<K: Sink>(alloc: Global, kind: StopKind, sink: &mut K) -> Result<Status, WriteError>
    ensures status { IfOk result (λ status. status ≡ Status.Stopped) }
    ensures written { Writes (K.held sink.old) (K.held sink.new) (K.faults sink.old) (K.faults sink.new)
        result (stop_line (stop_kind (results.stop_of kind)) ∷ []) }
{
    write_stop(alloc, stop_of(kind), sink)?;
    Ok(Status::Stopped)
}

/// What a proof text tells of a stop.
pub fn stop_of(kind: StopKind) -> Stop
    ensures { result ≡ stop_kind (results.stop_of kind) }
{
    match kind {
        StopKind::Turns => Stop::Turns,
        StopKind::Coefficient => Stop::Coefficient,
        StopKind::Keys => Stop::Keys,
    }
}
