//! The run of a whole program, written as it goes.

ghost use Rattle.std.specs.Prelude.{◌≡◌};
ghost use Rattle.std.specs.List.{AllByRecursion};
ghost use Rattle.cayley_terms.specs.Kept.{IsNamed};
ghost use Rattle.proof_text.specs.Writes.{Writes};
ghost use Rattle.cayley_run.specs.Bounds.{IsWithinProgram};
ghost use Rattle.cayley_run.specs.Runs.{run_of};
ghost use Rattle.cayley_run.specs.RunLaws.{MeansProgram};
ghost use Rattle.cayley_run.specs.TurnBounds.{TakesFewTurns};
ghost use Rattle.cayley_run.specs.Written.{AnswersSummary, run_lines, written_of};

use crate::answer::{IntoError, Options, Summary};
use crate::course::Course;
use cay_base::{NoMemory, Sink};
use cayley_terms::Program;
use std::alloc::Global;
use step_types::Names;

/// Runs a program as `run_sections` does, and writes the line of each object, and the lines of each section when it
/// ends. Each line is put by itself. No more than one section is kept at a time, apart from the values.
///
/// `Stop` comes exactly where the run passes a limit or spends its budget, behind all lines up to there.
pub fn run_into<const D: usize, K: Sink>(
    alloc: Global,
    program: &Program,
    names: &Names,
    options: Options,
    sink: &mut K,
) -> Result<Summary<D>, IntoError>
    requires rank { program.now.rank ≡ D }
    requires named { AllByRecursion (IsNamed names.now) program.now.instrs }
    ensures writes { Writes (K.held sink.old) (K.held sink.new) (K.faults sink.old) (K.faults sink.new)
        (written_of result) (run_lines names.now (run_of options program.now)) }
    ensures answers { AnswersSummary result program.now (run_of options program.now) }
    ensures means { MeansProgram program.now (run_of options program.now) }
    ensures within { IsWithinProgram program.now (run_of options program.now) }
    ensures turns { TakesFewTurns program.now.rank options (run_of options program.now) }
{
    let mut course = Course::new(alloc, options);
    let steps = program.steps.items();
    for (number, instr) in program.instrs.items().iter().enumerate() {
        if let Err(error) = course.run(names, *instr, steps[number], sink) {
            return Err(IntoError::from(error));
        }
        if let Some(kind) = course.stop {
            return Err(IntoError::Stop(kind));
        }
    }
    match course.summary() {
        Ok(summary) => Ok(summary),
        Err(NoMemory) => Err(IntoError::Memory),
    }
}
