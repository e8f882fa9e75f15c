//! The run of a whole program.

ghost use Rattle.std.specs.Prelude.{◌≡◌};
ghost use Rattle.coordinate_model.specs.Sequences.{IsRank};
ghost use Rattle.cayley_run.specs.Bounds.{IsWithinProgram};
ghost use Rattle.cayley_run.specs.MetKeys.{AnswersMet, starts_of_run};
ghost use Rattle.cayley_run.specs.Runs.{run_of};
ghost use Rattle.cayley_run.specs.RunLaws.{MeansProgram};
ghost use Rattle.cayley_run.specs.Results.{AnswersLog};
ghost use Rattle.cayley_run.specs.TurnBounds.{TakesFewTurns};

use crate::answer::{Options, RunError};
use crate::progress::Progress;
use bracket_poly::{Items, ObjectLog};
use cayley_terms::Program;
use std::alloc::Global;

/// The logs of all objects of a program, worked out in order from the values of earlier ones. Each section begins with
/// passes of contraction where the options ask for them. The budget counts the turns of the whole run alone.
///
/// `Stop` comes exactly where the run passes a limit or spends its budget, with its kind and the logs up to there.
pub fn run_sections<const D: usize>(
    alloc: Global,
    program: &Program,
    options: Options,
) -> Result<Vec<ObjectLog<D>>, RunError<D>>
    requires rank { program.now.rank ≡ D }
    ensures run { AnswersLog result (run_of options program.now) }
    ensures met { AnswersMet result (starts_of_run options program.now) }
    ensures means { MeansProgram program.now (run_of options program.now) }
    ensures within { IsWithinProgram program.now (run_of options program.now) }
    ensures turns { TakesFewTurns program.now.rank options (run_of options program.now) }
{
    let mut progress = Progress::new(alloc, options);
    let steps = program.steps.items();
    for (number, instr) in program.instrs.items().iter().enumerate() {
        let Ok(()) = progress.run(*instr, steps[number]) else {
            return Err(RunError::Memory);
        };
        if let Some(kind) = progress.stop {
            return Err(RunError::Stop {
                done: Items::of(progress.objects),
                kind,
            });
        }
    }
    Ok(progress.objects)
}
