//! What a run answers.
use bracket_poly::{Items, ObjectLog, Poly};
use proof_text::WriteError;

/// How a program is run.
#[derive(Clone, Copy, Debug, PartialEq, Eq)]
pub struct Options {
    /// How many turns the whole run may make.
    pub budget: u64,
    /// Whether each section begins with contraction.
    pub contract: bool,
}

/// Why a run stopped.
#[derive(Clone, Copy, Debug, PartialEq, Eq)]
pub enum StopKind {
    /// A turn was left when the budget was spent.
    Turns,
    /// A coefficient would pass 2^127 - 1 in absolute value.
    Coefficient,
    /// A new key would come after 2,097,152 met ones.
    Keys,
}

/// Why a run has no log of all objects.
#[derive(Drop)]
pub enum RunError<const D: usize> {
    /// The run stopped behind these logs, of which the last may be unfinished.
    Stop {
        done: Items<ObjectLog<D>>,
        kind: StopKind,
    },
    /// There is no memory.
    Memory,
}

/// What a run came to that was written as it went.
#[derive(Drop)]
pub struct Summary<const D: usize> {
    /// How many turns the whole run made.
    pub turns: u64,
    /// The polynomial with which the section of the conclusion ends.
    pub end: Poly<D>,
}

/// Why a run was not written to its end.
#[derive(Clone, Copy, Debug, PartialEq, Eq, Drop)]
pub enum IntoError {
    /// The run stopped behind what was written.
    Stop(StopKind),
    /// A call of the sink failed.
    Write,
    /// There is no memory.
    Memory,
}

impl From<WriteError> for IntoError {
    ghost use Rattle.std.specs.Prelude.{◌≡◌};
    ghost use Rattle.cayley_run.specs.Failures.{failure_of};

    ghost from_gives = { λ error into. into ≡ failure_of error };

    fn from(error: WriteError) -> Self {
        match error {
            WriteError::Write => IntoError::Write,
            WriteError::Memory => IntoError::Memory,
        }
    }
}
