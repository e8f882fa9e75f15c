//! Why a construction breaks the step rules.

ghost use Rattle.std.specs.Prelude.{◌≡◌};
ghost use Rattle.step_types.specs.declared.fault.CheckError.TheVariants as check;

use cay_base::NoMemory;
use std::alloc::{AllocError, AllocFailed};

/// Which rule a statement breaks. In a statement the first of these decides.
#[derive(Clone, Copy, Debug, PartialEq, Eq)]
pub enum StepKind {
    /// A form that the rank has not.
    Rank,
    /// A name that is made here and stands for something already, or a parameter that names an object.
    Twice,
    /// A name of no object that an earlier statement made.
    Unknown,
    /// An object of another step than is required there.
    Step,
    /// More than 64 rows.
    Rows,
    /// A degree above 1,000.
    Degree,
}

/// The first faulty statement's line, and what is wrong with it.
#[derive(Clone, Copy, Debug, PartialEq, Eq)]
pub struct StepFault {
    pub line: u32,
    pub kind: StepKind,
}

/// Why `check` has no checked construction.
#[derive(Debug, Drop)]
pub enum CheckError {
    Fault(StepFault),
    Memory,
}

impl From<NoMemory> for CheckError {
    ghost from_gives = { λ _ e. e ≡ check.Memory };

    fn from(_: NoMemory) -> Self {
        CheckError::Memory
    }
}

impl From<AllocError> for CheckError {
    ghost from_gives = { λ _ e. e ≡ check.Memory };

    fn from(_: AllocError) -> Self {
        CheckError::Memory
    }
}

impl<T: Drop> From<AllocFailed<T>> for CheckError {
    ghost from_gives = { λ _ e. e ≡ check.Memory };

    fn from(_: AllocFailed<T>) -> Self {
        CheckError::Memory
    }
}
