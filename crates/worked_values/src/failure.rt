//! Why a line has no other answer.
use bracket_poly::PolyError;
use cay_base::NoMemory;
use std::alloc::{AllocError, AllocFailed};

#[derive(Clone, Copy)]
pub enum Failure {
    /// The lines cannot be read, or an answer cannot be written.
    Stream,
    /// The line is of no form, or its numbers are none that the call takes.
    Line,
    /// There is no memory.
    Memory,
    /// A polynomial would pass a limit, which is the answer.
    Limit(PolyError),
}

impl From<NoMemory> for Failure {
    fn from(_: NoMemory) -> Self {
        Failure::Memory
    }
}

impl From<AllocError> for Failure {
    fn from(_: AllocError) -> Self {
        Failure::Memory
    }
}

impl<T: Drop> From<AllocFailed<T>> for Failure {
    fn from(_: AllocFailed<T>) -> Self {
        Failure::Memory
    }
}

impl From<PolyError> for Failure {
    fn from(error: PolyError) -> Self {
        match error {
            PolyError::Memory => Failure::Memory,
            limit => Failure::Limit(limit),
        }
    }
}
