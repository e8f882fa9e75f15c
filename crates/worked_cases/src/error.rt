//! Why not all cases were run.

use cay_base::{Failed, NoMemory, ReadError};
use std::alloc::{AllocError, AllocFailed};
use std::fmt;

/// Why not all cases were run.
#[derive(Clone, Copy, Debug, PartialEq, Eq)]
pub enum CasesError {
    /// The input could not be read.
    Read(ReadError),
    /// The input is not UTF-8.
    NoText,
    /// This line, from 1, is of no form, or stands before the first case.
    Line(usize),
    /// The output could not be written.
    Write,
    /// An answer is not UTF-8.
    NoTextAnswered,
    /// Memory was wanting.
    Memory,
}

impl fmt::Display for CasesError {
    fn fmt<W: fmt::Write>(&self, f: &mut fmt::Formatter<W>) -> fmt::Result {
        match self {
            CasesError::Read(error) => write!(f, "the input: {error}"),
            CasesError::NoText => write!(f, "the input is no text"),
            CasesError::Line(line) => write!(f, "line {line} is of no form"),
            CasesError::Write => write!(f, "the output cannot be written"),
            CasesError::NoTextAnswered => write!(f, "an answer is no text"),
            CasesError::Memory => write!(f, "memory is wanting"),
        }
    }
}

impl From<ReadError> for CasesError {
    fn from(error: ReadError) -> Self {
        CasesError::Read(error)
    }
}

impl From<Failed> for CasesError {
    fn from(_: Failed) -> Self {
        CasesError::Write
    }
}

impl From<NoMemory> for CasesError {
    fn from(_: NoMemory) -> Self {
        CasesError::Memory
    }
}

impl From<AllocError> for CasesError {
    fn from(_: AllocError) -> Self {
        CasesError::Memory
    }
}

impl<T: Drop> From<AllocFailed<T>> for CasesError {
    fn from(_: AllocFailed<T>) -> Self {
        CasesError::Memory
    }
}
