//! Why not all texts were read.

use cay_base::{Failed, NoMemory, ReadError};
use std::alloc::{AllocError, AllocFailed};
use std::fmt;

/// Why not all texts were read.
#[derive(Clone, Copy)]
pub enum Failure {
    /// The table could not be read.
    Read(ReadError),
    /// The table is not UTF-8.
    NoText,
    /// A line of the table is of no form.
    Line,
    /// A text has other steps than a proof can have, or is too long.
    Steps,
    /// The output could not be written.
    Write,
    /// Memory was wanting.
    Memory,
}

impl fmt::Display for Failure {
    fn fmt<W: fmt::Write>(&self, f: &mut fmt::Formatter<W>) -> fmt::Result {
        match self {
            Failure::Read(error) => write!(f, "the table: {error}"),
            Failure::NoText => write!(f, "the table is no text"),
            Failure::Line => write!(f, "a line is of no form"),
            Failure::Steps => write!(f, "a proof has no such steps"),
            Failure::Write => write!(f, "the output cannot be written"),
            Failure::Memory => write!(f, "memory is wanting"),
        }
    }
}

impl From<ReadError> for Failure {
    fn from(error: ReadError) -> Self {
        Failure::Read(error)
    }
}

impl From<Failed> for Failure {
    fn from(_: Failed) -> Self {
        Failure::Write
    }
}

impl From<NoMemory> for Failure {
    fn from(_: NoMemory) -> Self {
        Failure::Memory
    }
}

impl From<AllocError> for Failure {
    fn from(_: AllocError) -> Self {
        Failure::Memory
    }
}

impl<T: Drop> From<AllocFailed<T>> for Failure {
    fn from(_: AllocFailed<T>) -> Self {
        Failure::Memory
    }
}
