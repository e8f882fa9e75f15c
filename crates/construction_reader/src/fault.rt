//! Why a text could not be read.

ghost use Rattle.std.specs.Prelude.{◌≡◌};
ghost use Rattle.construction_reader.specs.declared.fault.ReadTextError.TheVariants as read;
ghost use Rattle.construction_reader.specs.declared.fault.LineError.TheVariants as line;

use cay_base::NoMemory;
use std::alloc::{AllocError, AllocFailed};

/// What is wrong with a line. In a line the first of these decides.
#[derive(Clone, Copy, Debug, PartialEq, Eq)]
pub enum Kind {
    /// A byte outside the comment that may not stand there.
    Byte,
    /// A run of more than 32 name bytes.
    LongName,
    /// A line of the header is missing, or another stands in its place.
    NoHeader,
    /// A line behind the conclusion.
    AfterConclusion,
    /// A line that begins with no word of a statement, or of a conclusion.
    Keyword,
    /// More than 32 parentheses open at once.
    Deep,
    /// A line in none of the forms.
    Shape,
    /// One free name, definition or parameter above the limit.
    TooMany,
    /// The conclusion is missing.
    NoConclusion,
}

/// The first faulty line and what is wrong with it.
#[derive(Clone, Copy, Debug, PartialEq, Eq)]
pub struct TextFault {
    pub line: u32,
    pub kind: Kind,
}

/// Why `read` has no construction.
#[derive(Debug, Drop)]
pub enum ReadTextError {
    Fault(TextFault),
    Memory,
}

impl From<NoMemory> for ReadTextError {
    ghost from_gives = { λ _ e. e ≡ read.Memory };

    fn from(_: NoMemory) -> Self {
        ReadTextError::Memory
    }
}

impl From<AllocError> for ReadTextError {
    ghost from_gives = { λ _ e. e ≡ read.Memory };

    fn from(_: AllocError) -> Self {
        ReadTextError::Memory
    }
}

impl<T: Drop> From<AllocFailed<T>> for ReadTextError {
    ghost from_gives = { λ _ e. e ≡ read.Memory };

    fn from(_: AllocFailed<T>) -> Self {
        ReadTextError::Memory
    }
}

/// Why a line could not be read.
#[derive(Drop)]
pub enum LineError {
    Fault(Kind),
    Memory,
}

impl From<NoMemory> for LineError {
    ghost from_gives = { λ _ e. e ≡ line.Memory };

    fn from(_: NoMemory) -> Self {
        LineError::Memory
    }
}

impl From<AllocError> for LineError {
    ghost from_gives = { λ _ e. e ≡ line.Memory };

    fn from(_: AllocError) -> Self {
        LineError::Memory
    }
}

impl<T: Drop> From<AllocFailed<T>> for LineError {
    ghost from_gives = { λ _ e. e ≡ line.Memory };

    fn from(_: AllocFailed<T>) -> Self {
        LineError::Memory
    }
}
