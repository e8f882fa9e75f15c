//! Reading a source to its end.

ghost use Rattle.std.specs.Prelude.{◌≡◌, ◌<◌, ◌≤◌, [], length, IfOk, OnOk, IfSome, OnSome, IsErr, IsErrOf, Some};
ghost use Rattle.std.specs.Io.KnownBytes.{Consumes};
ghost use Rattle.cay_base.specs.Causes.{Rose};
ghost use Rattle.cay_base.specs.Reading.{Leaves};
ghost use Rattle.cay_base.specs.declared.reading.ReadError.TheVariants.{Memory};

use crate::source::Source;
use std::alloc::{AllocError, Global};
use thiserror::Error;

/// Why not all was read.
#[derive(Clone, Copy, Debug, PartialEq, Eq, Error)]
pub enum ReadError {
    /// A call of the source failed.
    #[error("read")]
    Read,
    /// More bytes came than the limit allows.
    #[error("toolong")]
    TooLong,
    /// Memory was wanting.
    #[error("memory")]
    Memory,
}

impl From<AllocError> for ReadError {
    ghost from_gives = { λ _ e. e ≡ Memory };

    fn from(_: AllocError) -> Self {
        ReadError::Memory
    }
}

/// How many bytes one call asks for.
const ROOM: usize = 16384;

/// All bytes that are left, which are at most `limit`. Each turn takes a byte or is the last.
pub fn read_all<S: Source>(alloc: Global, source: &mut S, limit: u64) -> Result<Vec<u8>, ReadError>
    ensures all { IfOk result (λ bytes. IfSome (S.left source.old) (λ left. bytes.items ≡ left)) }
    ensures few { IfOk result (λ bytes. length bytes.items ≤ limit) }
    ensures end { OnOk result (IfSome (S.left source.old) (λ _. S.left source.new ≡ Some [])) }

    ensures read { IsErrOf result ReadError.Read → Rose (S.faults source.old) (S.faults source.new) }
    ensures too_long { IsErrOf result ReadError.TooLong → IfSome (S.left source.old) (λ left. limit < length left) }
    ensures long { IfSome (S.left source.old) (λ left. limit < length left → IsErr result) }
    ensures leaves { Leaves limit (S.left source.old) (S.left source.new) result }
    ensures kept { ¬ IsErrOf result ReadError.Read → S.faults source.new ≡ S.faults source.old }
    ensures later { S.faults source.old ≤ S.faults source.new }
{
    let mut bytes = Vec::new(alloc);
    let mut room = [0; ROOM];
    while bytes.len() as u64 <= limit {
        let Ok(count) = source.take(&mut room) else {
            return Err(ReadError::Read);
        };
        if count == 0 {
            return Ok(bytes);
        }
        bytes.extend_from_slice(&room[..count])?;
    }
    Err(ReadError::TooLong)
}
