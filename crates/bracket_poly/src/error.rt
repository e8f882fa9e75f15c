//! Why nothing more can be added to a polynomial.
use cay_base::NoMemory;
use std::alloc::{AllocError, AllocFailed};
use thiserror::Error;

#[derive(Clone, Copy, Debug, PartialEq, Eq, Drop, Error)]
pub enum PolyError {
    /// A coefficient would pass 2^127 - 1 in absolute value.
    #[error("coefficient")]
    Coefficient,
    /// A new key would come after 2,097,152 met ones.
    #[error("keys")]
    Keys,
    /// There is no memory.
    #[error("memory")]
    Memory,
}

impl From<NoMemory> for PolyError {
    ghost use Rattle.std.specs.Prelude.{◌≡◌};
    ghost use Rattle.bracket_poly.specs.declared.error.PolyError.TheVariants.{Memory};

    ghost from_gives = { λ _ error. error ≡ Memory };

    fn from(_: NoMemory) -> Self {
        PolyError::Memory
    }
}

impl<T: Drop> From<AllocFailed<T>> for PolyError {
    ghost use Rattle.std.specs.Prelude.{◌≡◌};
    ghost use Rattle.bracket_poly.specs.declared.error.PolyError.TheVariants.{Memory};

    ghost from_gives = { λ _ error. error ≡ Memory };

    fn from(_: AllocFailed<T>) -> Self {
        PolyError::Memory
    }
}

impl From<AllocError> for PolyError {
    ghost use Rattle.std.specs.Prelude.{◌≡◌};
    ghost use Rattle.bracket_poly.specs.declared.error.PolyError.TheVariants.{Memory};

    ghost from_gives = { λ _ error. error ≡ Memory };

    fn from(_: AllocError) -> Self {
        PolyError::Memory
    }
}
