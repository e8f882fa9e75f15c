//! What straightening answers.
ghost use Rattle.std.specs.Prelude.{◌≡◌};
ghost use Rattle.straightening.specs.Results.{stop_by};

use bracket_poly::{Items, Poly, PolyError};
use bracket_terms::LogUse;
use cay_base::NoMemory;
use std::alloc::AllocFailed;

/// A normal polynomial, the uses of syzygies that lead to it in order, and their number.
#[derive(Drop)]
pub struct Straight<const D: usize> {
    pub normal: Poly<D>,
    pub uses: Items<LogUse<D>>,
    pub turns: u64,
}

/// The uses of the turns that were finished before a stop, and their number.
#[derive(Drop)]
pub struct Partial<const D: usize> {
    pub uses: Items<LogUse<D>>,
    pub turns: u64,
}

/// Why straightening stopped.
#[derive(Drop)]
pub enum StopError<const D: usize> {
    /// A key that is not standard is left, and the budget is spent.
    Turns(Partial<D>),
    /// A product or a sum would pass 2^127 - 1 in absolute value.
    Coefficient(Partial<D>),
    /// A new key would come after 2,097,152 met ones.
    Keys(Partial<D>),
    /// There is no memory.
    Memory,
}

impl<const D: usize> Partial<D> {
    /// The stop at an addition that was refused.
    pub(crate) fn stopped_by(self, error: PolyError) -> StopError<D>
        ensures { result ≡ stop_by error self.entry }
    {
        match error {
            PolyError::Coefficient => StopError::Coefficient(self),
            PolyError::Keys => StopError::Keys(self),
            PolyError::Memory => StopError::Memory,
        }
    }
}

impl<const D: usize> From<NoMemory> for StopError<D> {
    ghost use Rattle.std.specs.Prelude.{◌≡◌};
    ghost use Rattle.straightening.specs.declared.straight.StopError.TheVariants.{Memory};

    ghost from_gives = { λ _ error. error ≡ Memory };

    fn from(_: NoMemory) -> Self {
        StopError::Memory
    }
}

impl<const D: usize, T: Drop> From<AllocFailed<T>> for StopError<D> {
    ghost use Rattle.std.specs.Prelude.{◌≡◌};
    ghost use Rattle.straightening.specs.declared.straight.StopError.TheVariants.{Memory};

    ghost from_gives = { λ _ error. error ≡ Memory };

    fn from(_: AllocFailed<T>) -> Self {
        StopError::Memory
    }
}
