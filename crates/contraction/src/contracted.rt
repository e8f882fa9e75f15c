//! What contraction answers.
ghost use Rattle.std.specs.Prelude.{◌≡◌};
ghost use Rattle.contraction.specs.Results.{stop_by};

use bracket_poly::{Items, Poly, PolyError};
use bracket_terms::LogUse;
use cay_base::NoMemory;
use std::alloc::AllocFailed;
use straightening::Partial;

/// A polynomial on which no pass is left, and the uses of syzygies that lead to it in order. One that had too many
/// terms is as it was.
#[derive(Drop)]
pub struct Contracted<const D: usize> {
    pub poly: Poly<D>,
    pub uses: Items<LogUse<D>>,
}

/// Why contraction stopped. The uses are those of the passes that were finished, and there is no turn among them.
#[derive(Drop)]
pub enum ContractError<const D: usize> {
    /// A product or a sum would pass 2^127 - 1 in absolute value.
    Coefficient(Partial<D>),
    /// A new key would come after 2,097,152 met ones.
    Keys(Partial<D>),
    /// There is no memory.
    Memory,
}

/// The stop at an addition that was refused, behind these passes.
pub(crate) fn stopped_by<const D: usize>(done: Partial<D>, error: PolyError) -> ContractError<D>
    ensures { result ≡ stop_by error done.entry }
{
    match error {
        PolyError::Coefficient => ContractError::Coefficient(done),
        PolyError::Keys => ContractError::Keys(done),
        PolyError::Memory => ContractError::Memory,
    }
}

impl<const D: usize> From<NoMemory> for ContractError<D> {
    ghost use Rattle.std.specs.Prelude.{◌≡◌};
    ghost use Rattle.contraction.specs.declared.contracted.ContractError.TheVariants.{Memory};

    ghost from_gives = { λ _ error. error ≡ Memory };

    fn from(_: NoMemory) -> Self {
        ContractError::Memory
    }
}

impl<const D: usize, T: Drop> From<AllocFailed<T>> for ContractError<D> {
    ghost use Rattle.std.specs.Prelude.{◌≡◌};
    ghost use Rattle.contraction.specs.declared.contracted.ContractError.TheVariants.{Memory};

    ghost from_gives = { λ _ error. error ≡ Memory };

    fn from(_: AllocFailed<T>) -> Self {
        ContractError::Memory
    }
}
