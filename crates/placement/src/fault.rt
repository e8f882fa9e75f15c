//! Why a program has no values.
use cay_base::NoMemory;
use std::alloc::AllocFailed;

/// Why a program has no values at a placement.
#[derive(Clone, Copy, Debug, PartialEq, Eq, Drop)]
pub enum PlaceFault {
    /// A number passes 2^127 - 1 in absolute value: the line of the statement of the first instruction with one.
    Coefficient(u32),
    /// There is no memory.
    Memory,
}

impl From<NoMemory> for PlaceFault {
    ghost use Rattle.std.specs.Prelude.{◌≡◌};
    ghost use Rattle.placement.specs.declared.fault.PlaceFault.TheVariants.{Memory};

    ghost from_gives = { λ _ fault. fault ≡ Memory };

    fn from(_: NoMemory) -> Self {
        PlaceFault::Memory
    }
}

impl<T: Drop> From<AllocFailed<T>> for PlaceFault {
    ghost use Rattle.std.specs.Prelude.{◌≡◌};
    ghost use Rattle.placement.specs.declared.fault.PlaceFault.TheVariants.{Memory};

    ghost from_gives = { λ _ fault. fault ≡ Memory };

    fn from(_: AllocFailed<T>) -> Self {
        PlaceFault::Memory
    }
}
