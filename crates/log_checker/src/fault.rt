//! Why a section is not accepted.
use bracket_poly::Key;
use cay_base::NoMemory;

/// What is wrong with a section. The first of these that holds is told.
#[derive(Drop)]
pub enum CheckKind<const D: usize> {
    /// A product of coefficients or a sum would pass 2^127 - 1 in absolute value.
    Coefficient,
    /// A new key would come after 2,097,152 met ones.
    Keys,
    /// The least key whose coefficients differ, the computed coefficient and the written one.
    Differs(Key<D>, i128, i128),
    /// The least key of the end that is not standard.
    NotStandard(Key<D>),
}

/// What is wrong with a section, and at which use, counted from 1. For what shows behind all uses it is their number.
#[derive(Drop)]
pub struct CheckFault<const D: usize> {
    pub use_number: u32,
    pub kind: CheckKind<D>,
}

/// Why a section is not accepted.
#[derive(Drop)]
pub enum SectionError<const D: usize> {
    Fault(CheckFault<D>),
    /// There is no memory.
    Memory,
}

impl<const D: usize> From<NoMemory> for SectionError<D> {
    ghost use Rattle.std.specs.Prelude.{◌≡◌};
    ghost use Rattle.log_checker.specs.declared.fault.SectionError.TheVariants.{Memory};

    ghost from_gives = { λ _ error. error ≡ Memory };

    fn from(_: NoMemory) -> Self {
        SectionError::Memory
    }
}
