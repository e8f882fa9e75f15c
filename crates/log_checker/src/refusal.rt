//! Why a proof is not accepted.
use crate::fault::CheckFault;
use bracket_poly::Key;
use cay_base::NoMemory;
use std::alloc::AllocFailed;

/// Why a proof is not accepted. Objects and sections are counted from 1, the sections over the whole proof.
#[derive(Drop)]
pub enum ProofRefusal<const D: usize> {
    /// The scalars of the object are not those of its starts.
    Scalars(u32),
    /// Making the starts of the object passes the limit of a coefficient.
    ObjectCoefficient(u32),
    /// Making the starts of the object passes the limit of met keys.
    ObjectKeys(u32),
    /// The start of the section is not the computed one: the least key that differs, and both coefficients.
    Start {
        section: u32,
        key: Key<D>,
        computed: i128,
        written: i128,
    },
    /// The section of this number is not accepted.
    Section(u32, CheckFault<D>),
    /// There is no memory.
    Memory,
}

impl<const D: usize> From<NoMemory> for ProofRefusal<D> {
    ghost use Rattle.std.specs.Prelude.{◌≡◌};
    ghost use Rattle.log_checker.specs.declared.refusal.ProofRefusal.TheVariants.{Memory};

    ghost from_gives = { λ _ error. error ≡ Memory };

    fn from(_: NoMemory) -> Self {
        ProofRefusal::Memory
    }
}

impl<T: Drop, const D: usize> From<AllocFailed<T>> for ProofRefusal<D> {
    ghost use Rattle.std.specs.Prelude.{◌≡◌};
    ghost use Rattle.log_checker.specs.declared.refusal.ProofRefusal.TheVariants.{Memory};

    ghost from_gives = { λ _ error. error ≡ Memory };

    fn from(_: AllocFailed<T>) -> Self {
        ProofRefusal::Memory
    }
}
