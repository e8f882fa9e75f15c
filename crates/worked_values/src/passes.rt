//! Passes of contraction.
ghost use Rattle.coordinate_model.specs.Sequences.{IsRank};

use crate::failure::Failure;
use crate::printing::{put_poly, put_uses};
use crate::reading::poly;
use crate::turns::put_stop;
use contraction::{ContractError, contract};
use std::alloc::Global;

/// What passes of contraction make of a polynomial.
pub fn show_contract<const D: usize>(
    alloc: Global,
    out: &mut String,
    words: &str,
) -> Result<(), Failure>
    requires { IsRank D }
{
    match contract(alloc, poly::<D>(alloc, words)?) {
        Ok(end) => {
            put_poly(out, &end.poly)?;
            Ok(put_uses(out, end.uses.items())?)
        }
        Err(ContractError::Coefficient(part)) => put_stop(out, "coefficient", &part),
        Err(ContractError::Keys(part)) => put_stop(out, "keys", &part),
        Err(ContractError::Memory) => Err(Failure::Memory),
    }
}
