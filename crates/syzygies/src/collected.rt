//! Van der Waerden syzygies (Sturmfels, Algorithms in Invariant Theory, section 3.1).
ghost use Rattle.std.specs.Prelude.{◌≡◌, IfOk};
ghost use Rattle.coordinate_model.specs.Sums.{sum_value};
ghost use Rattle.coordinate_model.specs.Polynomial.{Polynomials};
ghost use Rattle.coordinate_model.specs.Key.{key_value};
ghost use Rattle.coordinate_model.specs.Syzygy.{syz, AreSizes};
ghost use Rattle.syzygies.specs.Terms.{terms_of};

use crate::collect::collect;
use crate::pair::PairTerm;
use crate::split_term::split_term;
use cay_base::NoMemory;
use split_tables::{split, split_count};
use std::alloc::Global;

/// The terms of the van der Waerden syzygy of three lists of points, which may repeat: the products of two brackets that
/// are not zero, each once, in ascending order. Their sum is zero for any vectors at the points.
pub fn syzygy<const D: usize>(
    alloc: Global,
    alpha: &[u8],
    beta: &[u8],
    gamma: &[u8],
) -> Result<Vec<PairTerm<D>>, NoMemory>
    requires { AreSizes D alpha.now beta.now gamma.now }
    ensures terms { IfOk result (λ pairs. terms_of pairs.items ≡ (syz alpha.now beta.now gamma.now).terms) }
    ensures value { IfOk result (λ pairs. sum_value Polynomials key_value (terms_of pairs.items) ≡ Polynomials.𝟘) }
{
    let mut terms = Vec::new(alloc);
    let (places, chosen) = (beta.len() as u8, alpha.len() as u8 + 1);
    for i in 0..split_count(places, chosen) {
        if let Some(term) = split_term(alpha, beta, gamma, split(places, chosen, i)) {
            collect(&mut terms, term)?;
        }
    }
    Ok(terms)
}
