//! Values: objects as sums of bracket polynomials times extensors.
ghost use Rattle.bracket_poly.specs.Values.{IsValue, value-prop};

use crate::poly::Poly;
use bracket_terms::{Extensor, Items};

/// An object of the Grassmann-Cayley algebra: the sum of its polynomials times their extensors, which have `step` points,
/// and none where `step` is the rank (Sturmfels, Algorithms in Invariant Theory, section 3.3).
#[derive(Drop)]
pub struct Value<const D: usize> {
    pub step: u8,
    /// Extensors ascend, and no polynomial is empty.
    pub entries: Items<(Extensor, Poly<D>)>,
    pub ghost formed: { IsValue D step entries } by { value-prop D step entries },
}
