//! Sorting the points of a bracket.

ghost use Rattle.std.specs.Prelude.{◌≡◌, ◌↔◌, IsTrue};
ghost use Rattle.coordinate_model.specs.Sequences.{IsRank, repeats};
ghost use Rattle.coordinate_model.specs.Polynomial.{br};
ghost use Rattle.bracket_terms.specs.Signed.{sorted_with_sign, value_of};

use crate::bracket::Bracket;
use crate::sequence::{is_increasing, is_odd};

/// A bracket of a sequence of points: zero where a point comes twice, else plus or minus the bracket of its points in
/// ascending order.
#[derive(Clone, Copy, Debug, PartialEq, Eq)]
pub enum Signed<const D: usize> {
    Zero,
    Plus(Bracket<D>),
    Minus(Bracket<D>),
}

/// The bracket of the points, which may come in any order and more than once. A bracket changes its sign where two
/// entries are exchanged (Sturmfels, Algorithms in Invariant Theory, section 3.1).
pub fn sort<const D: usize>(points: [u8; D]) -> Signed<D>
    requires { IsRank D }
    ensures zero { (result ≡ Signed.Zero) ↔ IsTrue (repeats points.entry) }
    ensures sorted { result ≡ sorted_with_sign points.entry }
    ensures value { value_of result ≡ br points.entry }
{
    let mut ascending = points;
    ascending.sort_unstable();
    if !is_increasing(&ascending) {
        Signed::Zero
    } else if is_odd(&points) {
        Signed::Minus(Bracket::of(ascending))
    } else {
        Signed::Plus(Bracket::of(ascending))
    }
}
