//! The order of row lists.
ghost use Rattle.std.specs.Prelude.{◌≡◌};
ghost use Rattle.coordinate_model.specs.Sequences.{IsRank};
ghost use Rattle.coordinate_model.specs.Key.{rows_cmp};

use bracket_terms::Bracket;
use std::cmp::Ordering;

/// Compares two row lists lexicographically, a prefix first.
pub fn compare<const D: usize>(a: &[Bracket<D>], b: &[Bracket<D>]) -> Ordering
    requires { IsRank D }
    ensures { result ≡ rows_cmp a.now b.now }
{
    a.cmp(b)
}
