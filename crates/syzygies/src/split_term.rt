//! The term of a van der Waerden sum at one split of the places.
ghost use Rattle.std.specs.Prelude.{◌≡◌, ◌+◌, ◌*ℤ◌, ◌++◌, true, false, length, IfNone, IfSome, [], ◌∷◌};
ghost use Rattle.coordinate_model.specs.Sequences.{IsRank, repeats};
ghost use Rattle.std.specs.Ordering.{is_gt};
ghost use Rattle.coordinate_model.specs.Words.{ordered};
ghost use Rattle.coordinate_model.specs.Key.{row_cmp};
ghost use Rattle.coordinate_model.specs.BracketPolynomial.{KeySums};
ghost use Rattle.coordinate_model.specs.Syzygy.{AreSizes};
ghost use Rattle.syzygies.specs.SplitTerms.{IsSign, IsSignedRow, IsPlacesOf, term_at, IsOneTerm};

use crate::pair::PairTerm;
use crate::points::{joined, picked};
use bracket_terms::{Bracket, Signed, sort};
use split_tables::SignedSplit;

/// The sign of the split times the product of the brackets `[alpha rest]` and `[chosen gamma]`, where `rest` and `chosen`
/// are the points of `beta` at the places of the split; none where that is zero.
pub(crate) fn split_term<const D: usize>(
    alpha: &[u8],
    beta: &[u8],
    gamma: &[u8],
    split: SignedSplit,
) -> Option<PairTerm<D>>
    requires sizes { AreSizes D alpha.now beta.now gamma.now }
    requires split { IsPlacesOf (length alpha.now + 1) (length beta.now) split }
    ensures zero { IfNone result (term_at alpha.now beta.now gamma.now split ≡ KeySums.𝟘) }
    ensures term { IfSome result (IsOneTerm (term_at alpha.now beta.now gamma.now split)) }
{
    let (rest, chosen) = (picked(beta, split.rest), picked(beta, split.chosen));
    let Some((first, first_sign)) = signed_row::<D>(alpha, &rest) else {
        return None;
    };
    let Some((second, second_sign)) = signed_row::<D>(&chosen, gamma) else {
        return None;
    };
    let sign_count = times(split.sign, times(first_sign, second_sign));
    let (low, high) = in_order(first, second);
    Some(PairTerm {
        sign_count,
        low,
        high,
    })
}

/// The bracket of the points of both lists, with its sign; none where a point comes twice.
fn signed_row<const D: usize>(first: &[u8], second: &[u8]) -> Option<(Bracket<D>, i8)>
    requires rank { IsRank D }
    requires count { length first.now + length second.now ≡ D }
    ensures none { IfNone result (repeats (first.now ++ second.now) ≡ true) }
    ensures some { IfSome result (λ found. IsSignedRow (first.now ++ second.now) found.0 found.1) }
{
    match sort(joined(first, second)) {
        Signed::Zero => None,
        Signed::Plus(bracket) => Some((bracket, 1)),
        Signed::Minus(bracket) => Some((bracket, -1)),
    }
}

/// The product of two signs.
fn times(a: i8, b: i8) -> i8
    requires a { IsSign a }
    requires b { IsSign b }
    ensures product { result ≡ a *ℤ b }
    ensures sign { IsSign result }
{
    a * b
}

/// Both brackets in ascending order.
fn in_order<const D: usize>(first: Bracket<D>, second: Bracket<D>) -> (Bracket<D>, Bracket<D>)
    ensures rows { result.0 ∷ result.1 ∷ [] ≡ ordered row_cmp (first.entry ∷ second.entry ∷ []) }
    ensures ascending { is_gt (row_cmp result.0 result.1) ≡ false }
{
    if first.cmp(&second).is_gt() {
        (second, first)
    } else {
        (first, second)
    }
}
