//! Terms of a syzygy: products of two brackets.
ghost use Rattle.std.specs.Prelude.{◌≡◌, ◌≢◌, ℤ, pos, false};
ghost use Rattle.std.specs.Ordering.{is_gt};
ghost use Rattle.coordinate_model.specs.Key.{row_cmp};

use bracket_terms::Bracket;

/// The product of two brackets, of which the first is not the greater one, and how often it stands in the syzygy.
#[derive(Clone, Copy, Debug)]
pub struct PairTerm<const D: usize> {
    pub sign_count: i8,
    pub low: Bracket<D>,
    pub high: Bracket<D>,
    pub ghost not_zero: { sign_count ≢ pos 0 },
    pub ghost ascending: { is_gt (row_cmp low high) ≡ false },
}
