//! The syzygy that rewrites a tableau where it is not standard.
ghost use Rattle.std.specs.Prelude.{◌≡◌, ◌+◌, pos};
ghost use Rattle.tableau_order.specs.Standard.{IsFirstViolation, row_at};
ghost use Rattle.tableau_order.specs.Tableaux.{IsTableau};
ghost use Rattle.syzygies.specs.Places.{ArePartsAt, HasCoefficient};

use crate::points::joined;
use bracket_terms::Bracket;
use tableau_order::Place;

/// The three lists of points of a van der Waerden syzygy, and the coefficient of the product that it rewrites. Places that
/// are not used hold 0.
#[derive(Clone, Copy, Debug, PartialEq, Eq)]
pub struct Parts {
    pub alpha: [u8; 4],
    pub alpha_len: u8,
    pub beta: [u8; 5],
    pub gamma: [u8; 4],
    pub gamma_len: u8,
    pub sign: i8,
}

/// The syzygy of the rows `a` and `b` at the first violation, where the column s is the first with a(s) > b(s): alpha is
/// a(1) .. a(s-1), beta is b(1) .. b(s) and a(s) .. a(D), and gamma is b(s+1) .. b(D).
pub fn at_place<const D: usize>(rows: &[Bracket<D>], place: Place) -> Parts
    requires tableau { IsTableau D rows.now }
    requires place { IsFirstViolation D rows.now place.row place.column }
    ensures parts { ArePartsAt place.column (row_at rows.now place.row) (row_at rows.now (place.row + 1)) result }
    ensures sign { HasCoefficient place.column (row_at rows.now place.row) (row_at rows.now (place.row + 1))
        result.sign }
    ensures one { result.sign ≡ pos 1 }
{
    let (low, high) = (rows[place.row].points(), rows[place.row + 1].points());
    let (low, high, column) = (&low[..], &high[..], place.column as usize);
    Parts {
        alpha: joined(&low[..column], &[]),
        alpha_len: place.column,
        beta: joined(&high[..=column], &low[column..]),
        gamma: joined(&high[column + 1..], &[]),
        gamma_len: (D - 1 - column) as u8,
        sign: 1,
    }
}
