//! Standard tableaux: their rows ascend, and every column rises weakly (Sturmfels, Algorithms in Invariant Theory,
//! section 3.1).
ghost use Rattle.std.specs.Prelude.{◌≡◌, ◌↔◌, IsTrue, IsNone, IfNone, IfSome};
ghost use Rattle.coordinate_model.specs.Sequences.{IsRank};
ghost use Rattle.coordinate_model.specs.Key.{IsRow};
ghost use Rattle.tableau_order.specs.Standard.{IsStandard, IsFirstFall, IsFirstViolation, Rises};

use crate::place::Place;
use bracket_terms::Bracket;

/// The first row with a column in which it is greater than the next row, and the first such column.
pub fn violation<const D: usize>(rows: &[Bracket<D>]) -> Option<Place>
    requires { IsRank D }
    ensures standard { IsNone result ↔ IsStandard D rows.now }
    ensures first { IfSome result (λ place. IsFirstViolation D rows.now place.row place.column) }
{
    for row in 1..rows.len() {
        if let Some(column) = first_fall(&rows[row - 1], &rows[row]) {
            return Some(Place {
                row: row - 1,
                column,
            });
        }
    }
    None
}

/// Whether the tableau of these rows is standard.
pub fn is_standard<const D: usize>(rows: &[Bracket<D>]) -> bool
    requires { IsRank D }
    ensures { IsTrue result ↔ IsStandard D rows.now }
{
    violation(rows).is_none()
}

/// The first column in which `row` is greater than `next`.
fn first_fall<const D: usize>(row: &Bracket<D>, next: &Bracket<D>) -> Option<u8>
    requires { IsRank D }
    ensures rows { IsRow D row.now × IsRow D next.now }
    ensures none { IfNone result (Rises D row.now next.now) }
    ensures first { IfSome result (IsFirstFall D row.now next.now) }
{
    let (low, high) = (row.points(), next.points());
    for column in 0..D {
        if high[column] < low[column] {
            return Some(column as u8);
        }
    }
    None
}
