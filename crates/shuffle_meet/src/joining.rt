//! Joins.
ghost use Rattle.std.specs.Prelude.{◌≡◌, ◌+◌, ◌≤◌, [], IfOk, flat_map};
ghost use Rattle.std.specs.List.{AllByRecursion};
ghost use Rattle.coordinate_model.specs.Sequences.{IsRank};
ghost use Rattle.coordinate_model.specs.Starts.{join_product};
ghost use Rattle.bracket_terms.specs.Joins.{points_of};
ghost use Rattle.bracket_poly.specs.Answers.{AnswersLimit};
ghost use Rattle.bracket_poly.specs.Values.{entry_of, value_of};
ghost use Rattle.shuffle_meet.specs.Seen.{seen};
ghost use Rattle.shuffle_meet.specs.Stops.{first_stop, tracked_entries};
ghost use Rattle.shuffle_meet.specs.Adding.{Adds};
ghost use Rattle.shuffle_meet.specs.Objects.{AreJoined, ProductsFit, PairFits, joined, IsJoin, AddsSizes, rows_of_join};

use crate::points::signed_row;
use crate::starts::Starts;
use bracket_poly::{Poly, PolyError, Value};
use bracket_terms::{Extensor, join_points};
use std::alloc::Global;

/// The join of two values: for each two of their extensors that share no point, the extensor of the points of both,
/// which for `D` points is their bracket (Sturmfels, Algorithms in Invariant Theory, section 3.3).
///
/// The products are those of each entry of `a` in order with each of `b` in order. `Coefficient` and `Keys` come
/// exactly where the first of them that passes a limit passes this one.
pub fn join<const D: usize>(
    alloc: Global,
    a: &Value<D>,
    b: &Value<D>,
) -> Result<Value<D>, PolyError>
    requires rank { IsRank D }
    requires steps { AreJoined D a.now.step b.now.step }
    requires exponents { ProductsFit a.now b.now }
    ensures limits { AnswersLimit result (first_stop [] (joined a.now b.now)) }
    ensures entries { IfOk result (λ value. seen value.entries ≡ tracked_entries (joined a.now b.now)) }
    ensures step { IfOk result (λ value. value.step ≡ a.now.step + b.now.step) }
    ensures coordinates { IfOk result (IsJoin a.now b.now) }
    ensures sizes { IfOk result (AddsSizes (rows_of_join a.now b.now) a.now b.now) }
{
    let mut starts = Starts::new(alloc, a.step + b.step);
    for left in a.entries.items() {
        add_joins(&mut starts, left, b.entries.items())?;
    }
    starts.finish()
}

/// Adds the joins of one entry and each of others.
fn add_joins<const D: usize>(
    starts: &mut Starts<D>,
    left: &(Extensor, Poly<D>),
    rights: &[(Extensor, Poly<D>)],
) -> Result<(), PolyError>
    requires few { starts.old.step ≤ D }
    requires sizes { AllByRecursion (λ right. left.now.0.size + right.0.size ≡ starts.old.step) rights.now }
    requires exponents { AllByRecursion (PairFits left.now) rights.now }
    ensures step { starts.new.step ≡ starts.old.step }
    ensures added { Adds starts.old (flat_map (join_product D (entry_of left.now)) (value_of rights.now)) result starts.new }
{
    for right in rights {
        add_join(starts, left, right)?;
    }
    Ok(())
}

/// Adds the join of two entries.
fn add_join<const D: usize>(
    starts: &mut Starts<D>,
    left: &(Extensor, Poly<D>),
    right: &(Extensor, Poly<D>),
) -> Result<(), PolyError>
    requires few { starts.old.step ≤ D }
    requires sizes { left.now.0.size + right.now.0.size ≡ starts.old.step }
    requires exponents { PairFits left.now right.now }
    ensures step { starts.new.step ≡ starts.old.step }
    ensures added { Adds starts.old (join_product D (entry_of left.now) (entry_of right.now)) result starts.new }
{
    if (left.0.size + right.0.size) as usize == D {
        let Some((row, sign)) = signed_row(&left.0, &right.0) else {
            return Ok(());
        };
        starts.add(no_points(), &left.1, &right.1, Some(row), sign)
    } else {
        let Some((union, sign)) = join_points(left.0, right.0) else {
            return Ok(());
        };
        starts.add(union, &left.1, &right.1, None, sign)
    }
}

/// The extensor of no points, which stands for 1.
fn no_points() -> Extensor
    ensures size { result.size ≡ 0 }
    ensures points { points_of result ≡ [] }
{
    Extensor {
        size: 0,
        points: [0; 4],
    }
}
