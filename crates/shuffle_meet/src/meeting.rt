//! Meets.
ghost use Rattle.std.specs.Prelude.{◌≡◌, ◌+◌, ◌-◌, ◌≤◌, ◌<◌, [], ◌++◌, IfOk, flat_map, length};
ghost use Rattle.std.specs.List.{AllByRecursion};
ghost use Rattle.coordinate_model.specs.Sequences.{IsRank, at_places, sign_of};
ghost use Rattle.coordinate_model.specs.Starts.{meet_product};
ghost use Rattle.bracket_terms.specs.Joins.{points_of};
ghost use Rattle.bracket_poly.specs.Answers.{AnswersLimit};
ghost use Rattle.bracket_poly.specs.Values.{entry_of, value_of};
ghost use Rattle.split_tables.specs.Masks.{places_of};
ghost use Rattle.shuffle_meet.specs.Seen.{seen};
ghost use Rattle.shuffle_meet.specs.Stops.{first_stop, tracked_entries};
ghost use Rattle.shuffle_meet.specs.Adding.{Adds};
ghost use Rattle.shuffle_meet.specs.Objects.{AreMet, ProductsFit, PairFits, meets_with, met, IsMeet, AddsSizes};

use crate::points::{part, signed_row};
use crate::starts::Starts;
use bracket_poly::{Poly, PolyError, Value};
use bracket_terms::Extensor;
use split_tables::{SignedSplit, split, split_count};
use std::alloc::Global;

/// The meet of two values, by the shuffle product of their extensors (Sturmfels, Algorithms in Invariant Theory,
/// section 3.3).
///
/// The products are those of each entry of `a` in order with each of `b` in order, and for these two of each split of
/// the places of the first extensor in the order of `split`. `Coefficient` and `Keys` come exactly where the first of
/// them that passes a limit passes this one.
pub fn meet<const D: usize>(
    alloc: Global,
    a: &Value<D>,
    b: &Value<D>,
) -> Result<Value<D>, PolyError>
    requires rank { IsRank D }
    requires steps { AreMet D a.now.step b.now.step }
    requires exponents { ProductsFit a.now b.now }
    ensures limits { AnswersLimit result (first_stop [] (met a.now b.now)) }
    ensures entries { IfOk result (λ value. seen value.entries ≡ tracked_entries (met a.now b.now)) }
    ensures step { IfOk result (λ value. value.step ≡ a.now.step + b.now.step - D) }
    ensures coordinates { IfOk result (IsMeet a.now b.now) }
    ensures sizes { IfOk result (AddsSizes 1 a.now b.now) }
{
    let mut starts = Starts::new(alloc, a.step + b.step - D as u8);
    for left in a.entries.items() {
        add_meets(&mut starts, left, b.entries.items())?;
    }
    starts.finish()
}

/// Adds the meets of one entry and each of others.
fn add_meets<const D: usize>(
    starts: &mut Starts<D>,
    left: &(Extensor, Poly<D>),
    rights: &[(Extensor, Poly<D>)],
) -> Result<(), PolyError>
    requires few { starts.old.step < D }
    requires sizes { AllByRecursion (λ right. (right.0.size ≤ D) × (left.now.0.size + right.0.size ≡ D + starts.old.step)) rights.now }
    requires exponents { AllByRecursion (PairFits left.now) rights.now }
    ensures step { starts.new.step ≡ starts.old.step }
    ensures added { Adds starts.old (flat_map (meets_with D (entry_of left.now)) (value_of rights.now)) result starts.new }
{
    for right in rights {
        add_meet(starts, left, right)?;
    }
    Ok(())
}

/// Adds the meet of two entries.
fn add_meet<const D: usize>(
    starts: &mut Starts<D>,
    left: &(Extensor, Poly<D>),
    right: &(Extensor, Poly<D>),
) -> Result<(), PolyError>
    requires few { starts.old.step < D }
    requires second { right.now.0.size ≤ D }
    requires sizes { left.now.0.size + right.now.0.size ≡ D + starts.old.step }
    requires exponents { PairFits left.now right.now }
    ensures step { starts.new.step ≡ starts.old.step }
    ensures added { Adds starts.old (meets_with D (entry_of left.now) (entry_of right.now)) result starts.new }
{
    let chosen = D as u8 - right.0.size;
    for i in 0..split_count(left.0.size, chosen) {
        add_part(starts, left, right, split(left.0.size, chosen, i))?;
    }
    Ok(())
}

/// Adds the part of the meet at one split of the places of the first extensor.
fn add_part<const D: usize>(
    starts: &mut Starts<D>,
    left: &(Extensor, Poly<D>),
    right: &(Extensor, Poly<D>),
    split: SignedSplit,
) -> Result<(), PolyError>
    requires few { starts.old.step < D }
    requires chosen { length (at_places (points_of left.now.0) (places_of split.chosen)) + right.now.0.size ≡ D }
    requires rest { length (at_places (points_of left.now.0) (places_of split.rest)) ≡ starts.old.step }
    requires sign { split.sign ≡ sign_of (places_of split.chosen ++ places_of split.rest) }
    requires exponents { PairFits left.now right.now }
    ensures step { starts.new.step ≡ starts.old.step }
    ensures added { Adds starts.old (meet_product (entry_of left.now) (entry_of right.now) (places_of split.chosen, places_of split.rest)) result starts.new }
{
    let Some((row, sign)) = signed_row(&part(&left.0, split.chosen), &right.0) else {
        return Ok(());
    };
    starts.add(
        part(&left.0, split.rest),
        &left.1,
        &right.1,
        Some(row),
        split.sign * sign,
    )
}
