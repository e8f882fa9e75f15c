//! Brackets of points that are values.
ghost use Rattle.std.specs.Prelude.{◌≡◌, ◌≤◌, ◌+◌, ◌++◌, ◌<◌, ℕ, [], ◌∷◌, map, take, drop, length};
ghost use Rattle.std.specs.List.{AllByRecursion};
ghost use Rattle.coordinate_model.specs.Sequences.{IsRank};
ghost use Rattle.bracket_terms.specs.Joins.{points_of};
ghost use Rattle.bracket_poly.specs.Answers.{Answers};
ghost use Rattle.bracket_poly.specs.Makings.{each_item};
ghost use Rattle.bracket_poly.specs.Products.{ExponentsFit, HasDegree};
ghost use Rattle.bracket_poly.specs.Values.{value_of};
ghost use Rattle.conic_points.specs.Makings.{adding_bracket, adding_entry, made_bracket};
ghost use Rattle.conic_points.specs.Points.{IsPoint, values_of};

use bracket_poly::{Poly, PolyError, Value};
use bracket_terms::{Extensor, Signed, sort};
use std::alloc::Global;

/// The bracket of two or three points, which stand from this place on in the row of points: the sum over an entry of each,
/// of the product of their polynomials times the bracket of the row with their points (Sturmfels, Algorithms in Invariant
/// Theory, section 3.3).
pub fn bracket<const D: usize>(
    alloc: Global,
    row: [u8; D],
    place: usize,
    values: &[&Value<D>],
) -> Result<Poly<D>, PolyError>
    requires rank { IsRank D }
    requires two { 2 ≤ length values.now }
    requires three { length values.now ≤ 3 }
    requires room { place + length values.now ≤ D }
    requires points { AllByRecursion IsPoint (map (λ v. v.now) values.now) }
    ensures { Answers (λ poly. poly.tracked) result (made_bracket (take place row.entry) (values_of (map (λ v. v.now) values.now)) (drop (place + length values.now) row.entry)) }
{
    if values.len() == 2 {
        of_two(alloc, row, place, values[0], values[1])
    } else {
        of_three(alloc, row, place, values[0], values[1], values[2])
    }
}

/// The bracket of two points.
fn of_two<const D: usize>(
    alloc: Global,
    row: [u8; D],
    place: usize,
    first: &Value<D>,
    last: &Value<D>,
) -> Result<Poly<D>, PolyError>
    requires rank { IsRank D }
    requires room { place + 2 ≤ D }
    requires points { AllByRecursion IsPoint (first.now ∷ last.now ∷ []) }
    ensures { Answers (λ poly. poly.tracked) result (made_bracket (take place row.entry) (values_of (first.now ∷ last.now ∷ [])) (drop (place + 2) row.entry)) }
{
    let mut sum = Poly::new(alloc);
    for entry in first.entries.items() {
        let row = with_point(row, place, &entry.0);
        add_last(&mut sum, &entry.1, row, place + 1, last)?;
    }
    Ok(sum)
}

/// The bracket of three points.
pub(crate) fn of_three<const D: usize>(
    alloc: Global,
    row: [u8; D],
    place: usize,
    first: &Value<D>,
    second: &Value<D>,
    last: &Value<D>,
) -> Result<Poly<D>, PolyError>
    requires rank { IsRank D }
    requires room { place + 3 ≤ D }
    requires points { AllByRecursion IsPoint (first.now ∷ second.now ∷ last.now ∷ []) }
    ensures { Answers (λ poly. poly.tracked) result (made_bracket (take place row.entry) (values_of (first.now ∷ second.now ∷ last.now ∷ [])) (drop (place + 3) row.entry)) }
{
    let mut sum = Poly::new(alloc);
    for entry in first.entries.items() {
        let row = with_point(row, place, &entry.0);
        add_two(&mut sum, &entry.1, row, place + 1, second, last)?;
    }
    Ok(sum)
}

/// Adds `f` times what each entry of the value before the last makes with those of the last.
fn add_two<const D: usize>(
    sum: &mut Poly<D>,
    f: &Poly<D>,
    row: [u8; D],
    place: usize,
    value: &Value<D>,
    last: &Value<D>,
) -> Result<(), PolyError>
    requires rank { IsRank D }
    requires room { place + 2 ≤ D }
    requires degree { HasDegree 1000 f.now.tracked.sum }
    requires value { IsPoint value.now }
    requires last { IsPoint last.now }
    ensures { Answers (λ u. sum.new.tracked) result (each_item (adding_entry (drop (place + 2) row.entry) (value_of last.now.entries ∷ []) f.now.tracked.sum (take place row.entry)) sum.old.tracked (value_of value.now.entries)) }
{
    for entry in value.entries.items() {
        let row = with_point(row, place, &entry.0);
        let both = f.times(&entry.1)?;
        add_last(sum, &both, row, place + 1, last)?;
    }
    Ok(())
}

/// Adds `f` times what each entry of the last value makes.
fn add_last<const D: usize>(
    sum: &mut Poly<D>,
    f: &Poly<D>,
    row: [u8; D],
    place: usize,
    last: &Value<D>,
) -> Result<(), PolyError>
    requires rank { IsRank D }
    requires room { place + 1 ≤ D }
    requires degree { HasDegree 2000 f.now.tracked.sum }
    requires last { IsPoint last.now }
    ensures { Answers (λ u. sum.new.tracked) result (each_item (adding_entry (drop (place + 1) row.entry) [] f.now.tracked.sum (take place row.entry)) sum.old.tracked (value_of last.now.entries)) }
{
    for entry in last.entries.items() {
        let row = with_point(row, place, &entry.0);
        add_bracket(sum, f, &entry.1, row)?;
    }
    Ok(())
}

/// Adds the product of both polynomials times the bracket of the points.
fn add_bracket<const D: usize>(
    sum: &mut Poly<D>,
    f: &Poly<D>,
    g: &Poly<D>,
    points: [u8; D],
) -> Result<(), PolyError>
    requires rank { IsRank D }
    requires exponents { ExponentsFit f.now.tracked.sum g.now.tracked.sum }
    ensures { Answers (λ u. sum.new.tracked) result (adding_bracket f.now.tracked.sum g.now.tracked.sum points.entry sum.old.tracked) }
{
    match sort(points) {
        Signed::Zero => Ok(()),
        Signed::Plus(row) => sum.mul_add(f, g, Some(row), 1),
        Signed::Minus(row) => sum.mul_add(f, g, Some(row), -1),
    }
}

/// The row with the extensor's point at the place.
fn with_point<const D: usize>(row: [u8; D], place: usize, extensor: &Extensor) -> [u8; D]
    requires room { place < D }
    requires point { extensor.now.size ≡ 1 }
    ensures whole { result ≡ take place row.entry ++ points_of extensor.now ++ drop (place + 1) row.entry }
    ensures front { take (place + 1) result ≡ take place row.entry ++ points_of extensor.now }
    ensures behind { (n : ℕ) → place < n → drop n result ≡ drop n row.entry }
{
    let mut row = row;
    row[place] = extensor.points[0];
    row
}
