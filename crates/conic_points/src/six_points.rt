//! Six-point polynomials.
ghost use Rattle.std.specs.Prelude.{◌≡◌, [], ◌∷◌, IfOk, length};
ghost use Rattle.std.specs.List.{AllByRecursion};
ghost use Rattle.bracket_poly.specs.Answers.{Answers};
ghost use Rattle.bracket_poly.specs.Products.{HasDegree};
ghost use Rattle.bracket_poly.specs.Values.{value_of};
ghost use Rattle.conic_points.specs.Makings.{made_behind, made_bracket, made_difference, made_four, made_of, made_products};
ghost use Rattle.conic_points.specs.Points.{IsPoint, IsSmall, values_of, IsSixPoint};
ghost use Rattle.conic_points.specs.Sizes.{DoublesSizes};

use crate::brackets::of_three;
use bracket_poly::{Poly, PolyError, Value};
use std::alloc::Global;

/// The six-point polynomial `[123][145][246][356] - [124][135][236][456]` of six points of the plane, which is zero where
/// they are on a conic (Sturmfels, Algorithms in Invariant Theory, section 3.1).
///
/// The four brackets of the first product are made in order and multiplied from left to right, then those of the second;
/// then the terms of the first product are added in ascending order, and the negated ones of the second. `Coefficient` and
/// `Keys` come exactly where the first addition on this way that passes a limit passes this one.
pub fn conic<const D: usize>(alloc: Global, six: &[Value<D>]) -> Result<Poly<D>, PolyError>
    requires rank { D ≡ 3 }
    requires six { length six.now ≡ 6 }
    requires points { AllByRecursion (λ value. value.step ≡ 1) six.now }
    requires exponents { AllByRecursion (λ value. AllByRecursion IsSmall value.entries) six.now }
    ensures made { Answers (λ poly. poly.tracked) result (made_of (values_of six.now)) }
    ensures value { IfOk result (λ poly. IsSixPoint (values_of six.now) poly.tracked.sum) }
    ensures sizes { IfOk result (λ poly. DoublesSizes six.now poly.tracked) }
{
    six_point(alloc, &six[0], &six[1], &six[2], &six[3], &six[4], &six[5])
}

/// The six-point polynomial of these points.
fn six_point<const D: usize>(
    alloc: Global,
    p1: &Value<D>,
    p2: &Value<D>,
    p3: &Value<D>,
    p4: &Value<D>,
    p5: &Value<D>,
    p6: &Value<D>,
) -> Result<Poly<D>, PolyError>
    requires rank { D ≡ 3 }
    requires points { AllByRecursion IsPoint (p1.now ∷ p2.now ∷ p3.now ∷ p4.now ∷ p5.now ∷ p6.now ∷ []) }
    ensures { Answers (λ poly. poly.tracked) result (made_of (values_of (p1.now ∷ p2.now ∷ p3.now ∷ p4.now ∷ p5.now ∷ p6.now ∷ []))) }
{
    let first = four_brackets(alloc, p1, p2, p3, p4, p5, p6)?;
    let second = four_brackets(alloc, p1, p2, p4, p3, p5, p6)?;
    difference(alloc, &first, &second)
}

/// The one less the other, in a new polynomial.
fn difference<const D: usize>(
    alloc: Global,
    first: &Poly<D>,
    second: &Poly<D>,
) -> Result<Poly<D>, PolyError>
    requires rank { D ≡ 3 }
    ensures { Answers (λ poly. poly.tracked) result (made_difference first.now.tracked.sum second.now.tracked.sum) }
{
    let mut start = Poly::new(alloc);
    start.add_terms(first)?;
    start.subtract_terms(second)?;
    Ok(start)
}

/// The product `[123][145][246][356]` of these points.
fn four_brackets<const D: usize>(
    alloc: Global,
    p1: &Value<D>,
    p2: &Value<D>,
    p3: &Value<D>,
    p4: &Value<D>,
    p5: &Value<D>,
    p6: &Value<D>,
) -> Result<Poly<D>, PolyError>
    requires rank { D ≡ 3 }
    requires points { AllByRecursion IsPoint (p1.now ∷ p2.now ∷ p3.now ∷ p4.now ∷ p5.now ∷ p6.now ∷ []) }
    ensures { Answers (λ poly. poly.tracked) result (made_four (value_of p1.now.entries) (value_of p2.now.entries) (value_of p3.now.entries) (value_of p4.now.entries) (value_of p5.now.entries) (value_of p6.now.entries)) }
{
    let first = bracket(alloc, p1, p2, p3)?;
    let second = bracket(alloc, p1, p4, p5)?;
    times_two(alloc, &first, &second, p2, p3, p4, p5, p6)
}

/// The product of both brackets and of `[246][356]`, which are made first.
fn times_two<const D: usize>(
    alloc: Global,
    first: &Poly<D>,
    second: &Poly<D>,
    p2: &Value<D>,
    p3: &Value<D>,
    p4: &Value<D>,
    p5: &Value<D>,
    p6: &Value<D>,
) -> Result<Poly<D>, PolyError>
    requires rank { D ≡ 3 }
    requires first { HasDegree 3000 first.now.tracked.sum }
    requires second { HasDegree 3000 second.now.tracked.sum }
    requires points { AllByRecursion IsPoint (p2.now ∷ p3.now ∷ p4.now ∷ p5.now ∷ p6.now ∷ []) }
    ensures { Answers (λ poly. poly.tracked) result (made_behind first.now.tracked.sum second.now.tracked.sum (value_of p2.now.entries) (value_of p3.now.entries) (value_of p4.now.entries) (value_of p5.now.entries) (value_of p6.now.entries)) }
{
    let third = bracket(alloc, p2, p4, p6)?;
    let fourth = bracket(alloc, p3, p5, p6)?;
    product(first, second, &third, &fourth)
}

/// The product of four brackets, from left to right.
fn product<const D: usize>(
    first: &Poly<D>,
    second: &Poly<D>,
    third: &Poly<D>,
    fourth: &Poly<D>,
) -> Result<Poly<D>, PolyError>
    requires rank { D ≡ 3 }
    requires first { HasDegree 3000 first.now.tracked.sum }
    requires second { HasDegree 3000 second.now.tracked.sum }
    requires third { HasDegree 3000 third.now.tracked.sum }
    requires fourth { HasDegree 3000 fourth.now.tracked.sum }
    ensures { Answers (λ poly. poly.tracked) result (made_products first.now.tracked.sum second.now.tracked.sum third.now.tracked.sum fourth.now.tracked.sum) }
{
    let two = first.times(second)?;
    let three = two.times(third)?;
    three.times(fourth)
}

/// The bracket of three points alone.
fn bracket<const D: usize>(
    alloc: Global,
    first: &Value<D>,
    second: &Value<D>,
    third: &Value<D>,
) -> Result<Poly<D>, PolyError>
    requires rank { D ≡ 3 }
    requires points { AllByRecursion IsPoint (first.now ∷ second.now ∷ third.now ∷ []) }
    ensures made { Answers (λ poly. poly.tracked) result (made_bracket [] (values_of (first.now ∷ second.now ∷ third.now ∷ [])) []) }
    ensures degree { IfOk result (λ poly. HasDegree 3000 poly.tracked.sum) }
{
    of_three(alloc, [0; D], 0, first, second, third)
}
