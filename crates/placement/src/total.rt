//! Single coordinates within the limit.
ghost use Rattle.std.specs.Prelude.{◌≡◌, IsTrue, Some, length, IfSome};
ghost use Rattle.std.specs.List.{list_all};
ghost use Rattle.coordinate_model.specs.Limited.{is_limited};
ghost use Rattle.placement.specs.Numbers.{brackets_of, combination_of, conic_of, has_term, total_of};

use crate::terms::Term;
use coordinate_model::{bracket_value, limited_product, limited_sum, signed};

/// The sum of the terms of two objects.
pub(crate) fn total(terms: &[Term], a: &[i128], b: &[i128]) -> Option<i128>
    requires { IsTrue (list_all (has_term a.now b.now) terms.now) }
    ensures { result ≡ total_of a.now b.now terms.now }
{
    let mut sum = 0;
    for term in terms {
        let product = limited_product(a[term.first as usize], b[term.second as usize])?;
        sum = limited_sum(sum, signed(term.is_odd, product))?;
    }
    Some(sum)
}

/// s * x + t * y.
pub(crate) fn combination(s: i128, t: i128, x: i128, y: i128) -> Option<i128>
    ensures { result ≡ combination_of s t (x, y) }
{
    let first = limited_product(s, x)?;
    let second = limited_product(t, y)?;
    limited_sum(first, second)
}

/// A point of the plane.
pub(crate) type Point = [i128; 3];

/// The product [p q r] [p s t] [q s u] [r t u].
fn four_brackets(p: Point, q: Point, r: Point, s: Point, t: Point, u: Point) -> Option<i128>
    ensures value { result ≡ brackets_of p q r s t u }
    ensures limited { IfSome result (λ product. IsTrue (is_limited product)) }
{
    let first = bracket_value(&[p, q, r])?;
    let second = bracket_value(&[p, s, t])?;
    let third = bracket_value(&[q, s, u])?;
    let fourth = bracket_value(&[r, t, u])?;
    let two = limited_product(first, second)?;
    let three = limited_product(two, third)?;
    limited_product(three, fourth)
}

/// The six-point polynomial.
pub(crate) fn six_points(
    p1: Point,
    p2: Point,
    p3: Point,
    p4: Point,
    p5: Point,
    p6: Point,
) -> Option<i128>
    ensures { result ≡ conic_of p1 p2 p3 p4 p5 p6 }
{
    let first = four_brackets(p1, p2, p3, p4, p5, p6)?;
    let second = four_brackets(p1, p2, p4, p3, p5, p6)?;
    limited_sum(first, signed(true, second))
}
