//! Joins, meets, points by parameters, brackets and six-point polynomials of free points that have a weight.
ghost use Rattle.std.specs.Prelude.{◌≡◌, ◌+◌, ◌<◌, ◌≤◌, ◌≢◌, pos, T, IfOk, [], ◌∷◌, length};
ghost use Rattle.std.specs.List.{AllByRecursion};
ghost use Rattle.coordinate_model.specs.Sequences.{IsRank};
ghost use Rattle.bracket_terms.specs.Joins.{points_of};
ghost use Rattle.bracket_poly.specs.Tracked.{fits};
ghost use Rattle.conic_points.specs.Points.{IsPoint, IsSmall};
ghost use Rattle.worked_values.specs.Objects.{IsNumber, IsScaled};

use crate::failure::Failure;
use crate::printing::{put_poly, put_value};
use crate::reading::{coefficient, number, pair, points};
use bracket_poly::{Key, Poly, Value};
use bracket_terms::{Extensor, Items, Params};
use conic_points::{bracket, conic};
use shuffle_meet::{join, meet, on};
use std::alloc::Global;
use tableau_order::Tableau;

/// The whole number as a polynomial.
fn constant<const D: usize>(alloc: Global, c: i128) -> Result<Poly<D>, Failure>
    requires rank { IsRank D }
    requires not_zero { c ≢ pos 0 }
    requires small { T (fits c) }
    ensures { IfOk result IsNumber }
{
    let tableau = Tableau::from_rows(alloc, &[])?;
    let params = Params::one();
    let mut number = Poly::new(alloc);
    number.add(Key { params, tableau }, c)?;
    Ok(number)
}

/// The extensor of one point.
fn of_point(i: u8) -> Extensor
    ensures size { result.size ≡ 1 }
    ensures points { points_of result ≡ i ∷ [] }
{
    Extensor {
        size: 1,
        points: [i, 0, 0, 0],
    }
}

/// A free point with this weight.
fn point<const D: usize>(alloc: Global, i: u8, c: i128) -> Result<Value<D>, Failure>
    requires rank { IsRank D }
    requires not_zero { c ≢ pos 0 }
    requires small { T (fits c) }
    ensures scaled { IfOk result IsScaled }
    ensures of_step { IfOk result (λ value. value.step ≡ 1) }
    ensures small { IfOk result (λ value. AllByRecursion IsSmall value.entries) }
    ensures point { IfOk result IsPoint }
{
    let extensor = of_point(i);
    let number = constant(alloc, c)?;
    let mut entries = Vec::new(alloc);
    entries.push((extensor, number))?;
    Ok(Value {
        step: 1,
        entries: Items::of(entries),
    })
}

/// The join of an object and a free point, which is no bracket.
fn extended<const D: usize>(alloc: Global, value: &Value<D>, i: u8) -> Result<Value<D>, Failure>
    requires rank { IsRank D }
    requires scaled { IsScaled value.now }
    ensures { IfOk result IsScaled }
{
    if value.step as usize + 1 >= D {
        return Err(Failure::Line);
    }
    let last = point::<D>(alloc, i, 1)?;
    joined(alloc, value, &last)
}

/// The join of two objects, which is no bracket.
fn joined<const D: usize>(alloc: Global, a: &Value<D>, b: &Value<D>) -> Result<Value<D>, Failure>
    requires rank { IsRank D }
    requires first { IsScaled a.now }
    requires second { IsScaled b.now }
    requires few { a.now.step + b.now.step < D }
    ensures { IfOk result IsScaled }
{
    Ok(join(alloc, a, b)?)
}

/// The join of the points of a word, of which the first has this weight.
fn object<const D: usize>(alloc: Global, word: &str, c: i128) -> Result<Value<D>, Failure>
    requires rank { IsRank D }
    requires not_zero { c ≢ pos 0 }
    requires small { T (fits c) }
    ensures { IfOk result IsScaled }
{
    let mut points = word.bytes();
    let Some(first) = points.next() else {
        return Err(Failure::Line);
    };
    let mut object = point::<D>(alloc, first, c)?;
    for i in points {
        object = extended(alloc, &object, i)?;
    }
    Ok(object)
}

/// Two objects with the weight that stands behind them.
fn objects<const D: usize>(alloc: Global, words: &str) -> Result<(Value<D>, Value<D>), Failure>
    requires { IsRank D }
    ensures first { IfOk result (λ pair. IsScaled pair.0) }
    ensures second { IfOk result (λ pair. IsScaled pair.1) }
{
    let (a, rest) = pair(words, ' ')?;
    let (b, weight) = pair(rest, ' ')?;
    let c = coefficient(weight)?;
    Ok((object(alloc, a, c)?, object(alloc, b, c)?))
}

/// Writes the join of two objects.
fn put_join<const D: usize>(
    alloc: Global,
    out: &mut String,
    a: &Value<D>,
    b: &Value<D>,
) -> Result<(), Failure>
    requires rank { IsRank D }
    requires first { IsScaled a.now }
    requires second { IsScaled b.now }
    requires few { a.now.step + b.now.step ≤ D }
{
    let joined = join(alloc, a, b)?;
    Ok(put_value(out, &joined)?)
}

/// The join of two objects.
pub fn show_join<const D: usize>(
    alloc: Global,
    out: &mut String,
    words: &str,
) -> Result<(), Failure>
    requires { IsRank D }
{
    let (a, b) = objects::<D>(alloc, words)?;
    if a.step as usize + b.step as usize > D {
        return Err(Failure::Line);
    }
    put_join(alloc, out, &a, &b)
}

/// Writes the meet of two objects.
fn put_meet<const D: usize>(
    alloc: Global,
    out: &mut String,
    a: &Value<D>,
    b: &Value<D>,
) -> Result<(), Failure>
    requires rank { IsRank D }
    requires first { IsScaled a.now }
    requires second { IsScaled b.now }
    requires many { D ≤ a.now.step + b.now.step }
{
    let met = meet(alloc, a, b)?;
    Ok(put_value(out, &met)?)
}

/// The meet of two objects.
pub fn show_meet<const D: usize>(
    alloc: Global,
    out: &mut String,
    words: &str,
) -> Result<(), Failure>
    requires { IsRank D }
{
    let (a, b) = objects::<D>(alloc, words)?;
    if D > a.step as usize + b.step as usize {
        return Err(Failure::Line);
    }
    put_meet(alloc, out, &a, &b)
}

/// Writes the sum of the parameter 0 times a point, and of the parameter `t` times another.
fn put_on<const D: usize>(
    alloc: Global,
    out: &mut String,
    a: &Value<D>,
    b: &Value<D>,
    t: u8,
) -> Result<(), Failure>
    requires rank { IsRank D }
    requires first { IsScaled a.now }
    requires second { IsScaled b.now }
    requires one { a.now.step ≡ 1 }
    requires other { b.now.step ≡ 1 }
    requires few { t < 64 }
{
    let sum = on(alloc, a, b, 0, t)?;
    Ok(put_value(out, &sum)?)
}

/// The point by the parameter 0 and another one on two points.
pub fn show_on<const D: usize>(alloc: Global, out: &mut String, words: &str) -> Result<(), Failure>
    requires { IsRank D }
{
    let (name, words) = pair(words, ' ')?;
    let t = number(name)?;
    let (a, b) = objects::<D>(alloc, words)?;
    if t >= 64 || a.step != 1 || b.step != 1 {
        return Err(Failure::Line);
    }
    put_on(alloc, out, &a, &b, t)
}

/// Writes the bracket of a row of points, in which two values stand in front.
fn put_bracket<const D: usize>(
    alloc: Global,
    out: &mut String,
    row: [u8; D],
    a: &Value<D>,
    b: &Value<D>,
) -> Result<(), Failure>
    requires rank { IsRank D }
    requires first { IsPoint a.now }
    requires second { IsPoint b.now }
{
    let made = bracket(alloc, row, 0, &[a, b])?;
    Ok(put_poly(out, &made)?)
}

/// The bracket of a row of points, of which the two in front have a weight.
pub fn show_bracket<const D: usize>(
    alloc: Global,
    out: &mut String,
    words: &str,
) -> Result<(), Failure>
    requires { IsRank D }
{
    let (word, weight) = pair(words, ' ')?;
    let row = points::<D>(word)?;
    let c = coefficient(weight)?;
    let a = point::<D>(alloc, row[0], c)?;
    let b = point::<D>(alloc, row[1], c)?;
    put_bracket(alloc, out, row, &a, &b)
}

/// Six free points of the plane.
fn six_points(alloc: Global, word: &str, c: i128) -> Result<Vec<Value<3>>, Failure>
    requires not_zero { c ≢ pos 0 }
    requires small { T (fits c) }
    ensures steps { IfOk result (λ six. AllByRecursion (λ value. value.step ≡ 1) six.items) }
    ensures small { IfOk result (λ six. AllByRecursion (λ value. AllByRecursion IsSmall value.entries) six.items) }
{
    let mut six = Vec::new(alloc);
    for i in word.bytes() {
        six.push(point::<3>(alloc, i, c)?)?;
    }
    Ok(six)
}

/// The six-point polynomial of points with a weight.
pub fn show_conic(alloc: Global, out: &mut String, words: &str) -> Result<(), Failure> {
    let (word, weight) = pair(words, ' ')?;
    let six = six_points(alloc, word, coefficient(weight)?)?;
    if six.len() != 6 {
        return Err(Failure::Line);
    }
    Ok(put_poly(out, &conic(alloc, &six)?)?)
}
