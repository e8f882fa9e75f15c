//! Sums and products of bracket polynomials.
ghost use Rattle.std.specs.Prelude.{◌≤◌};
ghost use Rattle.coordinate_model.specs.Sequences.{IsRank};
ghost use Rattle.bracket_poly.specs.Products.{HasDegree};

use crate::failure::Failure;
use crate::printing::{put_poly, put_term};
use crate::reading::{brackets, coefficient, pair, poly, tableau};
use bracket_poly::{ArenaPoly, Poly};
use bracket_terms::{Bracket, Params};
use bumpalo::Bump;
use std::alloc::Global;

/// A copy of the sum of the terms.
pub fn show_add<const D: usize>(alloc: Global, out: &mut String, words: &str) -> Result<(), Failure>
    requires { IsRank D }
{
    let sum = poly::<D>(alloc, words)?;
    Ok(put_poly(out, &sum.copy()?)?)
}

/// What is left of nothing where the product of both and the row is taken away.
fn put_taken<const D: usize>(
    alloc: Global,
    out: &mut String,
    a: &Poly<D>,
    b: &Poly<D>,
    row: Bracket<D>,
) -> Result<(), Failure>
    requires rank { IsRank D }
    requires first { HasDegree 1000 a.now.tracked.sum }
    requires second { HasDegree 1000 b.now.tracked.sum }
{
    let mut product = Poly::new(alloc);
    product.mul_add(a, b, Some(row), -1)?;
    Ok(put_poly(out, &product)?)
}

/// Minus the product of a row and two polynomials.
pub fn show_mul_add<const D: usize>(
    alloc: Global,
    out: &mut String,
    words: &str,
) -> Result<(), Failure>
    requires { IsRank D }
{
    let (row, factors) = pair(words, ';')?;
    let (a, b) = pair(factors, ';')?;
    let Some(row) = brackets::<D>(alloc, row)?.first().copied() else {
        return Err(Failure::Line);
    };
    let a = poly::<D>(alloc, a)?;
    let b = poly::<D>(alloc, b)?;
    put_taken(alloc, out, &a, &b, row)
}

/// Adds a term over an arena, and writes the coefficient of its key.
fn add<'a, const D: usize>(
    alloc: Global,
    out: &mut String,
    poly: &mut ArenaPoly<'a, D>,
    word: &str,
) -> Result<(), Failure>
    requires { IsRank D }
{
    let (c, _) = pair(word, '[')?;
    let tableau = tableau::<D>(alloc, word)?;
    poly.add(Params::one(), tableau.rows(), coefficient(c)?)?;
    let is_placed = poly.row_view(tableau.rows()).is_some();
    let c = poly.coefficient(&Params::one(), tableau.rows());
    Ok(write!(out, " {is_placed} {c:+},")?)
}

/// The terms in order, and then the polynomial without its arena, and the number of row lists.
fn finish<'a, const D: usize>(out: &mut String, poly: ArenaPoly<'a, D>) -> Result<(), Failure>
    requires { IsRank D }
{
    for (params, rows, c) in poly.terms() {
        put_term(out, c, &params, rows)?;
    }
    let (poly, store) = poly.finish()?;
    out.push(',')?;
    put_poly(out, &poly)?;
    Ok(write!(out, ", {} row lists", store.count())?)
}

/// Lays a polynomial into an arena, and adds terms to it.
pub fn show_arena<const D: usize>(
    alloc: Global,
    out: &mut String,
    words: &str,
) -> Result<(), Failure>
    requires { IsRank D }
{
    let (start, more) = pair(words, ';')?;
    let arena = Bump::new(alloc);
    let mut loaded = ArenaPoly::load(&poly::<D>(alloc, start)?, &arena)?;
    for word in more.split_whitespace() {
        add(alloc, out, &mut loaded, word)?;
    }
    finish(out, loaded)
}
