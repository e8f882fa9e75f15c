//! Syzygies, and turns of straightening.
ghost use Rattle.std.specs.Prelude.{◌≤◌};
ghost use Rattle.coordinate_model.specs.Sequences.{IsRank};

use crate::failure::Failure;
use crate::printing::{put_poly, put_rows, put_syzygy, put_term, put_uses};
use crate::reading::{budget, pair, poly, tableau};
use bracket_poly::ArenaPoly;
use bracket_terms::{Bracket, Params};
use bumpalo::Bump;
use std::alloc::Global;
use straightening::{Partial, Queue, StopError, Straight, straighten, straighten_in};
use syzygies::{Parts, add_multiple, at_place, syzygy};
use tableau_order::{Tableau, is_standard, violation};

/// The terms of the syzygy.
fn put_terms<const D: usize>(
    alloc: Global,
    out: &mut String,
    alpha: &[u8],
    beta: &[u8],
    gamma: &[u8],
) -> Result<(), Failure>
    requires { IsRank D }
{
    if beta.len() != D + 1 || alpha.len() >= D || gamma.len() != D - 1 - alpha.len() {
        return Err(Failure::Line);
    }
    let terms = syzygy::<D>(alloc, alpha, beta, gamma)?;
    for term in &terms {
        put_term(
            out,
            i128::from(term.sign_count),
            &Params::one(),
            &[term.low, term.high],
        )?;
    }
    Ok(())
}

/// The terms of the syzygy of three lists of points.
pub fn show_syzygy<const D: usize>(
    alloc: Global,
    out: &mut String,
    words: &str,
) -> Result<(), Failure>
    requires { IsRank D }
{
    let (alpha, rest) = pair(words, '|')?;
    let (beta, gamma) = pair(rest, '|')?;
    put_terms::<D>(
        alloc,
        out,
        alpha.as_bytes(),
        beta.as_bytes(),
        gamma.as_bytes(),
    )
}

/// The syzygy at the first violation of a tableau.
pub fn show_place<const D: usize>(
    alloc: Global,
    out: &mut String,
    word: &str,
) -> Result<(), Failure>
    requires { IsRank D }
{
    let tableau = tableau::<D>(alloc, word)?;
    let Some(place) = violation(tableau.rows()) else {
        return Err(Failure::Line);
    };
    put_parts::<D>(alloc, out, &at_place(tableau.rows(), place))
}

/// The sign, the points and the terms of the syzygy with these parts.
fn put_parts<const D: usize>(alloc: Global, out: &mut String, parts: &Parts) -> Result<(), Failure>
    requires { IsRank D }
{
    let (a, c) = (parts.alpha_len as usize, parts.gamma_len as usize);
    if a > 4 || c > 4 {
        return Err(Failure::Line);
    }
    let (alpha, beta, gamma) = (&parts.alpha[..a], &parts.beta[..D + 1], &parts.gamma[..c]);
    write!(out, " {:+}", parts.sign)?;
    put_syzygy(out, alpha, beta, gamma)?;
    out.push(':')?;
    put_terms::<D>(alloc, out, alpha, beta, gamma)
}

/// The multiples of the uses that straighten the first polynomial, added to the second one after another.
pub fn show_multiples<const D: usize>(
    alloc: Global,
    out: &mut String,
    words: &str,
) -> Result<(), Failure>
    requires { IsRank D }
{
    let (first, second) = pair(words, ';')?;
    let Ok(straight) = straighten(alloc, poly::<D>(alloc, first)?, 1_000) else {
        return Err(Failure::Line);
    };
    let mut sum = poly::<D>(alloc, second)?;
    for log_use in straight.uses.items() {
        add_multiple(alloc, &mut sum, log_use)?;
    }
    Ok(put_poly(out, &sum)?)
}

/// Puts a tableau that is not standard into the queue, and writes whether it is new.
fn put<'a, const D: usize>(
    out: &mut String,
    queue: &mut Queue<'a, D>,
    tableau: &'a Tableau<D>,
) -> Result<(), Failure>
    requires { IsRank D }
{
    if is_standard(tableau.rows()) {
        return Err(Failure::Line);
    }
    let is_new = queue.put(Params::one(), tableau.rows())?;
    Ok(write!(out, " {is_new}")?)
}

/// Writes the greatest tableau of the queue, takes this one out, and writes whether it was there.
fn take_out<'a, const D: usize>(
    out: &mut String,
    queue: &mut Queue<'a, D>,
    rows: &'a [Bracket<D>],
) -> Result<(), Failure>
    requires { IsRank D }
{
    out.push(' ')?;
    match queue.greatest() {
        Some((_, greatest)) => put_rows(out, greatest)?,
        None => out.push_str("none")?,
    }
    Ok(write!(out, " {}", queue.remove(&Params::one(), rows))?)
}

/// Puts two tableaux into a queue, the first one twice, and takes the first, the second and the first out again.
pub fn show_queue<const D: usize>(
    alloc: Global,
    out: &mut String,
    words: &str,
) -> Result<(), Failure>
    requires { IsRank D }
{
    let (first, second) = pair(words, ' ')?;
    let first = tableau::<D>(alloc, first)?;
    let second = tableau::<D>(alloc, second)?;
    let mut queue = Queue::new(alloc);
    put(out, &mut queue, &first)?;
    put(out, &mut queue, &second)?;
    put(out, &mut queue, &first)?;
    take_out(out, &mut queue, first.rows())?;
    take_out(out, &mut queue, second.rows())?;
    take_out(out, &mut queue, first.rows())
}

/// The uses up to a stop, and why it stopped.
pub fn put_stop<const D: usize>(
    out: &mut String,
    limit: &str,
    part: &Partial<D>,
) -> Result<(), Failure>
    requires { IsRank D }
{
    write!(out, " {limit}, turns {}", part.turns)?;
    Ok(put_uses(out, part.uses.items())?)
}

/// Why straightening stopped.
fn put_error<const D: usize>(out: &mut String, error: &StopError<D>) -> Result<(), Failure>
    requires { IsRank D }
{
    match error {
        StopError::Turns(part) => put_stop(out, "turns", part),
        StopError::Coefficient(part) => put_stop(out, "coefficient", part),
        StopError::Keys(part) => put_stop(out, "keys", part),
        StopError::Memory => Err(Failure::Memory),
    }
}

/// The normal polynomial, and the turns that led to it.
fn put_end<const D: usize>(out: &mut String, end: &Straight<D>) -> Result<(), Failure>
    requires { IsRank D }
{
    put_poly(out, &end.normal)?;
    write!(out, ", turns {}", end.turns)?;
    Ok(put_uses(out, end.uses.items())?)
}

/// What straightening makes of a polynomial within a budget.
pub fn show_straighten<const D: usize>(
    alloc: Global,
    out: &mut String,
    words: &str,
) -> Result<(), Failure>
    requires { IsRank D }
{
    let (most, words) = pair(words, ' ')?;
    let budget = budget(most)?;
    match straighten(alloc, poly::<D>(alloc, words)?, budget) {
        Ok(end) => put_end(out, &end),
        Err(error) => put_error(out, &error),
    }
}

/// The same over an arena, and the number of row lists of its store.
pub fn show_straighten_in<const D: usize>(
    alloc: Global,
    out: &mut String,
    words: &str,
) -> Result<(), Failure>
    requires { IsRank D }
{
    let (most, words) = pair(words, ' ')?;
    let budget = budget(most)?;
    let arena = Bump::new(alloc);
    let loaded = ArenaPoly::load(&poly::<D>(alloc, words)?, &arena)?;
    match straighten_in(alloc, loaded, budget) {
        Ok((end, store)) => {
            write!(out, " {} row lists,", store.count())?;
            put_end(out, &end)
        }
        Err(error) => put_error(out, &error),
    }
}
