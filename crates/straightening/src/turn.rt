//! Turns: where the next one is, and the use of a syzygy that it makes (Sturmfels, Algorithms in Invariant Theory,
//! section 3.1).
ghost use Rattle.std.specs.Prelude.{◌≡◌, ◌≢◌, ◌+◌, ◌<◌, ◌≤◌, IfOk, OnOk, MatchOption, T, length, option_map, pos, neg_ℤ, ◌*ℤ◌, IsSorted};
ghost use Rattle.bracket_poly.specs.Products.{HasDegree, IsSign};
ghost use Rattle.std.specs.List.{AllByRecursion};
ghost use Rattle.bracket_poly.specs.Arena.{key_of};
ghost use Rattle.bracket_poly.specs.Tracked.{fits};
ghost use Rattle.bracket_terms.specs.LogUses.{use_of};
ghost use Rattle.coordinate_model.specs.Key.{IsKey, row_cmp};
ghost use Rattle.coordinate_model.specs.Sequences.{IsRank};
ghost use Rattle.coordinate_model.specs.Sums.{coefficient};
ghost use Rattle.syzygies.specs.Places.{rest_at};
ghost use Rattle.tableau_order.specs.Standard.{IsFirstViolation};
ghost use Rattle.straightening.specs.Queues.{Covers, IsNonstandard};
ghost use Rattle.straightening.specs.Turns.{FindsAt, IsUseAt, use_at, turn};

use crate::multiple::take_in;
use crate::queue::Queue;
use bracket_poly::{ArenaTable, Items};
use bracket_terms::{Bracket, LogUse, Params};
use cay_base::NoMemory;
use std::alloc::Global;
use syzygies::at_place;
use tableau_order::{Place, violation};

/// The queue of the met keys that are not standard.
pub(crate) fn filled<'a, const D: usize>(
    alloc: Global,
    poly: &ArenaTable<'a, D>,
) -> Result<Queue<'a, D>, NoMemory>
    ensures { IfOk result (λ queue. Covers D queue poly.now.tracked.sum) }
{
    let mut queue = Queue::<'a, D>::new(alloc);
    for (params, rows, _) in poly.held() {
        take_in(&mut queue, params, rows)?;
    }
    Ok(queue)
}

/// The use at the greatest key that is not standard. Keys that have no term any more leave the queue.
pub(crate) fn next_use<'a, const D: usize>(
    alloc: Global,
    poly: &ArenaTable<'a, D>,
    queue: &mut Queue<'a, D>,
) -> Result<Option<LogUse<D>>, NoMemory>
    requires degree { HasDegree 1000 poly.now.tracked.sum }
    requires covers { Covers D queue.old poly.now.tracked.sum }
    ensures next { IfOk result (λ next. option_map use_of next ≡ turn poly.now.tracked.sum) }
    ensures covers { OnOk result (Covers D queue.new poly.now.tracked.sum) }
{
    while let Some(key) = queue.greatest() {
        if let Some(log_use) = found_at(alloc, poly, queue, &key)? {
            return Ok(Some(log_use));
        }
    }
    Ok(None)
}

/// The use that takes the term of a key of the queue away. A key that has none leaves the queue.
fn found_at<'a, const D: usize>(
    alloc: Global,
    poly: &ArenaTable<'a, D>,
    queue: &mut Queue<'a, D>,
    key: &(Params, &'a [Bracket<D>]),
) -> Result<Option<LogUse<D>>, NoMemory>
    requires degree { HasDegree 1000 poly.now.tracked.sum }
    requires nonstandard { IsNonstandard D (key_of key.now.0 key.now.1.now) }
    ensures { IfOk result (λ next. FindsAt poly.now.tracked.sum queue.old queue.new (key_of key.now.0 key.now.1.now) (option_map use_of next)) }
{
    if let Some(log_use) = use_in(alloc, poly, &key.0, key.1)? {
        return Ok(Some(log_use));
    }
    queue.remove(&key.0, key.1);
    Ok(None)
}

/// The use that takes the term of the key away, where it has one.
fn use_in<'a, const D: usize>(
    alloc: Global,
    poly: &ArenaTable<'a, D>,
    params: &Params,
    rows: &[Bracket<D>],
) -> Result<Option<LogUse<D>>, NoMemory>
    requires degree { HasDegree 1000 poly.now.tracked.sum }
    requires nonstandard { IsNonstandard D (key_of params.now rows.now) }
    ensures { IfOk result (λ next. MatchOption next (coefficient poly.now.tracked.sum (key_of params.now rows.now) ≡ pos 0) (λ log_use. IsUseAt poly.now.tracked.sum (key_of params.now rows.now) (use_of log_use))) }
{
    let c = poly.coefficient(params, rows);
    if c == 0 {
        return Ok(None);
    }
    match violation(rows) {
        Some(place) => Ok(Some(use_at(alloc, params, rows, c, place)?)),
        None => Ok(None),
    }
}

/// The use that takes the term away, where its key has its first violation at the place.
fn use_at<const D: usize>(
    alloc: Global,
    params: &Params,
    rows: &[Bracket<D>],
    c: i128,
    place: Place,
) -> Result<LogUse<D>, NoMemory>
    requires rank { IsRank D }
    requires key { IsKey D 64 (key_of params.now rows.now) }
    requires degrees { AllByRecursion (λ e. e ≤ 1000) params.now }
    requires not_zero { c ≢ pos 0 }
    requires small { T (fits c) }
    requires violation { IsFirstViolation D rows.now place.row place.column }
    ensures { IfOk result (λ log_use. use_of log_use ≡ use_at (key_of params.now rows.now, c) (place.row, place.column)) }
{
    let parts = at_place(rows, place);
    let rest = rest_at(alloc, rows, place.row)?;
    let alpha = parts.alpha[..parts.alpha_len as usize].to_vec(alloc)?;
    let beta = parts.beta[..D + 1].to_vec(alloc)?;
    let gamma = parts.gamma[..parts.gamma_len as usize].to_vec(alloc)?;
    Ok(LogUse {
        multiplier: multiplier(c, parts.sign),
        params: *params,
        rest: Items::of(rest),
        alpha: Items::of(alpha),
        beta: Items::of(beta),
        gamma: Items::of(gamma),
    })
}

/// What cancels the coefficient, where the product that is rewritten has this sign in the syzygy.
fn multiplier(c: i128, sign: i8) -> i128
    requires small { T (fits c) }
    requires sign { IsSign sign }
    ensures { result ≡ neg_ℤ (c *ℤ sign) }
{
    if sign < 0 { c } else { -c }
}

/// The rows but this one and the next.
fn rest_at<const D: usize>(
    alloc: Global,
    rows: &[Bracket<D>],
    row: usize,
) -> Result<Vec<Bracket<D>>, NoMemory>
    requires { row + 1 < length rows.now }
    ensures { IfOk result (λ rest. rest.items ≡ rest_at rows.now row) }
{
    let mut rest = rows[..row].to_vec(alloc)?;
    rest.extend_from_slice(&rows[row + 2..])?;
    Ok(rest)
}
