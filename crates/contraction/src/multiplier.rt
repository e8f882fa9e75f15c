//! The multiplier of a use that takes two terms away.
ghost use Rattle.std.specs.Prelude.{◌≡◌, ◌≢◌, ◌+ℤ◌, ◌*ℤ◌, neg_ℤ, pos, T, [], true, false, IfOk, IfNone, IfSome};
ghost use Rattle.std.specs.FinMap.{is_sorted};
ghost use Rattle.bracket_poly.specs.Tracked.{fits};
ghost use Rattle.coordinate_model.specs.Key.{key_cmp, rows_key};
ghost use Rattle.coordinate_model.specs.Sums.{count_at, is_zero};
ghost use Rattle.coordinate_model.specs.Syzygy.{AreSizes};
ghost use Rattle.syzygies.specs.Terms.{terms_of};
ghost use Rattle.contraction.specs.Pairs.{balance, count_of};

use crate::points::Lists;
use bracket_terms::Bracket;
use cay_base::NoMemory;
use std::alloc::Global;
use syzygies::{PairTerm, product_within, syzygy};

/// The multiplier of the syzygy of these lists by which two terms go, each with its integer and its two rows.
pub(crate) fn multiplier_of<const D: usize>(
    alloc: Global,
    lists: &Lists,
    first: (i128, &[Bracket<D>]),
    second: (i128, &[Bracket<D>]),
) -> Result<Option<i128>, NoMemory>
    requires sizes { AreSizes D [] lists.now.beta.items lists.now.gamma.items }
    requires not_zero { first.0 ≢ pos 0 }
    requires first { T (fits first.0) }
    requires second { T (fits second.0) }
    ensures balance { IfOk result (λ found. found
        ≡ balance first.entry.0 (count_of lists.now.beta.items lists.now.gamma.items first.entry.1.now)
        second.entry.0 (count_of lists.now.beta.items lists.now.gamma.items second.entry.1.now)) }
    ensures within { IfOk result (λ found. IfSome found (λ multiplier. (multiplier ≢ pos 0) × T (fits multiplier))) }
{
    let pairs = syzygy(alloc, &[], &lists.beta, &lists.gamma)?;
    let (count, other) = (count_in(&pairs, first.1), count_in(&pairs, second.1));
    Ok(balance(first.0, count, second.0, other))
}

/// The integer of the product of the rows among the terms of a syzygy.
fn count_in<const D: usize>(pairs: &[PairTerm<D>], rows: &[Bracket<D>]) -> i8
    requires { T (is_sorted key_cmp (terms_of pairs.now)) }
    ensures { result ≡ count_at key_cmp (rows_key rows.now) (terms_of pairs.now) }
{
    for pair in pairs {
        let product = [pair.low, pair.high];
        if rows.cmp(&product[..]).is_eq() {
            return pair.sign_count;
        }
    }
    0
}

/// The multiplier that takes the integer `first` away, where it takes also `second` away.
fn balance(first: i128, count: i8, second: i128, other: i8) -> Option<i128>
    requires not_zero { first ≢ pos 0 }
    requires first { T (fits first) }
    requires second { T (fits second) }
    ensures balance { result ≡ balance first count second other }
    ensures within { IfSome result (λ multiplier. (multiplier ≢ pos 0) × T (fits multiplier)) }
{
    let Some(multiplier) = opposite(first, count) else {
        return None;
    };
    cancels(second, multiplier, other).then_some(multiplier)
}

/// What cancels the integer, where the product that is rewritten has the count 1 or -1.
#[tactic(auto, using(crate::proofs::Multipliers::other_counts))]
fn opposite(c: i128, count: i8) -> Option<i128>
    requires not_zero { c ≢ pos 0 }
    requires small { T (fits c) }
    ensures none { IfNone result (is_zero (c +ℤ neg_ℤ (c *ℤ count) *ℤ count) ≡ false) }
    ensures some { IfSome result (λ multiplier. (multiplier ≡ neg_ℤ (c *ℤ count))
        × (is_zero (c +ℤ neg_ℤ (c *ℤ count) *ℤ count) ≡ true)) }
    ensures within { IfSome result (λ multiplier. (multiplier ≢ pos 0) × T (fits multiplier)) }
{
    if count == 1 {
        return Some(-c);
    }
    if count == -1 {
        return Some(c);
    }
    None
}

/// Whether so many times the multiplier takes the integer away.
fn cancels(c: i128, multiplier: i128, count: i8) -> bool
    requires { T (fits c) }
    ensures { result ≡ is_zero (c +ℤ multiplier *ℤ count) }
{
    match product_within(multiplier, count) {
        Some(product) => product == -c,
        None => false,
    }
}
