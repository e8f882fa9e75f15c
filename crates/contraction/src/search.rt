//! The first pair of terms that a three-term syzygy turns into one.
ghost use Rattle.std.specs.Prelude.{◌≡◌, IfOk, map, option_map};
ghost use Rattle.std.specs.List.{AllByRecursion};
ghost use Rattle.bracket_poly.specs.Products.{HasDegree};
ghost use Rattle.bracket_terms.specs.LogUses.{use_of};
ghost use Rattle.coordinate_model.specs.Sequences.{IsRank};
ghost use Rattle.contraction.specs.Pairs.{IsTerm};
ghost use Rattle.contraction.specs.Passes.{pass, first_use, first_with};

use crate::pair::use_of_pair;
use bracket_poly::{Key, Poly};
use bracket_terms::LogUse;
use cay_base::NoMemory;
use std::alloc::Global;

/// The use of the first pair of terms, in lexicographic order, that has one.
pub(crate) fn next_pass<const D: usize>(
    alloc: Global,
    poly: &Poly<D>,
) -> Result<Option<LogUse<D>>, NoMemory>
    requires degree { HasDegree 1000 poly.now.tracked.sum }
    ensures { IfOk result (λ found. option_map use_of found ≡ pass poly.now.tracked.sum) }
{
    let mut terms = Vec::new(alloc);
    for term in poly.terms() {
        terms.push(term)?;
    }
    first_use(alloc, &terms)
}

/// The use of the first of these pairs.
fn first_use<const D: usize>(
    alloc: Global,
    terms: &[(&Key<D>, i128)],
) -> Result<Option<LogUse<D>>, NoMemory>
    requires rank { IsRank D }
    requires terms { AllByRecursion (IsTerm D) (map (λ t. (t.0.now, t.1)) terms.now) }
    ensures { IfOk result (λ found. option_map use_of found ≡ first_use (map (λ t. (t.0.now, t.1)) terms.now)) }
{
    let mut left = terms;
    while let [first, rest @ ..] = left {
        if let Some(log_use) = first_with(alloc, *first, rest)? {
            return Ok(Some(log_use));
        }
        left = rest;
    }
    Ok(None)
}

/// The use of the term with the first of the others that has one with it.
fn first_with<const D: usize>(
    alloc: Global,
    first: (&Key<D>, i128),
    others: &[(&Key<D>, i128)],
) -> Result<Option<LogUse<D>>, NoMemory>
    requires rank { IsRank D }
    requires first { IsTerm D (first.0.now, first.1) }
    requires others { AllByRecursion (IsTerm D) (map (λ t. (t.0.now, t.1)) others.now) }
    ensures { IfOk result (λ found. option_map use_of found
        ≡ first_with (first.entry.0.now, first.entry.1) (map (λ t. (t.0.now, t.1)) others.now)) }
{
    let mut left = others;
    while let [second, rest @ ..] = left {
        if let Some(log_use) = use_of_pair(alloc, first, *second)? {
            return Ok(Some(log_use));
        }
        left = rest;
    }
    Ok(None)
}
