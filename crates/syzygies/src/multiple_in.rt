//! Adding a multiple of a syzygy to a polynomial over an arena.
ghost use Rattle.std.specs.Prelude.{◌≡◌, [], ◌∷◌, IfOk, IsSorted};
ghost use Rattle.coordinate_model.specs.Key.{row_cmp};
ghost use Rattle.coordinate_model.specs.Sums.{coefficient, is_zero};
ghost use Rattle.coordinate_model.specs.Syzygy.{additions};
ghost use Rattle.bracket_poly.specs.Answers.{AddsTerms};
ghost use Rattle.bracket_poly.specs.Arena.{key_of};
ghost use Rattle.bracket_terms.specs.LogUses.{use_of};
ghost use Rattle.syzygies.specs.Additions.{addition};
ghost use Rattle.syzygies.specs.Terms.{term_of};

use crate::collected::syzygy;
use crate::multiple::product_within;
use crate::pair::PairTerm;
use crate::row_buffer::fill;
use bracket_poly::{ArenaTable, PolyError};
use bracket_terms::{Bracket, LogUse};
use std::alloc::Global;

/// Adds the terms of the multiple of the use to a polynomial over an arena, as `add_multiple` does. The buffer is for
/// the rows of one term.
pub fn add_multiple_in<'a, const D: usize>(
    alloc: Global,
    poly: &mut ArenaTable<'a, D>,
    buffer: &mut Vec<Bracket<D>>,
    log_use: &LogUse<D>,
) -> Result<(), PolyError>
    ensures { AddsTerms poly.old.tracked (additions (use_of log_use.now)) result poly.new.tracked }
{
    let Ok(pairs) = syzygy(
        alloc,
        log_use.alpha.items(),
        log_use.beta.items(),
        log_use.gamma.items(),
    ) else {
        return Err(PolyError::Memory);
    };
    for pair in &pairs {
        add_pair_in(poly, buffer, log_use, pair)?;
    }
    Ok(())
}

/// Adds one term of the multiple, and answers its rows in the arena, and whether its key had no term.
pub fn add_pair_in<'a, const D: usize>(
    poly: &mut ArenaTable<'a, D>,
    buffer: &mut Vec<Bracket<D>>,
    log_use: &LogUse<D>,
    pair: &PairTerm<D>,
) -> Result<(&'a [Bracket<D>], bool), PolyError>
    ensures adds { AddsTerms poly.old.tracked (addition (use_of log_use.now) (term_of pair.now) ∷ []) result
        poly.new.tracked }
    ensures placed { IfOk result (λ term. key_of log_use.now.params term.0.now
        ≡ (addition (use_of log_use.now) (term_of pair.now)).0) }
    ensures ascending { IfOk result (λ term. IsSorted row_cmp term.0.now) }
    ensures fresh { IfOk result (λ term. term.1
        ≡ is_zero (coefficient poly.old.tracked.sum (addition (use_of log_use.now) (term_of pair.now)).0)) }
{
    let Some(product) = product_within(log_use.multiplier, pair.sign_count) else {
        return Err(PolyError::Coefficient);
    };
    let Ok(()) = fill(buffer, log_use.rest.items(), &pair.low, &pair.high) else {
        return Err(PolyError::Memory);
    };
    poly.add_term(&log_use.params, buffer, product)
}
