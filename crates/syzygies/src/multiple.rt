//! Adding a multiple of a syzygy to a polynomial.
ghost use Rattle.std.specs.Prelude.{◌≡◌, ◌*ℤ◌, MatchOption, [], ◌∷◌, true, false};
ghost use Rattle.bracket_poly.specs.Answers.{AddsTerms};
ghost use Rattle.bracket_poly.specs.Tracked.{fits};
ghost use Rattle.bracket_terms.specs.LogUses.{use_of};
ghost use Rattle.coordinate_model.specs.Syzygy.{additions};
ghost use Rattle.syzygies.specs.Terms.{term_of};
ghost use Rattle.syzygies.specs.Additions.{addition};

use crate::collected::syzygy;
use crate::pair::PairTerm;
use bracket_poly::{Key, Poly, PolyError};
use bracket_terms::LogUse;
use std::alloc::Global;
use tableau_order::merge;

/// Adds the terms of the multiple of the use one after another, in the order of the syzygy's terms, up to the first that
/// passes a limit.
///
/// `Coefficient` comes exactly where a product or a sum would pass 2^127 - 1 in absolute value, and `Keys` where a new key
/// would come after 2,097,152 met ones. The terms before a refused one have been added.
pub fn add_multiple<const D: usize>(
    alloc: Global,
    poly: &mut Poly<D>,
    log_use: &LogUse<D>,
) -> Result<(), PolyError>
    ensures { AddsTerms poly.old.tracked (additions (use_of log_use.now)) result poly.new.tracked }
{
    let Ok(pairs) = syzygy(
        alloc,
        log_use.alpha.items(),
        log_use.beta.items(),
        log_use.gamma.items(),
    ) else {
        return Err(PolyError::Memory);
    };
    for pair in &pairs {
        add_pair(alloc, poly, log_use, pair)?;
    }
    Ok(())
}

/// Adds one term of the multiple.
fn add_pair<const D: usize>(
    alloc: Global,
    poly: &mut Poly<D>,
    log_use: &LogUse<D>,
    pair: &PairTerm<D>,
) -> Result<(), PolyError>
    ensures { AddsTerms poly.old.tracked (addition (use_of log_use.now) (term_of pair.now) ∷ []) result poly.new.tracked }
{
    let Some(product) = product_within(log_use.multiplier, pair.sign_count) else {
        return Err(PolyError::Coefficient);
    };
    let Ok(tableau) = merge(alloc, log_use.rest.items(), &[pair.low, pair.high]) else {
        return Err(PolyError::Memory);
    };
    let key = Key {
        params: log_use.params,
        tableau,
    };
    poly.add(key, product)
}

/// The product, where it is at most 2^127 - 1 in absolute value.
pub fn product_within(a: i128, b: i8) -> Option<i128>
    ensures { MatchOption result (fits (a *ℤ b) ≡ false) (λ product. (product ≡ a *ℤ b) × (fits product ≡ true)) }
{
    a.checked_mul(i128::from(b))
        .filter(|product| *product != i128::MIN)
}
