//! The use by which two terms go.
ghost use Rattle.std.specs.Prelude.{◌≡◌, IfOk, option_map};
ghost use Rattle.bracket_terms.specs.LogUses.{use_of};
ghost use Rattle.coordinate_model.specs.Key.{IsKey};
ghost use Rattle.coordinate_model.specs.Sequences.{IsRank};
ghost use Rattle.contraction.specs.Pairs.{IsTerm, differ_in_two};
ghost use Rattle.contraction.specs.Passes.{use_of_pair};

use crate::multiplier::multiplier_of;
use crate::points::lists_of;
use crate::rows::{differ_in, own_rows};
use bracket_poly::{Items, Key};
use bracket_terms::LogUse;
use cay_base::NoMemory;
use std::alloc::Global;

/// The use that takes two terms away, where they have the same parameters and differ in two rows each that one
/// three-term syzygy has.
pub(crate) fn use_of_pair<const D: usize>(
    alloc: Global,
    first: (&Key<D>, i128),
    second: (&Key<D>, i128),
) -> Result<Option<LogUse<D>>, NoMemory>
    requires rank { IsRank D }
    requires first { IsTerm D (first.0.now, first.1) }
    requires second { IsTerm D (second.0.now, second.1) }
    ensures { IfOk result (λ found. option_map use_of found
        ≡ use_of_pair (first.entry.0.now, first.entry.1) (second.entry.0.now, second.entry.1)) }
{
    let ((key, c), (other_key, other_c)) = (first, second);
    if !differ_in_two(key, other_key) {
        return Ok(None);
    }
    let (rows, others) = (key.tableau.rows(), other_key.tableau.rows());
    let own = own_rows(alloc, rows, others)?;
    let other = own_rows(alloc, others, rows)?;
    let Some(lists) = lists_of(alloc, &own, &other)? else {
        return Ok(None);
    };
    let Some(multiplier) = multiplier_of(alloc, &lists, (c, &own), (other_c, &other))? else {
        return Ok(None);
    };
    Ok(Some(LogUse {
        multiplier,
        params: key.params,
        rest: Items::of(own_rows(alloc, rows, &own)?),
        alpha: Items::of(Vec::new(alloc)),
        beta: Items::of(lists.beta),
        gamma: Items::of(lists.gamma),
    }))
}

/// Whether the keys have the same parameters, and each two rows alone.
fn differ_in_two<const D: usize>(first: &Key<D>, second: &Key<D>) -> bool
    requires rank { IsRank D }
    requires first { IsKey D 64 first.now }
    requires second { IsKey D 64 second.now }
    ensures { result ≡ differ_in_two first.now second.now }
{
    first.params == second.params && differ_in(first.tableau.rows(), second.tableau.rows(), 2, 2)
}
