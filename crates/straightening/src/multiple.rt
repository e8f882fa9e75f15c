//! Adding a multiple of a syzygy to a polynomial over an arena, whose keys that are not standard stand in a queue.
ghost use Rattle.std.specs.Prelude.{[], ◌∷◌, OnOk, IsSorted};
ghost use Rattle.coordinate_model.specs.Key.{row_cmp};
ghost use Rattle.coordinate_model.specs.Sequences.{IsRank};
ghost use Rattle.coordinate_model.specs.Syzygy.{additions};
ghost use Rattle.bracket_poly.specs.Answers.{AddsTerms};
ghost use Rattle.bracket_poly.specs.Arena.{key_of};
ghost use Rattle.bracket_terms.specs.LogUses.{use_of};
ghost use Rattle.syzygies.specs.Additions.{addition};
ghost use Rattle.syzygies.specs.Terms.{term_of};
ghost use Rattle.straightening.specs.Queues.{Covers, TakesIn};

use crate::queue::Queue;
use bracket_poly::{ArenaTable, PolyError};
use bracket_terms::{Bracket, LogUse, Params};
use cay_base::NoMemory;
use std::alloc::Global;
use syzygies::{PairTerm, add_pair_in, syzygy};
use tableau_order::is_standard;

/// Adds the terms of the multiple one after another, in ascending order of their keys, up to the first that passes a limit.
/// The keys that are not standard and had no term go into the queue. The buffer holds the rows of one term.
pub(crate) fn add_multiple<'a, const D: usize>(
    alloc: Global,
    poly: &mut ArenaTable<'a, D>,
    queue: &mut Queue<'a, D>,
    buffer: &mut Vec<Bracket<D>>,
    log_use: &LogUse<D>,
) -> Result<(), PolyError>
    requires covers { Covers D queue.old poly.old.tracked.sum }
    ensures adds { AddsTerms poly.old.tracked (additions (use_of log_use.now)) result poly.new.tracked }
    ensures covers { OnOk result (Covers D queue.new poly.new.tracked.sum) }
{
    let Ok(pairs) = syzygy(
        alloc,
        log_use.alpha.items(),
        log_use.beta.items(),
        log_use.gamma.items(),
    ) else {
        return Err(PolyError::Memory);
    };
    for pair in &pairs {
        add_pair(poly, queue, buffer, log_use, pair)?;
    }
    Ok(())
}

/// Adds one term of the multiple.
fn add_pair<'a, const D: usize>(
    poly: &mut ArenaTable<'a, D>,
    queue: &mut Queue<'a, D>,
    buffer: &mut Vec<Bracket<D>>,
    log_use: &LogUse<D>,
    pair: &PairTerm<D>,
) -> Result<(), PolyError>
    requires covers { Covers D queue.old poly.old.tracked.sum }
    ensures adds { AddsTerms poly.old.tracked (addition (use_of log_use.now) (term_of pair.now) ∷ []) result
        poly.new.tracked }
    ensures covers { OnOk result (Covers D queue.new poly.new.tracked.sum) }
{
    let (view, fresh) = add_pair_in(poly, buffer, log_use, pair)?;
    if !fresh {
        return Ok(());
    }
    let Ok(()) = take_in(queue, &log_use.params, view) else {
        return Err(PolyError::Memory);
    };
    Ok(())
}

/// Puts the key in, unless it is standard.
pub(crate) fn take_in<'a, const D: usize>(
    queue: &mut Queue<'a, D>,
    params: &Params,
    rows: &'a [Bracket<D>],
) -> Result<(), NoMemory>
    requires rank { IsRank D }
    requires ascending { IsSorted row_cmp rows.now }
    ensures { OnOk result (TakesIn D queue.old queue.new (key_of params.now rows.now)) }
{
    if is_standard(rows) {
        return Ok(());
    }
    queue.put(*params, rows)?;
    Ok(())
}
