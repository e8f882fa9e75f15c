//! Straightening: turns until the polynomial is normal (Sturmfels, Algorithms in Invariant Theory, section 3.1).
ghost use Rattle.std.specs.Prelude.{◌≡◌, length, IfOk};
ghost use Rattle.coordinate_model.specs.BracketPolynomial.{IsNormal, value};
ghost use Rattle.bracket_poly.specs.Arena.{tableaux_of};
ghost use Rattle.bracket_poly.specs.Products.{HasDegree};
ghost use Rattle.straightening.specs.Results.{AnswersRun, AnswersInClasses, IsWithin, IsUnchanged, IsOnlyNormal, straight_of};
ghost use Rattle.straightening.specs.Bounds.{turnable_keys};
ghost use Rattle.straightening.specs.Runs.{run};

use crate::multiple::add_multiple;
use crate::straight::{Partial, StopError, Straight};
use crate::turn::{filled, next_use};
use bracket_poly::{ArenaPoly, ArenaTable, Items, Poly};
use bumpalo::Bump;
use std::alloc::Global;
use term_arena::Store;

/// Makes turns until the polynomial is normal, and at most as many as the budget: each takes the greatest key away that is
/// not standard, and adds smaller ones, by a van der Waerden syzygy.
///
/// `Turns` comes exactly where a key that is not standard is left after the budget, `Coefficient` and `Keys` exactly at the
/// first turn in which an addition would answer so. The multiple that was refused is not among the uses. There are at most as
/// many turns as keys that are not standard in the classes of the terms, and with a budget of so many `Turns` never comes.
pub fn straighten<const D: usize>(
    alloc: Global,
    poly: Poly<D>,
    budget: u64,
) -> Result<Straight<D>, StopError<D>>
    requires degree { HasDegree 1000 poly.tracked.sum }
    ensures run { AnswersRun result (run budget poly.entry.tracked) }
    ensures value { IfOk result (λ end. value end.normal.tracked.sum ≡ value poly.entry.tracked.sum) }
    ensures normal { IfOk result (λ end. IsNormal D 64 end.normal.tracked.sum) }
    ensures only { IfOk result (λ end. IsOnlyNormal D poly.entry.tracked.sum end.normal.tracked.sum) }
    ensures classes { AnswersInClasses result poly.entry.tracked.sum }
    ensures bound { IsWithin result budget (length (turnable_keys D poly.entry.tracked.sum)) }
    ensures unchanged { IsNormal D 64 poly.entry.tracked.sum → IfOk result (λ end. IsUnchanged end poly.entry) }
{
    straighten_from(alloc, &poly, budget)
}

/// Makes the turns of `straighten`, and leaves what it begins with as it was.
pub fn straighten_from<const D: usize>(
    alloc: Global,
    poly: &Poly<D>,
    budget: u64,
) -> Result<Straight<D>, StopError<D>>
    requires degree { HasDegree 1000 poly.now.tracked.sum }
    ensures run { AnswersRun result (run budget poly.now.tracked) }
    ensures value { IfOk result (λ end. value end.normal.tracked.sum ≡ value poly.now.tracked.sum) }
    ensures normal { IfOk result (λ end. IsNormal D 64 end.normal.tracked.sum) }
    ensures only { IfOk result (λ end. IsOnlyNormal D poly.now.tracked.sum end.normal.tracked.sum) }
    ensures classes { AnswersInClasses result poly.now.tracked.sum }
    ensures bound { IsWithin result budget (length (turnable_keys D poly.now.tracked.sum)) }
    ensures unchanged { IsNormal D 64 poly.now.tracked.sum → IfOk result (λ end. IsUnchanged end poly.now) }
{
    let arena = Bump::new(alloc);
    let table = ArenaTable::load(poly, &arena)?;
    match make_turns(alloc, table, budget) {
        Ok((end, _)) => Ok(end),
        Err(error) => Err(error),
    }
}

/// Makes the turns of `straighten` over an arena, and hands back its store: its list is the tableaux of the keys that the run
/// has met, in the order in which they were first met.
pub fn straighten_in<'a, const D: usize>(
    alloc: Global,
    poly: ArenaPoly<'a, D>,
    budget: u64,
) -> Result<(Straight<D>, Store<'a, D>), StopError<D>>
    requires degree { HasDegree 1000 poly.tracked.sum }
    ensures run { AnswersRun (straight_of result) (run budget poly.entry.tracked) }
    ensures store { IfOk result (λ end. end.1 ≡ tableaux_of end.0.normal.tracked.met) }
    ensures value { IfOk result (λ end. value end.0.normal.tracked.sum ≡ value poly.entry.tracked.sum) }
    ensures normal { IfOk result (λ end. IsNormal D 64 end.0.normal.tracked.sum) }
    ensures only { IfOk result (λ end. IsOnlyNormal D poly.entry.tracked.sum end.0.normal.tracked.sum) }
    ensures classes { AnswersInClasses (straight_of result) poly.entry.tracked.sum }
    ensures bound { IsWithin (straight_of result) budget (length (turnable_keys D poly.entry.tracked.sum)) }
    ensures unchanged { IsNormal D 64 poly.entry.tracked.sum → IfOk result (λ end. IsUnchanged end.0 poly.entry) }
{
    make_turns(alloc, poly.into_table(), budget)
}

/// Makes the turns over an arena. None asks for the order of the terms.
fn make_turns<'a, const D: usize>(
    alloc: Global,
    poly: ArenaTable<'a, D>,
    budget: u64,
) -> Result<(Straight<D>, Store<'a, D>), StopError<D>>
    requires degree { HasDegree 1000 poly.tracked.sum }
    ensures run { AnswersRun (straight_of result) (run budget poly.entry.tracked) }
    ensures store { IfOk result (λ end. end.1 ≡ tableaux_of end.0.normal.tracked.met) }
    ensures value { IfOk result (λ end. value end.0.normal.tracked.sum ≡ value poly.entry.tracked.sum) }
    ensures normal { IfOk result (λ end. IsNormal D 64 end.0.normal.tracked.sum) }
    ensures only { IfOk result (λ end. IsOnlyNormal D poly.entry.tracked.sum end.0.normal.tracked.sum) }
    ensures classes { AnswersInClasses (straight_of result) poly.entry.tracked.sum }
    ensures bound { IsWithin (straight_of result) budget (length (turnable_keys D poly.entry.tracked.sum)) }
    ensures unchanged { IsNormal D 64 poly.entry.tracked.sum → IfOk result (λ end. IsUnchanged end.0 poly.entry) }
{
    let mut poly = poly;
    let mut queue = filled(alloc, &poly)?;
    let mut buffer = Vec::new(alloc);
    let mut uses = Vec::new(alloc);
    let mut turns = 0;
    while let Some(log_use) = next_use(alloc, &poly, &mut queue)? {
        if turns == budget {
            return Err(StopError::Turns(Partial {
                uses: Items::of(uses),
                turns,
            }));
        }
        if let Err(error) = add_multiple(alloc, &mut poly, &mut queue, &mut buffer, &log_use) {
            let part = Partial {
                uses: Items::of(uses),
                turns,
            };
            return Err(part.stopped_by(error));
        }
        uses.push(log_use)?;
        turns += 1;
    }
    let (normal, store) = poly.finish()?;
    let uses = Items::of(uses);
    Ok((
        Straight {
            normal,
            uses,
            turns,
        },
        store,
    ))
}
