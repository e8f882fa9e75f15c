//! Whether an object is zero everywhere.
ghost use Rattle.std.specs.Prelude.{◌≡◌, ◌↔◌, ◌<◌, ◌≤◌, [], IfOk, length};
ghost use Rattle.std.specs.List.{AllByRecursion};
ghost use Rattle.coordinate_model.specs.BracketPolynomial.{IsNormal};
ghost use Rattle.bracket_poly.specs.Products.{HasDegree};
ghost use Rattle.bracket_poly.specs.Values.{value_of};
ghost use Rattle.straightening.specs.Bounds.{turnable_keys};
ghost use Rattle.straightening.specs.Results.{AnswersRun, AnswersInClasses, IsWithin, stop_by};
ghost use Rattle.degeneracy_report.specs.Joined.{IsBefore};
ghost use Rattle.degeneracy_report.specs.Reports.{HasOneRowMore, IsJoin, IsZeroEverywhere};
ghost use Rattle.degeneracy_report.specs.Reports.{run_from, start_of, terms_joined};

use crate::start::joined;
use bracket_poly::{Items, PolyError, Value};
use std::alloc::Global;
use straightening::{Partial, StopError, Straight, straighten};

/// The normal form of the value joined with the points `fresh`, `fresh` + 1 and so on up to step `D`, which stand
/// nowhere in it: it is zero exactly where each coordinate of the object is the zero polynomial (Sturmfels, Algorithms
/// in Invariant Theory, sections 3.1 and 3.3).
///
/// The terms of the join are added entry by entry and term by term, in order. A limit that is passed there is answered
/// with no use and no turn. Else `Turns`, `Coefficient` and `Keys` come as those of `straighten`.
pub fn degenerate<const D: usize>(
    alloc: Global,
    value: &Value<D>,
    fresh: u8,
    budget: u64,
) -> Result<Straight<D>, StopError<D>>
    requires least { 1 ≤ value.now.step }
    requires most { value.now.step < D }
    requires points { AllByRecursion (IsBefore fresh) (value_of value.now.entries) }
    requires fresh { fresh ≤ 200 }
    requires degree { AllByRecursion (λ e. HasDegree 1000 e.1) (value_of value.now.entries) }
    ensures run { AnswersRun result (run_from budget (terms_joined value.now fresh)) }
    ensures value { IfOk result (λ end. IsJoin value.now fresh end.normal.tracked.sum) }
    ensures normal { IfOk result (λ end. IsNormal D 64 end.normal.tracked.sum) }
    ensures zero { IfOk result (λ end. (end.normal.tracked.sum.terms ≡ []) ↔ IsZeroEverywhere value.now) }
    ensures sizes { IfOk result (λ end. HasOneRowMore value.now fresh end.normal.tracked.sum) }
    ensures classes { AnswersInClasses result (start_of value.now fresh) }
    ensures bound { IsWithin result budget (length (turnable_keys D (start_of value.now fresh))) }
{
    match joined(alloc, value, fresh) {
        Ok(start) => straighten(alloc, start, budget),
        Err(error) => Err(stopped(alloc, error)),
    }
}

/// The stop of a run before its first turn.
fn stopped<const D: usize>(alloc: Global, error: PolyError) -> StopError<D>
    ensures { result ≡ stop_by error (record { uses = []; turns = 0 }) }
{
    let part = Partial {
        uses: Items::of(Vec::new(alloc)),
        turns: 0,
    };
    match error {
        PolyError::Coefficient => StopError::Coefficient(part),
        PolyError::Keys => StopError::Keys(part),
        PolyError::Memory => StopError::Memory,
    }
}
