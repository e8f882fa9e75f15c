//! What an instruction makes of the values of earlier ones.

ghost use Rattle.std.specs.Prelude.{◌≡◌, ◌⊎◌, ◌≤◌, [], ◌∷◌, Ok, IfOk, length, map};
ghost use Rattle.std.specs.List.{AllByRecursion};
ghost use Rattle.coordinate_model.specs.Sequences.{IsRank};
ghost use Rattle.bracket_poly.specs.Products.{HasDegree};
ghost use Rattle.bracket_poly.specs.Values.{value_of};
ghost use Rattle.conic_points.specs.Points.{values_of};
ghost use Rattle.shuffle_meet.specs.Seen.{seen};
ghost use Rattle.cayley_run.specs.Making.{AddsConic, AddsMade, AddsProducts, AreStarts, CanGoOn};
ghost use Rattle.cayley_run.specs.Making.{MakesClaim, MakesProducts, MakesStarts};
ghost use Rattle.cayley_run.specs.Ready.{AreSmall, IsConic, IsReady};
ghost use Rattle.cayley_run.specs.Results.{IsKindOf};
ghost use Rattle.cayley_run.specs.Seen.{starts_of, steps_in};

use crate::answer::StopKind;
use crate::values::{copies, free_value};
use bracket_poly::{Items, Poly, PolyError, Value};
use bracket_terms::Extensor;
use cay_base::NoMemory;
use cayley_terms::Instr;
use conic_points::conic;
use shuffle_meet::{join, meet, on};
use std::alloc::Global;

/// What an instruction makes.
#[derive(Drop)]
pub(crate) enum Made<const D: usize> {
    /// The value of a free point.
    Point(Value<D>),
    /// An object: the starts of its sections.
    Starts(Items<(Extensor, Poly<D>)>),
    /// An object before whose sections a limit was passed.
    Stop(StopKind),
}

/// What the instruction makes, of this step.
pub(crate) fn make<const D: usize>(
    alloc: Global,
    values: &[Value<D>],
    instr: Instr,
    step: u8,
) -> Result<Made<D>, NoMemory>
    requires rank { IsRank D }
    requires ready { IsReady D (steps_in values.now) (values_of values.now) instr step }
    ensures adds { IfOk result (AddsMade (values_of values.now) instr step) }
    ensures starts { IfOk result (MakesStarts (values_of values.now) instr step) }
    ensures goes_on { IfOk result (CanGoOn step) }
{
    match instr {
        Instr::Free(point) => Ok(Made::Point(free_value(alloc, point)?)),
        Instr::Join(a, b) => {
            let starts = join(alloc, &values[a as usize], &values[b as usize]);
            object(alloc, step, starts)
        }
        Instr::Meet(a, b) => {
            let starts = meet(alloc, &values[a as usize], &values[b as usize]);
            object(alloc, step, starts)
        }
        Instr::On { a, b, s, t } => {
            let starts = on(alloc, &values[a as usize], &values[b as usize], s, t);
            object(alloc, step, starts)
        }
        Instr::Conic {
            p1,
            p2,
            p3,
            p4,
            p5,
            p6,
        } => claim(alloc, values, step, &[p1, p2, p3, p4, p5, p6]),
    }
}

/// The object with these starts. A conclusion has always one.
fn object<const D: usize>(
    alloc: Global,
    step: u8,
    starts: Result<Value<D>, PolyError>,
) -> Result<Made<D>, NoMemory>
    requires rank { IsRank D }
    requires within { step ≤ D }
    requires step { IfOk starts (λ value. value.step ≡ step) }
    requires small { IfOk starts (λ value. AreSmall (seen value.entries)) }
    ensures adds { IfOk result (AddsProducts step starts.entry) }
    ensures starts { IfOk result (MakesProducts step starts.entry) }
    ensures goes_on { IfOk result (CanGoOn step) }
{
    match starts {
        Ok(value) if value.entries.items().is_empty() && (step == 0 || step as usize == D) => {
            Ok(Made::Starts(conclusion(alloc, step, Poly::new(alloc))?))
        }
        Ok(value) => Ok(Made::Starts(value.entries)),
        Err(error) => Ok(Made::Stop(limit_kind(error)?)),
    }
}

/// The claim that the six points of these numbers are on a conic.
fn claim<const D: usize>(
    alloc: Global,
    values: &[Value<D>],
    step: u8,
    numbers: &[u32],
) -> Result<Made<D>, NoMemory>
    requires rank { IsRank D }
    requires six { length numbers.now ≡ 6 }
    requires points { IsConic D (steps_in values.now) (values_of values.now) numbers.now step }
    requires small { AllByRecursion (λ v. AllByRecursion (λ e. HasDegree 1000 e.1) v) (values_of values.now) }
    ensures adds { IfOk result (AddsConic (values_of values.now) numbers.now step) }
    ensures starts { IfOk result (MakesClaim (values_of values.now) numbers.now) }
    ensures goes_on { IfOk result (CanGoOn step) }
{
    let six = copies(alloc, values, numbers)?;
    match conic(alloc, &six) {
        Ok(start) => Ok(Made::Starts(conclusion(alloc, step, start)?)),
        Err(error) => Ok(Made::Stop(limit_kind(error)?)),
    }
}

/// The one start of a conclusion.
fn conclusion<const D: usize>(
    alloc: Global,
    step: u8,
    start: Poly<D>,
) -> Result<Items<(Extensor, Poly<D>)>, NoMemory>
    requires rank { IsRank D }
    requires conclusion { (step ≡ 0) ⊎ (step ≡ D) }
    requires small { HasDegree 1000 start.tracked.sum }
    ensures starts { IfOk result (λ starts. starts_of starts ≡ ([], start.entry.tracked) ∷ []) }
    ensures are_starts { IfOk result (AreStarts D step) }
{
    let none = Extensor {
        size: 0,
        points: [0; 4],
    };
    let mut starts = Vec::new(alloc);
    starts.push((none, start))?;
    Ok(Items::of(starts))
}

/// The kind of a stop at the limit that was passed.
fn limit_kind(error: PolyError) -> Result<StopKind, NoMemory>
    ensures { IfOk result (IsKindOf error) }
{
    match error {
        PolyError::Coefficient => Ok(StopKind::Coefficient),
        PolyError::Keys => Ok(StopKind::Keys),
        PolyError::Memory => Err(NoMemory),
    }
}
