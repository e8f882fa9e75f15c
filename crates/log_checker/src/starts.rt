//! The starts of an object, made of the values of earlier ones.

ghost use Rattle.std.specs.Prelude.{◌≡◌, ◌⊎◌, ◌≤◌, ℕ, List, [], ◌∷◌, IfErr, IfOk, length, map};
ghost use Rattle.std.specs.List.{AllByRecursion};
ghost use Rattle.coordinate_model.specs.Sequences.{IsRank};
ghost use Rattle.coordinate_model.specs.Starts.{Product};
ghost use Rattle.bracket_poly.specs.Answers.{AnswersLimit};
ghost use Rattle.cayley_terms.specs.Starts.{value_at};
ghost use Rattle.conic_points.specs.Makings.{made_of};
ghost use Rattle.conic_points.specs.Points.{values_of};
ghost use Rattle.shuffle_meet.specs.Seen.{seen};
ghost use Rattle.shuffle_meet.specs.Stops.{first_stop, tracked_entries};
ghost use Rattle.log_checker.specs.Ready.{AreStarts, IsConic, IsReady, IsSmall};
ghost use Rattle.log_checker.specs.Seen.{AnswersStarts, steps_in};
ghost use Rattle.log_checker.specs.Starts.{start_made, starts_by, starts_of};

use crate::values::copies;
use bracket_poly::{Items, Poly, PolyError, Value};
use bracket_terms::Extensor;
use cayley_terms::Instr;
use conic_points::conic;
use shuffle_meet::{join, meet, on};
use std::alloc::Global;

/// The starts of the object of an instruction of this step, each with its extensor; a free point has none.
pub(crate) fn object_starts<const D: usize>(
    alloc: Global,
    values: &[Value<D>],
    instr: Instr,
    step: u8,
) -> Result<Items<(Extensor, Poly<D>)>, PolyError>
    requires rank { IsRank D }
    requires ready { IsReady D (steps_in values.now) (values_of values.now) instr step }
    ensures starts { AnswersStarts result (starts_of D (values_of values.now) instr step) }
    ensures formed { IfOk result (AreStarts D step) }
{
    match instr {
        Instr::Free(_) => Ok(Items::of(Vec::new(alloc))),
        Instr::Join(a, b) => {
            let object = join(alloc, &values[a as usize], &values[b as usize]);
            section_starts(alloc, step, object)
        }
        Instr::Meet(a, b) => {
            let object = meet(alloc, &values[a as usize], &values[b as usize]);
            section_starts(alloc, step, object)
        }
        Instr::On { a, b, s, t } => {
            let object = on(alloc, &values[a as usize], &values[b as usize], s, t);
            section_starts(alloc, step, object)
        }
        Instr::Conic {
            p1,
            p2,
            p3,
            p4,
            p5,
            p6,
        } => conic_starts(alloc, values, step, &[p1, p2, p3, p4, p5, p6]),
    }
}

/// The starts of the object that is made so. A conclusion has always one.
fn section_starts<const D: usize>(
    alloc: Global,
    step: u8,
    object: Result<Value<D>, PolyError>,
) -> Result<Items<(Extensor, Poly<D>)>, PolyError>
    requires rank { IsRank D }
    requires within { step ≤ D }
    requires step { IfOk object (λ value. value.step ≡ step) }
    ensures starts { (ps : List Product) → AnswersLimit object.entry (first_stop [] ps)
        → IfOk object.entry (λ value. seen value.entries ≡ tracked_entries ps)
        → AnswersStarts result (starts_by D step ps) }
    ensures formed { IfOk result (AreStarts D step) }
{
    let value = object?;
    if value.entries.items().is_empty() && (step == 0 || step as usize == D) {
        return conclusion(alloc, step, Poly::new(alloc));
    }
    Ok(value.entries)
}

/// The start of the claim that the six points of these numbers are on a conic.
fn conic_starts<const D: usize>(
    alloc: Global,
    values: &[Value<D>],
    step: u8,
    numbers: &[u32],
) -> Result<Items<(Extensor, Poly<D>)>, PolyError>
    requires rank { IsRank D }
    requires six { length numbers.now ≡ 6 }
    requires points { IsConic D (steps_in values.now) numbers.now step }
    requires small { AllByRecursion IsSmall (values_of values.now) }
    ensures starts { AnswersStarts result (start_made (made_of (map (value_at (values_of values.now)) numbers.now))) }
    ensures formed { IfOk result (AreStarts D step) }
{
    let six = copies(alloc, values, numbers)?;
    let start = conic(alloc, &six)?;
    conclusion(alloc, step, start)
}

/// The one start of a conclusion.
fn conclusion<const D: usize>(
    alloc: Global,
    step: u8,
    start: Poly<D>,
) -> Result<Items<(Extensor, Poly<D>)>, PolyError>
    requires rank { IsRank D }
    requires conclusion { (step ≡ 0) ⊎ (step ≡ D) }
    ensures starts { IfOk result (λ starts. seen starts ≡ ([], start.entry.tracked) ∷ []) }
    ensures memory { IfErr result (λ error. error ≡ PolyError.Memory) }
    ensures formed { IfOk result (AreStarts D step) }
{
    let none = Extensor {
        size: 0,
        points: [0; 4],
    };
    let mut starts = Vec::new(alloc);
    starts.push((none, start))?;
    Ok(Items::of(starts))
}
