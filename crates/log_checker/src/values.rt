//! The values of instructions.

ghost use Rattle.std.specs.Prelude.{◌≡◌, ◌<◌, IfOk, map, length, option_map};
ghost use Rattle.std.specs.List.{AllByRecursion};
ghost use Rattle.coordinate_model.specs.Sequences.{IsRank};
ghost use Rattle.cayley_terms.specs.Starts.{free_value, one_of, value_at};
ghost use Rattle.bracket_poly.specs.Sections.{entry_from};
ghost use Rattle.bracket_poly.specs.Values.{entry_of, value_of};
ghost use Rattle.conic_points.specs.Points.{values_of};
ghost use Rattle.log_checker.specs.Accepted.{claimed_entry};
ghost use Rattle.log_checker.specs.Claims.{claim_of, claims_of, ended_value, rewriting};
ghost use Rattle.log_checker.specs.Ready.{AreScalars, step_at};
ghost use Rattle.log_checker.specs.Seen.{IsCheckable, steps_in};

use bracket_poly::{Items, Key, Poly, Section, Value};
use bracket_terms::{Extensor, Params};
use cay_base::NoMemory;
use std::alloc::Global;
use tableau_order::Tableau;

/// The value of a free point.
pub(crate) fn free_value<const D: usize>(alloc: Global, point: u8) -> Result<Value<D>, NoMemory>
    requires { IsRank D }
    ensures value { IfOk result (λ value. value_of value.entries ≡ free_value 64 point) }
    ensures step { IfOk result (λ value. value.step ≡ 1) }
{
    let extensor = Extensor {
        size: 1,
        points: [point, 0, 0, 0],
    };
    let mut entries = Vec::new(alloc);
    entries.push((extensor, one(alloc)?))?;
    Ok(Value {
        step: 1,
        entries: Items::of(entries),
    })
}

/// The polynomial 1.
fn one<const D: usize>(alloc: Global) -> Result<Poly<D>, NoMemory>
    requires { IsRank D }
    ensures { IfOk result (λ one. one.tracked.sum ≡ one_of 64) }
{
    let key = Key {
        params: Params::one(),
        tableau: Tableau::from_rows(alloc, &[])?,
    };
    let mut one = Poly::new(alloc);
    let Ok(()) = one.add(key, 1) else {
        return Err(NoMemory);
    };
    Ok(one)
}

/// The value that sections with these extensors end with.
pub(crate) fn ended_value<const D: usize>(
    alloc: Global,
    step: u8,
    sections: &[Section<D>],
) -> Result<Value<D>, NoMemory>
    requires rank { IsRank D }
    requires scalars { AreScalars D step (map claimed_entry (claims_of sections.now)) }
    requires ended { AllByRecursion IsCheckable sections.now }
    ensures value { IfOk result (λ value. value_of value.entries ≡ ended_value (claims_of sections.now)) }
    ensures step { IfOk result (λ value. value.step ≡ step) }
{
    let mut entries = Vec::new(alloc);
    for section in sections {
        if let Some(entry) = ended_entry(section)? {
            entries.push(entry)?;
        }
    }
    Ok(Value {
        step,
        entries: Items::of(entries),
    })
}

/// The entry that a section ends with; none where its end is zero.
fn ended_entry<const D: usize>(
    section: &Section<D>,
) -> Result<Option<(Extensor, Poly<D>)>, NoMemory>
    requires { IsCheckable section.now }
    ensures { IfOk result (λ entry. option_map entry_of entry ≡ entry_from (rewriting (claim_of section.now))) }
{
    let Some(end) = &section.end else {
        unreachable!()
    };
    if end.len() == 0 {
        return Ok(None);
    }
    Ok(Some((section.scalar, end.copy()?)))
}

/// A copy of a value.
fn copy<const D: usize>(alloc: Global, value: &Value<D>) -> Result<Value<D>, NoMemory>
    ensures entries { IfOk result (λ copy. copy.entries ≡ value.now.entries) }
    ensures step { IfOk result (λ copy. copy.step ≡ value.now.step) }
{
    let mut entries = Vec::new(alloc);
    for (extensor, poly) in value.entries.items() {
        entries.push((*extensor, poly.copy()?))?;
    }
    Ok(Value {
        step: value.step,
        entries: Items::of(entries),
    })
}

/// Copies of the values with these numbers.
pub(crate) fn copies<const D: usize>(
    alloc: Global,
    values: &[Value<D>],
    numbers: &[u32],
) -> Result<Vec<Value<D>>, NoMemory>
    requires { AllByRecursion (λ n. n < length values.now) numbers.now }
    ensures entries { IfOk result (λ made. values_of made.items ≡ map (value_at (values_of values.now)) numbers.now) }
    ensures steps { IfOk result (λ made. steps_in made.items ≡ map (step_at (steps_in values.now)) numbers.now) }
{
    let mut copies = Vec::new(alloc);
    for number in numbers {
        copies.push(copy(alloc, &values[*number as usize])?)?;
    }
    Ok(copies)
}
