//! Checking the sections of an object against its starts.
ghost use Rattle.std.specs.Prelude.{◌≡◌, ◌↔◌, ◌+◌, ◌<◌, ◌^◌, IsTrue, Ok, OnOk, IfErr, length};
ghost use Rattle.std.specs.List.{AllByRecursion};
ghost use Rattle.bracket_terms.specs.Joins.{points_of};
ghost use Rattle.shuffle_meet.specs.Seen.{seen};
ghost use Rattle.log_checker.specs.Accepted.{AreSectionsAccepted, IsAccepted};
ghost use Rattle.log_checker.specs.Checked.{UnlessMemory};
ghost use Rattle.log_checker.specs.Claims.{claim_of, claims_of};
ghost use Rattle.log_checker.specs.ProofRefused.{AreSectionsRefused, HaveScalars, IsObjectRefused, IsSectionRefused};
ghost use Rattle.log_checker.specs.Seen.{IsCheckable};

use crate::difference::difference;
use crate::fault::SectionError;
use crate::refusal::ProofRefusal;
use crate::section::check_section;
use bracket_poly::{Poly, Section};
use bracket_terms::Extensor;
use std::alloc::Global;

/// Accepts where the sections have the extensors and the polynomials of these starts, and each is accepted. Else the
/// first refusal is told: of the scalars of the object of this number, or of a section; so many come before these.
pub(crate) fn check_object<const D: usize>(
    alloc: Global,
    starts: &[(Extensor, Poly<D>)],
    sections: &[Section<D>],
    object: u32,
    before: u32,
) -> Result<(), ProofRefusal<D>>
    requires checkable { AllByRecursion IsCheckable sections.now }
    requires few { before + length sections.now < 2 ^ 32 }
    ensures accepted { OnOk result (AreSectionsAccepted D (seen starts.now) (claims_of sections.now)) }
    ensures refused { IfErr result (UnlessMemory
        (IsObjectRefused (Ok (seen starts.now)) (claims_of sections.now) object (before + 1))) }
{
    if !have_scalars(starts, sections) {
        return Err(ProofRefusal::Scalars(object));
    }
    check_sections(alloc, starts, sections, before)
}

/// Whether the sections have the extensors of the starts, in order.
fn have_scalars<const D: usize>(starts: &[(Extensor, Poly<D>)], sections: &[Section<D>]) -> bool
    ensures { IsTrue result ↔ HaveScalars (seen starts.now) (claims_of sections.now) }
{
    if starts.len() != sections.len() {
        return false;
    }
    for (number, section) in sections.iter().enumerate() {
        if !same_points(&starts[number].0, &section.scalar) {
            return false;
        }
    }
    true
}

/// Whether two extensors have the same points.
fn same_points(first: &Extensor, second: &Extensor) -> bool
    ensures { IsTrue result ↔ (points_of first.now ≡ points_of second.now) }
{
    first.size == second.size && first.points == second.points
}

/// Checks each section against the start at its place.
fn check_sections<const D: usize>(
    alloc: Global,
    starts: &[(Extensor, Poly<D>)],
    sections: &[Section<D>],
    before: u32,
) -> Result<(), ProofRefusal<D>>
    requires scalars { HaveScalars (seen starts.now) (claims_of sections.now) }
    requires checkable { AllByRecursion IsCheckable sections.now }
    requires few { before + length sections.now < 2 ^ 32 }
    ensures accepted { OnOk result (AreSectionsAccepted D (seen starts.now) (claims_of sections.now)) }
    ensures refused { IfErr result (UnlessMemory
        (AreSectionsRefused (seen starts.now) (claims_of sections.now) (before + 1))) }
{
    for (number, section) in sections.iter().enumerate() {
        check_from(
            alloc,
            &starts[number].1,
            section,
            before + number as u32 + 1,
        )?;
    }
    Ok(())
}

/// Accepts where the section of this number begins with this start and is accepted.
fn check_from<const D: usize>(
    alloc: Global,
    start: &Poly<D>,
    section: &Section<D>,
    number: u32,
) -> Result<(), ProofRefusal<D>>
    requires checkable { IsCheckable section.now }
    ensures start { OnOk result (start.now.tracked.sum ≡ section.now.start.tracked.sum) }
    ensures accepted { OnOk result (IsAccepted D (claim_of section.now)) }
    ensures refused { IfErr result (UnlessMemory
        (IsSectionRefused start.now.tracked.sum (claim_of section.now) number)) }
{
    if let Some(found) = difference(alloc, start, &section.start)? {
        return Err(ProofRefusal::Start {
            section: number,
            key: found.key,
            computed: found.computed,
            written: found.written,
        });
    }
    match check_section(alloc, section) {
        Ok(()) => Ok(()),
        Err(SectionError::Fault(fault)) => Err(ProofRefusal::Section(number, fault)),
        Err(SectionError::Memory) => Err(ProofRefusal::Memory),
    }
}
