//! Checking a section.
ghost use Rattle.std.specs.Prelude.{◌≡◌, ◌<◌, ◌^◌, IsSome, IfOk, OnOk, IfErr, length};
ghost use Rattle.coordinate_model.specs.BracketPolynomial.{value};
ghost use Rattle.log_checker.specs.Claims.{claim_of};
ghost use Rattle.log_checker.specs.Accepted.{IsAccepted};
ghost use Rattle.log_checker.specs.Refused.{IsSectionCause, FindsKind};

use crate::difference::difference;
use crate::fault::{CheckFault, CheckKind, SectionError};
use crate::laws;
use crate::standard::nonstandard;
use crate::uses::with_uses;
use bracket_poly::laws::sums;
use bracket_poly::{Poly, Section};
use cay_base::NoMemory;
use std::alloc::Global;

/// Accepts exactly where no addition of a multiple passes a limit, the start and all multiples of the uses add up to
/// the end, and the end is normal (Sturmfels, Algorithms in Invariant Theory, section 3.1).
///
/// Else the first of these is told: the first use whose addition passes a limit, the least key at which the sum is not
/// the end, and the least key of the end that is not standard.
pub fn check_section<const D: usize>(alloc: Global, s: &Section<D>) -> Result<(), SectionError<D>>
    requires ended { IsSome s.now.end }
    requires few { length s.now.uses < 2 ^ 32 }
    ensures accepted { OnOk result (IsAccepted D (claim_of s.now)) }
    ensures value { OnOk result (value (claim_of s.now).end ≡ value s.now.start.tracked.sum) }
    ensures refused { IfErr result (IsSectionCause (claim_of s.now)) }
{
    sums();
    laws::sections();
    let Some(end) = &s.end else { unreachable!() };
    let uses = s.uses.items();
    let sum = with_uses(alloc, &s.start, uses)?;
    match end_kind(alloc, &sum, end)? {
        Some(kind) => Err(SectionError::Fault(CheckFault {
            use_number: uses.len() as u32,
            kind,
        })),
        None => Ok(()),
    }
}

/// What is wrong with the end, where this is the sum of the start and all multiples; nothing where it is right.
fn end_kind<const D: usize>(
    alloc: Global,
    sum: &Poly<D>,
    end: &Poly<D>,
) -> Result<Option<CheckKind<D>>, NoMemory>
    ensures { IfOk result (FindsKind sum.now.tracked.sum end.now.tracked.sum) }
{
    if let Some(found) = difference(alloc, sum, end)? {
        return Ok(Some(CheckKind::Differs(found.key, found.computed, found.written)));
    }
    match nonstandard(alloc, end)? {
        Some(key) => Ok(Some(CheckKind::NotStandard(key))),
        None => Ok(None),
    }
}
