//! Adding the multiples of the uses of a section to its start.
ghost use Rattle.std.specs.Prelude.{◌≡◌, ◌<◌, ◌^◌, IfOk, IfErr, OnOk, None, length, map};
ghost use Rattle.bracket_terms.specs.LogUses.{use_of};
ghost use Rattle.log_checker.specs.Accepted.{behind_uses, first_refused};
ghost use Rattle.log_checker.specs.Refused.{IsUseCause, IsRefusal};

use crate::fault::{CheckFault, CheckKind, SectionError};
use bracket_poly::{ArenaTable, Poly, PolyError};
use bracket_terms::LogUse;
use bumpalo::Bump;
use std::alloc::Global;
use syzygies::add_multiple_in;

/// The start with the multiples of all uses added, one after another. An error tells the first use that passes a limit.
pub(crate) fn with_uses<const D: usize>(
    alloc: Global,
    start: &Poly<D>,
    uses: &[LogUse<D>],
) -> Result<Poly<D>, SectionError<D>>
    requires { length uses.now < 2 ^ 32 }
    ensures sum { IfOk result (λ sum. sum.tracked ≡ behind_uses start.now.tracked (map use_of uses.now)) }
    ensures within { IfOk result (λ sum. first_refused 1 start.now.tracked (map use_of uses.now) ≡ None) }
    ensures refused { IfErr result (IsUseCause (first_refused 1 start.now.tracked (map use_of uses.now))) }
{
    let arena = Bump::new(alloc);
    let mut sum = ArenaTable::load(start, &arena)?;
    add_uses(alloc, &mut sum, uses)?;
    let (sum, _) = sum.finish()?;
    Ok(sum)
}

/// Adds the multiples of the uses over an arena, which asks for no order of the terms, up to the first that is refused.
fn add_uses<'a, const D: usize>(
    alloc: Global,
    sum: &mut ArenaTable<'a, D>,
    uses: &[LogUse<D>],
) -> Result<(), SectionError<D>>
    requires { length uses.now < 2 ^ 32 }
    ensures sum { OnOk result (sum.new.tracked ≡ behind_uses sum.old.tracked (map use_of uses.now)) }
    ensures within { OnOk result (first_refused 1 sum.old.tracked (map use_of uses.now) ≡ None) }
    ensures refused { IfErr result (IsUseCause (first_refused 1 sum.old.tracked (map use_of uses.now))) }
{
    let mut buffer = Vec::new(alloc);
    for (done, log_use) in uses.iter().enumerate() {
        if let Err(error) = add_multiple_in(alloc, sum, &mut buffer, log_use) {
            return Err(refusal(done as u32 + 1, error));
        }
    }
    Ok(())
}

/// The use of this number is refused for this error.
fn refusal<const D: usize>(use_number: u32, error: PolyError) -> SectionError<D>
    ensures { IsRefusal use_number error result }
{
    let kind = match error {
        PolyError::Coefficient => CheckKind::Coefficient,
        PolyError::Keys => CheckKind::Keys,
        PolyError::Memory => return SectionError::Memory,
    };
    SectionError::Fault(CheckFault { use_number, kind })
}
