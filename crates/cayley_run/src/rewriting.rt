//! How one polynomial is made normal: by passes of contraction where they are asked for, and then by turns.

ghost use Rattle.std.specs.Prelude.{◌≡◌, [], true, ◌++◌, Some, None, IfOk, OnOk, map};
ghost use Rattle.bracket_poly.specs.Products.{HasDegree};
ghost use Rattle.bracket_terms.specs.LogUses.{use_of};
ghost use Rattle.straightening.specs.Runs.{run};
ghost use Rattle.cayley_run.specs.Sections.{work};
ghost use Rattle.cayley_run.specs.Seen.{IsRewriting, IsBehind, RewritesSo};

use crate::answer::StopKind;
use bracket_poly::{Items, Poly};
use bracket_terms::LogUse;
use cay_base::NoMemory;
use contraction::ContractError;
use std::alloc::Global;
use straightening::{Partial, StopError, Straight, straighten_from};

/// How one polynomial was rewritten.
#[derive(Drop)]
pub(crate) struct Rewriting<const D: usize> {
    /// The passes, and then the turns.
    pub uses: Items<LogUse<D>>,
    /// How many of them are turns.
    pub turns: u64,
    pub end: Option<Poly<D>>,
    pub stop: Option<StopKind>,
}

/// Makes a start normal, by passes where they are asked for, and then with at most so many turns.
pub(crate) fn rewrite<const D: usize>(
    alloc: Global,
    contract: bool,
    budget: u64,
    start: &Poly<D>,
) -> Result<Rewriting<D>, NoMemory>
    requires { HasDegree 1000 start.now.tracked.sum }
    ensures work { IfOk result (λ r. IsRewriting r (work contract budget start.now.tracked).passes.uses
        (work contract budget start.now.tracked).turns) }
    ensures met { IfOk result (RewritesSo start.now.tracked) }
{
    if contract {
        contracted(alloc, budget, start.copy()?)
    } else {
        straightened(alloc, budget, start)
    }
}

/// Makes passes, and then turns.
fn contracted<const D: usize>(
    alloc: Global,
    budget: u64,
    start: Poly<D>,
) -> Result<Rewriting<D>, NoMemory>
    requires { HasDegree 1000 start.tracked.sum }
    ensures work { IfOk result (λ r. IsRewriting r (work true budget start.entry.tracked).passes.uses
        (work true budget start.entry.tracked).turns) }
    ensures met { IfOk result (RewritesSo start.entry.tracked) }
{
    match contraction::contract(alloc, start) {
        Ok(done) => {
            let turned = straightened(alloc, budget, &done.poly)?;
            behind(alloc, done.uses, turned)
        }
        Err(ContractError::Coefficient(done)) => Ok(stopped(done, StopKind::Coefficient)),
        Err(ContractError::Keys(done)) => Ok(stopped(done, StopKind::Keys)),
        Err(ContractError::Memory) => Err(NoMemory),
    }
}

/// Makes turns alone.
fn straightened<const D: usize>(
    alloc: Global,
    budget: u64,
    start: &Poly<D>,
) -> Result<Rewriting<D>, NoMemory>
    requires { HasDegree 1000 start.now.tracked.sum }
    ensures run { IfOk result (λ r. IsRewriting r [] (run budget start.now.tracked)) }
    ensures met { IfOk result (RewritesSo start.now.tracked) }
{
    match straighten_from(alloc, start, budget) {
        Ok(
            Straight {
                normal,
                uses,
                turns,
            },
        ) => Ok(Rewriting {
            uses,
            turns,
            end: Some(normal),
            stop: None,
        }),
        Err(StopError::Turns(done)) => Ok(stopped(done, StopKind::Turns)),
        Err(StopError::Coefficient(done)) => Ok(stopped(done, StopKind::Coefficient)),
        Err(StopError::Keys(done)) => Ok(stopped(done, StopKind::Keys)),
        Err(StopError::Memory) => Err(NoMemory),
    }
}

/// Uses behind which the run stopped.
fn stopped<const D: usize>(done: Partial<D>, kind: StopKind) -> Rewriting<D>
    ensures uses { result.uses ≡ done.entry.uses }
    ensures turns { result.turns ≡ done.entry.turns }
    ensures end { result.end ≡ None }
    ensures stop { result.stop ≡ Some kind }
{
    Rewriting {
        uses: done.uses,
        turns: done.turns,
        end: None,
        stop: Some(kind),
    }
}

/// The turns with these passes before them.
fn behind<const D: usize>(
    alloc: Global,
    passes: Items<LogUse<D>>,
    turned: Rewriting<D>,
) -> Result<Rewriting<D>, NoMemory>
    ensures { IfOk result (λ r. IsBehind r turned.entry (map use_of passes.entry)) }
{
    if passes.items().is_empty() {
        return Ok(turned);
    }
    let mut uses = Vec::new(alloc);
    add_copies(alloc, &mut uses, passes.items())?;
    add_copies(alloc, &mut uses, turned.uses.items())?;
    Ok(Rewriting {
        uses: Items::of(uses),
        turns: turned.turns,
        end: turned.end,
        stop: turned.stop,
    })
}

/// Adds copies of these uses.
fn add_copies<const D: usize>(
    alloc: Global,
    uses: &mut Vec<LogUse<D>>,
    more: &[LogUse<D>],
) -> Result<(), NoMemory>
    ensures { OnOk result (map use_of uses.new.items ≡ map use_of uses.old.items ++ map use_of more.now) }
{
    for log_use in more {
        uses.push(copy(alloc, log_use)?)?;
    }
    Ok(())
}

/// A copy of a use.
fn copy<const D: usize>(alloc: Global, log_use: &LogUse<D>) -> Result<LogUse<D>, NoMemory>
    ensures { IfOk result (λ copy. use_of copy ≡ use_of log_use.now) }
{
    Ok(LogUse {
        multiplier: log_use.multiplier,
        params: log_use.params,
        rest: Items::of(Vec::from_slice(alloc, log_use.rest.items())?),
        alpha: Items::of(Vec::from_slice(alloc, log_use.alpha.items())?),
        beta: Items::of(Vec::from_slice(alloc, log_use.beta.items())?),
        gamma: Items::of(Vec::from_slice(alloc, log_use.gamma.items())?),
    })
}
