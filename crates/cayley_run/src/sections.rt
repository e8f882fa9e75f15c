//! The sections of an object.

ghost use Rattle.std.specs.Prelude.{◌≡◌, IfOk};
ghost use Rattle.coordinate_model.specs.Sequences.{IsRank};
ghost use Rattle.cayley_run.specs.MetKeys.{HaveMet};
ghost use Rattle.cayley_run.specs.Ready.{AreSmall};
ghost use Rattle.cayley_run.specs.Sections.{run_starts};
ghost use Rattle.cayley_run.specs.Seen.{sections_of, starts_of};

use crate::answer::StopKind;
use crate::rewriting::rewrite;
use bracket_poly::{Poly, Section};
use bracket_terms::Extensor;
use cay_base::NoMemory;
use std::alloc::Global;

/// Sections, the turns that are left behind them, and what stopped the last of them, if anything did.
#[derive(Drop)]
pub(crate) struct Sections<const D: usize> {
    pub sections: Vec<Section<D>>,
    pub left: u64,
    pub stop: Option<StopKind>,
}

/// The sections of these starts, with passes where they are asked for, and with at most so many turns.
pub(crate) fn run_starts<const D: usize>(
    alloc: Global,
    contract: bool,
    budget: u64,
    starts: &[(Extensor, Poly<D>)],
) -> Result<Sections<D>, NoMemory>
    requires rank { IsRank D }
    requires small { AreSmall (starts_of starts.now) }
    ensures sections { IfOk result (λ sections. sections_of sections
        ≡ run_starts contract budget (starts_of starts.now)) }
    ensures met { IfOk result (λ sections. HaveMet sections.sections.items (starts_of starts.now)) }
{
    let mut done = Sections {
        sections: Vec::new(alloc),
        left: budget,
        stop: None,
    };
    for (scalar, start) in starts {
        let rewriting = rewrite(alloc, contract, done.left, start)?;
        done.left -= rewriting.turns;
        done.stop = rewriting.stop;
        done.sections.push(Section {
            scalar: *scalar,
            start: start.copy()?,
            uses: rewriting.uses,
            end: rewriting.end,
        })?;
        if done.stop.is_some() {
            return Ok(done);
        }
    }
    Ok(done)
}
