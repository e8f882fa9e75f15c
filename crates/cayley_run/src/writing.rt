//! The sections of an object, each written when it ends.

ghost use Rattle.std.specs.Prelude.{◌≡◌, ◌++◌, ◌-◌, [], flat_map, length, IfOk, OnOk};
ghost use Rattle.std.specs.List.{AllByRecursion, cons_option};
ghost use Rattle.std.specs.Option.{option_map};
ghost use Rattle.coordinate_model.specs.Sequences.{IsRank};
ghost use Rattle.bracket_poly.specs.Products.{HasDegree};
ghost use Rattle.bracket_poly.specs.Sections.{entry_from, rewritten_of};
ghost use Rattle.bracket_poly.specs.Values.{value_of};
ghost use Rattle.proof_text.specs.Proofs.{IsSectionNamed, section_lines};
ghost use Rattle.proof_text.specs.Writes.{Writes};
ghost use Rattle.cayley_run.specs.Ready.{AreSmall};
ghost use Rattle.cayley_run.specs.Sections.{run_starts, rewritten, work};
ghost use Rattle.cayley_run.specs.Seen.{start_of, starts_of};
ghost use Rattle.cayley_run.specs.Endings.{IsEnding, EndsOne, put_of};

use crate::answer::StopKind;
use crate::rewriting::{Rewriting, rewrite};
use bracket_poly::{Poly, Section};
use bracket_terms::Extensor;
use cay_base::{NoMemory, Sink};
use proof_text::{WriteError, write_section};
use std::alloc::Global;
use step_types::Names;

/// The entries with which sections end, the turns that are left behind them, and what stopped the last of them, if
/// anything did.
#[derive(Drop)]
pub(crate) struct Ending<const D: usize> {
    pub entries: Vec<(Extensor, Poly<D>)>,
    pub left: u64,
    pub stop: Option<StopKind>,
}

/// Writes the sections of these starts, each when it ends, and keeps their ends alone.
pub(crate) fn write_starts<const D: usize, K: Sink>(
    alloc: Global,
    names: &Names,
    contract: bool,
    budget: u64,
    starts: &[(Extensor, Poly<D>)],
    sink: &mut K,
) -> Result<Ending<D>, WriteError>
    requires rank { IsRank D }
    requires small { AreSmall (starts_of starts.now) }
    requires named { AllByRecursion (IsSectionNamed names.now)
        (run_starts contract budget (starts_of starts.now)).sections }
    ensures ending { IfOk result (λ ending. IsEnding ending (run_starts contract budget (starts_of starts.now))) }
    ensures writes { Writes (K.held sink.old) (K.held sink.new) (K.faults sink.old) (K.faults sink.new) (put_of result)
        (flat_map (section_lines names.now) (run_starts contract budget (starts_of starts.now)).sections) }
{
    let mut ending = Ending {
        entries: Vec::new(alloc),
        left: budget,
        stop: None,
    };
    for start in starts {
        if let Err(error) = write_start(alloc, names, contract, &mut ending, start, sink) {
            return Err(error);
        }
        if ending.stop.is_some() {
            return Ok(ending);
        }
    }
    Ok(ending)
}

/// Writes the section of one start, and keeps its end.
fn write_start<const D: usize, K: Sink>(
    alloc: Global,
    names: &Names,
    contract: bool,
    ending: &mut Ending<D>,
    start: &(Extensor, Poly<D>),
    sink: &mut K,
) -> Result<(), WriteError>
    requires rank { IsRank D }
    requires small { HasDegree 1000 start.now.1.tracked.sum }
    requires named { IsSectionNamed names.now
        (rewritten (start_of start.now) (work contract ending.old.left start.now.1.tracked)) }
    ensures ends { OnOk result (EndsOne ending.old ending.new (start_of start.now)
        (work contract ending.old.left start.now.1.tracked)) }
    ensures writes { Writes (K.held sink.old) (K.held sink.new) (K.faults sink.old) (K.faults sink.new) result
        (section_lines names.now (rewritten (start_of start.now)
        (work contract ending.old.left start.now.1.tracked))) }
{
    let rewriting = rewrite(alloc, contract, ending.left, &start.1)?;
    ending.left -= rewriting.turns;
    ending.stop = rewriting.stop;
    let section = section_of(start, rewriting)?;
    put_section(alloc, names, &section, sink)?;
    Ok(keep_end(alloc, &mut ending.entries, &section)?)
}

/// The section of a start that was rewritten so.
fn section_of<const D: usize>(
    start: &(Extensor, Poly<D>),
    rewriting: Rewriting<D>,
) -> Result<Section<D>, NoMemory>
    ensures scalar { IfOk result (λ section. section.scalar ≡ start.now.0) }
    ensures start { IfOk result (λ section. section.start ≡ start.now.1) }
    ensures uses { IfOk result (λ section. section.uses ≡ rewriting.entry.uses) }
    ensures end { IfOk result (λ section. section.end ≡ rewriting.entry.end) }
{
    Ok(Section {
        scalar: start.0,
        start: start.1.copy()?,
        uses: rewriting.uses,
        end: rewriting.end,
    })
}

/// Writes the section.
fn put_section<const D: usize, K: Sink>(
    alloc: Global,
    names: &Names,
    section: &Section<D>,
    sink: &mut K,
) -> Result<(), WriteError>
    requires { IsSectionNamed names.now (rewritten_of section.now) }
    ensures { Writes (K.held sink.old) (K.held sink.new) (K.faults sink.old) (K.faults sink.new) result
        (section_lines names.now (rewritten_of section.now)) }
{
    write_section(alloc, names, section, sink)
}

/// Keeps the terms of a section's end, where it has one.
fn keep_end<const D: usize>(
    alloc: Global,
    entries: &mut Vec<(Extensor, Poly<D>)>,
    section: &Section<D>,
) -> Result<(), NoMemory>
    requires { IsRank D }
    ensures { OnOk result (value_of entries.new.items
        ≡ value_of entries.old.items ++ cons_option (entry_from (rewritten_of section.now)) []) }
{
    let Some(end) = &section.end else {
        return Ok(());
    };
    if end.len() == 0 {
        return Ok(());
    }
    Ok(entries.push((section.scalar, terms_of(alloc, end)?))?)
}

/// The terms of a polynomial alone: it forgets the other keys that it has met, of which a long run leaves many.
fn terms_of<const D: usize>(alloc: Global, polynomial: &Poly<D>) -> Result<Poly<D>, NoMemory>
    requires { IsRank D }
    ensures { IfOk result (λ terms. terms.tracked.sum ≡ polynomial.now.tracked.sum) }
{
    let mut terms = Poly::new(alloc);
    match terms.add_terms(polynomial) {
        Ok(()) => Ok(terms),
        Err(_) => Err(NoMemory),
    }
}
