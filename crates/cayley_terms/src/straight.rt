//! Lowering a whole construction.

ghost use Rattle.std.specs.Prelude.{◌≡◌, [], IfOk, sum_by};
ghost use Rattle.construction_reader.specs.Said.{sentences_of};
ghost use Rattle.construction_reader.specs.Grammar.{conclusions, params_of};
ghost use Rattle.construction_reader.specs.Seen.{account};
ghost use Rattle.step_types.specs.Checks.{IsGood};
ghost use Rattle.cayley_terms.specs.Straight.{lowered};
ghost use Rattle.cayley_terms.specs.Meaning.{conclusion_polynomial};
ghost use Rattle.cayley_terms.specs.Kept.{KeepsDefinitions, KeepsMeasures, KeepsNames, IsStraight, polynomial_of};

use crate::items::Items;
use crate::lowering::Lowering;
use crate::program::Program;
use crate::steps::steps;
use cay_base::NoMemory;
use construction_reader::{Construction, Name};
use std::alloc::Global;
use step_types::Checked;

/// What all statements make, where the parameters have these names.
fn lowering(alloc: Global, c: &Construction, params: &[Name]) -> Result<Lowering, NoMemory>
    requires good { IsGood (account c.now) }
    requires one { sum_by conclusions (sentences_of (account c.now).rows) ≡ 1 }
    requires params { params.now ≡ params_of [] (sentences_of (account c.now).rows) }
    ensures { IfOk result (λ lowering. lowering ≡ lowered (account c.now)) }
{
    let mut lowering = Lowering::new(alloc);
    for statement in c.statements.items() {
        lowering.statement(alloc, params, statement)?;
    }
    Ok(lowering)
}

/// The program of a construction that has one conclusion.
pub fn lower(alloc: Global, c: &Checked) -> Result<Program, NoMemory>
    requires one { sum_by conclusions (sentences_of (account c.now).rows) ≡ 1 }
    ensures meaning { IfOk result (KeepsDefinitions (account c.now)) }
    ensures conclusion { IfOk result (λ p. polynomial_of p ≡ conclusion_polynomial (account c.now)) }
    ensures shape { IfOk result (IsStraight (account c.now)) }
    ensures measures { IfOk result (KeepsMeasures (account c.now)) }
    ensures names { IfOk result (KeepsNames (account c.now)) }
{
    let construction = c.construction();
    let lowering = lowering(alloc, construction, c.names().params.items())?;
    let steps = steps(alloc, construction.rank, &lowering.instrs)?;
    Ok(Program {
        rank: construction.rank,
        instrs: Items::of(lowering.instrs),
        steps: Items::of(steps),
        lines: Items::of(lowering.lines),
        defined: Items::of(lowering.defined),
    })
}
