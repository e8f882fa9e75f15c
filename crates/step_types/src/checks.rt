//! Checking a whole construction.

ghost use Rattle.std.specs.Prelude.{◌≡◌, ◌++◌, map, OnOk, IfOk, IfErr};
ghost use Rattle.std.specs.List.{flat_map};
ghost use Rattle.construction_reader.specs.Said.{row, sentences_of};
ghost use Rattle.construction_reader.specs.Seen.{account};
ghost use Rattle.step_types.specs.Outcome.{Gives};
ghost use Rattle.step_types.specs.Checks.{checked, IsGood, IsCause, free_in};
ghost use Rattle.step_types.specs.Seen.{known};
ghost use Rattle.step_types.specs.declared.fault.CheckError.TheVariants as errors;

use crate::checked::Checked;
use crate::fault::CheckError;
use crate::names::Names;
use crate::progress::Progress;
use cay_base::NoMemory;
use construction_reader::{Body, Construction, Items, Name, Statement};
use std::alloc::Global;

/// The names of the `free` lines, in order.
fn free_names(alloc: Global, statements: &[Statement]) -> Result<Vec<Name>, NoMemory>
    ensures { IfOk result (λ names. names.items ≡ flat_map free_in (sentences_of (map row statements.now))) }
{
    let mut free = Vec::new(alloc);
    for statement in statements {
        if let Body::Free(names) = &statement.body {
            add_names(alloc, &mut free, names.items())?;
        }
    }
    Ok(free)
}

fn add_names(alloc: Global, all: &mut Vec<Name>, names: &[Name]) -> Result<(), NoMemory>
    ensures { OnOk result (all.new.items ≡ all.old.items ++ names.now) }
{
    for name in names {
        all.push(Name::new(alloc, name.bytes())?)?;
    }
    Ok(())
}

/// What the statements make and use, or the first fault.
fn progress(alloc: Global, c: &Construction) -> Result<Progress, CheckError>
    ensures { Gives known result (checked (account c.now)) }
{
    let rank = u64::from(c.rank);
    let mut progress = Progress::new(alloc);
    for statement in c.statements.items() {
        progress.take(alloc, rank, statement)?;
    }
    Ok(progress)
}

/// Checks that no statement breaks a step rule.
pub fn check(alloc: Global, c: Construction) -> Result<Checked, CheckError>
    ensures same { IfOk result (λ checked. checked ≡ c) }
    ensures good { IfOk result (λ _. IsGood (account c)) }
    ensures only { IsGood (account c) → IfErr result (λ error. error ≡ errors.Memory) }
    ensures fault { IfErr result (IsCause (account c)) }
{
    let progress = progress(alloc, &c)?;
    let free = free_names(alloc, c.statements.items())?;
    let names = Names {
        rank: c.rank,
        free: Items::of(free),
        params: Items::of(progress.params),
    };
    Ok(Checked::of(c, names, progress.made))
}
