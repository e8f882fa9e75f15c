//! A whole sample.

ghost use Rattle.std.specs.Prelude.{◌≡◌, ◌≤◌, ◌++◌, map, IfOk, OnOk};
ghost use Rattle.std.specs.List.{range_with_len};
ghost use Rattle.construction_reader.specs.Said.{row};
ghost use Rattle.construction_reader.specs.Seen.{account};
ghost use Rattle.step_types.specs.Checks.{IsGood};
ghost use Rattle.sample_maker.specs.Sample.{definition_row, rows_of, sample_of};

use crate::choice::{chosen, next};
use crate::sentences::{conclusion, definition, free, made};
use cay_base::NoMemory;
use construction_reader::{Construction, Items, Statement};
use std::alloc::Global;

/// Puts the definitions behind the statements, each on a line of its own.
fn add_definitions(
    alloc: Global,
    number: u32,
    statements: &mut Vec<Statement>,
) -> Result<(), NoMemory>
    requires { number ≤ 12 }
    ensures { OnOk result (map row statements.new.items
        ≡ map row statements.old.items ++ map (definition_row number) (range_with_len 1 number)) }
{
    let mut x = number;
    for k in 1..number + 1 {
        x = next(x);
        let choice = chosen(alloc, x % 60)?;
        let body = definition(alloc, made(alloc, k)?, made(alloc, k - 1)?, choice)?;
        statements.push(Statement { line: k + 3, body })?;
    }
    Ok(())
}

/// All statements of the sample.
fn statements(alloc: Global, number: u32) -> Result<Vec<Statement>, NoMemory>
    requires { number ≤ 12 }
    ensures { IfOk result (λ statements. map row statements.items ≡ rows_of number) }
{
    let mut statements = Vec::new(alloc);
    let body = free(alloc)?;
    statements.push(Statement { line: 3, body })?;
    add_definitions(alloc, number, &mut statements)?;
    let body = conclusion(alloc, made(alloc, number)?)?;
    let line = number + 4;
    statements.push(Statement { line, body })?;
    Ok(statements)
}

/// The sample of a number from 1 to 12: as many points, each the meet of two lines through points before it, and the
/// claim that the last is on the line through A and B.
pub fn sample(alloc: Global, number: u32) -> Result<Construction, NoMemory>
    requires least { 1 ≤ number }
    requires most { number ≤ 12 }
    ensures same { IfOk result (λ c. account c ≡ sample_of number) }
    ensures good { IfOk result (λ c. IsGood (account c)) }
{
    let statements = Items::of(statements(alloc, number)?);
    Ok(Construction {
        rank: 3,
        statements,
    })
}
