//! The steps of a program's objects.

ghost use Rattle.std.specs.Prelude.{◌≡◌, ◌++◌, ◌∷◌, [], zip, IfOk, OnOk};
ghost use Rattle.log_checker.specs.Objects.{object_steps, program_steps};

use cay_base::NoMemory;
use cayley_terms::{Instr, Program};
use std::alloc::Global;

/// The steps of the objects that a program makes, in order.
pub fn program_steps(alloc: Global, program: &Program) -> Result<Vec<u8>, NoMemory>
    ensures { IfOk result (λ steps. steps.items ≡ program_steps program.now) }
{
    let mut objects = Vec::new(alloc);
    let steps = program.steps.items();
    for (number, instr) in program.instrs.items().iter().enumerate() {
        add_step(&mut objects, *instr, steps[number])?;
    }
    Ok(objects)
}

/// Adds the step of what an instruction makes, unless that is a free point.
fn add_step(objects: &mut Vec<u8>, instr: Instr, step: u8) -> Result<(), NoMemory>
    ensures { OnOk result (objects.new.items ≡ objects.old.items ++ object_steps ((instr, step) ∷ [])) }
{
    if let Instr::Free(_) = instr {
        return Ok(());
    }
    Ok(objects.push(step)?)
}
