//! The steps of what instructions make.

ghost use Rattle.std.specs.Prelude.{◌≡◌, [], map, IfOk};
ghost use Rattle.coordinate_model.specs.Sequences.{IsRank};
ghost use Rattle.cayley_terms.specs.Instrs.{measures};
ghost use Rattle.cayley_terms.specs.Programs.{EndsInOne};
ghost use Rattle.cayley_terms.specs.Steps.{step_made, IsComputed};

use crate::instr::Instr;
use cay_base::NoMemory;
use std::alloc::Global;

/// The step of what an instruction makes behind those of these steps.
fn step(rank: u8, before: &[u8], instr: &Instr) -> u8
    requires { IsComputed rank before.now instr.now }
    ensures { result ≡ step_made rank before.now instr.now }
{
    match *instr {
        Instr::Free(_) | Instr::On { .. } => 1,
        Instr::Join(a, b) => before[a as usize] + before[b as usize],
        Instr::Meet(a, b) => before[a as usize] + before[b as usize] - rank,
        Instr::Conic { .. } => 0,
    }
}

/// The step of what each instruction makes.
pub fn steps(alloc: Global, rank: u8, instrs: &[Instr]) -> Result<Vec<u8>, NoMemory>
    requires rank { IsRank rank }
    requires each { EndsInOne rank [] instrs.now }
    ensures { IfOk result (λ steps. steps.items ≡ map (λ m. m.step) (measures rank instrs.now)) }
{
    let mut steps = Vec::new(alloc);
    for instr in instrs {
        let made = step(rank, &steps, instr);
        steps.push(made)?;
    }
    Ok(steps)
}
