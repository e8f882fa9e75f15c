//! Whole programs.
ghost use Rattle.cayley_terms.specs.Programs.{IsProgram, IsProgram-prop};

use crate::instr::Instr;
use crate::items::Items;

/// A straight list of instructions. Each names earlier ones; all but the last make points, lines and planes, and the
/// last makes what the conclusion says to be zero.
#[derive(Debug, Drop)]
pub struct Program {
    pub rank: u8,
    pub instrs: Items<Instr>,
    /// The step of what each instruction makes.
    pub steps: Items<u8>,
    /// The line of the statement of each instruction.
    pub lines: Items<u32>,
    /// For an instruction that ends a definition, the definition's number from 0.
    pub defined: Items<Option<u32>>,
    pub ghost formed: { IsProgram rank instrs steps lines defined } by { IsProgram-prop rank instrs steps lines defined },
}
