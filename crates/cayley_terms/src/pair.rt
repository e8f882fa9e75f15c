//! Instructions that make an object of two.

ghost use Rattle.std.specs.Prelude.{◌≡◌};
ghost use Rattle.cayley_terms.specs.Pairs.{pair_instr};

use crate::instr::Instr;

/// Which of both makes an object of two.
#[derive(Clone, Copy)]
pub enum Pair {
    Join,
    Meet,
}

impl Pair {
    pub fn of(self, a: u32, b: u32) -> Instr
        ensures { result ≡ pair_instr self a b }
    {
        match self {
            Pair::Join => Instr::Join(a, b),
            Pair::Meet => Instr::Meet(a, b),
        }
    }
}
