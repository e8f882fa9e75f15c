//! The three points that a definition takes.

ghost use Rattle.std.specs.Prelude.{◌≡◌, ◌<◌, IfOk};
ghost use Rattle.sample_maker.specs.Sample.{next, chosen};

use cay_base::NoMemory;
use std::alloc::Global;

/// Three different points from B to F, by their letters.
#[derive(Clone, Copy, Debug)]
pub struct Choice {
    pub u: u8,
    pub v: u8,
    pub w: u8,
}

/// The number behind x in the linear congruential sequence that the choices come from.
pub fn next(x: u32) -> u32
    requires { x < 7875 }
    ensures next { result ≡ next x }
    ensures within { result < 7875 }
{
    (421 * x + 1663) % 7875
}

/// The choice of this number.
pub fn chosen(alloc: Global, number: u32) -> Result<Choice, NoMemory>
    requires { number < 60 }
    ensures { IfOk result (λ choice. choice ≡ chosen number) }
{
    let mut left = Vec::from_slice(alloc, b"BCDEF")?;
    let u = left.remove((number % 5) as usize);
    let v = left.remove((number / 5 % 4) as usize);
    let w = left.remove((number / 20) as usize);
    Ok(Choice { u, v, w })
}
