//! The end of a run of which nothing is written.

ghost use Rattle.std.specs.Prelude.{◌≡◌, IfOk};
ghost use Rattle.construction_reader.specs.Seen.{account};
ghost use Rattle.prover.specs.Ends.{IsEnd, same_terms};

use crate::nowhere::Nowhere;
use bracket_poly::Poly;
use cay_base::NoMemory;
use cayley_run::{IntoError, Options, StopKind, run_into};
use cayley_terms::lower;
use std::alloc::Global;
use step_types::Checked;

/// To what a run came.
#[derive(Drop)]
pub enum End<const D: usize> {
    /// The normal polynomial of the conclusion.
    Normal(Poly<D>),
    /// A limit that was passed.
    Stopped(StopKind),
}

/// Runs a construction, and keeps only what its conclusion ends with.
pub fn end_of<const D: usize>(
    alloc: Global,
    options: Options,
    checked: &Checked,
) -> Result<End<D>, NoMemory>
    requires { (account checked.now).rank ≡ D }
    ensures { IfOk result (λ end. IsEnd options (account checked.now) end) }
{
    let program = lower(alloc, checked)?;
    match run_into::<D, Nowhere>(alloc, &program, checked.names(), options, &mut Nowhere) {
        Ok(summary) => Ok(End::Normal(summary.end)),
        Err(IntoError::Stop(kind)) => Ok(End::Stopped(kind)),
        // Writing nowhere does not fail.
        Err(IntoError::Write | IntoError::Memory) => Err(NoMemory),
    }
}

/// Whether both polynomials have the same terms.
pub fn same_terms<const D: usize>(first: &Poly<D>, second: &Poly<D>) -> bool
    ensures { result ≡ same_terms first.now.tracked.sum second.now.tracked.sum }
{
    let mut others = second.terms();
    for (key, c) in first.terms() {
        let Some((other, d)) = others.next() else {
            return false;
        };
        if key != other {
            return false;
        }
        if c != d {
            return false;
        }
    }
    others.next().is_none()
}
