//! The modes.

ghost use Rattle.prover.specs.Modes.{IsShort, HasNumber};
ghost use Rattle.prover.specs.Outcome.{Tells};

mod check;
mod prove;
mod same;
mod sample;

use crate::mode::Mode;
use crate::status::Status;
use cay_base::Sink;
use std::alloc::Global;

/// Does what the mode does with an input that is not too long for it.
pub fn tell<K: Sink>(alloc: Global, mode: Mode, input: &[u8], sink: &mut K) -> Status
    requires short { IsShort mode input.now }
    requires number { HasNumber mode }
    ensures { Tells mode input.now result (K.held sink.old) (K.held sink.new) (K.faults sink.old) (K.faults sink.new) }
{
    match mode {
        Mode::Prove(options) => prove::prove(alloc, options, input, sink),
        Mode::Check => check::check(alloc, input, sink),
        Mode::Same(options) => same::same(alloc, options, input, sink),
        Mode::Sample { number, budget } => sample::sample(alloc, number, budget, input, sink),
    }
}
