//! What the program can be asked to do.

ghost use Rattle.std.specs.Prelude.{◌≡◌};
ghost use Rattle.prover.specs.Modes.{longest_input};

use cayley_run::Options;

/// What the program is asked to do.
#[derive(Clone, Copy, Debug)]
pub enum Mode {
    /// To prove or refute the conclusion of a text, and to write the whole proof.
    Prove(Options),
    /// To check the proof behind a text.
    Check,
    /// To compare the conclusions of two texts, and to write both normal polynomials.
    Same(Options),
    /// To run the sample construction of this number with so many turns, and to tell what the run came to.
    Sample { number: u32, budget: u64 },
}

impl Mode {
    /// The most bytes that the mode reads, where it reads anything.
    pub fn longest_input(self) -> Option<u64>
        ensures { result ≡ longest_input self }
    {
        match self {
            Mode::Prove(_) => Some(1_048_576),
            Mode::Check => Some(1_073_741_824),
            Mode::Same(_) => Some(2_097_216),
            Mode::Sample { .. } => None,
        }
    }
}
