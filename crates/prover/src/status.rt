//! How a call of the program ends.

ghost use Rattle.std.specs.Prelude.{◌≡◌};

/// How a call of the program ends.
#[derive(Clone, Copy, Debug, PartialEq, Eq)]
pub enum Status {
    /// The conclusion's polynomial is zero.
    Proved,
    /// A mode that decides nothing came to its end.
    Done,
    /// The conclusion's polynomial is not zero.
    Refuted,
    /// The words are in none of the lists.
    Usage,
    /// The text is not one that the program takes.
    TextRefused,
    /// The run passed a limit.
    Stopped,
    /// The source failed.
    ReadFault,
    /// The sink failed.
    WriteFault,
    /// Memory was wanting.
    Memory,
    /// The text is taken, and the proof behind it is not accepted.
    ProofRefused,
    /// Two texts that are to be compared differ in rank, free names or parameters.
    Unlike,
}

impl Status {
    ghost use Rattle.prover.specs.Numbers.{number_of};

    /// The number with which the program ends.
    pub fn number(self) -> u8
        ensures { result ≡ number_of self }
    {
        match self {
            Status::Proved => 0,
            Status::Done => 0,
            Status::Refuted => 1,
            Status::Usage => 2,
            Status::TextRefused => 3,
            Status::Stopped => 4,
            Status::ReadFault => 5,
            Status::WriteFault => 6,
            Status::Memory => 7,
            Status::ProofRefused => 8,
            Status::Unlike => 9,
        }
    }
}
