//! Where bytes go.

ghost use Rattle.std.specs.Prelude.{ℕ, List, Option};
ghost use Rattle.cay_base.specs.Bytes.{Puts};
ghost use Rattle.cay_base.specs.Causes.{HasCause};

use crate::failed::Failed;

/// A sink of bytes.
pub trait Sink {
    /// What the sink holds, where it tells it.
    ghost held: { Self → Option (List ℕ) };

    /// How often a call has failed.
    ghost faults: { Self → ℕ };

    /// Puts the piece behind what the sink holds, or a front of it where the call fails.
    fn put(&mut self, piece: &[u8]) -> Result<(), Failed>
        ensures bytes { Puts (held self.old) (held self.new) result piece.now }
        ensures cause { HasCause (faults self.old) (faults self.new) result };
}
