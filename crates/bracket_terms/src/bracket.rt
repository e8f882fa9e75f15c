//! Brackets with strictly increasing points.

ghost use Rattle.std.specs.Prelude.{◌≡◌, length};
ghost use Rattle.std.specs.List.Sorted.{IsStrictlyIncreasing};
ghost use Rattle.coordinate_model.specs.Sequences.{IsRank};

use std::marker::Model;

/// A bracket whose points strictly increase: contracts see the list of its points. Brackets are ordered
/// lexicographically (Sturmfels, Algorithms in Invariant Theory, section 3.1).
#[derive(Clone, Copy, Debug, PartialEq, Eq, PartialOrd, Ord, Hash)]
pub struct Bracket<const D: usize> {
    points: [u8; D],
}

impl<const D: usize> Model for Bracket<D> {
    ghost use Rattle.std.specs.Prelude.{List, ℕ};
    ghost use Rattle.std.specs.List.Sorted.{IsStrictlyIncreasing};
    ghost use Rattle.coordinate_model.specs.Sequences.{IsRank};

    ghost Value = { List ℕ };

    ghost view = { λ b. b.points };

    ghost invariant = { λ b. IsRank D × IsStrictlyIncreasing b.points };

    ghost inverse = { λ points. record { points = points } };
}

impl<const D: usize> Bracket<D> {
    /// The bracket of points that strictly increase.
    pub(crate) fn of(points: [u8; D]) -> Self
        requires rank { IsRank D }
        requires increasing { IsStrictlyIncreasing points }
        ensures { result ≡ points.entry }
    {
        Bracket { points }
    }

    pub fn points(&self) -> [u8; D]
        ensures points { result ≡ self.now }
        ensures rank { IsRank D }
        ensures count { length self.now ≡ D }
        ensures increasing { IsStrictlyIncreasing self.now }
    {
        self.points
    }
}
