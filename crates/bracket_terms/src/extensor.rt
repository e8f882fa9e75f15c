//! Extensors: joins of free points, by their points in ascending order.
ghost use Rattle.bracket_terms.specs.Extensors.{IsExtensor};

/// The join of `size` points, which strictly increase; the places behind them are 0 (Sturmfels, Algorithms in
/// Invariant Theory, section 3.3). Extensors of one size are ordered lexicographically by their points.
#[derive(Clone, Copy, Debug, PartialEq, Eq, PartialOrd, Ord, Hash)]
pub struct Extensor {
    pub size: u8,
    pub points: [u8; 4],
    pub ghost formed: { IsExtensor size points },
}

impl Extensor {
    ghost use Rattle.std.specs.Prelude.{◌≡◌};
    ghost use Rattle.bracket_terms.specs.Joins.{points_of};

    /// The points in front of the unused places.
    pub(crate) fn used(&self) -> &[u8]
        ensures { result.now ≡ points_of self.now }
    {
        &self.points[..self.size as usize]
    }
}
