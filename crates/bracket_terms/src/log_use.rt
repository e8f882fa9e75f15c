//! Uses of syzygies, as a log holds them.
ghost use Rattle.bracket_terms.specs.Uses.{IsLogUse, IsLogUse-prop, use_by};

use crate::bracket::Bracket;
use crate::items::Items;
use crate::params::Params;

/// One multiple of a van der Waerden syzygy: that of `alpha`, `beta` and `gamma` times the rest rows, the parameters
/// and the multiplier. In rank `D`, `beta` has D + 1 points, and `alpha` and `gamma` have D - 1 together (Sturmfels,
/// Algorithms in Invariant Theory, section 3.1).
#[derive(Drop)]
pub struct LogUse<const D: usize> {
    /// Neither 0 nor -2^127.
    pub multiplier: i128,
    /// Each exponent is at most 1,000.
    pub params: Params,
    /// In ascending order.
    pub rest: Items<Bracket<D>>,
    pub alpha: Items<u8>,
    pub beta: Items<u8>,
    pub gamma: Items<u8>,
    pub ghost formed: { IsLogUse D (use_by multiplier params rest alpha beta gamma) } by { IsLogUse-prop D (use_by multiplier params rest alpha beta gamma) },
}
