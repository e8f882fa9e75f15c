//! Joins of extensors.
ghost use Rattle.std.specs.Prelude.{◌≡◌, ℕ, ◌+◌, ◌≤◌, ◌++◌, ◌↔◌, IsNone, IsTrue, IfSome, ◌-◌, length, replicate};
ghost use Rattle.std.specs.Prelude.{take, drop};
ghost use Rattle.coordinate_model.specs.Sequences.{IsRank, sign_of};
ghost use Rattle.bracket_terms.specs.Joins.{points_of, share_point, IsSignedUnion, HasCoordinates};

use crate::extensor::Extensor;
use crate::sequence::{is_increasing, is_odd};

/// The join of two extensors: the extensor of the points of both, and the sign of the points of `a` followed by those
/// of `b`. `None` stands for zero (Sturmfels, Algorithms in Invariant Theory, section 3.3).
pub fn join_points(a: Extensor, b: Extensor) -> Option<(Extensor, i8)>
    requires { a.size + b.size ≤ 4 }
    ensures none { IsNone result ↔ IsTrue (share_point (points_of a) (points_of b)) }
    ensures joined { IfSome result (λ joined. IsSignedUnion (points_of a ++ points_of b) joined.0 joined.1) }
    ensures coordinates { (d : ℕ) → IsRank d → a.size + b.size ≤ d → HasCoordinates d a b result }
{
    let size = a.size + b.size;
    let mut points = in_sequence(&a, &b);
    let sign = sign_of(&points[..size as usize]);
    points[..size as usize].sort_unstable();
    if is_increasing(&points[..size as usize]) {
        Some((Extensor { size, points }, sign))
    } else {
        None
    }
}

/// The points of `a`, then those of `b`, then unused places.
fn in_sequence(a: &Extensor, b: &Extensor) -> [u8; 4]
    requires { a.now.size + b.now.size ≤ 4 }
    ensures count { length result ≡ 4 }
    ensures points { take (a.now.size + b.now.size) result ≡ points_of a.now ++ points_of b.now }
    ensures unused { drop (a.now.size + b.now.size) result ≡ replicate (4 - (a.now.size + b.now.size)) 0 }
{
    let mut points = a.points;
    points[a.size as usize..(a.size + b.size) as usize].copy_from_slice(b.used());
    points
}

/// +1 or -1: the sign of the sequence.
fn sign_of(points: &[u8]) -> i8
    requires { length points.now ≤ 4 }
    ensures { result ≡ sign_of points.now }
{
    if is_odd(points) { -1 } else { 1 }
}
