//! Lists of points in arrays.
ghost use Rattle.std.specs.Prelude.{◌≡◌, ◌+◌, ◌-◌, ◌≤◌, ◌++◌, length, replicate};
ghost use Rattle.coordinate_model.specs.Sequences.{at_places};
ghost use Rattle.split_tables.specs.Masks.{places_of};

use arrayvec::ArrayVec;

/// The points of both lists, in front of places that hold 0.
pub(crate) fn joined<const N: usize>(first: &[u8], second: &[u8]) -> [u8; N]
    requires { length first.now + length second.now ≤ N }
    ensures { result
        ≡ (first.now ++ second.now) ++ replicate (N - (length first.now + length second.now)) 0 }
{
    let mut points = [0; N];
    let (front, back) = points.split_at_mut(first.len());
    front.copy_from_slice(first);
    back[..second.len()].copy_from_slice(second);
    points
}

/// The points of `beta` at the places of the mask.
pub(crate) fn picked(beta: &[u8], mask: u8) -> ArrayVec<u8, 5>
    requires { length beta.now ≤ 5 }
    ensures { result.items ≡ at_places beta.now (places_of mask) }
{
    let mut picked = ArrayVec::new();
    for (place, point) in beta.iter().enumerate() {
        if (mask >> place) & 1 == 1 {
            picked.push(*point);
        }
    }
    picked
}
