//! The points of extensors: those at some places, and brackets of the points of two extensors.
ghost use Rattle.std.specs.Prelude.{◌≡◌, ◌+◌, ◌++◌, length};
ghost use Rattle.coordinate_model.specs.Sequences.{IsRank, at_places};
ghost use Rattle.bracket_terms.specs.Joins.{points_of};
ghost use Rattle.split_tables.specs.Masks.{places_of};
ghost use Rattle.bracket_terms.specs.Signed.{signed_row};

use bracket_terms::{Bracket, Extensor, Signed, sort};

/// The extensor of the points at the places of a mask: the bit i stands for the place i, counted from 0.
pub(crate) fn part(extensor: &Extensor, places: u8) -> Extensor
    ensures { points_of result ≡ at_places (points_of extensor.now) (places_of places) }
{
    let mut points = [0; 4];
    let mut size = 0;
    for (place, point) in used(extensor).iter().enumerate() {
        if places >> place & 1 == 1 {
            points[size] = *point;
            size += 1;
        }
    }
    Extensor {
        size: size as u8,
        points,
    }
}

/// The bracket of the points of both in sequence, sorted with its sign; `None` stands for zero.
pub(crate) fn signed_row<const D: usize>(
    first: &Extensor,
    second: &Extensor,
) -> Option<(Bracket<D>, i8)>
    requires rank { IsRank D }
    requires count { first.now.size + second.now.size ≡ D }
    ensures { result ≡ signed_row (points_of first.now ++ points_of second.now) }
{
    match sort(in_sequence(used(first), used(second))) {
        Signed::Zero => None,
        Signed::Plus(row) => Some((row, 1)),
        Signed::Minus(row) => Some((row, -1)),
    }
}

/// The points of the one and then those of the other.
fn in_sequence<const D: usize>(first: &[u8], second: &[u8]) -> [u8; D]
    requires { length first.now + length second.now ≡ D }
    ensures { result ≡ first.now ++ second.now }
{
    let mut points = [0; D];
    let places = &mut points[..];
    places[..first.len()].copy_from_slice(first);
    places[first.len()..].copy_from_slice(second);
    points
}

/// The points in front of the unused places.
fn used(extensor: &Extensor) -> &[u8]
    ensures { result.now ≡ points_of extensor.now }
{
    &extensor.points[..extensor.size as usize]
}
