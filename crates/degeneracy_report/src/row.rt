//! Brackets of the points of an extensor and of fresh points behind them.
ghost use Rattle.std.specs.Prelude.{◌≡◌, ◌+◌, ◌-◌, ◌<◌, ◌≤◌, ◌++◌, length};
ghost use Rattle.std.specs.List.{AllByRecursion};
ghost use Rattle.coordinate_model.specs.Sequences.{IsRank};
ghost use Rattle.bracket_terms.specs.Joins.{points_of};
ghost use Rattle.degeneracy_report.specs.Joined.{fresh_points};

use bracket_terms::{Bracket, Extensor, Signed, sort};

/// The bracket of the extensor's points and of as many fresh ones as it lacks, which are at most three.
pub(crate) fn bracket_with<const D: usize>(extensor: &Extensor, fresh: u8) -> Bracket<D>
    requires rank { IsRank D }
    requires least { 1 ≤ extensor.now.size }
    requires few { extensor.now.size < D }
    requires points { AllByRecursion (λ p. p < fresh) (points_of extensor.now) }
    requires fresh { fresh ≤ 200 }
    ensures { result ≡ points_of extensor.now ++ fresh_points D extensor.now.size fresh }
{
    let others = [fresh, fresh + 1, fresh + 2];
    let lacking = D - extensor.size as usize;
    match sort(in_sequence(used(extensor), &others[..lacking])) {
        Signed::Plus(row) => row,
        _ => unreachable!(),
    }
}

/// The points of the one and then those of the other.
fn in_sequence<const D: usize>(first: &[u8], second: &[u8]) -> [u8; D]
    requires { length first.now + length second.now ≡ D }
    ensures { result ≡ first.now ++ second.now }
{
    let mut points = [0; D];
    let places = &mut points[..];
    places[..first.len()].copy_from_slice(first);
    places[first.len()..].copy_from_slice(second);
    points
}

/// The points in front of the unused places.
fn used(extensor: &Extensor) -> &[u8]
    ensures { result.now ≡ points_of extensor.now }
{
    &extensor.points[..extensor.size as usize]
}
