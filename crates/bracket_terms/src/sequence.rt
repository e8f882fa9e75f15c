//! The order of the points of a sequence.
ghost use Rattle.std.specs.Prelude.{◌≡◌, ◌≤◌, ◌*◌, ◌↔◌, IsTrue, length};
ghost use Rattle.std.specs.List.Sorted.{IsStrictlyIncreasing};
ghost use Rattle.coordinate_model.specs.Sequences.{is_odd, inversions};

/// Whether the points strictly increase.
pub(crate) fn is_increasing(points: &[u8]) -> bool
    ensures { IsTrue result ↔ IsStrictlyIncreasing points.now }
{
    points.windows(2).all(|pair| pair[0] < pair[1])
}

/// Whether the sign of the sequence is -1.
pub(crate) fn is_odd(points: &[u8]) -> bool
    requires { length points.now ≤ 4 }
    ensures { result ≡ is_odd points.now }
{
    inversions(points) % 2 == 1
}

/// How many pairs of an entry and a lesser one after it there are.
fn inversions(points: &[u8]) -> usize
    requires { length points.now ≤ 4 }
    ensures count { result ≡ inversions points.now }
    ensures few { result ≤ 4 * length points.now }
{
    match points {
        [] => 0,
        [first, rest @ ..] => {
            rest.iter().filter(|later| *later < first).count() + inversions(rest)
        }
    }
}
