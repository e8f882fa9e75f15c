//! The points of two pairs of rows, and the lists of the syzygy that both stand in.
ghost use Rattle.std.specs.Prelude.{◌≡◌, ◌==◌, ◌≤◌, ◌++◌, false, length, IfOk, MatchOption};
ghost use Rattle.coordinate_model.specs.Sequences.{without};
ghost use Rattle.contraction.specs.Pairs.{AreListsOf};
ghost use Rattle.contraction.specs.Passes.{shared, further, same_points, are_alike};

use bracket_terms::Bracket;
use cay_base::NoMemory;
use std::alloc::Global;

/// The lists beta and gamma of a syzygy of empty alpha.
#[derive(Drop)]
pub(crate) struct Lists {
    pub beta: Vec<u8>,
    pub gamma: Vec<u8>,
}

/// The lists of the syzygy that both pairs of rows stand in, where they are alike: the points that two rows share, and
/// then in gamma the least further one, and in beta the others.
pub(crate) fn lists_of<const D: usize>(
    alloc: Global,
    rows: &[Bracket<D>],
    others: &[Bracket<D>],
) -> Result<Option<Lists>, NoMemory>
    ensures { IfOk result (λ lists. MatchOption lists (are_alike rows.now others.now ≡ false)
        (λ found. AreListsOf rows.now others.now found.beta.items found.gamma.items)) }
{
    let [low, high] = rows else {
        return Ok(None);
    };
    let [other_low, other_high] = others else {
        return Ok(None);
    };
    if !crosses(low, high) {
        return Ok(None);
    }
    let (low, high) = (low.points(), high.points());
    let (other_low, other_high) = (other_low.points(), other_high.points());
    let ends = further(alloc, &low, &high)?;
    if !same_points(&ends, &further(alloc, &other_low, &other_high)?) {
        return Ok(None);
    }
    let common = shared(alloc, &low, &high)?;
    if !same_points(&common, &shared(alloc, &other_low, &other_high)?) {
        return Ok(None);
    }
    Ok(Some(Lists {
        beta: joined(alloc, &common, &ends[1..])?,
        gamma: joined(alloc, &common, &ends[..1])?,
    }))
}

/// Whether there are four points that one of both rows has alone.
fn crosses<const D: usize>(low: &Bracket<D>, high: &Bracket<D>) -> bool
    ensures { result ≡ (length (further low.now high.now) == 4) }
{
    let first = low.points();
    let second = high.points();
    shared_count(&first, &second) + 2 == D
}

/// How many points of the row `low` are in `high` too.
fn shared_count(low: &[u8], high: &[u8]) -> usize
    ensures count { result ≡ length (shared low.now high.now) }
    ensures few { result ≤ length low.now }
{
    let mut count = 0;
    for point in low {
        if high.contains(point) {
            count += 1;
        }
    }
    count
}

/// Whether both lists are equal.
fn same_points(points: &[u8], others: &[u8]) -> bool
    ensures { result ≡ same_points points.now others.now }
{
    points.cmp(others).is_eq()
}

/// The points of both lists.
fn joined(alloc: Global, points: &[u8], others: &[u8]) -> Result<Vec<u8>, NoMemory>
    ensures { IfOk result (λ joined. joined.items ≡ points.now ++ others.now) }
{
    let mut joined = points.to_vec(alloc)?;
    joined.extend_from_slice(others)?;
    Ok(joined)
}

/// The points of the row `low` that `high` has too, in their order.
fn shared(alloc: Global, low: &[u8], high: &[u8]) -> Result<Vec<u8>, NoMemory>
    ensures { IfOk result (λ points. points.items ≡ shared low.now high.now) }
{
    let mut points = Vec::new(alloc);
    for point in low {
        if high.contains(point) {
            points.push(*point)?;
        }
    }
    Ok(points)
}

/// The points that one of both rows has alone, in ascending order.
fn further(alloc: Global, low: &[u8], high: &[u8]) -> Result<Vec<u8>, NoMemory>
    ensures { IfOk result (λ points. points.items ≡ further low.now high.now) }
{
    let first = without(alloc, low, high)?;
    let second = without(alloc, high, low)?;
    let mut points = joined(alloc, &first, &second)?;
    points.sort()?;
    Ok(points)
}

/// The points of a row that another lacks.
fn without(alloc: Global, row: &[u8], other: &[u8]) -> Result<Vec<u8>, NoMemory>
    ensures { IfOk result (λ points. points.items ≡ without row.now other.now) }
{
    let mut points = Vec::new(alloc);
    for point in row {
        if !other.contains(point) {
            points.push(*point)?;
        }
    }
    Ok(points)
}
