//! Joins, meets and conics of objects within the limit: `None` where a number passes it.
ghost use Rattle.std.specs.Prelude.{◌≡◌, ◌+◌, ◌<◌, ◌≤◌, [], ◌∷◌, length};
ghost use Rattle.coordinate_model.specs.Sequences.{IsRank, subsets};
ghost use Rattle.placement.specs.Numbers.{MakesJoin, MakesMeet, MakesNumbers};

use crate::combined::combined;
use crate::terms::{join_terms, meet_terms};
use crate::total::Point;
use cay_base::NoMemory;
use cayley_terms::Items;
use std::alloc::Global;

/// The join of an object of step j and one of step k.
pub(crate) fn joined(
    alloc: Global,
    rank: u8,
    j: u8,
    k: u8,
    a: &[i128],
    b: &[i128],
) -> Result<Option<Vec<i128>>, NoMemory>
    requires rank { IsRank rank }
    requires steps { (1 ≤ j) × (1 ≤ k) × (j + k ≤ rank) }
    requires first { length a.now ≡ length (subsets rank j) }
    requires second { length b.now ≡ length (subsets rank k) }
    ensures { MakesJoin rank j k a.now b.now result }
{
    combined(alloc, join_terms(rank, j, k), a, b)
}

/// The meet of an object of step j and one of step k.
pub(crate) fn met(
    alloc: Global,
    rank: u8,
    j: u8,
    k: u8,
    a: &[i128],
    b: &[i128],
) -> Result<Option<Vec<i128>>, NoMemory>
    requires rank { IsRank rank }
    requires steps { (1 ≤ j) × (j < rank) × (1 ≤ k) × (k < rank) × (rank ≤ j + k) }
    requires first { length a.now ≡ length (subsets rank j) }
    requires second { length b.now ≡ length (subsets rank k) }
    ensures { MakesMeet rank j k a.now b.now result }
{
    combined(alloc, meet_terms(rank, j, k), a, b)
}

/// A point of the plane by its coordinates.
pub(crate) fn point(object: &Items<i128>) -> Point
    requires { length object.now ≡ 3 }
    ensures { result ≡ object.now }
{
    let coordinates = object.items();
    [coordinates[0], coordinates[1], coordinates[2]]
}

/// The object of one coordinate.
pub(crate) fn single(alloc: Global, value: Option<i128>) -> Result<Option<Vec<i128>>, NoMemory>
    ensures { MakesNumbers (value ∷ []) result }
{
    let Some(number) = value else {
        return Ok(None);
    };
    let mut made = Vec::new(alloc);
    made.push(number)?;
    Ok(Some(made))
}
