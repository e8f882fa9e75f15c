//! In what two constructions differ that are to be compared.

ghost use Rattle.std.specs.Prelude.{◌≡◌, Decides, MatchOption};
ghost use Rattle.prover.specs.Alike.{AreAlike, IsFirstDifference};

use construction_reader::Name;
use step_types::Names;

/// In what two constructions differ.
#[derive(Clone, Copy, Debug)]
pub enum Difference {
    /// In their ranks.
    Rank,
    /// In their free names, as lists.
    Free,
    /// In their parameters, as lists.
    Params,
}

/// The first of rank, free names and parameters in which they differ; none where they are alike.
pub fn first_difference(first: &Names, second: &Names) -> Option<Difference>
    ensures { MatchOption result (AreAlike first.now second.now) (IsFirstDifference first.now second.now) }
{
    if first.rank != second.rank {
        Some(Difference::Rank)
    } else if !same_names(first.free.items(), second.free.items()) {
        Some(Difference::Free)
    } else if !same_names(first.params.items(), second.params.items()) {
        Some(Difference::Params)
    } else {
        None
    }
}

/// Whether both are the same names in the same order.
fn same_names(first: &[Name], second: &[Name]) -> bool
    ensures { Decides result (first.now ≡ second.now) }
{
    let mut others = second;
    for name in first {
        let [other, rest @ ..] = others else {
            return false;
        };
        if name.bytes() != other.bytes() {
            return false;
        }
        others = rest;
    }
    others.is_empty()
}
