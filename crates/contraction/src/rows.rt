//! The rows that one of two tableaux has alone.
ghost use Rattle.std.specs.Prelude.{◌≡◌, ◌==◌, ◌&&◌, length, IfOk, IsSorted};
ghost use Rattle.coordinate_model.specs.Key.{row_cmp};
ghost use Rattle.contraction.specs.Passes.{own_rows};

use bracket_terms::Bracket;
use cay_base::NoMemory;
use std::alloc::Global;
use std::cmp::Ordering;

/// Whether the first of two ascending lists has so many rows alone, and the second so many. It ends at the first row
/// above these numbers.
pub(crate) fn differ_in<const D: usize>(
    rows: &[Bracket<D>],
    others: &[Bracket<D>],
    first: usize,
    second: usize,
) -> bool
    requires rows { IsSorted row_cmp rows.now }
    requires others { IsSorted row_cmp others.now }
    ensures { result
        ≡ ((length (own_rows rows.now others.now) == first) && (length (own_rows others.now rows.now) == second)) }
{
    let (mut left, mut right) = (rows, others);
    let (mut own, mut more) = (first, second);
    while let [row, rest @ ..] = left {
        let [other, further @ ..] = right else {
            return left.len() == own && more == 0;
        };
        match row.cmp(other) {
            Ordering::Less => {
                if own == 0 {
                    return false;
                }
                own -= 1;
                left = rest;
            }
            Ordering::Equal => {
                left = rest;
                right = further;
            }
            Ordering::Greater => {
                if more == 0 {
                    return false;
                }
                more -= 1;
                right = further;
            }
        }
    }
    right.len() == more && own == 0
}

/// The rows of the first ascending list that the second lacks, each as often as it lacks it.
pub(crate) fn own_rows<const D: usize>(
    alloc: Global,
    rows: &[Bracket<D>],
    others: &[Bracket<D>],
) -> Result<Vec<Bracket<D>>, NoMemory>
    requires rows { IsSorted row_cmp rows.now }
    requires others { IsSorted row_cmp others.now }
    ensures { IfOk result (λ own. own.items ≡ own_rows rows.now others.now) }
{
    let mut own = Vec::new(alloc);
    let (mut left, mut right) = (rows, others);
    while let [row, rest @ ..] = left {
        let [other, further @ ..] = right else {
            own.extend_from_slice(left)?;
            return Ok(own);
        };
        match row.cmp(other) {
            Ordering::Less => {
                own.push(*row)?;
                left = rest;
            }
            Ordering::Equal => {
                left = rest;
                right = further;
            }
            Ordering::Greater => right = further,
        }
    }
    Ok(own)
}
