//! Sorted brackets, tableaux, and stores of row lists.
ghost use Rattle.coordinate_model.specs.Sequences.{IsRank};

use crate::failure::Failure;
use crate::printing::put_rows;
use crate::reading::{pair, points, tableau};
use bracket_terms::{Bracket, Signed, sort};
use bumpalo::Bump;
use std::alloc::Global;
use std::cmp::Ordering;
use tableau_order::{compare, is_standard, merge, violation};
use term_arena::{Store, StoreError};

/// The points in ascending order, with their sign.
pub fn show_sort<const D: usize>(out: &mut String, word: &str) -> Result<(), Failure>
    requires { IsRank D }
{
    let (sign, row) = match sort(points::<D>(word)?) {
        Signed::Zero => return Ok(out.push_str(" zero")?),
        Signed::Plus(row) => (" +", row),
        Signed::Minus(row) => (" -", row),
    };
    out.push_str(sign)?;
    Ok(put_rows(out, &[row])?)
}

/// The first violation of a tableau.
pub fn show_violation<const D: usize>(
    alloc: Global,
    out: &mut String,
    word: &str,
) -> Result<(), Failure>
    requires { IsRank D }
{
    let tableau = tableau::<D>(alloc, word)?;
    if is_standard(tableau.rows()) {
        out.push_str(" standard,")?;
    }
    match violation(tableau.rows()) {
        Some(place) => Ok(write!(out, " row {} column {}", place.row, place.column)?),
        None => Ok(out.push_str(" none")?),
    }
}

/// The product of two tableaux, and how the first compares with it.
pub fn show_merge<const D: usize>(
    alloc: Global,
    out: &mut String,
    words: &str,
) -> Result<(), Failure>
    requires { IsRank D }
{
    let (a, b) = pair(words, ' ')?;
    let a = tableau::<D>(alloc, a)?;
    let b = tableau::<D>(alloc, b)?;
    let merged = merge(alloc, a.rows(), b.rows())?;
    out.push(' ')?;
    put_rows(out, merged.rows())?;
    Ok(out.push_str(match compare(a.rows(), merged.rows()) {
        Ordering::Less => ", less",
        Ordering::Equal => ", equal",
        Ordering::Greater => ", greater",
    })?)
}

/// Whether the store has the rows, and at which number they are placed.
fn place<'a, const D: usize>(
    out: &mut String,
    store: &mut Store<'a, D>,
    rows: &[Bracket<D>],
) -> Result<(), Failure>
    requires { IsRank D }
{
    out.push_str(match store.find(rows) {
        Some(_) => " found",
        None => " new",
    })?;
    match store.intern(rows) {
        Ok(id) => Ok(write!(out, " {}", id.0)?),
        Err(StoreError::Full) => Ok(out.push_str(" full")?),
        Err(StoreError::Memory) => Err(Failure::Memory),
    }
}

/// Places row lists one after another, and says how many there are.
pub fn show_store<const D: usize>(
    alloc: Global,
    out: &mut String,
    words: &str,
) -> Result<(), Failure>
    requires { IsRank D }
{
    let arena = Bump::new(alloc);
    let mut store = Store::<D>::new(alloc, &arena);
    for word in words.split_whitespace() {
        let tableau = tableau::<D>(alloc, word)?;
        place(out, &mut store, tableau.rows())?;
    }
    Ok(write!(out, ", {} row lists", store.count())?)
}
