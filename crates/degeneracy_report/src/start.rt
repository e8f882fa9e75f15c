//! The join of a value with fresh points, as the bracket polynomial that is made normal.
ghost use Rattle.std.specs.Prelude.{◌≡◌, ◌≢◌, ◌<◌, ◌≤◌, [], ◌∷◌, pos, T};
ghost use Rattle.std.specs.List.{AllByRecursion};
ghost use Rattle.coordinate_model.specs.Sequences.{IsRank};
ghost use Rattle.bracket_terms.specs.Joins.{points_of};
ghost use Rattle.bracket_poly.specs.Answers.{AddsTerms, Answers};
ghost use Rattle.bracket_poly.specs.Makings.{adding};
ghost use Rattle.bracket_poly.specs.Tracked.{fits, nothing};
ghost use Rattle.bracket_poly.specs.Values.{entry_of, value_of};
ghost use Rattle.degeneracy_report.specs.Joined.{IsBefore, fresh_points, joined_terms, start_terms, with_row};

use crate::row::bracket_with;
use bracket_poly::{Key, Poly, PolyError, Value};
use bracket_terms::{Bracket, Extensor};
use std::alloc::Global;
use tableau_order::merge;

/// The value joined with the fresh points, at all columns: for each entry in order, the terms of its polynomial in
/// order, each times the bracket of the entry's points and of the fresh ones.
pub(crate) fn joined<const D: usize>(
    alloc: Global,
    value: &Value<D>,
    fresh: u8,
) -> Result<Poly<D>, PolyError>
    requires least { 1 ≤ value.now.step }
    requires most { value.now.step < D }
    requires points { AllByRecursion (IsBefore fresh) (value_of value.now.entries) }
    requires fresh { fresh ≤ 200 }
    ensures { Answers (λ poly. poly.tracked) result
        (adding nothing (start_terms (fresh_points D value.now.step fresh) (value_of value.now.entries))) }
{
    let mut start = Poly::new(alloc);
    for entry in value.entries.items() {
        add_entry(alloc, &mut start, entry, fresh)?;
    }
    Ok(start)
}

/// Adds the terms of an entry.
fn add_entry<const D: usize>(
    alloc: Global,
    start: &mut Poly<D>,
    entry: &(Extensor, Poly<D>),
    fresh: u8,
) -> Result<(), PolyError>
    requires least { 1 ≤ entry.now.0.size }
    requires few { entry.now.0.size < D }
    requires points { AllByRecursion (λ p. p < fresh) (points_of entry.now.0) }
    requires fresh { fresh ≤ 200 }
    ensures { AddsTerms start.old.tracked
        (joined_terms (fresh_points D entry.now.0.size fresh) (entry_of entry.now)) result start.new.tracked }
{
    let row = bracket_with(&entry.0, fresh);
    for (key, c) in entry.1.terms() {
        add_with_row(alloc, start, key, c, &row)?;
    }
    Ok(())
}

/// Adds a term with one row more.
fn add_with_row<const D: usize>(
    alloc: Global,
    start: &mut Poly<D>,
    key: &Key<D>,
    c: i128,
    row: &Bracket<D>,
) -> Result<(), PolyError>
    requires not_zero { c ≢ pos 0 }
    requires small { T (fits c) }
    ensures { AddsTerms start.old.tracked ((with_row row.now key.now, c) ∷ []) result start.new.tracked }
{
    let Ok(tableau) = merge(alloc, key.tableau.rows(), std::slice::from_ref(row)) else {
        return Err(PolyError::Memory);
    };
    let params = key.params;
    start.add(Key { params, tableau }, c)
}
