//! Tableaux: products of brackets, as the ascending lists of their rows.
ghost use Rattle.std.specs.Prelude.{◌≡◌, ◌++◌, Some, IfOk, refl};
ghost use Rattle.std.specs.Cmp.{partial_equiv_from_equiv, eq_by_cmp_equiv, partial_order_from_agreeing_total};
ghost use Rattle.std.specs.Cmp.Lexicographic.{lists_total, nat_list_cmp_total};
ghost use Rattle.std.specs.Hash as fed;
ghost use Rattle.std.specs.List.Sorted.{IsPermutation};
ghost use Rattle.std.specs.Ordering.{eq_by_cmp};
ghost use Rattle.coordinate_model.specs.Sequences.{IsRank};
ghost use Rattle.coordinate_model.specs.Key.{row_cmp, rows_cmp};
ghost use Rattle.coordinate_model.specs.Words.{ordered};
ghost use Rattle.tableau_order.specs.Tableaux.{IsTableau, same_rows};

use bracket_terms::{Bracket, laws};
use cay_base::NoMemory;
use std::alloc::Global;
use std::cmp::Ordering;
use std::hash::{Hash, Hasher};
use std::marker::Model;

/// A product of brackets: contracts see the ascending list of its rows, in which a row may come more than once
/// (Sturmfels, Algorithms in Invariant Theory, section 3.1).
#[derive(Drop)]
pub struct Tableau<const D: usize> {
    rows: Vec<Bracket<D>>,
}

impl<const D: usize> Model for Tableau<D> {
    ghost use Rattle.std.specs.Prelude.{List, ℕ};
    ghost use Rattle.tableau_order.specs.Tableaux.{IsTableau};

    ghost Value = { List (List ℕ) };

    ghost view = { λ tableau. tableau.rows.items };

    ghost invariant = { λ tableau. IsTableau D tableau.rows.items };
}

impl<const D: usize> Tableau<D> {
    /// The product of the brackets, each as often as it is given.
    pub fn from_rows(alloc: Global, rows: &[Bracket<D>]) -> Result<Tableau<D>, NoMemory>
        requires { IsRank D }
        ensures rows { IfOk result (λ tableau. tableau ≡ ordered row_cmp rows.now) }
        ensures kept { IfOk result (IsPermutation rows.now) }
        ensures formed { IfOk result (IsTableau D) }
    {
        merge(alloc, rows, &[])
    }

    /// The rows in ascending order.
    pub fn rows(&self) -> &[Bracket<D>]
        ensures rows { result.now ≡ self.now }
        ensures formed { IsTableau D self.now }
    {
        &self.rows
    }
}

/// The product of all brackets of both lists, each as often as it is given.
pub fn merge<const D: usize>(
    alloc: Global,
    a: &[Bracket<D>],
    b: &[Bracket<D>],
) -> Result<Tableau<D>, NoMemory>
    requires { IsRank D }
    ensures rows { IfOk result (λ tableau. tableau ≡ ordered row_cmp (a.now ++ b.now)) }
    ensures kept { IfOk result (IsPermutation (a.now ++ b.now)) }
    ensures formed { IfOk result (IsTableau D) }
{
    let mut rows = Vec::new(alloc);
    rows.extend_from_slice(a)?;
    rows.extend_from_slice(b)?;
    rows.sort()?;
    laws::brackets(&rows);
    Ok(Tableau { rows })
}

impl<const D: usize> PartialEq for Tableau<D> {
    ghost eq = { eq_by_cmp rows_cmp };

    ghost laws = { partial_equiv_from_equiv (eq_by_cmp_equiv (lists_total nat_list_cmp_total)) };

    fn eq(&self, other: &Self) -> bool {
        self.cmp(other) == Ordering::Equal
    }
}

impl<const D: usize> Eq for Tableau<D> {
    ghost laws = { eq_by_cmp_equiv (lists_total nat_list_cmp_total) };
}

impl<const D: usize> PartialOrd for Tableau<D> {
    ghost partial_cmp = { λ x y. Some (rows_cmp x y) };

    ghost laws = { partial_order_from_agreeing_total rows_cmp (lists_total nat_list_cmp_total) (λ x y. refl) (λ x y. refl) };

    fn partial_cmp(&self, other: &Self) -> Option<Ordering> {
        Some(self.cmp(other))
    }
}

impl<const D: usize> Ord for Tableau<D> {
    ghost cmp = { rows_cmp };

    ghost total = { lists_total nat_list_cmp_total };

    ghost matches_partial_cmp = { λ x y. refl };

    ghost matches_eq = { λ x y. refl };

    /// Lexicographic by rows, a prefix first.
    fn cmp(&self, other: &Self) -> Ordering {
        self.rows.as_slice().cmp(other.rows.as_slice())
    }
}

impl<const D: usize> Hash for Tableau<D> {
    ghost hash_input = { λ rows. fed.slice (fed.slice fed.u8) rows };

    ghost respects_eq = { same_rows (λ rows. fed.slice (fed.slice fed.u8) rows) };

    fn hash<H: Hasher>(&self, state: &mut H) {
        self.rows.as_slice().hash(state);
    }
}
