//! Keys: products of parameters and brackets.
ghost use Rattle.std.specs.Prelude.{◌≡◌, ◌≤◌, ◌++◌, Some, IfOk, option_copied, refl};
ghost use Rattle.std.specs.Cmp.{partial_equiv_from_equiv, eq_by_cmp_equiv, partial_order_from_agreeing_total};
ghost use Rattle.std.specs.Hash as fed;
ghost use Rattle.std.specs.Ordering.{eq_by_cmp};
ghost use Rattle.std.specs.List.{AllByRecursion};
ghost use Rattle.coordinate_model.specs.Sequences.{IsRank};
ghost use Rattle.coordinate_model.specs.Key.{key_cmp, key_times, row_cmp, add_exponents};
ghost use Rattle.coordinate_model.specs.Words.{ordered};
ghost use Rattle.coordinate_model.specs.Starts.{row_key};
ghost use Rattle.bracket_poly.specs.Keys.{key_cmp_total, same_key};
ghost use Rattle.bracket_terms.specs.Exponents.{in_use};

use bracket_terms::{Bracket, Params};
use cay_base::NoMemory;
use std::alloc::Global;
use std::cmp::Ordering;
use std::hash::{Hash, Hasher};
use std::marker::Model;
use tableau_order::{Tableau, merge};

/// A product of parameters and a tableau: contracts see the key of the model, its exponents and its rows (Sturmfels,
/// Algorithms in Invariant Theory, section 3.1). Keys are ordered by their parameters and then by their tableaux.
#[derive(Drop)]
pub struct Key<const D: usize> {
    pub params: Params,
    pub tableau: Tableau<D>,
}

impl<const D: usize> Model for Key<D> {
    ghost use Rattle.coordinate_model.specs.Key.{Key as KeyValue};
    ghost use Rattle.coordinate_model.specs.Code.{key_code};

    ghost Value = { KeyValue };

    ghost coded = { key_code };

    ghost view = { λ key. record { exponents = key.params; rows = key.tableau } };
}

impl<const D: usize> Key<D> {
    /// An equal key.
    pub fn copy(&self, alloc: Global) -> Result<Key<D>, NoMemory>
        requires { IsRank D }
        ensures { IfOk result (λ key. key ≡ self.now) }
    {
        Ok(Key {
            params: self.params,
            tableau: Tableau::from_rows(alloc, self.tableau.rows())?,
        })
    }

    /// The product of both and of the bracket, where no bracket stands for 1.
    pub(crate) fn times(
        &self,
        alloc: Global,
        other: &Key<D>,
        row: Option<&Bracket<D>>,
    ) -> Result<Key<D>, NoMemory>
        requires rank { IsRank D }
        requires exponents { AllByRecursion (λ exponent. exponent ≤ 65535) (add_exponents self.now.exponents other.now.exponents) }
        ensures { IfOk result (λ key. key ≡ key_times (key_times self.now other.now) (row_key (option_copied row.entry))) }
    {
        let params = self.params.times(&other.params);
        let both = merge(alloc, self.tableau.rows(), other.tableau.rows())?;
        let tableau = with_row(alloc, both, row)?;
        Ok(Key { params, tableau })
    }
}

/// The tableau times the bracket, where no bracket stands for 1.
fn with_row<const D: usize>(
    alloc: Global,
    tableau: Tableau<D>,
    row: Option<&Bracket<D>>,
) -> Result<Tableau<D>, NoMemory>
    requires { IsRank D }
    ensures { IfOk result (λ product. product ≡ ordered row_cmp (tableau.entry ++ (row_key (option_copied row.entry)).rows)) }
{
    match row {
        Some(row) => merge(alloc, tableau.rows(), std::slice::from_ref(row)),
        None => merge(alloc, tableau.rows(), &[]),
    }
}

impl<const D: usize> PartialEq for Key<D> {
    ghost eq = { eq_by_cmp key_cmp };

    ghost laws = { partial_equiv_from_equiv (eq_by_cmp_equiv key_cmp_total) };

    fn eq(&self, other: &Self) -> bool {
        self.cmp(other) == Ordering::Equal
    }
}

impl<const D: usize> Eq for Key<D> {
    ghost laws = { eq_by_cmp_equiv key_cmp_total };
}

impl<const D: usize> PartialOrd for Key<D> {
    ghost partial_cmp = { λ x y. Some (key_cmp x y) };

    ghost laws = { partial_order_from_agreeing_total key_cmp key_cmp_total (λ x y. refl) (λ x y. refl) };

    fn partial_cmp(&self, other: &Self) -> Option<Ordering> {
        Some(self.cmp(other))
    }
}

impl<const D: usize> Ord for Key<D> {
    ghost cmp = { key_cmp };

    ghost total = { key_cmp_total };

    ghost matches_partial_cmp = { λ x y. refl };

    ghost matches_eq = { λ x y. refl };

    fn cmp(&self, other: &Self) -> Ordering {
        self.params
            .cmp(&other.params)
            .then(self.tableau.cmp(&other.tableau))
    }
}

impl<const D: usize> Hash for Key<D> {
    ghost hash_input = { λ key. fed.slice (fed.slice fed.u8) key.rows ++ fed.slice fed.u16 (in_use key.exponents) };

    ghost respects_eq = { same_key (λ key. fed.slice (fed.slice fed.u8) key.rows ++ fed.slice fed.u16 (in_use key.exponents)) };

    fn hash<H: Hasher>(&self, state: &mut H) {
        self.tableau.hash(state);
        self.params.hash(state);
    }
}
