//! Keys whose rows lie in an arena.
ghost use Rattle.std.specs.Prelude.{◌≡◌, ◌≤◌, ◌++◌, Some, refl};
ghost use Rattle.std.specs.Cmp.{partial_equiv_from_equiv, eq_by_cmp_equiv, partial_order_from_agreeing_total};
ghost use Rattle.std.specs.Hash as fed;
ghost use Rattle.std.specs.Ordering.{eq_by_cmp};
ghost use Rattle.coordinate_model.specs.Key.{key_cmp};
ghost use Rattle.bracket_poly.specs.Keys.{key_cmp_total, same_key};
ghost use Rattle.bracket_terms.specs.Exponents.{in_use};

use bracket_terms::{Bracket, Params};
use std::cmp::Ordering;
use std::hash::{Hash, Hasher};
use std::marker::Model;
use term_arena::View;

/// A product of parameters and a tableau that lie elsewhere: contracts see the key of the model. Such keys have the order of
/// keys.
#[derive(Drop)]
pub struct ViewKey<'a, const D: usize> {
    params: &'a Params,
    view: View<'a, D>,
}

impl<'a, const D: usize> Model for ViewKey<'a, D> {
    ghost use Rattle.coordinate_model.specs.Key.{Key as KeyValue};
    ghost use Rattle.coordinate_model.specs.Code.{key_code};

    ghost Value = { KeyValue };

    ghost coded = { key_code };

    ghost view = { λ key. record { exponents = key.params.now; rows = key.view } };
}

impl<'a, const D: usize> ViewKey<'a, D> {
    pub fn of(params: &'a Params, rows: &'a [Bracket<D>]) -> Self
        requires { D ≤ 4 }
        ensures { result ≡ record { exponents = params.now; rows = rows.entry.now } }
    {
        ViewKey {
            params,
            view: View::of(rows),
        }
    }

    pub fn params(&self) -> &'a Params
        ensures { result.now ≡ self.now.exponents }
    {
        self.params
    }

    pub fn rows(&self) -> &'a [Bracket<D>]
        ensures { result.now ≡ self.now.rows }
    {
        self.view.rows()
    }
}

impl<'a, const D: usize> PartialEq for ViewKey<'a, D> {
    ghost eq = { eq_by_cmp key_cmp };

    ghost laws = { partial_equiv_from_equiv (eq_by_cmp_equiv key_cmp_total) };

    fn eq(&self, other: &Self) -> bool {
        self.cmp(other) == Ordering::Equal
    }
}

impl<'a, const D: usize> Eq for ViewKey<'a, D> {
    ghost laws = { eq_by_cmp_equiv key_cmp_total };
}

impl<'a, const D: usize> PartialOrd for ViewKey<'a, D> {
    ghost partial_cmp = { λ x y. Some (key_cmp x y) };

    ghost laws = { partial_order_from_agreeing_total key_cmp key_cmp_total (λ x y. refl) (λ x y. refl) };

    fn partial_cmp(&self, other: &Self) -> Option<Ordering> {
        Some(self.cmp(other))
    }
}

impl<'a, const D: usize> Ord for ViewKey<'a, D> {
    ghost cmp = { key_cmp };

    ghost total = { key_cmp_total };

    ghost matches_partial_cmp = { λ x y. refl };

    ghost matches_eq = { λ x y. refl };

    fn cmp(&self, other: &Self) -> Ordering {
        self.params
            .cmp(other.params)
            .then(self.view.cmp(&other.view))
    }
}

impl<'a, const D: usize> Hash for ViewKey<'a, D> {
    ghost hash_input = { λ key. fed.slice (fed.slice fed.u8) key.rows ++ fed.slice fed.u16 (in_use key.exponents) };

    ghost respects_eq = { same_key (λ key. fed.slice (fed.slice fed.u8) key.rows ++ fed.slice fed.u16 (in_use key.exponents)) };

    fn hash<H: Hasher>(&self, state: &mut H) {
        self.view.hash(state);
        self.params.hash(state);
    }
}
