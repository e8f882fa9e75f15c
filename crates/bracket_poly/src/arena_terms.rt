//! The terms of a polynomial over an arena, one after another.
ghost use Rattle.std.specs.Prelude.{◌≡◌, ◌≤◌, IfOk};
ghost use Rattle.std.specs.Iterator.{YieldsFirstBy, item_count};
ghost use Rattle.bracket_poly.specs.Arena.{HasAll, entry_at, key_of, terms_at};

use crate::arena_table::ArenaTable;
use crate::key_order::KeyOrder;
use crate::key_walk::KeyWalk;
use crate::numbers::is_zero;
use crate::view_key::ViewKey;
use bracket_terms::{Bracket, Params};
use cay_base::NoMemory;
use indexmap::IndexMap;

/// The terms that are left, in ascending key order: those of the keys that are left.
#[derive(Drop)]
pub struct ArenaTerms<'t, 'a, const D: usize> {
    keys: KeyWalk<'t, 'a, D>,
    entries: &'t IndexMap<ViewKey<'a, D>, i128>,
    ghost ranked: { D ≤ 4 },
}

impl<'t, 'a, const D: usize> Iterator for ArenaTerms<'t, 'a, D> {
    type Item = (Params, &'a [Bracket<D>], i128);

    ghost next_gives = { YieldsFirstBy (λ item. (key_of item.0 item.1.now, item.2)) (λ terms. terms_at terms.entries.now.entries terms.keys) };

    ghost remaining = { item_count (λ terms. terms_at terms.entries.now.entries terms.keys) };

    fn next(&mut self) -> Option<(Params, &'a [Bracket<D>], i128)> {
        let (key, c) = next_term(&mut self.keys, self.entries)?;
        Some((*key.params(), key.rows(), c))
    }
}

/// The next of the keys that has a term, and its coefficient.
fn next_term<'t, 'a, const D: usize>(
    keys: &mut KeyWalk<'t, 'a, D>,
    entries: &IndexMap<ViewKey<'a, D>, i128>,
) -> Option<(&'t ViewKey<'a, D>, i128)>
    ensures { YieldsFirstBy (λ term. (term.0.now, term.1)) (terms_at entries.now.entries) keys.old result keys.new }
{
    while let Some(headed) = keys.next() {
        let key = headed.key();
        let c = coefficient_at(entries, key);
        if !is_zero(c) {
            return Some((key, c));
        }
    }
    None
}

/// The coefficient of the key, 0 where it is not met.
fn coefficient_at<'a, const D: usize>(
    entries: &IndexMap<ViewKey<'a, D>, i128>,
    key: &ViewKey<'a, D>,
) -> i128
    ensures { result ≡ entry_at entries.now.entries key.now }
{
    entries.get(key).copied().unwrap_or(0)
}

impl<'a, const D: usize> ArenaTable<'a, D> {
    /// The met keys in ascending order.
    pub(crate) fn order(&self) -> Result<KeyOrder<'a, D>, NoMemory>
        ensures { IfOk result (λ order. HasAll order self.now.tracked.met) }
    {
        let mut order = KeyOrder::new(self.alloc);
        for (key, _) in self.met.iter() {
            order.insert(ViewKey::of(key.params(), key.rows()))?;
        }
        Ok(order)
    }

    /// The terms in this order of the met keys.
    pub(crate) fn terms_in<'t>(&'t self, order: &'t KeyOrder<'a, D>) -> ArenaTerms<'t, 'a, D>
        requires { HasAll order.now self.now.tracked.met }
        ensures { terms_at result.entries.now.entries result.keys ≡ self.now.tracked.sum.terms }
    {
        ArenaTerms {
            keys: order.walk(),
            entries: &self.met,
        }
    }
}
