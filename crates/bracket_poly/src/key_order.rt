//! Keys that are kept in ascending order.
ghost use Rattle.std.specs.Prelude.{◌≡◌, ◌≤◌, [], true, IfOk, OnOk};
ghost use Rattle.std.specs.List.Sorted.{IsStrictlySortedBy};
ghost use Rattle.coordinate_model.specs.Key.{key_cmp};
ghost use Rattle.bracket_poly.specs.Arena.{HasAll};
ghost use Rattle.bracket_poly.specs.Tracked.{has_met};

use crate::headed_key::HeadedKey;
use crate::key_walk::KeyWalk;
use crate::view_key::ViewKey;
use bracket_terms::{Bracket, Params};
use cay_base::NoMemory;
use std::alloc::Global;
use std::collections::BTreeSet;
use std::marker::{Model, PhantomData};

/// How many of the keys that came last stand apart at least, and at most that part of the others.
const FEWEST_RECENT: usize = 1024;

const LARGEST_PART: usize = 8;

/// Keys in ascending order: contracts see the list of them. Most stand in one list, and those that came last in a set that is
/// small beside it, so that a new key costs about as much as in a small set.
#[derive(Drop)]
pub struct KeyOrder<'a, const D: usize, V = &'a [Bracket<D>]> {
    alloc: Global,
    /// The product of no parameter.
    one: Params,
    long: Vec<HeadedKey<'a, D>>,
    recent: BTreeSet<HeadedKey<'a, D>>,
    names: PhantomData<V>,
    ghost ranked: { D ≤ 4 },
}

impl<'a, const D: usize, V> Model for KeyOrder<'a, D, V> {
    ghost use Rattle.std.specs.Prelude.{◌≡◌, List, replicate};
    ghost use Rattle.std.specs.List.Sorted.{IsStrictlySortedBy};
    ghost use Rattle.coordinate_model.specs.Key.{Key as KeyValue, key_cmp};
    ghost use Rattle.bracket_poly.specs.Orders.{merged};

    ghost Value = { List KeyValue };

    ghost view = { λ order. merged order.long.items order.recent.keys };

    ghost invariant = { λ order. IsStrictlySortedBy key_cmp order.long.items × (order.one ≡ replicate 64 0) };
}

impl<'a, const D: usize> KeyOrder<'a, D> {
    /// No key.
    pub(crate) fn new(alloc: Global) -> Self
        requires { D ≤ 4 }
        ensures { result ≡ [] }
    {
        KeyOrder {
            alloc,
            one: Params::one(),
            long: Vec::new(alloc),
            recent: BTreeSet::new(alloc),
            names: PhantomData,
        }
    }

    /// The keys, one after another.
    pub(crate) fn walk(&self) -> KeyWalk<'_, 'a, D>
        ensures keys { result ≡ self.now }
        ensures ascending { IsStrictlySortedBy key_cmp self.now }
    {
        KeyWalk::of(&self.long, &self.recent)
    }

    /// Puts the key in. The others stay, also where there is no memory.
    pub(crate) fn insert(&mut self, key: ViewKey<'a, D>) -> Result<(), NoMemory>
        ensures there { OnOk result (has_met self.new key.entry ≡ true) }
        ensures others { HasAll self.new self.old }
    {
        self.settle()?;
        self.recent.insert(HeadedKey::of(&self.one, key))?;
        Ok(())
    }

    /// Puts all keys into the one list, where too many came last.
    fn settle(&mut self) -> Result<(), NoMemory>
        ensures { self.new ≡ self.old }
    {
        if self.recent.len() < self.long.len() / LARGEST_PART + FEWEST_RECENT {
            return Ok(());
        }
        self.long = self.listed()?;
        self.recent.clear();
        Ok(())
    }

    /// A list of the keys.
    fn listed(&self) -> Result<Vec<HeadedKey<'a, D>>, NoMemory>
        ensures keys { IfOk result (λ list. list.items ≡ self.now) }
        ensures ascending { IfOk result (λ list. IsStrictlySortedBy key_cmp list.items) }
    {
        let mut list = Vec::with_capacity(self.alloc, self.long.len() + self.recent.len())?;
        for key in self.walk() {
            let view = key.key();
            list.push(HeadedKey::with(key.head(), view.params(), view.rows()))?;
        }
        Ok(list)
    }
}
