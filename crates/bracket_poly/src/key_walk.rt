//! Keys in ascending order, one after another.
ghost use Rattle.std.specs.Prelude.{◌≡◌};
ghost use Rattle.std.specs.Iterator.{YieldsFirstRef, item_count};
ghost use Rattle.std.specs.List.Sorted.{IsStrictlySortedBy};
ghost use Rattle.coordinate_model.specs.Key.{key_cmp};
ghost use Rattle.bracket_poly.specs.Orders.{merged};

use crate::headed_key::HeadedKey;
use std::cmp::Ordering;
use std::collections::BTreeSet;
use std::collections::btree_set::Iter;
use std::marker::Model;

/// The keys that are left of two lists, in ascending order: contracts see the list of them.
#[derive(Drop)]
pub struct KeyWalk<'t, 'a, const D: usize> {
    long: &'t [HeadedKey<'a, D>],
    /// The first of the other list, and those behind it.
    recent: Option<&'t HeadedKey<'a, D>>,
    later: Iter<'t, HeadedKey<'a, D>>,
}

impl<'t, 'a, const D: usize> Model for KeyWalk<'t, 'a, D> {
    ghost use Rattle.std.specs.Prelude.{◌≡◌, [], List, IfNone};
    ghost use Rattle.std.specs.List.{cons_option};
    ghost use Rattle.std.specs.Option.{option_copied};
    ghost use Rattle.coordinate_model.specs.Key.{Key as KeyValue};
    ghost use Rattle.bracket_poly.specs.Orders.{merged};

    ghost Value = { List KeyValue };

    ghost view = { λ walk. merged walk.long.now (cons_option (option_copied walk.recent) walk.later) };

    ghost invariant = { λ walk. IfNone walk.recent (walk.later ≡ []) };
}

impl<'t, 'a, const D: usize> KeyWalk<'t, 'a, D> {
    /// The keys of both.
    pub(crate) fn of(long: &'t [HeadedKey<'a, D>], recent: &'t BTreeSet<HeadedKey<'a, D>>) -> Self
        ensures keys { result ≡ merged long.now recent.now.keys }
        ensures ascending { IsStrictlySortedBy key_cmp recent.now.keys }
    {
        let mut later = recent.iter();
        let recent = later.next();
        KeyWalk {
            long,
            recent,
            later,
        }
    }
}

impl<'t, 'a, const D: usize> Iterator for KeyWalk<'t, 'a, D> {
    type Item = &'t HeadedKey<'a, D>;

    ghost next_gives = { YieldsFirstRef (λ walk. walk) };

    ghost remaining = { item_count (λ walk. walk) };

    fn next(&mut self) -> Option<&'t HeadedKey<'a, D>> {
        let [first, rest @ ..] = self.long else {
            let recent = self.recent;
            self.recent = self.later.next();
            return recent;
        };
        let Some(recent) = self.recent else {
            self.long = rest;
            return Some(first);
        };
        match first.cmp(recent) {
            Ordering::Less => {
                self.long = rest;
                Some(first)
            }
            Ordering::Equal => {
                self.long = rest;
                self.recent = self.later.next();
                Some(first)
            }
            Ordering::Greater => {
                self.recent = self.later.next();
                Some(recent)
            }
        }
    }
}
