//! The terms of a polynomial, one after another.
ghost use Rattle.std.specs.Iterator.{YieldsFirstBy, YieldsLastBy, item_count};

use crate::key::Key;
use std::collections::btree_map::Iter;
use std::marker::Model;

/// The terms that are left, in ascending key order.
#[derive(Drop)]
pub struct Terms<'a, const D: usize> {
    entries: Iter<'a, Key<D>, i128>,
}

impl<'a, const D: usize> Model for Terms<'a, D> {
    ghost use Rattle.std.specs.Prelude.{ℤ};
    ghost use Rattle.coordinate_model.specs.Key.{Key as KeyValue};
    ghost use Rattle.coordinate_model.specs.Sums.{Terms as Listed};
    ghost use Rattle.coordinate_model.specs.Code.{key_code};
    ghost use Rattle.std.specs.Coded.{coded×, coded_list};
    ghost use base.Stored.{coded_ℤ};

    ghost Value = { Listed KeyValue };

    ghost coded = { coded_list (coded× key_code coded_ℤ) };

    ghost view = { λ terms. terms.entries };
}

impl<'a, const D: usize> Terms<'a, D> {
    ghost use Rattle.std.specs.Prelude.{◌≡◌};

    pub(crate) fn of(entries: Iter<'a, Key<D>, i128>) -> Self
        ensures { result ≡ entries.entry }
    {
        Terms { entries }
    }
}

impl<'a, const D: usize> Iterator for Terms<'a, D> {
    type Item = (&'a Key<D>, i128);

    ghost next_gives = { YieldsFirstBy (λ item. (item.0.now, item.1)) (λ terms. terms) };

    ghost remaining = { item_count (λ terms. terms) };

    fn next(&mut self) -> Option<(&'a Key<D>, i128)> {
        let (key, c) = self.entries.next()?;
        Some((key, *c))
    }
}

impl<'a, const D: usize> DoubleEndedIterator for Terms<'a, D> {
    ghost next_back_gives = { YieldsLastBy (λ item. (item.0.now, item.1)) (λ terms. terms) };

    fn next_back(&mut self) -> Option<(&'a Key<D>, i128)> {
        let (key, c) = self.entries.next_back()?;
        Some((key, *c))
    }
}
