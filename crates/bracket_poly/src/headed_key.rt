//! Keys that are told apart by a number, mostly.
ghost use Rattle.std.specs.Prelude.{◌≡◌, ◌<◌, ◌≤◌, Some, get_or, replicate, refl};
ghost use Rattle.std.specs.Cmp.{partial_equiv_from_equiv, eq_by_cmp_equiv, partial_order_from_agreeing_total};
ghost use Rattle.std.specs.Ordering.{eq_by_cmp};
ghost use Rattle.coordinate_model.specs.Key.{key_cmp};
ghost use Rattle.bracket_poly.specs.Arena.{key_of};
ghost use Rattle.bracket_poly.specs.Heads.{IsByteRow, BeginsWithBytes, IsHead, row_number, rows_number};
ghost use Rattle.bracket_poly.specs.Keys.{key_cmp_total};

use crate::view_key::ViewKey;
use bracket_terms::{Bracket, Params, laws};
use std::cmp::Ordering;
use std::marker::Model;

/// A key that lies elsewhere, and beside it a number, its head: where two heads are different, their order is that of the
/// keys, and no look is taken at where these lie.
#[derive(Drop)]
pub struct HeadedKey<'a, const D: usize> {
    head: u64,
    key: ViewKey<'a, D>,
}

impl<'a, const D: usize> Model for HeadedKey<'a, D> {
    ghost use Rattle.coordinate_model.specs.Key.{Key as KeyValue};
    ghost use Rattle.coordinate_model.specs.Code.{key_code};
    ghost use Rattle.bracket_poly.specs.Heads.{IsHead};

    ghost Value = { KeyValue };

    ghost coded = { key_code };

    ghost view = { λ headed. headed.key };

    ghost invariant = { λ headed. IsHead D headed.key headed.head };
}

impl<'a, const D: usize> HeadedKey<'a, D> {
    /// The key with its head. `one` is the product of no parameter.
    pub(crate) fn of(one: &Params, key: ViewKey<'a, D>) -> Self
        requires { one.now ≡ replicate 64 0 }
        ensures { result ≡ key.entry }
    {
        laws::params(key.params());
        let number = rows_number(key.rows());
        let head = if key.params() == one {
            number
        } else {
            u64::MAX
        };
        HeadedKey { head, key }
    }

    /// The key with a head that is known to be its own.
    pub(crate) fn with(head: u64, params: &'a Params, rows: &'a [Bracket<D>]) -> Self
        requires rank { D ≤ 4 }
        requires head { IsHead D (key_of params.now rows.now) head }
        ensures { result ≡ key_of params.now rows.entry.now }
    {
        HeadedKey {
            head,
            key: ViewKey::of(params, rows),
        }
    }

    /// The head.
    pub(crate) fn head(&self) -> u64
        ensures { IsHead D self.now result }
    {
        self.head
    }

    /// The key alone.
    pub(crate) fn key(&self) -> &ViewKey<'a, D>
        ensures { result.now ≡ self.now }
    {
        &self.key
    }
}

/// The first two rows as a number: their points are its digits in base 256, four for a row.
fn rows_number<const D: usize>(rows: &[Bracket<D>]) -> u64
    ensures number { result ≡ rows_number rows.now }
    ensures bytes { BeginsWithBytes D rows.now }
{
    match rows {
        [] => 0,
        [first] => row_number(first) * 4_294_967_296,
        [first, second, ..] => row_number(first) * 4_294_967_296 + row_number(second),
    }
}

/// The row as a number of four digits.
fn row_number<const D: usize>(row: &Bracket<D>) -> u64
    ensures number { result ≡ row_number row.now }
    ensures bytes { IsByteRow D row.now }
    ensures small { result < 4294967296 }
{
    let points = row.points();
    let high = digit(&points, 0) * 256 + digit(&points, 1);
    let low = digit(&points, 2) * 256 + digit(&points, 3);
    high * 65_536 + low
}

/// The point at the place, 0 where there is none.
fn digit<const D: usize>(points: &[u8; D], place: usize) -> u64
    ensures digit { result ≡ get_or points.now place 0 }
    ensures small { result < 256 }
{
    if place < D { points[place] as u64 } else { 0 }
}

impl<'a, const D: usize> PartialEq for HeadedKey<'a, D> {
    ghost eq = { eq_by_cmp key_cmp };

    ghost laws = { partial_equiv_from_equiv (eq_by_cmp_equiv key_cmp_total) };

    fn eq(&self, other: &Self) -> bool {
        self.cmp(other) == Ordering::Equal
    }
}

impl<'a, const D: usize> Eq for HeadedKey<'a, D> {
    ghost laws = { eq_by_cmp_equiv key_cmp_total };
}

impl<'a, const D: usize> PartialOrd for HeadedKey<'a, D> {
    ghost partial_cmp = { λ x y. Some (key_cmp x y) };

    ghost laws = { partial_order_from_agreeing_total key_cmp key_cmp_total (λ x y. refl) (λ x y. refl) };

    fn partial_cmp(&self, other: &Self) -> Option<Ordering> {
        Some(self.cmp(other))
    }
}

impl<'a, const D: usize> Ord for HeadedKey<'a, D> {
    ghost cmp = { key_cmp };

    ghost total = { key_cmp_total };

    ghost matches_partial_cmp = { λ x y. refl };

    ghost matches_eq = { λ x y. refl };

    fn cmp(&self, other: &Self) -> Ordering {
        if self.head < other.head {
            return Ordering::Less;
        }
        if self.head > other.head {
            return Ordering::Greater;
        }
        self.key.cmp(&other.key)
    }
}
