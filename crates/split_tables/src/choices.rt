//! The splits of at most five places.
ghost use Rattle.std.specs.Prelude.{◌≡◌, ◌<◌, ◌≤◌, length};
ghost use Rattle.coordinate_model.specs.Sequences.{splits, range};
ghost use Rattle.split_tables.specs.Masks.{IsSplitAt};

use crate::signed_split::SignedSplit;
use crate::table::table;

/// The ways to choose `K` of `N` places, in lexicographic order.
pub struct Splits<const N: usize, const K: usize>;

impl<const N: usize, const K: usize> Splits<N, K> {
    /// How many there are.
    pub fn count() -> usize
        requires chosen { K ≤ N }
        requires places { N ≤ 5 }
        ensures { result ≡ length (splits K (range N)) }
    {
        table(N as u8, K as u8).len()
    }

    /// The one at the place `i`, counted from 0.
    pub fn get(i: usize) -> SignedSplit
        requires chosen { K ≤ N }
        requires places { N ≤ 5 }
        requires within { i < length (splits K (range N)) }
        ensures { IsSplitAt N K i result }
    {
        table(N as u8, K as u8)[i]
    }
}

/// How many ways there are to choose `k` of `n` places.
pub fn split_count(n: u8, k: u8) -> usize
    requires chosen { k ≤ n }
    requires places { n ≤ 5 }
    ensures { result ≡ length (splits k (range n)) }
{
    table(n, k).len()
}

/// The one at the place `i` in lexicographic order, counted from 0.
pub fn split(n: u8, k: u8, i: usize) -> SignedSplit
    requires chosen { k ≤ n }
    requires places { n ≤ 5 }
    requires within { i < length (splits k (range n)) }
    ensures { IsSplitAt n k i result }
{
    table(n, k)[i]
}
