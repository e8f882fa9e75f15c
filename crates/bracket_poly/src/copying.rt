//! Copies of polynomials.
ghost use Rattle.std.specs.Prelude.{◌≡◌, IfOk, T};
ghost use Rattle.std.specs.FinMap.{is_sorted};
ghost use Rattle.std.specs.List.{IsDistinct};
ghost use Rattle.std.specs.Ordering.{eq_by_cmp};
ghost use Rattle.coordinate_model.specs.Sequences.{IsRank};
ghost use Rattle.coordinate_model.specs.Key.{key_cmp};

use crate::key::Key;
use crate::poly::Poly;
use cay_base::NoMemory;
use indexmap::IndexSet;
use std::alloc::Global;
use std::collections::BTreeMap;

impl<const D: usize> Poly<D> {
    /// An equal polynomial, which has met the same keys.
    pub fn copy(&self) -> Result<Poly<D>, NoMemory>
        ensures { IfOk result (λ copy. copy ≡ self.now) }
    {
        Ok(Poly {
            alloc: self.alloc,
            terms: copied_terms(self.alloc, &self.terms)?,
            met: copied_keys(self.alloc, &self.met)?,
        })
    }
}

fn copied_terms<const D: usize>(
    alloc: Global,
    terms: &BTreeMap<Key<D>, i128>,
) -> Result<BTreeMap<Key<D>, i128>, NoMemory>
    requires rank { IsRank D }
    requires ascending { T (is_sorted key_cmp terms.now.entries) }
    ensures { IfOk result (λ copy. copy.entries ≡ terms.now.entries) }
{
    let mut copy = BTreeMap::new(alloc);
    for (key, c) in terms {
        copy.insert(key.copy(alloc)?, *c)?;
    }
    Ok(copy)
}

fn copied_keys<const D: usize>(
    alloc: Global,
    keys: &IndexSet<Key<D>>,
) -> Result<IndexSet<Key<D>>, NoMemory>
    requires rank { IsRank D }
    requires once { IsDistinct (eq_by_cmp key_cmp) keys.now.keys }
    ensures { IfOk result (λ copy. copy.keys ≡ keys.now.keys) }
{
    let mut copy = IndexSet::new(alloc);
    for key in keys.iter() {
        copy.insert(key.copy(alloc)?)?;
    }
    Ok(copy)
}
