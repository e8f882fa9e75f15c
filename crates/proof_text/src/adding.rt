//! Terms and scalars behind the last ones.
ghost use Rattle.std.specs.Prelude.{◌≡◌, ◌≢◌, ◌<◌, true, pos, T, map, length, OnOk};
ghost use Rattle.bracket_poly.specs.Sections.{rewritten_of};
ghost use Rattle.bracket_poly.specs.Tracked.{fits, met_limit};
ghost use Rattle.proof_text.specs.Kinds.{is_behind_terms, is_behind_sections};
ghost use Rattle.proof_text.specs.Outcome.{HasMetTerms};
ghost use Rattle.proof_text.specs.State.{with_term};

use bracket_poly::{Key, Poly, PolyError, Section};
use cay_base::NoMemory;
use std::cmp::Ordering;

/// Whether the key comes behind all terms.
pub(crate) fn is_behind<const D: usize>(terms: &Poly<D>, key: &Key<D>) -> bool
    ensures { result ≡ is_behind_terms key.now terms.now.tracked.sum.terms }
{
    match terms.terms().next_back() {
        Some((last, _)) => last.cmp(key) == Ordering::Less,
        None => true,
    }
}

/// Adds a term whose key comes behind all others: no limit is passed, since there is room for it.
pub(crate) fn add_last<const D: usize>(
    terms: &mut Poly<D>,
    key: Key<D>,
    c: i128,
) -> Result<(), NoMemory>
    requires not_zero { c ≢ pos 0 }
    requires small { T (fits c) }
    requires behind { is_behind_terms key terms.old.tracked.sum.terms ≡ true }
    requires room { length terms.old.tracked.sum.terms < met_limit }
    requires met { HasMetTerms terms.old }
    ensures added { OnOk result (terms.new.tracked.sum ≡ with_term (key.entry, c) terms.old.tracked.sum) }
    ensures met { OnOk result (HasMetTerms terms.new) }
{
    match terms.add(key, c) {
        Ok(()) => Ok(()),
        Err(PolyError::Memory) => Err(NoMemory),
        Err(PolyError::Coefficient) => unreachable!(),
        Err(PolyError::Keys) => unreachable!(),
    }
}

/// Whether the points come behind those of the last section.
pub(crate) fn is_behind_sections<const D: usize>(points: &[u8], sections: &[Section<D>]) -> bool
    ensures { result ≡ is_behind_sections points.now (map rewritten_of sections.now) }
{
    match sections {
        [.., last] => {
            let scalar = &last.scalar.points[..last.scalar.size as usize];
            scalar.cmp(points) == Ordering::Less
        }
        [] => true,
    }
}
