//! The least key at which two polynomials differ.
ghost use Rattle.std.specs.Prelude.{◌≡◌, IfOk};
ghost use Rattle.coordinate_model.specs.Sequences.{IsRank};
ghost use Rattle.log_checker.specs.Differences.{FindsDifference};

use bracket_poly::{Key, Poly};
use cay_base::NoMemory;
use std::alloc::Global;
use std::cmp::Ordering;

/// A key, with its coefficient in what was computed and in what was written.
#[derive(Drop)]
pub(crate) struct LeastDifference<const D: usize> {
    pub key: Key<D>,
    pub computed: i128,
    pub written: i128,
}

/// The least key whose coefficients differ; none where the polynomials are equal.
pub(crate) fn difference<const D: usize>(
    alloc: Global,
    computed: &Poly<D>,
    written: &Poly<D>,
) -> Result<Option<LeastDifference<D>>, NoMemory>
    ensures { IfOk result (FindsDifference computed.now.tracked.sum written.now.tracked.sum) }
{
    let mut others = written.terms();
    for (key, c) in computed.terms() {
        let Some((other, w)) = others.next() else {
            return Ok(Some(found(alloc, key, c, 0)?));
        };
        match key.cmp(other) {
            Ordering::Less => return Ok(Some(found(alloc, key, c, 0)?)),
            Ordering::Greater => return Ok(Some(found(alloc, other, 0, w)?)),
            Ordering::Equal => {}
        }
        if c != w {
            return Ok(Some(found(alloc, key, c, w)?));
        }
    }
    match others.next() {
        Some((other, w)) => Ok(Some(found(alloc, other, 0, w)?)),
        None => Ok(None),
    }
}

/// The difference at the key.
fn found<const D: usize>(
    alloc: Global,
    key: &Key<D>,
    computed: i128,
    written: i128,
) -> Result<LeastDifference<D>, NoMemory>
    requires { IsRank D }
    ensures key { IfOk result (λ found. found.key ≡ key.now) }
    ensures computed { IfOk result (λ found. found.computed ≡ computed) }
    ensures written { IfOk result (λ found. found.written ≡ written) }
{
    Ok(LeastDifference {
        key: key.copy(alloc)?,
        computed,
        written,
    })
}
