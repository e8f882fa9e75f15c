//! The least key of a polynomial that is not standard.
ghost use Rattle.std.specs.Prelude.{IfOk};
ghost use Rattle.log_checker.specs.Differences.{FindsNonstandard};

use bracket_poly::{Key, Poly};
use cay_base::NoMemory;
use std::alloc::Global;
use tableau_order::is_standard;

/// The least key that is not standard; none where the polynomial is normal.
pub(crate) fn nonstandard<const D: usize>(
    alloc: Global,
    poly: &Poly<D>,
) -> Result<Option<Key<D>>, NoMemory>
    ensures { IfOk result (FindsNonstandard D poly.now.tracked.sum) }
{
    for (key, _) in poly.terms() {
        if !is_standard(key.tableau.rows()) {
            return Ok(Some(key.copy(alloc)?));
        }
    }
    Ok(None)
}
