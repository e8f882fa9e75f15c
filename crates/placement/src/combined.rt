//! The coordinates of objects within the limit: `None` where one passes it.
ghost use Rattle.std.specs.Prelude.{◌≡◌, IsTrue, map, length};
ghost use Rattle.std.specs.List.{list_all};
ghost use Rattle.placement.specs.Numbers.{MakesNumbers, combinations_of, has_term, total_of};

use crate::terms::Term;
use crate::total::{combination, total};
use cay_base::NoMemory;
use std::alloc::Global;

/// What the terms of two objects make.
pub(crate) fn combined(
    alloc: Global,
    rows: &[&[Term]],
    a: &[i128],
    b: &[i128],
) -> Result<Option<Vec<i128>>, NoMemory>
    requires { IsTrue (list_all (λ row. list_all (has_term a.now b.now) row.now) rows.now) }
    ensures { MakesNumbers (map (λ row. total_of a.now b.now row.now) rows.now) result }
{
    let mut made = Vec::new(alloc);
    for row in rows {
        let Some(coordinate) = total(row, a, b) else {
            return Ok(None);
        };
        made.push(coordinate)?;
    }
    Ok(Some(made))
}

/// The point s * a + t * b.
pub(crate) fn mixed(
    alloc: Global,
    s: i128,
    t: i128,
    a: &[i128],
    b: &[i128],
) -> Result<Option<Vec<i128>>, NoMemory>
    requires { length a.now ≡ length b.now }
    ensures { MakesNumbers (combinations_of s t a.now b.now) result }
{
    let mut made = Vec::new(alloc);
    for k in 0..a.len() {
        let Some(coordinate) = combination(s, t, a[k], b[k]) else {
            return Ok(None);
        };
        made.push(coordinate)?;
    }
    Ok(Some(made))
}
