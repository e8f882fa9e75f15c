//! Extensors by the names of their points.
ghost use Rattle.std.specs.Prelude.{◌≡◌, ◌≤◌, length, option_map, IfOk};
ghost use Rattle.bracket_terms.specs.Joins.{points_of};
ghost use Rattle.proof_text.specs.Ordered.{rising_points};

use crate::line_words::{Words, count, list};
use crate::points::{is_rising, points_in_front};
use crate::word::Word;
use bracket_terms::Extensor;
use cay_base::NoMemory;
use std::alloc::Global;
use step_types::Names;

/// The extensor of these points, where there are so many and they strictly increase.
pub(crate) fn extensor(
    alloc: Global,
    names: &Names,
    size: usize,
    words: &Words,
) -> Result<Option<Extensor>, NoMemory>
    requires few { length names.now.free ≤ 200 }
    requires size { size ≤ 4 }
    ensures { IfOk result (λ found. option_map points_of found ≡ rising_points names.now size words.now) }
{
    if count(words) == size {
        Ok(extensor_of(names, size, &list(alloc, words)?))
    } else {
        Ok(None)
    }
}

/// The extensor of the points in the list, where there are so many and they strictly increase.
fn extensor_of(names: &Names, size: usize, words: &[Word]) -> Option<Extensor>
    requires few { length names.now.free ≤ 200 }
    requires size { size ≤ 4 }
    ensures { option_map points_of result ≡ rising_points names.now size words.now }
{
    if words.len() != size {
        return None;
    }
    let points = points_in_front::<4>(names.free.items(), words);
    if is_rising(&points[..size]) {
        Some(Extensor {
            size: size as u8,
            points,
        })
    } else {
        None
    }
}
