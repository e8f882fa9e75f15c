//! What single instructions make within the limit: `None` where a number passes it.
ghost use Rattle.std.specs.Prelude.{◌≤◌, length};
ghost use Rattle.coordinate_model.specs.Sequences.{IsRank};
ghost use Rattle.placement.specs.Numbers.{lists_of};
ghost use Rattle.placement.specs.Placed.{IsGiven};
ghost use Rattle.placement.specs.Ready.{AreSized, CanMake, Makes};

use crate::combined::mixed;
use crate::objects::{joined, met, point, single};
use crate::total::six_points;
use cay_base::NoMemory;
use cayley_terms::{Instr, Items};
use std::alloc::Global;

/// The coordinates of the free points, and the parameters.
#[derive(Clone, Copy)]
pub(crate) struct Numbers<'a> {
    pub points: &'a [Vec<i128>],
    pub params: &'a [i128],
}

/// What the instruction makes of the objects with these steps.
pub(crate) fn make(
    alloc: Global,
    rank: u8,
    steps: &[u8],
    objects: &[Items<i128>],
    numbers: &Numbers<'_>,
    instr: Instr,
) -> Result<Option<Vec<i128>>, NoMemory>
    requires rank { IsRank rank }
    requires few { length objects.now ≤ length steps.now }
    requires ready { CanMake rank steps.now (length objects.now) instr }
    requires given { IsGiven rank (lists_of numbers.now.points.now) numbers.now.params.now instr }
    requires sized { AreSized rank steps.now objects.now }
    ensures { Makes rank steps.now objects.now (lists_of numbers.now.points.now) numbers.now.params.now instr result }
{
    match instr {
        Instr::Free(i) => Ok(Some(Vec::from_slice(alloc, &numbers.points[i as usize])?)),
        Instr::Join(a, b) => joined(
            alloc,
            rank,
            steps[a as usize],
            steps[b as usize],
            objects[a as usize].items(),
            objects[b as usize].items(),
        ),
        Instr::Meet(a, b) => met(
            alloc,
            rank,
            steps[a as usize],
            steps[b as usize],
            objects[a as usize].items(),
            objects[b as usize].items(),
        ),
        Instr::On { a, b, s, t } => mixed(
            alloc,
            numbers.params[s as usize],
            numbers.params[t as usize],
            objects[a as usize].items(),
            objects[b as usize].items(),
        ),
        Instr::Conic {
            p1,
            p2,
            p3,
            p4,
            p5,
            p6,
        } => {
            let value = six_points(
                point(&objects[p1 as usize]),
                point(&objects[p2 as usize]),
                point(&objects[p3 as usize]),
                point(&objects[p4 as usize]),
                point(&objects[p5 as usize]),
                point(&objects[p6 as usize]),
            );
            single(alloc, value)
        }
    }
}
