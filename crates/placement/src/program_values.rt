//! The values of a whole program.
ghost use Rattle.std.specs.Prelude.{◌≡◌, IfErr, IfOk, pos, slice_index_or};
ghost use Rattle.placement.specs.Numbers.{lists_of};
ghost use Rattle.placement.specs.Placed.{HasValuesOf, IsPlacementOf, StaysWithin, TellsLine};

use crate::fault::PlaceFault;
use crate::make::{Numbers, make};
use cayley_terms::{Items, Program};
use std::alloc::Global;

/// What a program gives at a placement.
#[derive(Debug, Drop)]
pub struct Placed {
    /// The coordinates of what each instruction makes but the last, by the sets of columns in lexicographic order.
    pub objects: Items<Items<i128>>,
    /// The value of the conclusion.
    pub conclusion: i128,
}

/// The values of the program where the free points and the parameters are these, each by its number: those of its
/// objects and of its conclusion in unbounded integers. They are computed in 128 bits; where a product or a sum passes
/// 2^127 - 1 in absolute value, the line of the first instruction with one is the answer.
pub fn place(
    alloc: Global,
    program: &Program,
    points: &[Vec<i128>],
    params: &[i128],
) -> Result<Placed, PlaceFault>
    requires { IsPlacementOf program.now (lists_of points.now) params.now }
    ensures values { IfOk result (HasValuesOf program.now (lists_of points.now) params.now) }
    ensures within { IfOk result (λ placed. StaysWithin program.now (lists_of points.now) params.now) }
    ensures passes { IfErr result (TellsLine program.now (lists_of points.now) params.now) }
{
    let numbers = Numbers { points, params };
    let instrs = program.instrs.items();
    let mut objects = Vec::new(alloc);
    for n in 0..instrs.len() {
        let made = make(
            alloc,
            program.rank,
            program.steps.items(),
            &objects,
            &numbers,
            instrs[n],
        )?;
        let Some(coordinates) = made else {
            return Err(PlaceFault::Coefficient(program.lines.items()[n]));
        };
        objects.push(Items::of(coordinates))?;
    }
    let conclusion = match objects.pop() {
        Some(last) => sole(&last),
        None => 0,
    };
    Ok(Placed {
        objects: Items::of(objects),
        conclusion,
    })
}

/// The one coordinate of the conclusion.
fn sole(last: &Items<i128>) -> i128
    ensures { result ≡ slice_index_or last.now 0 (pos 0) }
{
    last.items().first().copied().unwrap_or(0)
}
