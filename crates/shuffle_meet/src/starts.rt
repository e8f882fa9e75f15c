//! Starts: sums of products of polynomials, each for its extensor.
ghost use Rattle.std.specs.Prelude.{◌≡◌, ◌≤◌, [], OnErr, IfOk, filter};
ghost use Rattle.coordinate_model.specs.Sequences.{IsRank};
ghost use Rattle.coordinate_model.specs.Starts.{has_term};
ghost use Rattle.bracket_poly.specs.Values.{entry_of};
ghost use Rattle.shuffle_meet.specs.Seen.{seen, AreOfStep, of_step-prop};

use bracket_poly::{Poly, PolyError, Value};
use bracket_terms::{Extensor, Items};
use std::alloc::Global;
use std::collections::BTreeMap;

/// The extensors that were reached, each with the sum of the products that were added to it.
#[derive(Drop)]
pub(crate) struct Starts<const D: usize> {
    pub(crate) alloc: Global,
    /// The step of the value that the sums make.
    pub(crate) step: u8,
    pub(crate) polys: BTreeMap<Extensor, Poly<D>>,
    ghost of_step: { AreOfStep D step polys.entries } by { of_step-prop D step polys.entries },
}

impl<const D: usize> Starts<D> {
    /// No product is added.
    pub(crate) fn new(alloc: Global, step: u8) -> Self
        requires rank { IsRank D }
        requires within { step ≤ D }
        ensures none { seen result.polys.entries ≡ [] }
        ensures step { result.step ≡ step }
    {
        Starts {
            alloc,
            step,
            polys: BTreeMap::new(alloc),
        }
    }

    /// The value of the sums that have a term.
    pub(crate) fn finish(self) -> Result<Value<D>, PolyError>
        ensures entries { IfOk result (λ value. value.entries ≡ filter (λ e. has_term (entry_of e)) self.entry.polys.entries) }
        ensures step { IfOk result (λ value. value.step ≡ self.entry.step) }
        ensures memory { OnErr result (result ≡ Err PolyError.Memory) }
    {
        let mut entries = Vec::new(self.alloc);
        for (extensor, sum) in self.polys {
            if sum.len() > 0 {
                entries.push((extensor, sum))?;
            }
        }
        Ok(Value {
            step: self.step,
            entries: Items::of(entries),
        })
    }
}
