//! Contraction: passes until there is none (after H. Li and Y. Wu, Journal of Symbolic Computation 36, 2003).
ghost use Rattle.std.specs.Prelude.{◌≡◌, ◌<◌, ◌≤◌, None, length, IfOk};
ghost use Rattle.coordinate_model.specs.BracketPolynomial.{value};
ghost use Rattle.bracket_poly.specs.Products.{HasDegree};
ghost use Rattle.contraction.specs.Passes.{pass, most_terms, contracted};
ghost use Rattle.contraction.specs.PassLaws.{EndAlike};
ghost use Rattle.contraction.specs.Results.{AnswersPasses, AnswersInClasses, AnswersLower, IsUnchanged};

use crate::contracted::{ContractError, Contracted, stopped_by};
use crate::search::next_pass;
use bracket_poly::{Items, Poly};
use std::alloc::Global;
use straightening::Partial;
use syzygies::add_multiple;

/// The greatest number of terms of a polynomial that is contracted.
const MOST_TERMS: usize = 200;

/// Makes passes until there is none: each takes the first pair of terms that a three-term syzygy turns into one, and
/// adds that multiple. A polynomial of more than 200 terms comes back as it was.
///
/// `Coefficient` and `Keys` come exactly at the first pass in which an addition would answer so. The multiple that was
/// refused is not among the uses. Each use makes the terms fewer.
pub fn contract<const D: usize>(
    alloc: Global,
    poly: Poly<D>,
) -> Result<Contracted<D>, ContractError<D>>
    requires degree { HasDegree 1000 poly.tracked.sum }
    ensures run { AnswersPasses result (contracted poly.entry.tracked) }
    ensures value { IfOk result (λ end. value end.poly.tracked.sum ≡ value poly.entry.tracked.sum) }
    ensures ends { IfOk result (λ end. EndAlike poly.entry.tracked end.poly.tracked) }
    ensures classes { AnswersInClasses result poly.entry.tracked.sum }
    ensures degree { IfOk result (λ end. HasDegree 1000 end.poly.tracked.sum) }
    ensures fewer { AnswersLower result poly.entry.tracked.sum }
    ensures none_left { length poly.entry.tracked.sum.terms ≤ most_terms
        → IfOk result (λ end. pass end.poly.tracked.sum ≡ None) }
    ensures unchanged { most_terms < length poly.entry.tracked.sum.terms
        → IfOk result (λ end. IsUnchanged end poly.entry) }
{
    let mut poly = poly;
    let mut uses = Vec::new(alloc);
    if poly.len() > MOST_TERMS {
        let uses = Items::of(uses);
        return Ok(Contracted { poly, uses });
    }
    while let Some(log_use) = next_pass(alloc, &poly)? {
        if let Err(error) = add_multiple(alloc, &mut poly, &log_use) {
            let uses = Items::of(uses);
            return Err(stopped_by(Partial { uses, turns: 0 }, error));
        }
        uses.push(log_use)?;
    }
    let uses = Items::of(uses);
    Ok(Contracted { poly, uses })
}
