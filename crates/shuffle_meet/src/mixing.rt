//! Combinations of points.
ghost use Rattle.std.specs.Prelude.{◌≡◌, ◌<◌, [], IfOk, OnErr, map};
ghost use Rattle.std.specs.List.{AllByRecursion};
ghost use Rattle.coordinate_model.specs.Sequences.{IsRank};
ghost use Rattle.coordinate_model.specs.BracketPolynomial.{parameter_of};
ghost use Rattle.coordinate_model.specs.Starts.{scaled_product};
ghost use Rattle.bracket_poly.specs.Answers.{AnswersLimit};
ghost use Rattle.bracket_poly.specs.Products.{ExponentsFit};
ghost use Rattle.bracket_poly.specs.Values.{extensor_size, value_of};
ghost use Rattle.shuffle_meet.specs.Seen.{seen};
ghost use Rattle.shuffle_meet.specs.Stops.{first_stop, tracked_entries};
ghost use Rattle.shuffle_meet.specs.Adding.{Adds};
ghost use Rattle.shuffle_meet.specs.Objects.{AreMixed, ParameterFits, mixed, IsMixed, MixesSizes};

use crate::starts::Starts;
use bracket_poly::{Key, Poly, PolyError, Value};
use bracket_terms::{Extensor, Params};
use std::alloc::Global;
use tableau_order::Tableau;

/// The point `s * a + t * b` on the line of two points, for the parameters `s` and `t`, by their numbers.
///
/// The products are those of each entry of `a` in order with the one parameter, and then of each of `b` in order with the
/// other. `Coefficient` and `Keys` come exactly where the first of them that passes a limit passes this one.
pub fn on<const D: usize>(
    alloc: Global,
    a: &Value<D>,
    b: &Value<D>,
    s: u8,
    t: u8,
) -> Result<Value<D>, PolyError>
    requires rank { IsRank D }
    requires steps { AreMixed a.now.step b.now.step }
    requires first_parameter { s < 64 }
    requires second_parameter { t < 64 }
    requires first_exponents { ParameterFits s a.now }
    requires second_exponents { ParameterFits t b.now }
    ensures limits { AnswersLimit result (first_stop [] (mixed s t a.now b.now)) }
    ensures entries { IfOk result (λ value. seen value.entries ≡ tracked_entries (mixed s t a.now b.now)) }
    ensures step { IfOk result (λ value. value.step ≡ 1) }
    ensures coordinates { IfOk result (IsMixed s t a.now b.now) }
    ensures sizes { IfOk result (MixesSizes s t a.now b.now) }
{
    let first = parameter(alloc, s)?;
    let second = parameter(alloc, t)?;
    let mut starts = Starts::new(alloc, 1);
    add_scaled(&mut starts, a.entries.items(), &first)?;
    add_scaled(&mut starts, b.entries.items(), &second)?;
    starts.finish()
}

/// The parameter as a polynomial. No limit is in its way.
fn parameter<const D: usize>(alloc: Global, i: u8) -> Result<Poly<D>, PolyError>
    requires rank { IsRank D }
    requires number { i < 64 }
    ensures parameter { IfOk result (λ poly. poly.tracked.sum ≡ parameter_of 64 i) }
    ensures memory { OnErr result (result ≡ Err PolyError.Memory) }
{
    let tableau = Tableau::from_rows(alloc, &[])?;
    let params = Params::single(i);
    let mut poly = Poly::new(alloc);
    poly.add(Key { params, tableau }, 1)?;
    Ok(poly)
}

/// Adds each entry times the polynomial, to the sum of its own extensor.
fn add_scaled<const D: usize>(
    starts: &mut Starts<D>,
    entries: &[(Extensor, Poly<D>)],
    factor: &Poly<D>,
) -> Result<(), PolyError>
    requires sizes { AllByRecursion (λ entry. entry.0.size ≡ extensor_size D starts.old.step) entries.now }
    requires exponents { AllByRecursion (λ entry. ExponentsFit entry.1.tracked.sum factor.now.tracked.sum) entries.now }
    ensures step { starts.new.step ≡ starts.old.step }
    ensures added { Adds starts.old (map (scaled_product factor.now.tracked.sum) (value_of entries.now)) result starts.new }
{
    for entry in entries {
        starts.add(entry.0, &entry.1, factor, None, 1)?;
    }
    Ok(())
}
