//! Points, brackets, terms, values and uses as text, in the spelling in which they are read.
ghost use Rattle.std.specs.Prelude.{◌≤◌};
ghost use Rattle.coordinate_model.specs.Sequences.{IsRank};

use bracket_poly::{Poly, Value};
use bracket_terms::{Bracket, LogUse, Params};
use std::alloc::AllocError;

pub fn put_points(out: &mut String, points: &[u8]) -> Result<(), AllocError> {
    for point in points {
        out.push(*point as char)?;
    }
    Ok(())
}

pub fn put_rows<const D: usize>(out: &mut String, rows: &[Bracket<D>]) -> Result<(), AllocError>
    requires { D ≤ 4 }
{
    for row in rows {
        out.push('[')?;
        put_points(out, &row.points())?;
        out.push(']')?;
    }
    Ok(())
}

pub fn put_params(out: &mut String, params: &Params) -> Result<(), AllocError> {
    for i in 0..64 {
        let exponent = params.exponent(i);
        if exponent != 0 {
            write!(out, "t{i}^{exponent}")?;
        }
    }
    Ok(())
}

/// A term behind a space.
pub fn put_term<const D: usize>(
    out: &mut String,
    c: i128,
    params: &Params,
    rows: &[Bracket<D>],
) -> Result<(), AllocError>
    requires { D ≤ 4 }
{
    write!(out, " {c:+}")?;
    put_params(out, params)?;
    put_rows(out, rows)
}

/// The terms, or `zero`, behind a space.
pub fn put_poly<const D: usize>(out: &mut String, poly: &Poly<D>) -> Result<(), AllocError>
    requires { IsRank D }
{
    if poly.len() == 0 {
        return out.push_str(" zero");
    }
    for (key, c) in poly.terms() {
        put_term(out, c, &key.params, key.tableau.rows())?;
    }
    Ok(())
}

/// Each extensor in `< >` with its polynomial, behind a space, and the step.
pub fn put_value<const D: usize>(out: &mut String, value: &Value<D>) -> Result<(), AllocError>
    requires { IsRank D }
{
    for entry in value.entries.items() {
        out.push_str(" <")?;
        put_points(out, &entry.0.points[..entry.0.size as usize])?;
        out.push('>')?;
        put_poly(out, &entry.1)?;
    }
    write!(out, " step {}", value.step)
}

/// The points of a syzygy, alpha, beta and gamma.
pub fn put_syzygy(
    out: &mut String,
    alpha: &[u8],
    beta: &[u8],
    gamma: &[u8],
) -> Result<(), AllocError> {
    out.push_str(" {")?;
    put_points(out, alpha)?;
    out.push('|')?;
    put_points(out, beta)?;
    out.push('|')?;
    put_points(out, gamma)?;
    out.push('}')
}

/// Each use as its multiplier, its parameters, its rest, and the points of its syzygy.
pub fn put_uses<const D: usize>(out: &mut String, uses: &[LogUse<D>]) -> Result<(), AllocError>
    requires { D ≤ 4 }
{
    for log_use in uses {
        out.push_str(", use")?;
        put_term(
            out,
            log_use.multiplier,
            &log_use.params,
            log_use.rest.items(),
        )?;
        let alpha = log_use.alpha.items();
        put_syzygy(out, alpha, log_use.beta.items(), log_use.gamma.items())?;
    }
    Ok(())
}
