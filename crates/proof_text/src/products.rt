//! Products of parameters and brackets, and uses of syzygies, by their spelling.
ghost use Rattle.std.specs.Prelude.{◌≡◌, ◌≤◌, ◌&&◌, ◌∷◌, true, false, map, length, IfOk};
ghost use Rattle.std.specs.List.{AllByRecursion, list_all};
ghost use Rattle.coordinate_model.specs.Sequences.{IsRank};
ghost use Rattle.bracket_terms.specs.LogUses.{use_of};
ghost use Rattle.proof_text.specs.Numbers.{is_counted, number_of};
ghost use Rattle.proof_text.specs.Forms.{Form as SaidForm, IsRowOf, IsForm};
ghost use Rattle.proof_text.specs.Meant.{is_among, place_of, points_meant, exponents_meant, integer_meant, is_rising};
ghost use Rattle.proof_text.specs.Meant.{is_ascending, is_ordered};
ghost use Rattle.proof_text.specs.Kinds.{is_unnamed, is_misnumbered};
ghost use Rattle.proof_text.specs.Outcome.{AreNames};
ghost use Rattle.proof_text.specs.Seen.{powers_seen, row_seen, spelt_seen};
ghost use Rattle.proof_text.specs.Taken.{Takes};
ghost use Rattle.proof_text.specs.Ordered.{ordered_rows, ordered_key, ordered_use};

use crate::fault::{LineError, ProofKind};
use crate::line_words::Words;
use crate::meaning::integer;
use crate::numbers::counted;
use crate::points::{are_rising, is_ascending, place_or_len, points, points_in_front};
use crate::powers::Powers;
use crate::spelling::{Row, Spelt};
use crate::word::Word;
use bracket_poly::Key;
use bracket_terms::{Bracket, Items, LogUse, Params, Signed, sort};
use cay_base::NoMemory;
use construction_reader::Name;
use std::alloc::Global;
use step_types::Names;
use tableau_order::Tableau;

/// The coefficient, whose digits are the one spelling of a number within its limits.
pub(crate) fn coefficient(term: &Spelt) -> i128
    requires { is_misnumbered (SaidForm.Term (spelt_seen term.now)) ≡ false }
    ensures { result ≡ integer_meant term.now.is_negative term.now.digits }
{
    integer(term.is_negative, &term.digits).unwrap()
}

/// The exponent, whose digits are the one spelling of a number within its limits.
fn exponent(digits: &Word) -> u16
    requires { is_counted 1000 digits.now ≡ true }
    ensures { result ≡ number_of digits.now }
{
    counted(digits.bytes(), 1000).unwrap() as u16
}

/// The product of the parameters.
fn params_meant(names: &Names, mut powers: Powers) -> Params
    requires few { length names.now.params ≤ 64 }
    requires named { list_all (λ power. is_among names.now.params power.name) (powers_seen powers) ≡ true }
    requires numbered { list_all (λ power. is_counted 1000 power.digits) (powers_seen powers) ≡ true }
    ensures { result ≡ exponents_meant names.now (powers_seen powers.entry) }
{
    match powers.next() {
        Some(power) => {
            let place = place_or_len(names.params.items(), &power.name) as u8;
            params_meant(names, powers).with(place, exponent(&power.digits))
        }
        None => Params::one(),
    }
}

/// Whether the parameters stand in their order behind this place, each once.
fn are_params_behind(names: &[Name], place: usize, mut powers: Powers) -> bool
    ensures { result ≡ is_rising (place ∷ map (λ power. place_of names.now power.name) (powers_seen powers.entry)) }
{
    match powers.next() {
        Some(power) => {
            let next = place_or_len(names, &power.name);
            place < next && are_params_behind(names, next, powers)
        }
        None => true,
    }
}

/// Whether the parameters stand in their order, each once.
fn are_params_rising(names: &[Name], mut powers: Powers) -> bool
    ensures { result ≡ is_rising (map (λ power. place_of names.now power.name) (powers_seen powers.entry)) }
{
    match powers.next() {
        Some(power) => are_params_behind(names, place_or_len(names, &power.name), powers),
        None => true,
    }
}

/// Whether the points increase in each row, and the rows ascend.
fn are_rows_ordered<const D: usize>(rows: &[[u8; D]]) -> bool
    ensures { result ≡ list_all is_rising rows.now && is_ascending rows.now }
{
    are_rising(rows) && is_ascending(rows)
}

/// Whether rows, which are those of the term, and its parameters stand in their order.
fn is_ordered<const D: usize>(names: &Names, term: &Spelt, rows: &[[u8; D]]) -> bool
    requires { rows.now ≡ map (points_meant names.now) (map row_seen term.now.rows.items) }
    ensures { result ≡ is_ordered names.now (spelt_seen term.now) }
{
    are_rows_ordered(rows) && are_params_rising(names.params.items(), Powers::of(&term.behind))
}

/// The points of the rows.
fn rows_meant<const D: usize>(
    alloc: Global,
    names: &Names,
    rows: &[Row],
) -> Result<Vec<[u8; D]>, NoMemory>
    requires rank { IsRank D }
    requires few { length names.now.free ≤ 200 }
    requires each { AllByRecursion (IsRowOf D) (map row_seen rows.now) }
    ensures { IfOk result (λ points. points.items ≡ map (points_meant names.now) (map row_seen rows.now)) }
{
    let mut points = Vec::new(alloc);
    for row in rows {
        points.push(points_in_front::<D>(names.free.items(), &row.names))?;
    }
    Ok(points)
}

/// The bracket of points that strictly increase.
fn bracket<const D: usize>(points: &[u8; D]) -> Bracket<D>
    requires rank { IsRank D }
    requires rising { is_rising points.now ≡ true }
    ensures { result ≡ points.now }
{
    match sort(*points) {
        Signed::Plus(bracket) => bracket,
        _ => unreachable!(),
    }
}

/// The brackets of rows whose points strictly increase.
fn brackets<const D: usize>(alloc: Global, rows: &[[u8; D]]) -> Result<Vec<Bracket<D>>, NoMemory>
    requires rank { IsRank D }
    requires rising { list_all is_rising rows.now ≡ true }
    ensures { IfOk result (λ brackets. brackets.items ≡ rows.now) }
{
    let mut brackets = Vec::new(alloc);
    for row in rows {
        brackets.push(bracket(row))?;
    }
    Ok(brackets)
}

/// The rows of the term, where it stands in its order.
fn ordered_rows<const D: usize>(
    alloc: Global,
    names: &Names,
    term: &Spelt,
) -> Result<Vec<Bracket<D>>, LineError>
    requires rank { IsRank D }
    requires few { length names.now.free ≤ 200 }
    requires each { AllByRecursion (IsRowOf D) (spelt_seen term.now).rows }
    ensures { Takes (λ rows. rows.items) result (ordered_rows names.now (spelt_seen term.now)) }
{
    let rows = rows_meant::<D>(alloc, names, &term.rows)?;
    if is_ordered(names, term, &rows) {
        Ok(brackets(alloc, &rows)?)
    } else {
        Err(LineError::Fault(ProofKind::Order))
    }
}

/// The key of the term, where it stands in its order.
pub(crate) fn key<const D: usize>(
    alloc: Global,
    names: &Names,
    term: &Spelt,
) -> Result<Key<D>, LineError>
    requires rank { IsRank D }
    requires names { AreNames D names.now }
    requires formed { IsForm (IsRowOf D) D (SaidForm.Term (spelt_seen term.now)) }
    requires named { is_unnamed names.now (SaidForm.Term (spelt_seen term.now)) ≡ false }
    requires numbered { is_misnumbered (SaidForm.Term (spelt_seen term.now)) ≡ false }
    ensures { Takes (λ key. key) result (ordered_key names.now (spelt_seen term.now)) }
{
    let rows = ordered_rows::<D>(alloc, names, term)?;
    Ok(Key {
        params: params_meant(names, Powers::of(&term.behind)),
        tableau: Tableau::from_rows(alloc, &rows)?,
    })
}

/// The use of the term and the three lists of names, where the term stands in its order.
pub(crate) fn log_use<const D: usize>(
    alloc: Global,
    names: &Names,
    term: &Spelt,
    alpha: &Words,
    beta: &Words,
    gamma: &Words,
) -> Result<LogUse<D>, LineError>
    requires rank { IsRank D }
    requires names { AreNames D names.now }
    requires formed { IsForm (IsRowOf D) D (SaidForm.Use (spelt_seen term.now) alpha.now beta.now gamma.now) }
    requires named { is_unnamed names.now (SaidForm.Use (spelt_seen term.now) alpha.now beta.now gamma.now) ≡ false }
    requires numbered { is_misnumbered (SaidForm.Term (spelt_seen term.now)) ≡ false }
    ensures { Takes (λ u. use_of u) result (ordered_use names.now (spelt_seen term.now) alpha.now beta.now gamma.now) }
{
    let rest = ordered_rows::<D>(alloc, names, term)?;
    let free = names.free.items();
    let alpha = points(alloc, free, alpha)?;
    let beta = points(alloc, free, beta)?;
    let gamma = points(alloc, free, gamma)?;
    Ok(LogUse {
        multiplier: coefficient(term),
        params: params_meant(names, Powers::of(&term.behind)),
        rest: Items::of(rest),
        alpha: Items::of(alpha),
        beta: Items::of(beta),
        gamma: Items::of(gamma),
    })
}
