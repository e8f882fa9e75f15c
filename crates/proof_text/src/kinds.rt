//! What may be wrong with a line that has its shape.
ghost use Rattle.std.specs.Prelude.{◌≡◌, ◌++◌, ◌-◌, ◌^◌, map};
ghost use Rattle.std.specs.List.{list_all};
ghost use Rattle.proof_text.specs.Numbers.{is_counted};
ghost use Rattle.proof_text.specs.Seen.{powers_seen, row_seen, spelt_seen, form_seen};
ghost use Rattle.proof_text.specs.Meant.{is_among};
ghost use Rattle.proof_text.specs.Kinds.{are_same, is_other_header, powers_named, is_named, is_unnamed, is_numbered, is_misnumbered};

use crate::line_words::Words;
use crate::meaning::is_among;
use crate::numbers::{is_counted, is_padded, writes};
use crate::powers::Powers;
use crate::spelling::{Form, Row, Spelt};
use construction_reader::Name;
use step_types::Names;

/// Whether the lists of names are the same.
fn are_same(words: &Words, names: &[Name]) -> bool
    ensures { result ≡ are_same words.now names.now }
{
    let mut rest = words.again();
    for name in names {
        let Some(word) = rest.next() else {
            return false;
        };
        if !word.is(name.bytes()) {
            return false;
        }
    }
    rest.next().is_none()
}

/// Whether the line of the header is another than the text's.
pub(crate) fn is_other_header(names: &Names, form: &Form) -> bool
    ensures { result ≡ is_other_header names.now (form_seen form.now) }
{
    match form {
        Form::Rank(digits) => !writes(digits.bytes(), u128::from(names.rank)),
        Form::Free(free) => !are_same(free, names.free.items()),
        Form::Params(params) => !are_same(params, names.params.items()),
        _ => false,
    }
}

/// Whether all words are among the names.
fn are_among(names: &[Name], words: &Words) -> bool
    ensures { result ≡ list_all (is_among names.now) words.now }
{
    for word in words.again() {
        if !is_among(names, &word) {
            return false;
        }
    }
    true
}

fn is_row_among(names: &[Name], row: &Row) -> bool
    ensures { result ≡ list_all (is_among names.now) (row_seen row.now) }
{
    row.names.iter().all(|word| is_among(names, word))
}

fn are_rows_among(names: &[Name], rows: &[Row]) -> bool
    ensures { result ≡ list_all (λ row. list_all (is_among names.now) (row_seen row)) rows.now }
{
    rows.iter().all(|row| is_row_among(names, row))
}

fn are_powers_named(names: &[Name], powers: Powers) -> bool
    ensures { result ≡ list_all (λ power. is_among names.now power.name) (powers_seen powers.entry) }
{
    for power in powers {
        if !is_among(names, &power.name) {
            return false;
        }
    }
    true
}

/// Whether all names of the term are those of points and parameters.
#[tactic(auto, using(crate::proofs::KindSteps::mapped))]
fn is_named(names: &Names, term: &Spelt) -> bool
    ensures { result ≡ is_named names.now (spelt_seen term.now) }
{
    are_powers_named(names.params.items(), Powers::of(&term.behind))
        && are_rows_among(names.free.items(), &term.rows)
}

/// Whether the coefficient and the exponents are numbers in their one spelling, within their limits.
fn is_numbered(term: &Spelt) -> bool
    ensures { result ≡ is_numbered (spelt_seen term.now) }
{
    is_counted(term.digits.bytes(), i128::MAX as u128) && are_exponents(Powers::of(&term.behind))
}

fn are_exponents(powers: Powers) -> bool
    ensures { result ≡ list_all (λ power. is_counted 1000 power.digits) (powers_seen powers.entry) }
{
    for power in powers {
        if !is_counted(power.digits.bytes(), 1000) {
            return false;
        }
    }
    true
}

/// Whether a number is zero where it may not be, has another spelling, or is over its limit.
pub(crate) fn is_misnumbered(form: &Form) -> bool
    ensures { result ≡ is_misnumbered (form_seen form.now) }
{
    match form {
        Form::Rank(digits) => is_padded(digits.bytes()),
        Form::Object(number, step) => is_padded(number.bytes()) || is_padded(step.bytes()),
        Form::Term(term) => !is_numbered(term),
        Form::Use { term, .. } => !is_numbered(term),
        _ => false,
    }
}

/// Whether a name stands for no point, or no parameter.
#[tactic(auto, using(crate::proofs::KindSteps::mapped))]
pub(crate) fn is_unnamed(names: &Names, form: &Form) -> bool
    ensures { result ≡ is_unnamed names.now (form_seen form.now) }
{
    let free = names.free.items();
    match form {
        Form::Scalar(points) => !are_among(free, points),
        Form::Term(term) => !is_named(names, term),
        Form::Use {
            term,
            alpha,
            beta,
            gamma,
        } => !(is_named(names, term) && are_points(free, alpha, beta, gamma)),
        _ => false,
    }
}

#[tactic(auto, using(crate::proofs::KindSteps::appended))]
fn are_points(names: &[Name], alpha: &Words, beta: &Words, gamma: &Words) -> bool
    ensures { result ≡ list_all (is_among names.now) (alpha.now ++ (beta.now ++ gamma.now)) }
{
    are_among(names, alpha) && are_among(names, beta) && are_among(names, gamma)
}
