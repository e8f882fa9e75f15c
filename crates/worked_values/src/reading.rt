//! What the words of a line say. A point is a character, and its number is that of the character.
ghost use Rattle.std.specs.Prelude.{◌≡◌, ◌≢◌, ◌≤◌, T, pos, IfOk, OnOk};
ghost use Rattle.std.specs.List.{AllByRecursion};
ghost use Rattle.coordinate_model.specs.Sequences.{IsRank};
ghost use Rattle.bracket_poly.specs.Products.{HasDegree};
ghost use Rattle.bracket_poly.specs.Tracked.{fits};

use crate::failure::Failure;
use bracket_poly::{Key, Poly};
use bracket_terms::{Bracket, Params, Signed, sort};
use std::alloc::Global;
use tableau_order::Tableau;

/// What stands before the first of these marks, and what behind it.
pub fn pair(words: &str, mark: char) -> Result<(&str, &str), Failure> {
    words.split_once(mark).ok_or(Failure::Line)
}

/// The points of a word, as many as the rank.
pub fn points<const D: usize>(word: &str) -> Result<[u8; D], Failure> {
    match word.as_bytes().try_into() {
        Ok(points) => Ok(points),
        Err(_) => Err(Failure::Line),
    }
}

/// The bracket of points that ascend, before a `]`.
fn bracket<const D: usize>(word: &str) -> Result<Bracket<D>, Failure>
    requires { IsRank D }
{
    let (word, _) = pair(word, ']')?;
    match sort(points::<D>(word)?) {
        Signed::Plus(bracket) => Ok(bracket),
        Signed::Zero | Signed::Minus(_) => Err(Failure::Line),
    }
}

/// The brackets of a word such as `[126][345]`, whatever stands before the first.
pub fn brackets<const D: usize>(alloc: Global, word: &str) -> Result<Vec<Bracket<D>>, Failure>
    requires { IsRank D }
{
    let mut brackets = Vec::new(alloc);
    for part in word.split('[').skip(1) {
        brackets.push(bracket(part)?)?;
    }
    Ok(brackets)
}

/// The product of the brackets of a word.
pub fn tableau<const D: usize>(alloc: Global, word: &str) -> Result<Tableau<D>, Failure>
    requires { IsRank D }
{
    let brackets = brackets(alloc, word)?;
    Ok(Tableau::from_rows(alloc, &brackets)?)
}

/// The budget of a word.
pub fn budget(word: &str) -> Result<u64, Failure> {
    word.parse::<u64>().map_err(|_| Failure::Line)
}

/// The number of a parameter, or of places.
pub fn number(word: &str) -> Result<u8, Failure> {
    word.parse::<u8>().map_err(|_| Failure::Line)
}

/// The coefficient before a mark.
pub fn coefficient(word: &str) -> Result<i128, Failure>
    ensures not_zero { IfOk result (λ c. c ≢ pos 0) }
    ensures small { IfOk result (λ c. T (fits c)) }
{
    match word.parse::<i128>() {
        Ok(c) if c != 0 && c != i128::MIN => Ok(c),
        _ => Err(Failure::Line),
    }
}

/// No parameter, or the parameter 0 once.
fn params(is_there: bool) -> Params
    ensures { AllByRecursion (λ exponent. exponent ≤ 1000) result }
{
    if is_there {
        Params::single(0)
    } else {
        Params::one()
    }
}

/// Adds a word such as `+2[126][345]`, or `-1t[125]` with the parameter 0.
pub fn add_term<const D: usize>(
    alloc: Global,
    poly: &mut Poly<D>,
    word: &str,
) -> Result<(), Failure>
    requires rank { IsRank D }
    requires degree { HasDegree 1000 poly.old.tracked.sum }
    ensures { OnOk result (HasDegree 1000 poly.new.tracked.sum) }
{
    let (front, _) = word.split_once('[').unwrap_or((word, ""));
    let (digits, has_param) = match front.split_once('t') {
        Some((digits, _)) => (digits, true),
        None => (front, false),
    };
    let c = coefficient(digits)?;
    let tableau = tableau(alloc, word)?;
    let params = params(has_param);
    Ok(poly.add(Key { params, tableau }, c)?)
}

/// The sum of the terms of these words, added one after another.
pub fn poly<const D: usize>(alloc: Global, words: &str) -> Result<Poly<D>, Failure>
    requires { IsRank D }
    ensures { IfOk result (λ poly. HasDegree 1000 poly.tracked.sum) }
{
    let mut poly = Poly::new(alloc);
    for word in words.split_whitespace() {
        add_term(alloc, &mut poly, word)?;
    }
    Ok(poly)
}
