//! Splits of places, and joins of extensors.
ghost use Rattle.std.specs.Prelude.{◌≡◌, ◌≤◌, IfOk};

use crate::failure::Failure;
use crate::printing::put_points;
use crate::reading::{number, pair};
use bracket_terms::{Extensor, join_points};
use split_tables::{SignedSplit, Splits, split, split_count};
use std::alloc::AllocError;

/// The chosen places as digits, counted from 1, with the sign of the split.
fn put_split(out: &mut String, split: SignedSplit) -> Result<(), AllocError> {
    out.push(' ')?;
    for place in 0..5u8 {
        if split.chosen >> place & 1 == 1 {
            write!(out, "{}", place + 1)?;
        }
    }
    out.push(if split.sign < 0 { '-' } else { '+' })
}

/// The splits of so many places, with so many chosen.
pub fn show_splits(out: &mut String, words: &str) -> Result<(), Failure> {
    let (n, k) = pair(words, ' ')?;
    let (n, k) = (number(n)?, number(k)?);
    if n > 5 || k > n {
        return Err(Failure::Line);
    }
    for i in 0..split_count(n, k) {
        put_split(out, split(n, k, i))?;
    }
    Ok(())
}

/// The splits of four places, with two chosen, from the call for numbers that are constants.
pub fn show_constant_splits(out: &mut String) -> Result<(), Failure> {
    for i in 0..Splits::<4, 2>::count() {
        put_split(out, Splits::<4, 2>::get(i))?;
    }
    Ok(())
}

/// The extensor of up to four points that ascend.
fn extensor(word: &str) -> Result<Extensor, Failure> {
    let (size, points) = match *word.as_bytes() {
        [a] => (1, [a, 0, 0, 0]),
        [a, b] if a < b => (2, [a, b, 0, 0]),
        [a, b, c] if a < b && b < c => (3, [a, b, c, 0]),
        _ => return Err(Failure::Line),
    };
    Ok(Extensor { size, points })
}

/// The join of two extensors, with its sign.
pub fn show_join_points(out: &mut String, words: &str) -> Result<(), Failure> {
    let (a, b) = pair(words, ' ')?;
    let (a, b) = (extensor(a)?, extensor(b)?);
    if a.size + b.size > 4 {
        return Err(Failure::Line);
    }
    match join_points(a, b) {
        Some((joined, sign)) => {
            out.push_str(if sign < 0 { " -" } else { " +" })?;
            Ok(put_points(out, &joined.points[..joined.size as usize])?)
        }
        None => Ok(out.push_str(" none")?),
    }
}
