//! Points by their names, and the orders of points and of rows.
ghost use Rattle.std.specs.Prelude.{◌≡◌, ◌≤◌, ◌-◌, ◌++◌, map, length, replicate, IfOk};
ghost use Rattle.std.specs.List.{list_all};
ghost use Rattle.proof_text.specs.Meant.{place_of, is_rising, is_ascending};

use crate::line_words::Words;
use crate::meaning::place;
use crate::word::Word;
use cay_base::NoMemory;
use construction_reader::Name;
use std::alloc::Global;
use std::cmp::Ordering;

/// The place of the name among these, or else their number.
pub(crate) fn place_or_len(names: &[Name], word: &Word) -> usize
    ensures { result ≡ place_of names.now word.now }
{
    place(names, word).unwrap_or(names.len())
}

/// The place of the name among these, which are few, as the number of a point.
fn point(names: &[Name], word: &Word) -> u8
    requires { length names.now ≤ 200 }
    ensures { result ≡ place_of names.now word.now }
{
    place_or_len(names, word) as u8
}

/// The points of these names.
pub(crate) fn points(alloc: Global, names: &[Name], words: &Words) -> Result<Vec<u8>, NoMemory>
    requires { length names.now ≤ 200 }
    ensures { IfOk result (λ points. points.items ≡ map (place_of names.now) words.now) }
{
    let mut points = Vec::new(alloc);
    for word in words.again() {
        points.push(point(names, &word))?;
    }
    Ok(points)
}

/// The points of these names, in front of places that hold 0.
pub(crate) fn points_in_front<const N: usize>(names: &[Name], words: &[Word]) -> [u8; N]
    requires few { length names.now ≤ 200 }
    requires room { length words.now ≤ N }
    ensures { result ≡ map (place_of names.now) words.now ++ replicate (N - length words.now) 0 }
{
    let mut points = [0; N];
    for (i, word) in words.iter().enumerate() {
        points[i] = point(names, word);
    }
    points
}

/// Whether the points strictly increase.
pub(crate) fn is_rising(points: &[u8]) -> bool
    ensures { result ≡ is_rising points.now }
{
    match points {
        [first, rest @ ..] => match rest {
            [second, ..] => first < second && is_rising(rest),
            [] => true,
        },
        [] => true,
    }
}

/// Whether the points strictly increase in each row.
pub(crate) fn are_rising<const D: usize>(rows: &[[u8; D]]) -> bool
    ensures { result ≡ list_all is_rising rows.now }
{
    match rows {
        [row, rest @ ..] => is_rising(row) && are_rising(rest),
        [] => true,
    }
}

/// Whether the rows ascend, where a row may come more than once.
pub(crate) fn is_ascending<const D: usize>(rows: &[[u8; D]]) -> bool
    ensures { result ≡ is_ascending rows.now }
{
    match rows {
        [row, rest @ ..] => match rest {
            [next, ..] => row.cmp(next) != Ordering::Greater && is_ascending(rest),
            [] => true,
        },
        [] => true,
    }
}
