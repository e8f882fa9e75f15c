//! One line of the cases.

use crate::tally::Change;

/// What a line says.
#[derive(Clone, Copy, Debug)]
pub enum Directive<'a> {
    /// A comment or a blank line.
    Nothing,
    /// A new case with this name begins.
    Case(&'a str),
    /// A new case with this name begins, which has the words and the input of the one before.
    Again(&'a str),
    /// This belongs to the last case.
    Part(Part<'a>),
}

/// A part of a case.
#[derive(Clone, Copy, Debug)]
pub enum Part<'a> {
    /// These are the words.
    Words(&'a str),
    /// The input goes on with this line.
    Line(&'a str),
    /// The input goes on with this text for each number from the first to the second.
    Repeat(u32, u32, &'a str),
    /// The source gives at most so many bytes a call.
    Pieces(usize),
    /// The call of the source with this number, from 0, fails.
    FailSource(u32),
    /// The call of the sink with this number, from 0, fails.
    FailSink(u32),
    /// This of the output is shown.
    Show(&'a str),
    /// What the answers come to where this is changed in turn is shown.
    Each(Change),
}

impl<'a> Directive<'a> {
    /// What the line says, or `None` where it is of no form.
    pub fn parse(line: &'a str) -> Option<Directive<'a>> {
        if line.is_empty() || line.starts_with('#') {
            return Some(Directive::Nothing);
        }
        let (word, rest) = line.split_once(' ').unwrap_or((line, ""));
        match word {
            "case" => Some(Directive::Case(rest)),
            "again" => Some(Directive::Again(rest)),
            _ => Some(Directive::Part(part_of(word, rest)?)),
        }
    }
}

/// The part of a case that this word and what follows it name.
fn part_of<'a>(word: &str, rest: &'a str) -> Option<Part<'a>> {
    match word {
        "words" => Some(Part::Words(rest)),
        "|" => Some(Part::Line(rest)),
        "repeat" => repeat(rest),
        "pieces" => pieces(rest),
        "fail" => failure(rest),
        "show" => Some(Part::Show(rest)),
        "each" => Some(Part::Each(change(rest)?)),
        _ => None,
    }
}

/// A text that is repeated for each number from one to another.
fn repeat(rest: &str) -> Option<Part<'_>> {
    let (first, rest) = rest.split_once(' ')?;
    let (last, text) = rest.split_once(' ')?;
    let first = first.parse::<u32>().ok()?;
    let last = last.parse::<u32>().ok()?;
    Some(Part::Repeat(first, last, text))
}

/// The most bytes that a call gives.
fn pieces(rest: &str) -> Option<Part<'_>> {
    let most = rest.parse::<usize>().ok()?;
    Some(Part::Pieces(most))
}

/// A call that fails.
fn failure(rest: &str) -> Option<Part<'_>> {
    let (port, call) = rest.split_once(' ')?;
    let call = call.parse::<u32>().ok()?;
    match port {
        "source" => Some(Part::FailSource(call)),
        "sink" => Some(Part::FailSink(call)),
        _ => None,
    }
}

/// What is changed in turn.
fn change(rest: &str) -> Option<Change> {
    match rest.split_once(' ') {
        Some(("cut", from)) => Some(Change::Cut(from.parse::<usize>().ok()?)),
        Some(("zero", from)) => Some(Change::Zero(from.parse::<usize>().ok()?)),
        Some(_) => None,
        None => port(rest),
    }
}

/// Whose calls fail in turn.
fn port(word: &str) -> Option<Change> {
    match word {
        "source" => Some(Change::Source),
        "sink" => Some(Change::Sink),
        _ => None,
    }
}
