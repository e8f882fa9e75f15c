//! What is shown of an output.

use std::alloc::{AllocError, Global};
use std::fmt;

/// A part of an output that is shown.
#[derive(Debug, Drop)]
pub enum View {
    /// So many lines at the end.
    Last(usize),
    /// So many lines from the first one that begins so.
    From(usize, String),
    /// How many lines begin so.
    Count(String),
}

impl fmt::Display for View {
    fn fmt<W: fmt::Write>(&self, f: &mut fmt::Formatter<W>) -> fmt::Result {
        match self {
            View::Last(count) => write!(f, "last {count}"),
            View::From(count, front) => write!(f, "{count} from {front}"),
            View::Count(front) => write!(f, "count {front}"),
        }
    }
}

impl View {
    /// The view that these words name, or `None` where they name none.
    pub fn parse(alloc: Global, words: &str) -> Result<Option<View>, AllocError> {
        let Some((first, rest)) = words.split_once(' ') else {
            return Ok(None);
        };
        if first == "last" {
            return Ok(rest.parse::<usize>().ok().map(View::Last));
        }
        if first == "count" {
            return Ok(Some(View::Count(String::from_str(alloc, rest)?)));
        }
        match (first.parse::<usize>(), rest.strip_prefix("from ")) {
            (Ok(count), Some(front)) => {
                Ok(Some(View::From(count, String::from_str(alloc, front)?)))
            }
            _ => Ok(None),
        }
    }

    /// Writes what the view shows of these lines behind the text.
    pub fn append(&self, text: &mut String, lines: &[&str]) -> Result<(), AllocError> {
        match self {
            View::Last(count) => append_lines(text, last_of(lines, *count)),
            View::From(count, front) => append_lines(
                text,
                from_first(lines, *count, front.as_str()),
            ),
            View::Count(front) => {
                let count = lines
                    .iter()
                    .filter(|line| line.starts_with(front.as_str()))
                    .count();
                writeln!(text, "{count}")
            }
        }
    }
}

/// So many lines at the end, or all where there are fewer.
fn last_of<'a, 'b>(lines: &'b [&'a str], count: usize) -> &'b [&'a str] {
    &lines[lines.len().saturating_sub(count)..]
}

/// So many lines from the first one that begins so.
fn from_first<'a, 'b>(lines: &'b [&'a str], count: usize, front: &str) -> &'b [&'a str] {
    let begin = lines
        .iter()
        .position(|line| line.starts_with(front))
        .unwrap_or(lines.len());
    let rest = &lines[begin..];
    &rest[..count.min(rest.len())]
}

/// Writes the lines behind the text, each behind a bar, and a `\` where a last one has no LF.
pub fn append_lines(text: &mut String, lines: &[&str]) -> Result<(), AllocError> {
    for line in lines {
        match line.strip_suffix('\n') {
            Some("") => text.push_str("|\n")?,
            Some(whole) => writeln!(text, "| {whole}")?,
            None => writeln!(text, "| {line}\\")?,
        }
    }
    Ok(())
}
