//! The table: texts, and how they are changed.

use crate::change::Change;
use crate::error::Failure;
use std::alloc::Global;

/// What a line of the table says.
#[derive(Clone, Copy)]
pub enum Row<'a> {
    /// A comment or a blank line.
    Nothing,
    /// A text of this rank begins, and of objects of these steps, each a digit.
    Text(u8, &'a str),
    /// The text goes on with this line.
    Line(&'a str),
    /// This is read in place of the text.
    Change(Change<'a>),
}

impl<'a> Row<'a> {
    pub fn parse(line: &'a str) -> Result<Row<'a>, Failure> {
        if line.is_empty() || line.starts_with('#') {
            return Ok(Row::Nothing);
        }
        let (word, rest) = line.split_once(' ').unwrap_or((line, ""));
        match word {
            "|" => Ok(Row::Line(rest)),
            "text" => text(rest).ok_or(Failure::Line),
            _ => Ok(Row::Change(Change::parse(word, rest).ok_or(Failure::Line)?)),
        }
    }
}

/// A text of this rank and these steps.
fn text(rest: &str) -> Option<Row<'_>> {
    let (rank, steps) = rest.split_once(' ')?;
    Some(Row::Text(rank.parse::<u8>().ok()?, steps))
}

/// The text that is changed: its rank, the steps of its objects and its lines.
#[derive(Drop)]
pub struct Table {
    pub rank: u8,
    pub steps: Vec<u8>,
    pub lines: Vec<String>,
}

impl Table {
    /// No text.
    pub fn new(alloc: Global) -> Table {
        Table {
            rank: 0,
            steps: Vec::new(alloc),
            lines: Vec::new(alloc),
        }
    }

    /// Begins another text.
    pub fn begin(&mut self, rank: u8, steps: &str) -> Result<(), Failure> {
        self.rank = rank;
        self.steps.clear();
        self.lines.clear();
        for digit in steps.bytes() {
            self.steps.push(digit.saturating_sub(b'0'))?;
        }
        Ok(())
    }

    /// Puts a line behind those of the text.
    pub fn add(&mut self, alloc: Global, line: &str) -> Result<(), Failure> {
        self.lines.push(String::from_str(alloc, line)?)?;
        Ok(())
    }
}
