//! How a text is another than the one that the table gives.

use std::alloc::AllocError;

/// What is read in place of a text.
#[derive(Clone, Copy)]
pub enum Change<'a> {
    /// Its first lines, so many.
    First(usize),
    /// Its first lines, so many, of which the last one lacks its LF.
    Open(usize),
    /// The text with another line of this number, from 1.
    Swap(usize, &'a str),
    /// The text with a line more behind this number of lines.
    Add(usize, &'a str),
}

impl<'a> Change<'a> {
    /// The change that this word and what follows it name.
    pub fn parse(word: &str, rest: &'a str) -> Option<Change<'a>> {
        match word {
            "first" => Some(Change::First(rest.parse::<usize>().ok()?)),
            "open" => Some(Change::Open(rest.parse::<usize>().ok()?)),
            "swap" => {
                let (number, line) = numbered(rest)?;
                Some(Change::Swap(number, line))
            }
            "add" => {
                let (number, line) = numbered(rest)?;
                Some(Change::Add(number, line))
            }
            _ => None,
        }
    }

    /// Puts the changed text behind the bytes.
    pub fn put(&self, bytes: &mut Vec<u8>, lines: &[String]) -> Result<(), AllocError> {
        match *self {
            Change::First(count) => put_lines(bytes, front(lines, count)),
            Change::Open(count) => {
                put_lines(bytes, front(lines, count))?;
                bytes.pop();
                Ok(())
            }
            Change::Swap(number, line) => put_with(
                bytes,
                front(lines, number.saturating_sub(1)),
                line,
                behind(lines, number),
            ),
            Change::Add(number, line) => put_with(
                bytes,
                front(lines, number),
                line,
                behind(lines, number),
            ),
        }
    }
}

/// A number and the line behind it.
fn numbered(rest: &str) -> Option<(usize, &str)> {
    let (number, line) = rest.split_once(' ').unwrap_or((rest, ""));
    Some((number.parse::<usize>().ok()?, line))
}

/// So many lines in front, or all where there are fewer.
fn front(lines: &[String], count: usize) -> &[String] {
    &lines[..count.min(lines.len())]
}

/// The lines behind so many.
fn behind(lines: &[String], count: usize) -> &[String] {
    &lines[count.min(lines.len())..]
}

/// Puts a line between lines behind the bytes.
fn put_with(
    bytes: &mut Vec<u8>,
    before: &[String],
    line: &str,
    after: &[String],
) -> Result<(), AllocError> {
    put_lines(bytes, before)?;
    put_line(bytes, line)?;
    put_lines(bytes, after)
}

fn put_lines(bytes: &mut Vec<u8>, lines: &[String]) -> Result<(), AllocError> {
    for line in lines {
        put_line(bytes, line.as_str())?;
    }
    Ok(())
}

/// Puts the line and its LF behind the bytes.
fn put_line(bytes: &mut Vec<u8>, line: &str) -> Result<(), AllocError> {
    bytes.extend_from_slice(line.as_bytes())?;
    bytes.extend_from_slice(b"\n")
}
