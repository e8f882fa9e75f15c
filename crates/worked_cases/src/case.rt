//! A case: the words, the input, how source and sink behave, and what is shown of the output.

ghost use Rattle.std.specs.Prelude.{◌≤◌};

use crate::directive::Part;
use crate::escapes::unescaped;
use crate::tally::Change;
use crate::view::View;
use std::alloc::{AllocError, Global};

/// How the source and the sink of a case behave.
#[derive(Debug, Drop)]
pub struct Plan {
    /// The most bytes that a call of the source gives.
    pub most: usize,
    /// The calls of the source that fail, from 0.
    pub source_fails: Vec<u32>,
    /// The calls of the sink that fail, from 0.
    pub sink_fails: Vec<u32>,
    ghost some: { 1 ≤ most },
}

/// A call of the program, and what is shown of its output: all of it where `views` is empty.
#[derive(Debug, Drop)]
pub struct Case {
    pub name: String,
    pub words: Vec<String>,
    pub input: Vec<u8>,
    pub plan: Plan,
    pub views: Vec<View>,
    /// What is changed in turn, where that is shown in place of the output.
    pub change: Option<Change>,
}

impl Case {
    /// A case with the one word `prove` and an empty input, whose source and sink never fail.
    pub fn new(alloc: Global, name: &str) -> Result<Case, AllocError> {
        Ok(Case {
            name: String::from_str(alloc, name)?,
            words: words_of(alloc, "prove")?,
            input: Vec::new(alloc),
            plan: Plan {
                most: usize::MAX,
                source_fails: Vec::new(alloc),
                sink_fails: Vec::new(alloc),
            },
            views: Vec::new(alloc),
            change: None,
        })
    }

    /// A case with this name, and with the words and the input of this one.
    pub fn again(&self, alloc: Global, name: &str) -> Result<Case, AllocError> {
        let mut case = Case::new(alloc, name)?;
        case.words = self.words.clone()?;
        case.input = self.input.clone()?;
        Ok(case)
    }

    /// Whether the source gives all that it is asked for, and neither it nor the sink fails.
    pub fn is_plain(&self) -> bool {
        self.plan.most == usize::MAX
            && self.plan.source_fails.is_empty()
            && self.plan.sink_fails.is_empty()
    }

    /// Adds a part, and answers whether it is well formed.
    pub fn add(&mut self, alloc: Global, part: Part<'_>) -> Result<bool, AllocError> {
        match part {
            Part::Words(words) => self.words = words_of(alloc, words)?,
            Part::Line(text) => return self.add_line(alloc, text),
            Part::Repeat(first, last, text) => return self.add_repeated(alloc, first, last, text),
            Part::Pieces(most) => return Ok(self.take_pieces(most)),
            Part::FailSource(call) => self.plan.source_fails.push(call)?,
            Part::FailSink(call) => self.plan.sink_fails.push(call)?,
            Part::Show(words) => return self.add_view(alloc, words),
            Part::Each(change) => self.change = Some(change),
        }
        Ok(true)
    }

    /// Adds a line of the input, without its LF where a `\` stands at its end.
    fn add_line(&mut self, alloc: Global, text: &str) -> Result<bool, AllocError> {
        let (text, end) = match text.strip_suffix('\\') {
            Some(front) => (front, "".as_bytes()),
            None => (text, "\n".as_bytes()),
        };
        let Some(bytes) = unescaped(alloc, text)? else {
            return Ok(false);
        };
        self.input.extend_from_slice(&bytes)?;
        self.input.extend_from_slice(end)?;
        Ok(true)
    }

    /// Adds the text for each number, in which `@` stands for the number and `~` for the one before it.
    fn add_repeated(
        &mut self,
        alloc: Global,
        first: u32,
        last: u32,
        text: &str,
    ) -> Result<bool, AllocError> {
        let Some(pattern) = unescaped(alloc, text)? else {
            return Ok(false);
        };
        for number in first..=last {
            add_numbered(&mut self.input, number, &pattern)?;
        }
        Ok(true)
    }

    /// Lets a call of the source give at most so many bytes, which are not none.
    fn take_pieces(&mut self, most: usize) -> bool {
        if most == 0 {
            return false;
        }
        self.plan.most = most;
        true
    }

    /// Shows a part of the output.
    fn add_view(&mut self, alloc: Global, words: &str) -> Result<bool, AllocError> {
        match View::parse(alloc, words)? {
            Some(view) => {
                self.views.push(view)?;
                Ok(true)
            }
            None => Ok(false),
        }
    }
}

/// The words that blanks part.
fn words_of(alloc: Global, text: &str) -> Result<Vec<String>, AllocError> {
    text.split_whitespace()
        .map(|word| String::from_str(alloc, word))
        .try_collect(alloc)
}

/// Adds the bytes of the pattern with this number in place of each `@`, and the one before it in place of each `~`.
fn add_numbered(bytes: &mut Vec<u8>, number: u32, pattern: &[u8]) -> Result<(), AllocError> {
    let mut digits = itoa::Buffer::new();
    for byte in pattern {
        match *byte {
            b'@' => bytes.extend_from_slice(digits.format(number).as_bytes())?,
            b'~' => {
                bytes.extend_from_slice(digits.format(number.saturating_sub(1)).as_bytes())?;
            }
            other => bytes.push(other)?,
        }
    }
    Ok(())
}
