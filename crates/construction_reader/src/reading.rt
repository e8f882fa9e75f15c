//! Reading a text, line by line.

ghost use Rattle.std.specs.Prelude.{◌≡◌, ◌<◌, ◌≤◌, ◌+◌, ◌==◌, ◌∷◌, ℕ, List, map, length, IfOk, IfErr, MatchResult};
ghost use Rattle.std.specs.List.{position};
ghost use Rattle.construction_reader.specs.Said.{Account, row, sentences_of};
ghost use Rattle.construction_reader.specs.Seen.{account};
ghost use Rattle.construction_reader.specs.Grammar.{IsAccount};
ghost use Rattle.construction_reader.specs.Printed.{printed, renumbered};
ghost use Rattle.construction_reader.specs.TextOf.{TextOf};
ghost use Rattle.construction_reader.specs.Faults.{IsCause};
ghost use Rattle.construction_reader.specs.Lines.{lines_of};
ghost use Rattle.construction_reader.specs.Texts.{progress as seen, at_line, at_number, seen_by, ends, takes_line, GivesText, read_of};

use crate::construction::Construction;
use crate::fault::{Kind, LineError, ReadTextError, TextFault};
use crate::items::Items;
use crate::state::{Progress, Stage};
use crate::types::Statement;
use std::alloc::Global;

/// The longest text that is read.
pub const LONGEST: usize = 1_048_576;

fn line_end(text: &[u8]) -> Option<usize>
    ensures { result ≡ position (λ b. b == 10) text.now }
{
    text.iter().position(|byte| *byte == b'\n')
}

/// The first line, and what follows it.
fn first_line(text: &[u8]) -> (&[u8], &[u8])
    requires { 0 < length text.now }
    ensures lines { lines_of text.now ≡ result.0.now ∷ lines_of result.1.now }
    ensures shorter { length result.1.now < length text.now }
{
    match line_end(text) {
        Some(end) => (&text[..end], &text[end + 1..]),
        None => text.split_at(text.len()),
    }
}

/// A line's error as the text's.
fn at(number: u32, error: LineError) -> ReadTextError
    ensures { result ≡ at_number number error }
{
    match error {
        LineError::Fault(kind) => ReadTextError::Fault(TextFault { line: number, kind }),
        LineError::Memory => ReadTextError::Memory,
    }
}

#[tactic(auto, unfolding(crate::specs::Texts::ends))]
fn finish(state: Progress) -> Result<(u8, Vec<Statement>), Kind>
    ensures { seen_by (λ x. record { rank = x.0; rows = map row x.1.items }) result ≡ ends (seen state) state.stage }
{
    match state.stage {
        Stage::Empty | Stage::Named => Err(Kind::NoHeader),
        Stage::Going => Err(Kind::NoConclusion),
        Stage::Concluded => Ok((state.rank, state.statements)),
    }
}

fn read_lines(alloc: Global, text: &[u8]) -> Result<Construction, ReadTextError>
    requires { length text.now ≤ 1048576 }
    ensures { GivesText account result (read_of text.now) }
{
    let mut progress = Progress::new(alloc);
    let mut number: u32 = 1;
    let mut rest = text;
    while !rest.is_empty() {
        let (line, after) = first_line(rest);
        if let Err(error) = progress.take_line(alloc, number, line) {
            return Err(at(number, error));
        }
        number += 1;
        rest = after;
    }
    match finish(progress) {
        Ok((rank, statements)) => Ok(Construction {
            rank,
            statements: Items::of(statements),
        }),
        Err(kind) => Err(ReadTextError::Fault(TextFault { line: number, kind })),
    }
}

/// The construction that the text gives, or its first faulty line and what is wrong with it.
pub fn read(alloc: Global, text: &[u8]) -> Result<Construction, ReadTextError>
    requires { length text.now ≤ 1048576 }
    // What is read is in the grammar.
    ensures found { IfOk result (λ c. TextOf text.now (account c)) }
    // What is in the grammar is read, unless memory runs out.
    ensures only { (c : Account) → TextOf text.now c
        → MatchResult result (λ read. account read ≡ c) (λ error. error ≡ ReadTextError.Memory) }
    // What is refused for another cause has that fault.
    ensures fault { IfErr result (IsCause text.now) }
    // What is printed is read as it was, on the lines 3, 4, 5 and so on.
    ensures printed { (c : Account) → IsAccount c.rank (sentences_of c.rows) → text.now ≡ printed c
        → MatchResult result (λ read. account read ≡ renumbered c) (λ error. error ≡ ReadTextError.Memory) }
{
    read_lines(alloc, text)
}
