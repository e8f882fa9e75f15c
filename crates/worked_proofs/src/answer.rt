//! What is answered to a changed text.
ghost use Rattle.coordinate_model.specs.Sequences.{IsRank};

use crate::change::Change;
use crate::error::Failure;
use crate::names::{are_steps, given_names};
use crate::table::Table;
use proof_text::{ProofError, ProofKind, read_proof};
use std::alloc::Global;
use std::fmt;

/// The most bytes that a text may have.
const LONGEST: usize = 16_777_216;

/// What is told of a text.
#[derive(Clone, Copy)]
pub enum Outcome {
    /// It is read.
    Read,
    /// This line has this fault.
    Fault(u32, ProofKind),
}

impl fmt::Display for Outcome {
    fn fmt<W: fmt::Write>(&self, f: &mut fmt::Formatter<W>) -> fmt::Result {
        match *self {
            Outcome::Read => f.write_str("read"),
            Outcome::Fault(line, kind) => write!(f, "line {line} {}", kind_word(kind)),
        }
    }
}

/// The word for the kind of fault.
fn kind_word(kind: ProofKind) -> &'static str {
    match kind {
        ProofKind::Unfinished => "unfinished",
        ProofKind::Shape => "shape",
        ProofKind::Header => "header",
        ProofKind::Object => "object",
        ProofKind::Name => "name",
        ProofKind::Number => "number",
        ProofKind::Order => "order",
        ProofKind::Verdict => "verdict",
        ProofKind::Ended => "ended",
    }
}

/// What is answered to the text of the table with this change.
pub fn answer_to(alloc: Global, table: &Table, change: &Change<'_>) -> Result<Outcome, Failure> {
    let mut bytes = Vec::new(alloc);
    change.put(&mut bytes, &table.lines)?;
    match table.rank {
        2 => answer_in::<2>(alloc, &bytes, &table.steps),
        3 => answer_in::<3>(alloc, &bytes, &table.steps),
        4 => answer_in::<4>(alloc, &bytes, &table.steps),
        _ => Err(Failure::Line),
    }
}

/// What is answered to the text in rank `D`.
fn answer_in<const D: usize>(alloc: Global, bytes: &[u8], steps: &[u8]) -> Result<Outcome, Failure>
    requires { IsRank D }
{
    if bytes.len() > LONGEST || !are_steps::<D>(steps) {
        return Err(Failure::Steps);
    }
    let names = given_names::<D>(alloc)?;
    match read_proof::<D>(alloc, bytes, &names, steps) {
        Ok(_) => Ok(Outcome::Read),
        Err(ProofError::Fault(fault)) => Ok(Outcome::Fault(fault.line, fault.kind)),
        Err(ProofError::Memory) => Err(Failure::Memory),
    }
}
