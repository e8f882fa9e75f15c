//! Parts of the input that are construction texts.

ghost use Rattle.std.specs.Prelude.{◌≡◌, ◌≤◌, ◌∷◌, [], length, codes, string_bytes, IfOk};
ghost use Rattle.proof_text.specs.Writes.{Writes};
ghost use Rattle.prover.specs.Answer.{refused};
ghost use Rattle.prover.specs.Parts.{kind_word, step_word, line_of, word_of, refused_at, IsPartOf};

use crate::lines::put_line;
use crate::status::Status;
use cay_base::{NoMemory, Sink};
use construction_reader::{Kind, ReadTextError, TextFault, read};
use proof_text::WriteError;
use std::alloc::Global;
use step_types::{CheckError, Checked, StepFault, StepKind, check};

/// Why a text has no construction that keeps the step rules.
#[derive(Clone, Copy, Debug)]
pub enum Fault {
    /// It leaves the grammar here.
    Text(TextFault),
    /// It breaks a step rule here.
    Step(StepFault),
}

impl Fault {
    /// The line of the fault, from 1.
    fn line(self) -> u32
        ensures { result ≡ line_of self }
    {
        match self {
            Fault::Text(fault) => fault.line,
            Fault::Step(fault) => fault.line,
        }
    }

    /// The word of the fault's kind.
    fn word(self) -> &'static str
        ensures { result.now ≡ word_of self }
    {
        match self {
            Fault::Text(fault) => kind_word(fault.kind),
            Fault::Step(fault) => step_word(fault.kind),
        }
    }
}

/// What a text gives.
#[derive(Drop)]
pub enum Part {
    /// A construction that keeps the step rules.
    Good(Checked),
    /// Nothing, because of its first fault.
    Faulty(Fault),
}

/// Reads a text: all faults of the grammar come before the broken step rules.
pub fn read_part(alloc: Global, text: &[u8]) -> Result<Part, NoMemory>
    requires { length text.now ≤ 1048576 }
    ensures { IfOk result (IsPartOf text.now) }
{
    let construction = match read(alloc, text) {
        Ok(construction) => construction,
        Err(ReadTextError::Fault(fault)) => return Ok(Part::Faulty(Fault::Text(fault))),
        Err(ReadTextError::Memory) => return Err(NoMemory),
    };
    match check(alloc, construction) {
        Ok(checked) => Ok(Part::Good(checked)),
        Err(CheckError::Fault(fault)) => Ok(Part::Faulty(Fault::Step(fault))),
        Err(CheckError::Memory) => Err(NoMemory),
    }
}

/// Puts the line of an input or a text that is too long.
pub fn put_long<K: Sink>(alloc: Global, sink: &mut K) -> Result<Status, WriteError>
    ensures status { IfOk result (λ status. status ≡ Status.TextRefused) }
    ensures written { Writes (K.held sink.old) (K.held sink.new) (K.faults sink.old) (K.faults sink.new)
        result (refused (codes "long")).lines }
{
    put_line(alloc, b"refused long", sink)?;
    Ok(Status::TextRefused)
}

/// Puts the line of a text that is refused for this fault, which is told behind the prefix.
pub fn put_fault<K: Sink>(
    alloc: Global,
    prefix: &str,
    fault: Fault,
    sink: &mut K,
) -> Result<(), WriteError>
    ensures { Writes (K.held sink.old) (K.held sink.new) (K.faults sink.old) (K.faults sink.new)
        result (refused_at prefix.now fault).lines }
{
    let text = fault_text(alloc, prefix, fault)?;
    put_line(alloc, text.as_bytes(), sink)
}

fn fault_text(alloc: Global, prefix: &str, fault: Fault) -> Result<String, NoMemory>
    ensures { IfOk result (λ text. (refused_at prefix.now fault).lines ≡ string_bytes text ∷ []) }
{
    let line = fault.line();
    let word = fault.word();
    Ok(format!(in alloc; "refused {prefix}line {line} {word}")?)
}

/// The word of a kind of fault.
fn kind_word(kind: Kind) -> &'static str
    ensures { result.now ≡ kind_word kind }
{
    match kind {
        Kind::Byte => "byte",
        Kind::LongName => "longname",
        Kind::NoHeader => "noheader",
        Kind::AfterConclusion => "afterconclusion",
        Kind::Keyword => "keyword",
        Kind::Deep => "deep",
        Kind::Shape => "shape",
        Kind::TooMany => "toomany",
        Kind::NoConclusion => "noconclusion",
    }
}

/// The word of a broken step rule.
fn step_word(kind: StepKind) -> &'static str
    ensures { result.now ≡ step_word kind }
{
    match kind {
        StepKind::Rank => "rank",
        StepKind::Twice => "twice",
        StepKind::Unknown => "unknown",
        StepKind::Step => "step",
        StepKind::Rows => "rows",
        StepKind::Degree => "degree",
    }
}
