//! Telling why a proof is refused.

ghost use Rattle.std.specs.Prelude.{◌≡◌, ◌++◌, ◌∷◌, [], length, string_bytes, codes, decimal};
ghost use Rattle.std.specs.Prelude.{IfOk, OnOk, Decides};
ghost use Rattle.std.specs.List.{AllByRecursion};
ghost use Rattle.coordinate_model.specs.Sequences.{IsRank};
ghost use Rattle.log_checker.specs.Bounds.{IsRefusalWithin, IsKindWithin};
ghost use Rattle.proof_text.specs.Keys.{key_words};
ghost use Rattle.proof_text.specs.Lines.{behind_spaces, spaced};
ghost use Rattle.proof_text.specs.Terms.{ArePoints, signed_text};
ghost use Rattle.proof_text.specs.Writes.{Writes};
ghost use Rattle.prover.specs.Refusals.{proof_word, fault_line, coefficient_text, difference_words, kind_words};
ghost use Rattle.prover.specs.Refusals.{object_words, section_words, refusal_line};

use crate::lines::put_line;
use crate::status::Status;
use bracket_poly::Key;
use cay_base::{NoMemory, Sink};
use itoa::Buffer;
use log_checker::{CheckFault, CheckKind, ProofRefusal};
use proof_text::{ProofFault, ProofKind, WriteError, add_key};
use std::alloc::Global;
use step_types::Names;

/// Puts the line of bytes that are the text of no proof, because of this fault.
pub fn put_proof_fault<K: Sink>(
    alloc: Global,
    fault: ProofFault,
    sink: &mut K,
) -> Result<Status, WriteError>
    ensures status { IfOk result (λ status. status ≡ Status.ProofRefused) }
    ensures written { Writes (K.held sink.old) (K.held sink.new) (K.faults sink.old) (K.faults sink.new)
        result (fault_line fault ∷ []) }
{
    let text = fault_text(alloc, fault)?;
    put_line(alloc, text.as_bytes(), sink)?;
    Ok(Status::ProofRefused)
}

fn fault_text(alloc: Global, fault: ProofFault) -> Result<String, NoMemory>
    ensures { IfOk result (λ text. string_bytes text ≡ fault_line fault) }
{
    let line = fault.line;
    let word = proof_word(fault.kind);
    Ok(format!(in alloc; "refused proof line {line} {word}")?)
}

/// The word of a kind of fault.
fn proof_word(kind: ProofKind) -> &'static str
    ensures { result.now ≡ proof_word kind }
{
    match kind {
        ProofKind::Unfinished => "unfinished",
        ProofKind::Shape => "shape",
        ProofKind::Header => "header",
        ProofKind::Object => "object",
        ProofKind::Name => "name",
        ProofKind::Number => "number",
        ProofKind::Order => "order",
        ProofKind::Verdict => "verdict",
        ProofKind::Ended => "ended",
    }
}

/// Whether it only tells that memory was wanting.
pub fn is_memory<const D: usize>(refusal: &ProofRefusal<D>) -> bool
    ensures { Decides result (refusal.now ≡ ProofRefusal.Memory) }
{
    matches!(refusal, ProofRefusal::Memory)
}

/// Puts the line of a proof that is not accepted. Its keys have points of these names alone.
pub fn put_refusal<const D: usize, K: Sink>(
    alloc: Global,
    names: &Names,
    refusal: &ProofRefusal<D>,
    sink: &mut K,
) -> Result<Status, WriteError>
    requires rank { IsRank D }
    requires within { IsRefusalWithin (length names.now.free) (length names.now.params) refusal.now }
    ensures status { IfOk result (λ status. status ≡ Status.ProofRefused) }
    ensures written { Writes (K.held sink.old) (K.held sink.new) (K.faults sink.old) (K.faults sink.new)
        result (refusal_line names.now refusal.now ∷ []) }
{
    let line = refusal_text(alloc, names, refusal)?;
    put_line(alloc, &line, sink)?;
    Ok(Status::ProofRefused)
}

fn refusal_text<const D: usize>(
    alloc: Global,
    names: &Names,
    refusal: &ProofRefusal<D>,
) -> Result<Vec<u8>, NoMemory>
    requires rank { IsRank D }
    requires within { IsRefusalWithin (length names.now.free) (length names.now.params) refusal.now }
    ensures { IfOk result (λ line. line.items ≡ refusal_line names.now refusal.now) }
{
    match refusal {
        ProofRefusal::Scalars(number) => object_text(alloc, *number, b"scalars"),
        ProofRefusal::ObjectCoefficient(number) => object_text(alloc, *number, b"coefficient"),
        ProofRefusal::ObjectKeys(number) => object_text(alloc, *number, b"keys"),
        ProofRefusal::Start {
            section,
            key,
            computed,
            written,
        } => difference_text(alloc, names, *section, b"start", key, *computed, *written),
        ProofRefusal::Section(section, fault) => section_text(alloc, names, *section, fault),
        ProofRefusal::Memory => Err(NoMemory),
    }
}

fn object_text(alloc: Global, number: u32, cause: &[u8]) -> Result<Vec<u8>, NoMemory>
    ensures { IfOk result (λ line. line.items ≡ spaced (codes "refused" ∷ object_words number cause.now)) }
{
    let mut line = Vec::from_slice(alloc, b"refused object")?;
    add_number(&mut line, number)?;
    add_word(&mut line, cause)?;
    Ok(line)
}

fn section_text<const D: usize>(
    alloc: Global,
    names: &Names,
    section: u32,
    fault: &CheckFault<D>,
) -> Result<Vec<u8>, NoMemory>
    requires rank { IsRank D }
    requires within { IsKindWithin (length names.now.free) (length names.now.params) fault.now.kind }
    ensures { IfOk result (λ line. line.items ≡ spaced (codes "refused"
        ∷ section_words section (kind_words names.now fault.now.use_number fault.now.kind))) }
{
    match &fault.kind {
        CheckKind::Coefficient => use_text(alloc, section, fault.use_number, b"coefficient"),
        CheckKind::Keys => use_text(alloc, section, fault.use_number, b"keys"),
        CheckKind::Differs(key, computed, written) => {
            difference_text(alloc, names, section, b"end", key, *computed, *written)
        }
        CheckKind::NotStandard(key) => standard_text(alloc, names, section, key),
    }
}

fn use_text(alloc: Global, section: u32, use_number: u32, cause: &[u8]) -> Result<Vec<u8>, NoMemory>
    ensures { IfOk result (λ line. line.items ≡ spaced (codes "refused"
        ∷ section_words section (codes "use" ∷ decimal use_number ∷ cause.now ∷ []))) }
{
    let mut line = section_head(alloc, section)?;
    add_word(&mut line, b"use")?;
    add_number(&mut line, use_number)?;
    add_word(&mut line, cause)?;
    Ok(line)
}

/// A start or an end that differs: the least key, and what is computed and what is written at it.
fn difference_text<const D: usize>(
    alloc: Global,
    names: &Names,
    section: u32,
    part: &[u8],
    key: &Key<D>,
    computed: i128,
    written: i128,
) -> Result<Vec<u8>, NoMemory>
    requires rank { IsRank D }
    requires named { AllByRecursion (ArePoints names.now) key.now.rows }
    ensures { IfOk result (λ line. line.items ≡ spaced (codes "refused"
        ∷ section_words section (part.now ∷ difference_words names.now key.now computed written))) }
{
    let mut line = section_head(alloc, section)?;
    add_word(&mut line, part)?;
    add_coefficient(&mut line, computed)?;
    add_coefficient(&mut line, written)?;
    add_key(&mut line, names, key)?;
    Ok(line)
}

/// An end that is not normal: the least key that is not standard.
fn standard_text<const D: usize>(
    alloc: Global,
    names: &Names,
    section: u32,
    key: &Key<D>,
) -> Result<Vec<u8>, NoMemory>
    requires rank { IsRank D }
    requires named { AllByRecursion (ArePoints names.now) key.now.rows }
    ensures { IfOk result (λ line. line.items ≡ spaced (codes "refused"
        ∷ section_words section (codes "standard" ∷ key_words names.now key.now))) }
{
    let mut line = section_head(alloc, section)?;
    add_word(&mut line, b"standard")?;
    add_key(&mut line, names, key)?;
    Ok(line)
}

fn section_head(alloc: Global, section: u32) -> Result<Vec<u8>, NoMemory>
    ensures { IfOk result (λ line. line.items ≡ spaced (codes "refused" ∷ section_words section [])) }
{
    let mut line = Vec::from_slice(alloc, b"refused section")?;
    add_number(&mut line, section)?;
    Ok(line)
}

/// Puts a word behind the line, behind a space.
fn add_word(line: &mut Vec<u8>, word: &[u8]) -> Result<(), NoMemory>
    ensures { OnOk result (line.new.items ≡ line.old.items ++ behind_spaces (word.now ∷ [])) }
{
    line.push(b' ')?;
    Ok(line.extend_from_slice(word)?)
}

/// Puts a number behind the line, behind a space.
fn add_number(line: &mut Vec<u8>, number: u32) -> Result<(), NoMemory>
    ensures { OnOk result (line.new.items ≡ line.old.items ++ behind_spaces (decimal number ∷ [])) }
{
    let mut digits = Buffer::new();
    add_word(line, digits.format(number).as_bytes())
}

/// Puts an integer behind its sign, or zero, behind the line and a space.
fn add_coefficient(line: &mut Vec<u8>, coefficient: i128) -> Result<(), NoMemory>
    ensures { OnOk result (line.new.items ≡ line.old.items ++ behind_spaces (coefficient_text coefficient ∷ [])) }
{
    if coefficient == 0 {
        return add_word(line, b"0");
    }
    add_signed(line, coefficient)
}

/// Puts an integer behind its sign behind the line and a space.
fn add_signed(line: &mut Vec<u8>, number: i128) -> Result<(), NoMemory>
    ensures { OnOk result (line.new.items ≡ line.old.items ++ behind_spaces (signed_text number ∷ [])) }
{
    line.push(b' ')?;
    add_integer(line, number)
}

/// Puts an integer behind its sign behind the line.
fn add_integer(line: &mut Vec<u8>, number: i128) -> Result<(), NoMemory>
    ensures { OnOk result (line.new.items ≡ line.old.items ++ signed_text number) }
{
    if number >= 0 {
        line.push(b'+')?;
    }
    let mut digits = Buffer::new();
    Ok(line.extend_from_slice(digits.format(number).as_bytes())?)
}
