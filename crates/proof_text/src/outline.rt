//! The lines of a proof around its sections.
ghost use Rattle.std.specs.Prelude.{◌≡◌, ◌++◌, ◌∷◌, [], codes, decimal, OnOk};
ghost use Rattle.proof_text.specs.Lines.{behind_spaces, spaced};
ghost use Rattle.proof_text.specs.Forms.{verdict_word, stop_line};
ghost use Rattle.proof_text.specs.Proofs.{head_lines, object_line};
ghost use Rattle.proof_text.specs.Writes.{Writes};

use crate::error::WriteError;
use crate::line::{put_line, put_word, start_line};
use crate::stop::Stop;
use cay_base::{NoMemory, Sink};
use construction_reader::Name;
use itoa::Buffer;
use std::alloc::Global;
use step_types::Names;

/// Writes the head of a proof, one line at a time: the rank, the free points and the parameters.
pub fn write_head<K: Sink>(alloc: Global, names: &Names, sink: &mut K) -> Result<(), WriteError>
    ensures { Writes (K.held sink.old) (K.held sink.new) (K.faults sink.old) (K.faults sink.new) result (head_lines names.now) }
{
    let mut line = Vec::new(alloc);
    put_word(&mut line, b"proof 1", sink)?;
    put_rank(&mut line, names.rank, sink)?;
    put_free(&mut line, names, sink)?;
    put_params(&mut line, names, sink)
}

/// Writes the line with which an object begins: its number and its step.
pub fn write_object<K: Sink>(
    alloc: Global,
    number: u32,
    step: u8,
    sink: &mut K,
) -> Result<(), WriteError>
    ensures { Writes (K.held sink.old) (K.held sink.new) (K.faults sink.old) (K.faults sink.new) result (object_line number step ∷ []) }
{
    let mut line = Vec::new(alloc);
    add_object(&mut line, number, step)?;
    put_line(&mut line, sink)
}

/// Writes the last line of a proof: whether its last end is zero.
pub fn write_verdict<K: Sink>(alloc: Global, proved: bool, sink: &mut K) -> Result<(), WriteError>
    ensures { Writes (K.held sink.old) (K.held sink.new) (K.faults sink.old) (K.faults sink.new) result (verdict_word proved ∷ []) }
{
    let mut line = Vec::new(alloc);
    if proved {
        put_word(&mut line, b"proved", sink)
    } else {
        put_word(&mut line, b"refuted", sink)
    }
}

/// Writes the last line of a run that stopped.
pub fn write_stop<K: Sink>(alloc: Global, stop: Stop, sink: &mut K) -> Result<(), WriteError>
    ensures { Writes (K.held sink.old) (K.held sink.new) (K.faults sink.old) (K.faults sink.new) result (stop_line stop ∷ []) }
{
    let mut line = Vec::new(alloc);
    match stop {
        Stop::Turns => put_word(&mut line, b"stopped turns", sink),
        Stop::Coefficient => put_word(&mut line, b"stopped coefficient", sink),
        Stop::Keys => put_word(&mut line, b"stopped keys", sink),
    }
}

fn put_rank<K: Sink>(line: &mut Vec<u8>, rank: u8, sink: &mut K) -> Result<(), WriteError>
    ensures { Writes (K.held sink.old) (K.held sink.new) (K.faults sink.old) (K.faults sink.new) result (spaced (codes "rank" ∷ decimal rank ∷ []) ∷ []) }
{
    add_rank(line, rank)?;
    put_line(line, sink)
}

fn add_rank(line: &mut Vec<u8>, rank: u8) -> Result<(), NoMemory>
    ensures { OnOk result (line.new.items ≡ spaced (codes "rank" ∷ decimal rank ∷ [])) }
{
    start_line(line, b"rank ")?;
    add_number(line, u32::from(rank))
}

fn put_free<K: Sink>(line: &mut Vec<u8>, names: &Names, sink: &mut K) -> Result<(), WriteError>
    ensures { Writes (K.held sink.old) (K.held sink.new) (K.faults sink.old) (K.faults sink.new) result (spaced (codes "free" ∷ names.now.free) ∷ []) }
{
    put_names(line, b"free", names.free.items(), sink)
}

fn put_params<K: Sink>(line: &mut Vec<u8>, names: &Names, sink: &mut K) -> Result<(), WriteError>
    ensures { Writes (K.held sink.old) (K.held sink.new) (K.faults sink.old) (K.faults sink.new) result (spaced (codes "params" ∷ names.now.params) ∷ []) }
{
    put_names(line, b"params", names.params.items(), sink)
}

/// A line of a word and names.
fn put_names<K: Sink>(
    line: &mut Vec<u8>,
    word: &[u8],
    names: &[Name],
    sink: &mut K,
) -> Result<(), WriteError>
    ensures { Writes (K.held sink.old) (K.held sink.new) (K.faults sink.old) (K.faults sink.new) result (spaced (word.now ∷ names.now) ∷ []) }
{
    start_line(line, word)?;
    add_names(line, names)?;
    put_line(line, sink)
}

/// Puts the names behind the line, each behind a space.
fn add_names(line: &mut Vec<u8>, names: &[Name]) -> Result<(), NoMemory>
    ensures { OnOk result (line.new.items ≡ line.old.items ++ behind_spaces names.now) }
{
    for name in names {
        line.push(b' ')?;
        line.extend_from_slice(name.bytes())?;
    }
    Ok(())
}

/// The words of an object's line.
fn add_object(line: &mut Vec<u8>, number: u32, step: u8) -> Result<(), NoMemory>
    ensures { OnOk result (line.new.items ≡ object_line number step) }
{
    start_line(line, b"object ")?;
    add_number(line, number)?;
    line.extend_from_slice(b" step ")?;
    add_number(line, u32::from(step))
}

/// A number in decimal digits.
fn add_number(line: &mut Vec<u8>, number: u32) -> Result<(), NoMemory>
    ensures { OnOk result (line.new.items ≡ line.old.items ++ decimal number) }
{
    let mut digits = Buffer::new();
    Ok(line.extend_from_slice(digits.format(number).as_bytes())?)
}
