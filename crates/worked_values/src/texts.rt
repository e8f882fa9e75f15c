//! Constructions: their canonical texts, and the straight lists that they make. A line of a text ends in `/`.
use crate::failure::Failure;
use cayley_terms::{Program, lower};
use construction_reader::{Construction, LONGEST, print, read};
use std::alloc::{AllocError, Global};
use step_types::{Checked, check};

/// The text in which `/` stands for LF, `^` for CR and `_` for a tab.
fn text(alloc: Global, words: &str) -> Result<Vec<u8>, AllocError> {
    let mut text = Vec::new(alloc);
    for byte in words.bytes() {
        text.push(match byte {
            b'/' => b'\n',
            b'^' => b'\r',
            b'_' => b'\t',
            byte => byte,
        })?;
    }
    Ok(text)
}

fn construction(alloc: Global, words: &str) -> Result<Construction, Failure> {
    let text = text(alloc, words)?;
    if text.len() > LONGEST {
        return Err(Failure::Line);
    }
    match read(alloc, &text) {
        Ok(construction) => Ok(construction),
        Err(_) => Err(Failure::Line),
    }
}

/// The canonical text of what this text says.
pub fn show_print(alloc: Global, out: &mut String, words: &str) -> Result<(), Failure> {
    let construction = construction(alloc, words)?;
    let printed = print(alloc, &construction)?;
    out.push(' ')?;
    for byte in &printed {
        out.push(if *byte == b'\n' { '/' } else { *byte as char })?;
    }
    Ok(())
}

fn checked(alloc: Global, words: &str) -> Result<Checked, Failure> {
    let construction = construction(alloc, words)?;
    match check(alloc, construction) {
        Ok(checked) => Ok(checked),
        Err(_) => Err(Failure::Line),
    }
}

/// Each instruction with its step, the line of its statement, and the number of the definition that it ends.
fn put_program(out: &mut String, program: &Program) -> Result<(), AllocError> {
    write!(out, " rank {}", program.rank)?;
    for (number, instr) in program.instrs.items().iter().enumerate() {
        let step = program.steps.items().get(number).copied().unwrap_or(0);
        let line = program.lines.items().get(number).copied().unwrap_or(0);
        write!(out, "; {instr:?} step {step} line {line}")?;
        if let Some(ended) = program.defined.items().get(number).copied().flatten() {
            write!(out, " ends {ended}")?;
        }
    }
    Ok(())
}

/// The straight list of a text.
pub fn show_lower(alloc: Global, out: &mut String, words: &str) -> Result<(), Failure> {
    let checked = checked(alloc, words)?;
    let program = lower(alloc, &checked)?;
    Ok(put_program(out, &program)?)
}
