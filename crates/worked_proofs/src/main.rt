//! Reads proof texts, whole and with a line that is another, and writes for each what `read_proof` answers.
#![tactic(auto)]

mod answer;
mod change;
mod error;
mod names;
mod table;

use answer::answer_to;
use cay_base::{Sink, Source, StdSink, StdSource, read_all};
use error::Failure;
use std::alloc::Global;
use std::process::ExitCode;
use std::str;
use table::{Row, Table};

/// The most bytes that the table may have.
const LONGEST: u64 = 1_048_576;

fn main(rt: HostRuntime) -> ExitCode {
    let mut source = StdSource::new(rt.stdin());
    let mut sink = StdSink::new(rt.stdout());
    match answer_all(rt.alloc(), &mut source, &mut sink) {
        Ok(()) => ExitCode::SUCCESS,
        Err(error) => {
            let _ = eprintln!(rt; "worked_proofs: {error}");
            ExitCode::FAILURE
        }
    }
}

/// Reads the table, and writes a line for each of its changes.
fn answer_all<S: Source, K: Sink>(
    alloc: Global,
    source: &mut S,
    sink: &mut K,
) -> Result<(), Failure> {
    let bytes = read_all(alloc, source, LONGEST)?;
    let Ok(text) = str::from_utf8(&bytes) else {
        return Err(Failure::NoText);
    };
    let mut table = Table::new(alloc);
    for line in text.lines() {
        answer_line(alloc, &mut table, line, sink)?;
    }
    Ok(())
}

/// Takes a line of the table, and where it is a change writes it and what is answered.
fn answer_line<K: Sink>(
    alloc: Global,
    table: &mut Table,
    line: &str,
    sink: &mut K,
) -> Result<(), Failure> {
    match Row::parse(line)? {
        Row::Nothing => Ok(()),
        Row::Text(rank, steps) => table.begin(rank, steps),
        Row::Line(text) => table.add(alloc, text),
        Row::Change(change) => {
            let answer = answer_to(alloc, table, &change)?;
            let shown = format!(in alloc; "{line}: {answer}\n")?;
            Ok(sink.put(shown.as_bytes())?)
        }
    }
}
