//! Runs the top call on the cases that stand on standard input, and writes the status and the output of each.
#![tactic(auto)]

mod answer;
mod case;
mod directive;
mod error;
mod escapes;
mod reading;
mod report;
mod tally;
mod view;

use cay_base::{Sink, Source, StdSink, StdSource, read_all};
use error::CasesError;
use reading::read_cases;
use report::report;
use std::alloc::Global;
use std::process::ExitCode;
use std::str;

/// The most bytes that the cases may have.
const LONGEST: u64 = 16_777_216;

fn main(rt: HostRuntime) -> ExitCode {
    let mut source = StdSource::new(rt.stdin());
    let mut sink = StdSink::new(rt.stdout());
    match run_cases(rt.alloc(), &mut source, &mut sink) {
        Ok(()) => ExitCode::SUCCESS,
        Err(error) => {
            let _ = eprintln!(rt; "worked_cases: {error}");
            ExitCode::FAILURE
        }
    }
}

/// Reads all cases, runs each, and writes its report.
fn run_cases<S: Source, K: Sink>(
    alloc: Global,
    source: &mut S,
    sink: &mut K,
) -> Result<(), CasesError> {
    let bytes = read_all(alloc, source, LONGEST)?;
    let Ok(text) = str::from_utf8(&bytes) else {
        return Err(CasesError::NoText);
    };
    for case in &read_cases(alloc, text)? {
        sink.put(report(alloc, case)?.as_bytes())?;
    }
    Ok(())
}
