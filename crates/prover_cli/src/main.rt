//! Decides theorems of incidence that are given by constructions: reads a text on standard input, and writes a proof of
//! the verdict on standard output.
#![tactic(auto)]

mod ending;
mod words;

use cay_base::{StdSink, StdSource};
use prover::run;
use std::process::ExitCode;

fn main(rt: HostRuntime) -> ExitCode {
    let mut source = StdSource::new(rt.stdin());
    let mut sink = StdSink::new(rt.stdout());
    match words::words_behind_name(&rt, rt.alloc()) {
        Ok(words) => ending::of_status(run(rt.alloc(), &words, &mut source, &mut sink)),
        Err(error) => ending::without_words(error.kind()),
    }
}
