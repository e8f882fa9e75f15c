//! What is written of a case.

use crate::answer::answer_to;
use crate::case::Case;
use crate::error::CasesError;
use crate::tally::{Change, tally_of};
use crate::view::append_lines;
use cay_base::NoMemory;
use std::alloc::Global;
use std::str;

/// What is written of the case: its answer, or what the answers come to of which something is changed in turn.
pub fn report(alloc: Global, case: &Case) -> Result<String, CasesError> {
    match case.change {
        Some(change) => Ok(report_changes(alloc, case, change)?),
        None => report_answer(alloc, case),
    }
}

/// The case's name, and how many answers have each status, and are neither the whole answer nor a front of it.
fn report_changes(alloc: Global, case: &Case, change: Change) -> Result<String, NoMemory> {
    let tally = tally_of(alloc, case, change)?;
    let name = case.name.as_str();
    let mut text = format!(in alloc; "case {name}\n")?;
    for (number, count) in tally.statuses.iter().enumerate() {
        if *count > 0 {
            writeln!(&mut text, "{count} of status {number}")?;
        }
    }
    let other = tally.other;
    writeln!(&mut text, "{other} with another output\n")?;
    Ok(text)
}

/// The case's name, the number of the status, and what is shown of the output.
fn report_answer(alloc: Global, case: &Case) -> Result<String, CasesError> {
    let answer = answer_to(alloc, case)?;
    let Ok(output) = str::from_utf8(&answer.output) else {
        return Err(CasesError::NoTextAnswered);
    };
    let lines: Vec<&str> = output.split_inclusive('\n').collect(alloc)?;
    let number = answer.status.number();
    let name = case.name.as_str();
    let mut text = format!(in alloc; "case {name}\nstatus {number}\n")?;
    if case.views.is_empty() {
        append_lines(&mut text, &lines)?;
    }
    for view in &case.views {
        writeln!(&mut text, "show {view}")?;
        view.append(&mut text, &lines)?;
    }
    text.push('\n')?;
    Ok(text)
}
