//! Reading the cases.

use crate::case::Case;
use crate::directive::Directive;
use crate::error::CasesError;
use std::alloc::{AllocError, Global};

/// The cases of a text, in their order.
pub fn read_cases(alloc: Global, text: &str) -> Result<Vec<Case>, CasesError> {
    let mut cases = Vec::new(alloc);
    for (before, line) in text.lines().enumerate() {
        if !add_to(alloc, &mut cases, line)? {
            return Err(CasesError::Line(before.saturating_add(1)));
        }
    }
    Ok(cases)
}

/// Adds what a line says to the cases, and answers whether it can stand behind them.
fn add_to(alloc: Global, cases: &mut Vec<Case>, line: &str) -> Result<bool, AllocError> {
    let Some(directive) = Directive::parse(line) else {
        return Ok(false);
    };
    match (directive, cases.last_mut()) {
        (Directive::Nothing, _) => Ok(true),
        (Directive::Case(name), _) => {
            cases.push(Case::new(alloc, name)?)?;
            Ok(true)
        }
        (Directive::Again(name), Some(case)) => {
            let again = case.again(alloc, name)?;
            cases.push(again)?;
            Ok(true)
        }
        (Directive::Part(part), Some(case)) => case.add(alloc, part),
        (_, None) => Ok(false),
    }
}
