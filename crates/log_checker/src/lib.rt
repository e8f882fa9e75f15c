//! Checking the log of a run by itself: starts, uses and ends, with no turn, no budget and no order of rewriting.
#![tactic(auto)]

mod difference;
mod fault;
pub mod laws;
mod object;
mod progress;
mod proof;
mod refusal;
mod section;
mod standard;
mod starts;
mod uses;
mod values;

pub use fault::{CheckFault, CheckKind, SectionError};
pub use proof::check_proof;
pub use refusal::ProofRefusal;
pub use section::check_section;
