//! The run of a program: every object from the values of earlier ones, and every polynomial made normal.
#![tactic(auto)]

mod answer;
mod course;
mod into;
pub mod laws;
mod making;
mod progress;
mod rewriting;
mod run;
mod sections;
mod values;
mod writing;

pub use answer::{IntoError, Options, RunError, StopKind, Summary};
pub use into::run_into;
pub use run::run_sections;
