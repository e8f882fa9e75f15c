//! The step rules: names, steps, ranks and sizes of a construction.
#![tactic(auto)]

mod checked;
mod checks;
mod fault;
mod forms;
mod laws;
mod measure;
mod names;
mod progress;
mod rules;
mod table;

pub use checked::Checked;
pub use checks::check;
pub use fault::{CheckError, StepFault, StepKind};
pub use laws::{good_construction, one_result};
pub use names::Names;
