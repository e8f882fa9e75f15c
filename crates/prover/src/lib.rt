//! The top call: all that the program does, over any source and sink of bytes.
#![tactic(auto)]

mod cut;
mod difference;
mod ending;
mod ends;
mod laws;
mod lines;
mod mode;
mod modes;
mod nowhere;
mod parts;
mod refusals;
mod running;
mod status;
mod steps;
mod words;

pub use laws::{causes, one_answer, one_cut};
pub use running::run;
pub use status::Status;
