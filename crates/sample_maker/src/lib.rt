//! Sample constructions, each from its number.
#![tactic(auto)]

mod choice;
mod generator;
mod sentences;

pub use generator::sample;
