//! Constructions as straight lists of joins and meets.
#![tactic(auto)]

mod instr;
mod items;
pub mod laws;
mod lowering;
mod numbers;
mod pair;
mod place;
mod program;
mod steps;
mod straight;

pub use instr::Instr;
pub use items::Items;
pub use program::Program;
pub use straight::lower;
