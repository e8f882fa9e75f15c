//! Values of programs at placements by whole numbers.
#![tactic(auto)]

mod combined;
mod fault;
mod make;
mod objects;
mod program_values;
mod terms;
mod total;

pub use fault::PlaceFault;
pub use program_values::{Placed, place};
