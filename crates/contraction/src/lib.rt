//! Contraction of bracket polynomials: two terms that a three-term syzygy turns into one.
#![tactic(auto)]

mod contracted;
pub mod laws;
mod multiplier;
mod pair;
mod passes;
mod points;
mod rows;
mod search;

pub use contracted::{ContractError, Contracted};
pub use passes::contract;
