//! Every way to choose some of at most five places, with its sign.
#![tactic(auto)]

mod choices;
pub mod laws;
mod signed_split;
mod table;

pub use choices::{Splits, split, split_count};
pub use signed_split::SignedSplit;
