//! Where an object is zero everywhere, by its join with free points that stand nowhere in it.
#![tactic(auto)]

pub mod laws;
mod report;
mod row;
mod start;

pub use report::degenerate;
