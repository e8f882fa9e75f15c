//! Tableaux, which are products of brackets: their order, their products, and where one is not standard.
#![tactic(auto)]

pub mod laws;
mod order;
mod place;
mod standard;
mod tableau;

pub use order::compare;
pub use place::Place;
pub use standard::{is_standard, violation};
pub use tableau::{Tableau, merge};
