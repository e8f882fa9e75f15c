//! Joins, meets and combinations of values of the Grassmann-Cayley algebra.
#![tactic(auto)]

mod adding;
mod joining;
mod meeting;
mod mixing;
mod points;
mod starts;

pub use joining::join;
pub use meeting::meet;
pub use mixing::on;
