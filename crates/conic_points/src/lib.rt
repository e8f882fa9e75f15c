//! Brackets of points that are values, and the six-point polynomial of six points of the plane.
#![tactic(auto)]

mod brackets;
pub mod laws;
mod six_points;

pub use brackets::bracket;
pub use six_points::conic;
