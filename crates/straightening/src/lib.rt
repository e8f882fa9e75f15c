//! Straightening of bracket polynomials: turns until every tableau is standard.
#![tactic(auto)]

pub mod laws;
mod multiple;
mod queue;
mod queue_key;
mod run;
mod straight;
mod turn;

pub use queue::Queue;
pub use run::{straighten, straighten_from, straighten_in};
pub use straight::{Partial, StopError, Straight};
