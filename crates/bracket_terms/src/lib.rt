//! Brackets with their signs, extensors and their joins, products of parameters, and uses of syzygies.
#![tactic(auto)]

mod bracket;
mod extensor;
mod items;
mod join;
pub mod laws;
mod log_use;
mod params;
mod sequence;
mod signed;

pub use bracket::Bracket;
pub use extensor::Extensor;
pub use items::Items;
pub use join::join_points;
pub use log_use::LogUse;
pub use params::Params;
pub use signed::{Signed, sort};
